// Layers: sinks that stand on any sink.
#![tactic(auto)]

mod held;
mod migration;
mod renaming;
mod table;
mod visits;

pub use migration::Migration;
pub use renaming::Renaming;
pub use table::{Table, TableFault};
pub use visits::{Migrated, Renamed, with_migration, with_renaming};
