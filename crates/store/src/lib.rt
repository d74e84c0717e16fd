// Sinks whose parked vectors and marks lie in bytes, whatever the layout: one sink over every store.
#![tactic(auto)]

mod store;
mod stored;

pub use store::Store;
pub use stored::{Stored, visit_store};
