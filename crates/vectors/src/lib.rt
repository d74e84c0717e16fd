// Interrupt vectors: their classes and groups, and sets of them as four 64-bit words.
#![tactic(auto)]

mod faults;
mod group;
mod set;
mod vector;

pub use faults::Fault;
pub use group::Group;
pub use set::VectorSet;
pub use vector::{UsableVector, class, usable, usable_word};
