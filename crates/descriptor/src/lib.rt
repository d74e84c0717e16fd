// The posted-interrupt descriptor: 64 lent bytes as a value and as the store of a live sink.
#![tactic(auto)]

mod bytes;
mod contents;
mod faults;
mod live;
mod opening;

pub use contents::Contents;
pub use faults::Fault;
pub use live::Descriptor;
pub use opening::{prepare, with_descriptor};

#[cfg(test)]
mod tests;
