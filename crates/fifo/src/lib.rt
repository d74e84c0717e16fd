// A queue over slots that the caller lends, first in, first out.
#![tactic(auto)]

mod calls;
mod full;
mod questions;
mod queue;
#[cfg(test)]
mod tests;

pub use full::Full;
pub use queue::Fifo;
