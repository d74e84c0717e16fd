// The bank of one virtual CPU: requested vectors, vectors in service and the task priority.
#![tactic(auto)]

pub mod direct;
mod examples;
mod state;

pub use direct::DirectCall;
pub use examples::worked_examples;
pub use state::Bank;
