// Sinks: what devices post interrupts into. One interface, by its meaning, and the bottom that lets every post through.
#![tactic(auto)]

mod direct;
mod face;
mod laws;
mod visit;

pub use direct::Direct;
pub use face::{Aim, Marks, Placed, Ring, Route, Sink};
pub use laws::parked_laws;
pub use visit::Visit;
