// Interrupt remapping: from a device's message to what it asks for.
#![tactic(auto)]

mod examples;
mod faults;
mod message;
mod resolve;
mod source;

pub use examples::worked_examples;
pub use faults::{Fault, Refusal};
pub use message::Message;
pub use resolve::{Entries, Parties, Resolved};
pub use source::passes;
