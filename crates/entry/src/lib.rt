// The remapping entry (IRTE): its 128 bits read as a typed entry, and written.
#![tactic(auto)]

mod assembly;
mod bits;
mod bytes;
mod faults;
mod format;
mod raw;

pub use bytes::SIZE;
pub use faults::Fault;
pub use format::{Entry, Target};
pub use raw::RawEntry;
