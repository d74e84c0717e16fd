// The polled page: the store of a sink in 257 lent bytes, a byte for each vector and one for the marks.
#![tactic(auto)]

mod bytes;
mod contents;
mod faults;
mod marks;
mod opening;
mod page;

pub use contents::Contents;
pub use faults::Fault;
pub use opening::{prepare, with_page};
pub use page::Page;

#[cfg(test)]
mod tests;
