// Reads a script of calls, one line at a time.
#![tactic(auto)]

mod buffer;
mod fault;
mod laws;
mod line;
mod number;
mod reply;
mod session;
mod text;

pub use buffer::LineBuffer;
pub use fault::LineFault;
pub use laws::{bound_laws, buffer_laws, reading_laws, session_laws};
pub use line::read_line;
pub use reply::{Made, Reply};
pub use session::Session;
