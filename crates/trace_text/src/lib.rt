//! The text of a history, event by event, written and read.
#![tactic(auto)]

mod cuts;
mod events;
mod examples;
mod keyword;
mod read;
mod rows;
mod write;

pub use examples::traces;
pub use read::read_trace;
pub use write::write_trace;
