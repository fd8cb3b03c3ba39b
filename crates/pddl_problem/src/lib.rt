//! What a PDDL problem says, or its first fault, exactly.
//!
//! What is wrong with a text is a list of faults, a definition in `specs/`, over two passes:
//! `:domain`, `:objects` and the form of the file, then `:init` and `:goal`. [`read_problem`]
//! answers the first fault of the first pass that has one, and else the problem, which is a
//! definition over the same tree of words and lists.
#![tactic(auto)]

mod again;
mod elements;
mod init;
mod known;
mod literals;
mod meaning;
mod objects;
mod outer;
mod passes;
mod reader;
mod task;

pub use elements::texts_are_apart;
pub use reader::read_problem;
pub use task::{Dated, Given, Task};
