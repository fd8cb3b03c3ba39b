//! The canonical text of a ground problem, written and read.
#![tactic(auto)]

mod bytes;
mod completion;
mod filling;
mod laws;
mod lines;
mod reader;
mod reading;
mod search;
mod sections;
mod unwritten;
mod writing;

pub use laws::example;
pub use reader::read_problem_text;
pub use writing::write_problem;
