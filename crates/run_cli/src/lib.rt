//! The commands of the program: the words, the files, the search and what is printed.
#![tactic(auto)]

mod answer;
mod arguments;
mod command;
mod ending;
mod grounding;
mod help;
mod loading;
mod options;
mod outcome;
mod printing;
mod reader;
mod replaying;
mod simulating;
mod solving;
mod summarizing;
mod tracing;
mod validating;
mod verdicts;
mod words;

pub use command::{run, run_local};
pub use ending::Ending;
pub use help::help_text;
pub use words::{Order, Source, WordFault, fault_line, read_words};
