//! The commands of a run: a line for each act that it commits.
#![tactic(auto)]

mod commands;

pub use commands::{command_text, send};
