//! Scripts of turns: which actor has each turn, what it does in it, and what the clock reads.
#![tactic(auto)]

mod examples;
mod read;
mod script;
mod words;

pub use examples::{following, scripts};
pub use read::read_script;
pub use script::{ScriptFault, ScriptLine, Verb};
