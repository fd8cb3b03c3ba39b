//! The commitments of a run, and the commit rule: which start of a word is due next, and when.
#![tactic(auto)]

mod book;
mod rule;

pub use book::Commits;
pub use rule::{Place, are_held, next_start, urgent};
