//! The tree of words that the search tries: its turns, each with one reading of the clock, and its
//! history.
#![tactic(auto)]

mod brood;
mod job;
mod tree;

pub use job::{Job, Look, Merged, Sprouts, Taken};
pub use tree::Tree;
