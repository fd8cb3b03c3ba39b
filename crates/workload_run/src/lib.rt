//! The search of one worker on the problem that a seed draws, under a clock that moves with its
//! turns, and the seven lines that sum it up.
#![tactic(auto)]

mod clock;
mod searching;
mod summary;

pub use clock::TurnClock;
pub use summary::{Summary, summary_of};
