//! The simple temporal network of a word: its bounds and rows, and the laws that lead from the
//! schedules of a word to the solutions of its network and back.
#![tactic(auto)]

mod bound;
mod laws;

pub use bound::Bound;
pub use laws::{rows_of_schedules, schedules_of_solutions};
