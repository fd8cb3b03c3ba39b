//! Verdicts on plans: whether a plan is valid, or else the first of its parts that is broken.
#![tactic(auto)]

mod acts;
mod course;
mod examples;
mod judge;
mod laws;
mod running;
mod standings;
mod tick;
mod verdict;

pub use examples::{accepted_plans, refused_acts, refused_ticks};
pub use judge::validate;
pub use laws::only_valid_of_valid;
pub use verdict::Verdict;
