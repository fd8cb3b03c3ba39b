//! Runs of the search by one thread, which sends each new command after each turn.
#![tactic(auto)]

mod alone;
mod laws;
mod lines;
mod script;
mod sending;

pub use alone::search;
pub use laws::commands_of_history;
pub use script::{Played, run_script};
