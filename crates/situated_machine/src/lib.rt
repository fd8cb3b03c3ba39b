//! The replay of a history: it judges the rules of the situated machine that can be judged event by
//! event. Beside the call stand laws: how answers and runs hang together, and what a replay relies
//! on. A function of these has no body: its contract is the law.
#![tactic(auto)]

mod examples;
mod judge;
mod keeping;
mod laws;
mod marks;
mod quiet;
mod replayed;
mod steps;

pub use examples::{events_out_of_place, replayed_runs, wrong_deeds, wrong_takes};
pub use judge::replay;
pub use laws::{
    answers_to_runs, one_answer, rules_and_runs, states_of_kept_histories, what_rules_ask_is_one,
};
pub use replayed::{Replayed, Rule};
