//! Laws over runs of the situated machine: histories in their parts, what each state of a run
//! keeps, and what commitments do to plans and words. A function here has no body: its contract is
//! the law.
#![tactic(auto)]

mod commitments;
mod histories;

pub use commitments::{commitments_of_runs, deadlines_and_dispatches, plans_of_dispatches};
pub use histories::{histories_in_parts, states_of_runs, takes_of_nodes};
