//! States of the world: which facts are true and what each fluent's value is, which conditions
//! hold, and what the items of one tick make of a state.
#![tactic(auto)]

mod changes;
mod conditions;
mod expressions;
mod rows;
mod state;

pub use changes::{apply, first_overflow};
pub use conditions::{all_hold, can, holds};
pub use rows::BitRow;
pub use state::{State, initial};
