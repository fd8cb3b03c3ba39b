//! The items of a problem, its timed items and snap actions, as tables that are made once, and
//! which of them interfere.
#![tactic(auto)]

mod interference;
mod tables;

pub use interference::interfere;
pub use tables::{Items, items_of};
