//! The planner's types, and the definitions that every contract above cites.
#![tactic(auto)]

mod event;
mod examples;
mod expr;
mod fault;
mod list;
mod plan;
mod problem;

pub use event::{Cause, Event};
pub use examples::{
    choices, courses, events, interference, items, legal_events, lists, no_schedules, plans,
    schedules, states, turns, words,
};
pub use expr::Expr;
pub use fault::LineFault;
pub use list::{List, Name, NoMemory};
pub use plan::{Item, Limits, Mark, Plan, Timed};
pub use problem::{Action, Cond, Effect, How, Kind, Op, Problem, TimedItem};
