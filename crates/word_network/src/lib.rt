//! Schedules of words: the greatest one, and the plan of the least, by the simple temporal network
//! of a word.
#![tactic(auto)]

mod bounds;
mod deadlines;
mod net;
mod networks;
mod parts;
mod reading;
mod rows;
mod schedule;
mod solving;
mod ticks;
mod uncounted;
mod waiting;

pub use deadlines::deadline;
pub use networks::{earliest, latest};
pub use schedule::{Latest, OpenEnd};
pub use uncounted::{earliest_plan, latest_schedule};
