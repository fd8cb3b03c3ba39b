//! The rules of a ground problem, judged by code: names, conditions, effects, actions and timed
//! items, and what makes a problem plain.
#![tactic(auto)]

mod apart;
mod checks;
mod names;
mod parts;
mod plain;
mod rules;

pub use apart::told_apart;
pub use checks::{are_conds, each_action, each_timed, is_empty, ticks_rise};
pub use names::{all_below, are_names, is_name, names_rise, numbers_rise};
pub use parts::Parts;
pub use plain::is_plain;
pub use rules::{is_scale, is_well_formed, items_hold, ranges_hold, states_hold};
