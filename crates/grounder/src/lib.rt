//! The ground problem of a PDDL domain and a problem over it, exactly.
#![tactic(auto)]

mod conditions;
mod counts;
mod cuts;
mod durations;
mod examples;
mod fault;
mod grounding;
mod kept;
mod naming;
mod objects;
mod parts;
mod rigid;
mod search;
mod sorted;
mod sources;
mod start;
mod tables;
mod timed;
mod values;

pub use examples::{
    a_trip, goals, lengths, static_conditions, static_functions, substitutions, written_twice,
};
pub use fault::{CountKind, GroundFault};
pub use grounding::{ground, ground_if_well_formed};
