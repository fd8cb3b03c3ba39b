use pddl_meaning::{Atom, Condition, Object};
use tp_spec::List;

/// A function with its arguments, and the value that it has at first, in units of the scale.
#[derive(Drop)]
pub struct Given {
    pub target: Atom,
    pub value: i64,
}

/// An atom that becomes true or false at a tick.
///
/// PDDL 2.2, timed initial literals.
#[derive(Drop)]
pub struct Dated {
    pub tick: u64,
    pub positive: bool,
    pub atom: Atom,
}

/// What a PDDL problem says. Objects are named by their numbers from 0, and the domain's constants
/// come first; predicates and functions by their numbers in the domain. Lists are in the order of
/// the text, and hold what is said twice twice.
#[derive(Drop)]
pub struct Task {
    pub objects: List<Object>,
    pub init: List<Atom>,
    pub values: List<Given>,
    pub timed: List<Dated>,
    pub goal: List<Condition>,
}
