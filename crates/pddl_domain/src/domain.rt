use pddl_meaning::{Change, Condition, Object, Value};
use tp_spec::{List, Name};

/// A type with its parent, by the parent's number. Type 0 is `object`, its own parent.
#[derive(Drop)]
pub struct Sort {
    pub name: Name,
    pub parent: u32,
}

/// A predicate or a function, with the types of its arguments by their numbers.
#[derive(Drop)]
pub struct Head {
    pub name: Name,
    pub sorts: List<u32>,
}

/// A bound of a duration: it is at least or at most this long.
#[derive(Drop)]
pub enum Bound {
    Least(Value),
    Most(Value),
}

/// An action over its parameters, of which `sorts` are the types. An instant action has no bounds,
/// and a start alone.
///
/// PDDL 2.1, section 5 (durative actions with discretised effects).
#[derive(Drop)]
pub struct Schema {
    pub name: Name,
    pub sorts: List<u32>,
    pub bounds: Option<List<Bound>>,
    pub start_conds: List<Condition>,
    pub all_conds: List<Condition>,
    pub end_conds: List<Condition>,
    pub start_effects: List<Change>,
    pub end_effects: List<Change>,
}

/// What a PDDL domain declares. Types, constants, predicates and functions are named by their
/// numbers from 0; lists are in the order of the text.
#[derive(Drop)]
pub struct Domain {
    pub name: Name,
    pub types: List<Sort>,
    pub constants: List<Object>,
    pub predicates: List<Head>,
    pub functions: List<Head>,
    pub actions: List<Schema>,
}
