//! The parts of PDDL texts that a domain and a problem share, and what is wrong with them: the
//! first fault, exactly.
//!
//! What is wrong with a text is a list of faults, a definition in `specs/`; a function here answers
//! the first of them: the one at the lowest byte, at one byte the one whose kind is listed first in
//! [`Kind`].
//!
//! The parts are words and names, typed lists, members of sections, and, in a [`Context`] of what
//! is declared, terms, atoms, expressions, conditions, effects, and those of durative actions.
#![tactic(auto)]

mod atoms;
mod conditions;
mod depth;
mod effects;
mod expressions;
mod faults;
mod first;
mod items;
mod literals;
mod members;
mod names;
mod scope;
mod table;
mod timed;
mod typed;
mod words;

pub use atoms::{arity_fault, atom_fault, count_of, known_fault, predicate_fault, term_fault};
pub use conditions::{condition_fault, last_operand_fault};
pub use effects::effect_fault;
pub use expressions::{expression_fault, numeral_fault};
pub use faults::{Fault, Kind, PddlFault};
pub use first::{earlier, fault, first_is_least};
pub use items::{in_32_bits, with_items};
pub use literals::{
    is_left_out_at, is_literal, may_be_equality, may_be_term, misfit_list, misfit_word, name_fault,
    unfit_list, unfit_section, unfit_word, variable_fault,
};
pub use members::{
    extra_fault, members_of, named_fault, one_name_fault, others_fault, requirements_fault,
    surplus_fault,
};
pub use names::Names;
pub use scope::{Context, Place, Scope};
pub use table::Table;
pub use timed::{TimedPart, timed_fault};
pub use typed::{
    Part, Rule, end_fault, enter_item, is_item, next, next_of_list, repeat_fault, typed_fault,
};
pub use words::{
    begins_with, is_atom_word, is_dash, is_head_word, is_left_out, is_name, is_order, is_symbol,
    is_thing, is_update, is_variable,
};
