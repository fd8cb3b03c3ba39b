//! The words and lists of a PDDL text, with their places, and the numbers that words spell.
#![tactic(auto)]

mod builder;
mod form;
mod look;
mod numbers;
mod plain;
mod reader;

pub use form::{Form, Forms, TextFault, Word, spelled_once};
pub use look::{Head, head_of};
pub use numbers::{NumberFault, is_numeral, number};
pub use reader::read_forms;
