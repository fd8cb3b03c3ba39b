//! What the parts of PDDL texts say: atoms, expressions, conditions, effects and typed lists, as
//! values.
//!
//! The definitions in `specs/` are total, and say something that counts only of texts without a
//! fault, which `pddl_parts` judges. Lists are in the order of the text.
#![tactic(auto)]

mod changes;
mod conditions;
mod groups;
mod terms;
mod values;

pub use changes::{Change, target_of, with_effect};
pub use conditions::{Condition, with_condition};
pub use groups::{Object, group_parent, name_of, objects_of, sorts_of, type_number};
pub use terms::{Atom, Symbols, Term, atom_of, behind_first};
pub use values::{Value, operand_of};
