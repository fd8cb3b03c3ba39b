//! What is wrong with a PDDL domain's text: its first fault, exactly.
//!
//! What is wrong with a text is a list of faults, a definition in `specs/`, over two passes: all
//! but actions' parts, then the actions. [`domain_fault`] answers the first fault of the first pass
//! that has one.
//!
//! Beside it stand the looks at sections, heads, types and actions' parts that the passes share
//! with whoever reads what a text without a fault says.
#![tactic(auto)]

mod actions;
mod ancestors;
mod cycles;
mod durations;
mod heads;
mod outer;
mod parents;
mod parts;
mod passes;
mod places;
mod scopes;
mod sections;
mod types;
mod written;

pub use actions::variables_of;
pub use heads::{HeadKind, behind_list, behind_word, enter_listed};
pub use parents::parents_of;
pub use parts::{ActionKind, is_action, kind_of, part_of};
pub use passes::{domain_fault, sections_of};
pub use types::type_names;
