//! What a PDDL domain says, or its first fault, exactly.
//!
//! [`read_domain`] answers the first fault of the text, which `domain_faults` finds, and else the
//! domain, which is a definition over the same tree of words and lists.
#![tactic(auto)]

mod bounds;
mod domain;
mod labels;
mod meaning;
mod reader;

pub use domain::{Bound, Domain, Head, Schema, Sort};
pub use reader::read_domain;
