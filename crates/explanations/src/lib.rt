//! What a refusal says to whoever wrote the words or the files: the place in its text, a sentence,
//! and the line with a caret below it.
#![tactic(auto)]

mod explaining;
mod files;
mod keeping;
mod lines;
mod pddl;
mod quotes;
mod refusal;
mod scales;
mod sentences;
mod tokens;
mod words;

pub use explaining::explain;
pub use keeping::KeepingSink;
pub use lines::explain_line;
pub use pddl::explain_pddl;
