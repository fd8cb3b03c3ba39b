//! The frontier of the search: nodes by their ids, each a word with its rank and its deadline, open
//! or taken. Words are kept as a parent and a mark, and the ids of each rank are linked in order.
#![tactic(auto)]

mod child;
mod frontier;
mod heads;
mod node;
mod slot;

pub use child::Child;
pub use frontier::{Frontier, Standing};
pub use node::Node;
