//! What may come behind a word of a problem: the marks that may follow it, and the ranks of the
//! words that they make.
#![tactic(auto)]

mod asked;
mod footprints;
mod growth;
mod judge;
mod levels;
mod ones;
mod ranks;
mod reading;
mod running;
mod walker;
mod wants;

pub use growth::Growth;
pub use walker::{Walker, root_rank};
