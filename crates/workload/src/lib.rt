//! Problems of two couriers who serve customers before their deadlines, drawn from a seed: a
//! workload for measurements that is the same on each machine.
#![tactic(auto)]

mod domain;
mod draws;
mod pinned;
mod places;
mod texts;

pub use pinned::{example_texts, examples, ranges};
pub use texts::make;
