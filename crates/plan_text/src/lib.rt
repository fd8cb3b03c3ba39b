//! Plans as text: what is printed of an act and of a plan, and what a plan file says.
#![tactic(auto)]

mod act_line;
mod amount;
mod fault;
mod law;
mod pieces;
mod read;
mod write;

pub use fault::PlanFault;
pub use law::{parts_are_rows, reads_back};
pub use line_text::{push_bytes, push_number, push_tick};
pub use read::read_plan;
pub use write::{push_act, write_plan};
