//! The ground problem that the texts of a PDDL domain and of a problem over it say, or their first
//! fault, exactly; and the line that is printed of a fault.
#![tactic(auto)]

mod fault;
mod laws;
mod lines;
mod reading;

pub use fault::PddlFileFault;
pub use laws::{answers_are_one, fitting_is_enough};
pub use lines::fault_line;
pub use reading::read_pddl;
