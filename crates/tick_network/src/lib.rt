//! Simple temporal networks over ticks: variables with a least and a greatest tick, rows that limit
//! how far one may stand behind another, and the greatest and the least solution by relaxation.
#![tactic(auto)]

mod net;
mod relax;
mod solve;
mod steps;

pub use net::{Net, Row};
pub use solve::{greatest, least, lower};
pub use steps::Steps;
