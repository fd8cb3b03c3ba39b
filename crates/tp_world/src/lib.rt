//! The outside of the planner: files, a sink for bytes, a clock and a gate, as traits with
//! contracts; fakes of them in memory; adapters of the real thing.
#![tactic(auto)]

mod adapters;
mod clock;
mod files;
mod gate;
mod requests;
mod sink;
#[cfg(test)]
mod tests;

pub use adapters::{DiskFiles, ElapsedClock, PauseGate, StdSink};
pub use clock::{Clock, ListClock};
pub use files::{Files, LoadFault, MemoryFiles, SaveFault};
pub use gate::{Gate, OpenGate, Point};
pub use requests::{Begun, Puts, Requests};
pub use sink::{MemorySink, SendFault, Sink};
