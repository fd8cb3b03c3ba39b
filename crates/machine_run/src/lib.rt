//! A run of the situated machine: its history, its commitments and its frontier. Each call writes
//! events that are legal where they stand.
#![tactic(auto)]

mod deeds;
mod due;
mod run;
mod settle;

pub use run::MachineRun;
