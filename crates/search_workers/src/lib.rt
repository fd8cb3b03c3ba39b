#![tactic(auto)]

mod children;
mod outlook;
mod worker;

pub use worker::Worker;
