//! A lock by tickets over a value that stands for a list of entries, as a tree stands for its
//! history. Each thread has a seat, which knows what the thread has seen and which entries it made:
//! what a seat finds goes on from what it had seen, and what the lock gives back when it is closed
//! is what the seats made, each entry once and in order.
#![tactic(auto)]

mod plays;
mod rule;
mod seats;
mod steps;
mod story;
mod turn;
mod turns;

pub use story::Story;
pub use turn::{Held, Seat, Turn};

#[cfg(test)]
mod tests;
