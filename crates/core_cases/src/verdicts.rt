use crate::problems::no_memory;
use plan_validator::{Verdict, validate};
use std::alloc::Global;
use std::io;
use tp_spec::{Limits, List, Plan, Problem};

/// The last tick that a plan may reach.
const FAR: u64 = 1 << 40;

/// The verdict on the plan without acts that ends at a tick, none where memory is refused.
fn verdict(alloc: Global, problem: &Problem, end: u64) -> Option<Verdict> {
    let limits = Limits {
        actions: 64,
        horizon: FAR,
        lead: 0,
        nodes: 1,
    };
    let plan = Plan {
        acts: List::new(alloc),
        end,
    };
    validate(alloc, problem, &limits, &plan).ok()
}

/// The line of a verdict.
fn verdict_line(alloc: Global, end: u64, verdict: Verdict) -> io::Result<String> {
    let text = format!(in alloc; "plan that ends at {end}: {verdict:?}")?;
    Ok(text)
}

/// The line on the plan without acts that ends at a tick.
fn line_of_end(alloc: Global, problem: &Problem, end: u64) -> io::Result<String> {
    match verdict(alloc, problem, end) {
        Some(verdict) => verdict_line(alloc, end, verdict),
        None => Err(no_memory()),
    }
}

/// A plan that ends with a timed literal at the last tick that a plan may reach is judged at once.
pub fn far_end(alloc: Global, problem: &Problem) -> io::Result<String> {
    line_of_end(alloc, problem, FAR)
}

/// A plan that ends at a tick at which nothing happens.
pub fn end_off(alloc: Global, problem: &Problem) -> io::Result<String> {
    line_of_end(alloc, problem, 7)
}
