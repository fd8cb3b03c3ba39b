use crate::case::{MOST_WORDS, words_of};
use crate::running::unfit;
use run_cli::{Order, Source, WordFault, fault_line, read_words};
use std::alloc::Global;
use std::io;
use tp_spec::Limits;

/// The numbers of an order: its limits, where it has any, and the scale of a domain and a problem,
/// else 0.
#[derive(Clone, Copy)]
struct Numbers {
    limits: Option<Limits>,
    scale: u32,
}

/// The scale of a domain and a problem, 0 for a ground text.
fn scale_of(source: &Source) -> u32 {
    match source {
        Source::GroundText { .. } => 0,
        Source::Pddl { scale, .. } => *scale,
    }
}

/// The numbers of an order.
fn numbers_in(order: &Order) -> Numbers {
    match order {
        Order::Solve { source, limits, .. }
        | Order::Simulate { source, limits, .. }
        | Order::Validate { source, limits, .. }
        | Order::Replay { source, limits, .. } => Numbers {
            limits: Some(*limits),
            scale: scale_of(source),
        },
        Order::Ground { scale, .. } => Numbers {
            limits: None,
            scale: *scale,
        },
        Order::Summary { .. } | Order::Help => Numbers {
            limits: None,
            scale: 0,
        },
    }
}

/// The numbers that the words of a line order, or the first fault of the words.
fn numbers_of(alloc: Global, words: &[String]) -> Result<Numbers, WordFault> {
    if words.len() > MOST_WORDS {
        return Err(WordFault::NoMemory);
    }
    let order = read_words(alloc, words)?;
    Ok(numbers_in(&order))
}

/// The limits of an order in a line: the lead, the acts, the horizon and the nodes.
fn limits_line(alloc: Global, limits: Option<Limits>) -> io::Result<String> {
    let Some(limits) = limits else {
        return Ok(String::from_str(alloc, "ok")?);
    };
    let text = format!(in alloc;
        "ok {} {} {} {}",
        limits.lead, limits.actions, limits.horizon, limits.nodes
    )?;
    Ok(text)
}

/// The numbers of an order in a line: its limits, and the scale where it has one.
fn numbers_line(alloc: Global, numbers: Numbers) -> io::Result<String> {
    let limits = limits_line(alloc, numbers.limits)?;
    if numbers.scale == 0 {
        return Ok(limits);
    }
    let text = format!(in alloc; "{limits} scale {}", numbers.scale)?;
    Ok(text)
}

/// The line of a fault, without its end.
fn refusal(alloc: Global, fault: WordFault) -> io::Result<String> {
    let Ok(bytes) = fault_line(alloc, fault) else {
        return Err(io::Error::from(io::ErrorKind::OutOfMemory));
    };
    let Ok(text) = String::from_utf8(bytes) else {
        return Err(unfit());
    };
    let text = String::from_str(alloc, text.as_str().trim_end())?;
    Ok(text)
}

/// What the words of a line say: the numbers of the order, or the line of their first fault.
pub fn order_text(alloc: Global, line: &str) -> io::Result<String> {
    let words = words_of(alloc, line)?;
    match numbers_of(alloc, &words) {
        Ok(numbers) => numbers_line(alloc, numbers),
        Err(fault) => refusal(alloc, fault),
    }
}
