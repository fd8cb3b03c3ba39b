use crate::problems::{no_memory, unfit};
use snap_actions::{interfere, items_of};
use std::alloc::Global;
use std::io;
use tp_spec::{Cond, Item, Problem};
use world_state::{all_hold, apply, can, first_overflow, holds, initial};

/// What is seen of the first state of a problem.
#[derive(Drop)]
struct Start {
    fact: bool,
    level: Option<i64>,
    shut: bool,
    both: bool,
    fill: bool,
}

/// Looks at the first state. It gives none where memory is refused.
fn seen_at_start(alloc: Global, problem: &Problem) -> Option<Start> {
    let Ok(state) = initial(alloc, problem) else {
        return None;
    };
    let open = Cond::Lit {
        fact: 0,
        positive: true,
    };
    let shut = Cond::Lit {
        fact: 0,
        positive: false,
    };
    let holds_shut = holds(&state, &shut);
    Some(Start {
        fact: state.has(0),
        level: state.fluent(0),
        shut: holds_shut,
        both: all_hold(&state, &[open, shut]),
        fill: can(problem, &state, Item::Start(0)),
    })
}

/// The first fact, the first fluent, and what holds at the start.
pub fn at_the_start(alloc: Global, problem: &Problem) -> io::Result<String> {
    let Some(seen) = seen_at_start(alloc, problem) else {
        return Err(no_memory());
    };
    start_line(alloc, seen)
}

/// The line of the first state.
fn start_line(alloc: Global, seen: Start) -> io::Result<String> {
    let text = format!(in alloc;
        "start: fact {}, level {:?}, shut {}, both {}, can fill {}",
        seen.fact, seen.level, seen.shut, seen.both, seen.fill
    )?;
    Ok(text)
}

/// What is seen before and behind the first timed item.
#[derive(Drop)]
struct Change {
    before: bool,
    fact: bool,
    level: Option<i64>,
}

/// The first timed item, from a copy of the first state. It gives none where memory is refused, or
/// the problem has no timed item.
fn change_of_timed(alloc: Global, problem: &Problem) -> Option<Change> {
    if problem.timed.as_slice().is_empty() {
        return None;
    }
    let Ok(first) = initial(alloc, problem) else {
        return None;
    };
    let Ok(state) = first.copy(alloc) else {
        return None;
    };
    let Ok(Some(after)) = apply(alloc, problem, &state, &[Item::TimedAt(0)]) else {
        return None;
    };
    Some(Change {
        before: state.has(0),
        fact: after.has(0),
        level: after.fluent(0),
    })
}

/// The fluent that the first timed item takes past 64 bits.
fn overflow_of_timed(alloc: Global, problem: &Problem) -> io::Result<Option<u32>> {
    if problem.timed.as_slice().is_empty() {
        return Err(unfit());
    }
    let Ok(state) = initial(alloc, problem) else {
        return Err(no_memory());
    };
    first_overflow(alloc, problem, &state, &[Item::TimedAt(0)]).map_err(|_| no_memory())
}

/// The first timed item of a problem, from a copy of its first state.
pub fn behind_a_timed_item(alloc: Global, problem: &Problem) -> io::Result<String> {
    let Some(change) = change_of_timed(alloc, problem) else {
        return Err(unfit());
    };
    let overflow = overflow_of_timed(alloc, problem)?;
    change_line(alloc, change, overflow)
}

/// The line of a change.
fn change_line(alloc: Global, change: Change, overflow: Option<u32>) -> io::Result<String> {
    let text = format!(in alloc;
        "timed item: fact {} then {}, level {:?}, overflow {overflow:?}",
        change.before, change.fact, change.level
    )?;
    Ok(text)
}

/// Whether there is a state after the start of the first action.
fn has_state_after(alloc: Global, problem: &Problem) -> io::Result<bool> {
    if problem.actions.as_slice().is_empty() {
        return Err(unfit());
    }
    let Ok(state) = initial(alloc, problem) else {
        return Err(no_memory());
    };
    match apply(alloc, problem, &state, &[Item::Start(0)]) {
        Ok(after) => Ok(after.is_some()),
        Err(_) => Err(no_memory()),
    }
}

/// The fluent that the start of the first action takes past 64 bits.
fn overflow_of_start(alloc: Global, problem: &Problem) -> io::Result<Option<u32>> {
    if problem.actions.as_slice().is_empty() {
        return Err(unfit());
    }
    let Ok(state) = initial(alloc, problem) else {
        return Err(no_memory());
    };
    first_overflow(alloc, problem, &state, &[Item::Start(0)]).map_err(|_| no_memory())
}

/// The first action of a problem, whose start goes past 64 bits.
pub fn behind_an_overflow(alloc: Global, problem: &Problem) -> io::Result<String> {
    let after = has_state_after(alloc, problem)?;
    let overflow = overflow_of_start(alloc, problem)?;
    let text = format!(in alloc; "overflow: a state after {after}, fluent {overflow:?}")?;
    Ok(text)
}

/// Whether the first timed item interferes with the second one, and with itself. It gives none
/// where memory is refused.
fn interferences(alloc: Global, problem: &Problem) -> Option<(bool, bool)> {
    let Ok(items) = items_of(alloc, problem) else {
        return None;
    };
    let two = interfere(&items, Item::TimedAt(0), Item::TimedAt(1));
    let one = interfere(&items, Item::TimedAt(0), Item::TimedAt(0));
    Some((two, one))
}

/// Whether the first timed item interferes with the second one, and with itself.
pub fn interference(alloc: Global, problem: &Problem) -> io::Result<String> {
    let Some((two, one)) = interferences(alloc, problem) else {
        return Err(no_memory());
    };
    let text = format!(in alloc; "interfere: two {two}, one {one}")?;
    Ok(text)
}
