use crate::problems::unfit;
use open_tree::{Taken, Tree};
use std::alloc::Global;
use std::io;
use tp_spec::{Cause, Limits, Problem};
use tp_world::{Clock, ListClock};

/// What three takes gave, and how many events the history then has.
#[derive(Drop)]
struct Taking {
    first: &'static str,
    second: &'static str,
    third: &'static str,
    events: usize,
}

/// What a take of the first actor gives, in a word.
fn taken(tree: &mut Tree<'_, ListClock>) -> &'static str {
    match tree.take(1) {
        Ok(Taken::Job(_)) => "a job",
        Ok(Taken::Nothing) => "nothing",
        Ok(Taken::Over) => "over",
        Err(_) => "no memory",
    }
}

/// Two takes of one actor, a halt, and a third take.
fn takes_of(mut tree: Tree<'_, ListClock>) -> Taking {
    let first = taken(&mut tree);
    let second = taken(&mut tree);
    tree.halt(Cause::Memory);
    let third = taken(&mut tree);
    let (history, _) = tree.into_parts();
    Taking {
        first,
        second,
        third,
        events: history.len(),
    }
}

/// The takes from the tree of a problem. It gives none where memory is refused.
fn takes(alloc: Global, problem: &Problem) -> Option<Taking> {
    let limits = Limits {
        actions: 64,
        horizon: 9,
        lead: 0,
        nodes: 9,
    };
    let mut clock = ListClock::new(Vec::new(alloc));
    clock.begin(problem.scale);
    match Tree::new(alloc, problem, limits, clock) {
        Ok(tree) => Some(takes_of(tree)),
        Err(_) => None,
    }
}

/// Two takes of one actor, a halt, and a third take.
pub fn two_takes(alloc: Global, problem: &Problem) -> io::Result<String> {
    let Some(takes) = takes(alloc, problem) else {
        return Err(unfit());
    };
    let text = format!(in alloc;
        "takes: {}, {}, {}, events {}",
        takes.first, takes.second, takes.third, takes.events
    )?;
    Ok(text)
}
