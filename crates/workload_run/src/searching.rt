ghost use Rattle.std.specs.Prelude.{◌≡◌, ◌++◌, ◌∷◌, [], true, IfOk, IfSome};
ghost use Rattle.serial_runs.specs.Endings.{HasResult, is_result};
ghost use Rattle.tp_spec.specs.WellFormed.{IsWellFormed};
ghost use Rattle.word_network.specs.Conditions.{AreLimits};
ghost use Rattle.workload_run.specs.Summaries.{IsSearched};

use crate::clock::TurnClock;
use open_tree::Tree;
use serial_runs::search;
use std::alloc::Global;
use tp_spec::{Event, Limits, NoMemory, Problem};
use tp_world::{Clock, MemorySink};

/// The history of a search of one worker, actor 1, whose k-th turn, counted from 0, reads k / 1000
/// ticks. It ends with a result; where memory is refused there is none.
pub(crate) fn searched(
    alloc: Global,
    problem: &Problem,
    limits: Limits,
) -> Result<Vec<Event>, NoMemory>
    requires formed { IsWellFormed problem.now }
    requires limits { AreLimits limits }
    ensures { IfOk result (λ history. IsSearched problem.now limits history.items) }
{
    let mut clock = TurnClock::new();
    clock.begin(problem.scale);
    let Ok(mut tree) = Tree::new(alloc, problem, limits, clock) else {
        return Err(NoMemory);
    };
    // the commands go nowhere: a summary prints none
    let mut commands = MemorySink::new(alloc, Vec::new(alloc));
    let _sent = search(alloc, problem, &mut tree, &mut commands);
    let (history, _clock) = tree.into_parts();
    if ends_with_result(&history) {
        Ok(history)
    } else {
        Err(NoMemory)
    }
}

/// Whether the last event is a result of the search: a plan, that it is exhausted, or the limit.
fn ends_with_result(history: &[Event]) -> bool
    ensures { result ≡ true → HasResult history.now }
{
    match history {
        [.., last] => is_result(last),
        [] => false,
    }
}

fn is_result(event: &Event) -> bool
    ensures { result ≡ is_result event.now }
{
    match event {
        Event::Publish { .. } => true,
        Event::Exhaust => true,
        Event::Limit { .. } => true,
        _ => false,
    }
}
