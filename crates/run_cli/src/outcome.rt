ghost use Rattle.std.specs.Prelude.{◌≡◌, ◌⊎◌, true, false, MatchOption};
ghost use Rattle.run_cli.specs.Outcomes.{EndsAs, GivesEnd, HasNoEnd, PutsEnd, WithholdsEnd, is_end, status_of};

use crate::printing::result_text;
use std::alloc::Global;
use tp_spec::{Cause, Event, NoMemory, Problem};
use tp_world::{SendFault, Sink};

/// Puts the result of a history, where all of its commands were put. The status is that of its last
/// event, 6 where a put fails or failed, and 7 where memory is or was refused.
pub fn print_end<O: Sink>(
    alloc: Global,
    problem: &Problem,
    sent: Result<(), SendFault>,
    out: &mut O,
    history: &[Event],
) -> u8
    ensures { GivesEnd problem.now history.now sent (O.view out.old) (O.view out.new) result }
{
    match sent {
        Ok(()) => print_result(alloc, problem, out, history),
        Err(SendFault::Failed) => 6,
        Err(SendFault::NoMemory) => 7,
    }
}

/// Puts the result of a history.
fn print_result<O: Sink>(alloc: Global, problem: &Problem, out: &mut O, history: &[Event]) -> u8
    ensures { PutsEnd problem.now history.now (O.view out.old) (O.view out.new) result
        ⊎ WithholdsEnd problem.now history.now (O.view out.old) (O.view out.new) result }
{
    let Some(status) = end_status(history) else {
        return 7;
    };
    match result_text(alloc, problem, history) {
        Ok(text) => match out.put(&text) {
            Ok(()) => status,
            Err(SendFault::Failed) => 6,
            Err(SendFault::NoMemory) => 7,
        },
        Err(NoMemory) => 7,
    }
}

/// The status for the result that a history ends with; none where it ends with none.
fn end_status(history: &[Event]) -> Option<u8>
    ensures { MatchOption result (HasNoEnd history.now) (EndsAs history.now) }
{
    match history {
        [.., last] => outcome_status(last),
        [] => None,
    }
}

/// The status for an event that is a result; none for every other event.
fn outcome_status(event: &Event) -> Option<u8>
    ensures { MatchOption result (is_end event.now ≡ false)
        (λ status. (is_end event.now ≡ true) × (status ≡ status_of event.now)) }
{
    match event {
        Event::Publish { .. } => Some(0),
        Event::Exhaust => Some(1),
        Event::Limit { .. } => Some(2),
        Event::Halt {
            cause: Cause::Script,
        } => Some(8),
        _ => None,
    }
}
