ghost use Rattle.std.specs.Prelude.{◌≡◌, IfOk};
ghost use Rattle.tp_spec.specs.Texts.{outcome_text, result_text};

use plan_text::write_plan;
use std::alloc::Global;
use tp_spec::{Cause, Event, NoMemory, Problem};

/// A text of its own.
fn text_of(alloc: Global, bytes: &[u8]) -> Result<Vec<u8>, NoMemory>
    ensures { IfOk result (λ t. t.items ≡ bytes.now) }
{
    match Vec::from_slice(alloc, bytes) {
        Ok(text) => Ok(text),
        Err(_) => Err(NoMemory),
    }
}

/// What an outcome prints; nothing for an event that is no outcome.
fn outcome_text(alloc: Global, problem: &Problem, event: &Event) -> Result<Vec<u8>, NoMemory>
    ensures { IfOk result (λ t. t.items ≡ outcome_text problem.now event.now) }
{
    match event {
        Event::Publish { plan, .. } => write_plan(alloc, problem, plan),
        Event::Exhaust => text_of(alloc, b"exhausted\n"),
        Event::Limit { .. } => text_of(alloc, b"limit\n"),
        Event::Halt { cause } => match cause {
            Cause::Script => text_of(alloc, b"stopped\n"),
            Cause::Out => Ok(Vec::new(alloc)),
            Cause::Memory => Ok(Vec::new(alloc)),
        },
        Event::Tick { .. } => Ok(Vec::new(alloc)),
        Event::Drop { .. } => Ok(Vec::new(alloc)),
        Event::Dispatch { .. } => Ok(Vec::new(alloc)),
        Event::Take { .. } => Ok(Vec::new(alloc)),
        Event::Expand { .. } => Ok(Vec::new(alloc)),
    }
}

/// The result of a history, by its last event.
pub fn result_text(alloc: Global, problem: &Problem, history: &[Event]) -> Result<Vec<u8>, NoMemory>
    ensures { IfOk result (λ t. t.items ≡ result_text problem.now history.now) }
{
    match history {
        [.., last] => outcome_text(alloc, problem, last),
        [] => Ok(Vec::new(alloc)),
    }
}
