ghost use Rattle.std.specs.Prelude.{◌≡◌, ◌<◌, ◌⊎◌, []};
ghost use Rattle.run_cli.specs.Printing.{Prints, PrintsNothing};

use crate::answer::Answer;
use std::alloc::Global;
use tp_spec::Event;
use tp_world::{Clock, SendFault, Sink};

/// How a run ended: the status of the program, the events of its search, and the clock that it was
/// given.
#[derive(Drop)]
pub struct Ending<C> {
    pub status: u8,
    pub history: Vec<Event>,
    pub clock: C,
}

/// Puts a text. The status is the one given, 6 where the put fails, or 7 where memory is refused.
pub fn put<O: Sink>(out: &mut O, text: &[u8], status: u8) -> u8
    requires { status < 6 }
    ensures { Prints text.now status (O.view out.old) (O.view out.new) result
        ⊎ PrintsNothing (O.view out.old) (O.view out.new) result }
{
    match out.put(text) {
        Ok(()) => status,
        Err(SendFault::Failed) => 6,
        Err(SendFault::NoMemory) => 7,
    }
}

/// Prints the line of an answer, and ends with its status and no history.
pub fn say<O: Sink, C: Clock>(alloc: Global, out: &mut O, answer: Answer, clock: C) -> Ending<C>
    ensures history { result.history.items ≡ [] }
    ensures clock { result.clock ≡ clock }
    ensures prints { Prints answer.line.items answer.status (O.view out.old) (O.view out.new)
        result.status
        ⊎ PrintsNothing (O.view out.old) (O.view out.new) result.status }
{
    let status = put(out, &answer.line, answer.status);
    unsearched(alloc, status, clock)
}

/// Ends with a status and no history.
pub fn unsearched<C: Clock>(alloc: Global, status: u8, clock: C) -> Ending<C>
    ensures status { result.status ≡ status }
    ensures history { result.history.items ≡ [] }
    ensures clock { result.clock ≡ clock }
{
    Ending {
        status,
        history: Vec::new(alloc),
        clock,
    }
}
