ghost use Rattle.std.specs.Prelude.{◌≡◌};
ghost use Rattle.run_cli.specs.Summing.{EndsSummary};

use crate::ending::{Ending, put, unsearched};
use crate::words::default_limits;
use std::alloc::Global;
use tp_spec::NoMemory;
use tp_world::{Clock, Sink};
use workload_run::{Summary, summary_of};

/// Searches the problem that a seed draws, by one worker and under a clock of its own whose k-th
/// reading is k / 1000 ticks, and prints the seven lines that sum the search up. The status is 0
/// where a plan is published, 1 where the search is exhausted, 2 at the limit of ids, 6 where the
/// output fails, and 7 where memory is refused.
pub fn summarize<O: Sink, C: Clock>(alloc: Global, seed: u64, out: &mut O, clock: C) -> Ending<C>
    ensures ends { EndsSummary seed (O.view out.old) (O.view out.new) result.status
        result.history.items }
    ensures clock { result.clock ≡ clock }
{
    match summary_of(alloc, seed, default_limits()) {
        Ok(
            Summary {
                text,
                status,
                history,
            },
        ) => {
            let status = put(out, &text, status);
            Ending {
                status,
                history,
                clock,
            }
        }
        Err(NoMemory) => unsearched(alloc, 7, clock),
    }
}
