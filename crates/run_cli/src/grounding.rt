ghost use Rattle.std.specs.Prelude.{◌≡◌, ◌⊎◌, []};
ghost use Rattle.ground_text.specs.Texts.{problem_text};
ghost use Rattle.run_cli.specs.Printing.{Prints, PrintsNothing};
ghost use Rattle.run_cli.specs.Sources.{IsScaled};
ghost use Rattle.run_cli.specs.Statuses.{EndsGround};

use crate::answer::Answer;
use crate::ending::{Ending, say, unsearched};
use crate::loading::{Stop, load_problem};
use crate::words::Source;
use ground_text::write_problem;
use std::alloc::Global;
use tp_spec::{NoMemory, Problem};
use tp_world::{Clock, Files, Sink};

/// Loads and reads the files of a source, and prints the ground text of their problem. The status
/// is 0, 4 where a file is refused, 5 where one can't be loaded, 6 where the output fails, and 7
/// where memory is refused.
pub fn ground_files<F: Files, O: Sink, C: Clock>(
    alloc: Global,
    source: &Source,
    files: &mut F,
    out: &mut O,
    clock: C,
) -> Ending<C>
    requires { IsScaled source.now }
    ensures ends { EndsGround source.now (record {
      files = F.view files.old;
      sink = O.view out.old;
    }) (record { files = F.view files.new; sink = O.view out.new }) result.status }
    ensures contents { (F.view files.new).contents ≡ (F.view files.old).contents }
    ensures history { result.history.items ≡ [] }
    ensures clock { result.clock ≡ clock }
{
    match load_problem(alloc, source, files) {
        Ok(problem) => print_problem(alloc, &problem, out, clock),
        Err(Stop::Said { answer }) => say(alloc, out, answer, clock),
        Err(Stop::NoMemory) => unsearched(alloc, 7, clock),
    }
}

/// Prints the ground text of a problem, and ends with status 0.
fn print_problem<O: Sink, C: Clock>(
    alloc: Global,
    problem: &Problem,
    out: &mut O,
    clock: C,
) -> Ending<C>
    ensures history { result.history.items ≡ [] }
    ensures clock { result.clock ≡ clock }
    ensures prints { Prints (problem_text problem.now) 0 (O.view out.old) (O.view out.new)
        result.status
        ⊎ PrintsNothing (O.view out.old) (O.view out.new) result.status }
{
    match write_problem(alloc, problem) {
        Ok(line) => say(alloc, out, Answer { status: 0, line }, clock),
        Err(NoMemory) => unsearched(alloc, 7, clock),
    }
}
