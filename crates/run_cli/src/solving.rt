ghost use Rattle.std.specs.Prelude.{◌≡◌, ◌<◌, ◌⊎◌, []};
ghost use Rattle.tp_spec.specs.WellFormed.{IsWellFormed};
ghost use Rattle.word_network.specs.Conditions.{AreLimits};
ghost use Rattle.run_cli.specs.Solving.{EndsSearch, EndsSolve, EndsUnsolved};
ghost use Rattle.run_cli.specs.Sources.{IsScaled};

use crate::ending::{Ending, say, unsearched};
use crate::loading::{Stop, load_problem};
use crate::outcome::print_end;
use crate::words::Source;
use open_tree::Tree;
use run_laws::commitments_of_runs;
use serial_runs::{commands_of_history, search};
use std::alloc::Global;
use tp_spec::{Limits, NoMemory, Problem};
use tp_world::{Clock, Files, Sink};

/// Loads and reads the files of a source, and solves their problem.
pub fn solve_file<F: Files, O: Sink, C: Clock>(
    alloc: Global,
    source: &Source,
    limits: Limits,
    files: &mut F,
    out: &mut O,
    clock: C,
) -> Ending<C>
    requires limits { AreLimits limits }
    requires scaled { IsScaled source.now }
    ensures ends { EndsSolve source.now limits (record {
      files = F.view files.old;
      sink = O.view out.old;
    }) (record { files = F.view files.new; sink = O.view out.new }) (record {
      status = result.status;
      history = result.history.items;
      began = record {
        count = C.count clock;
        last = C.last clock;
        rate = C.rate clock;
        given = C.given clock;
        begun = C.begun clock;
      };
      ended = record {
        count = C.count result.clock;
        last = C.last result.clock;
        rate = C.rate result.clock;
        given = C.given result.clock;
        begun = C.begun result.clock;
      };
    }) }
    ensures contents { (F.view files.new).contents ≡ (F.view files.old).contents }
    ensures same { 2 < result.status → result.status < 6 → result.clock ≡ clock }
{
    match load_problem(alloc, source, files) {
        Ok(problem) => solve(alloc, &problem, limits, out, clock),
        Err(Stop::Said { answer }) => say(alloc, out, answer, clock),
        Err(Stop::NoMemory) => unsearched(alloc, 7, clock),
    }
}

/// Loads and reads the files of a source, and searches nothing. Where they are a problem's, nothing
/// is put.
pub fn leave_file<F: Files, O: Sink, C: Clock>(
    alloc: Global,
    source: &Source,
    files: &mut F,
    out: &mut O,
    clock: C,
) -> Ending<C>
    requires { IsScaled source.now }
    ensures ends { EndsUnsolved source.now (record {
      files = F.view files.old;
      sink = O.view out.old;
    }) (record { files = F.view files.new; sink = O.view out.new }) result.status }
    ensures contents { (F.view files.new).contents ≡ (F.view files.old).contents }
    ensures history { result.history.items ≡ [] }
    ensures clock { result.clock ≡ clock }
{
    match load_problem(alloc, source, files) {
        Ok(_) => unsearched(alloc, 3, clock),
        Err(Stop::Said { answer }) => say(alloc, out, answer, clock),
        Err(Stop::NoMemory) => unsearched(alloc, 7, clock),
    }
}

/// Searches for a plan of a problem: puts each command as soon as its turn has ended, and then the
/// result.
fn solve<O: Sink, C: Clock>(
    alloc: Global,
    problem: &Problem,
    limits: Limits,
    out: &mut O,
    mut clock: C,
) -> Ending<C>
    requires formed { IsWellFormed problem.now }
    requires limits { AreLimits limits }
    ensures ends { EndsSearch problem.now limits (O.view out.old) (O.view out.new) (record {
      status = result.status;
      history = result.history.items;
      began = record {
        count = C.count clock;
        last = C.last clock;
        rate = C.rate clock;
        given = C.given clock;
        begun = C.begun clock;
      };
      ended = record {
        count = C.count result.clock;
        last = C.last result.clock;
        rate = C.rate result.clock;
        given = C.given result.clock;
        begun = C.begun result.clock;
      };
    }) }
    ensures statuses { (result.status < 3) ⊎ (5 < result.status) }
{
    clock.begin(problem.scale);
    let mut tree = match Tree::new(alloc, problem, limits, clock) {
        Ok(tree) => tree,
        Err((NoMemory, clock)) => return unsearched(alloc, 7, clock),
    };
    let sent = search(alloc, problem, &mut tree, out);
    let (history, clock) = tree.into_parts();
    commands_of_history();
    commitments_of_runs();
    let status = print_end(alloc, problem, sent, out, &history);
    Ending {
        status,
        history,
        clock,
    }
}
