ghost use Rattle.std.specs.Prelude.{◌≡◌, ◌<◌};
ghost use Rattle.word_network.specs.Conditions.{AreLimits};
ghost use Rattle.run_cli.specs.Sources.{IsScaled};
ghost use Rattle.run_cli.specs.Tracing.{is_said, SavesTrace, SavesSaid, KeepsTrace, KeepsAllBut, KeepsSolve, KeepsSimulate};

use crate::ending::Ending;
use crate::simulating::simulate_files;
use crate::solving::solve_file;
use crate::words::Source;
use std::alloc::Global;
use tp_spec::{Event, Limits, Name, NoMemory};
use tp_world::{Clock, Files, SaveFault, Sink};
use trace_text::write_trace;

/// Whether a status says that a run has its result, and that all of it is put.
fn is_said(status: u8) -> bool
    ensures { result ≡ is_said status }
{
    status < 3 || status == 8
}

/// Saves the trace of a history. The status is the one given, 6 where the save fails, or 7 where
/// memory is refused.
fn save_trace<F: Files>(
    alloc: Global,
    name: &str,
    history: &[Event],
    first: u8,
    files: &mut F,
) -> u8
    ensures { SavesTrace name.now history.now first (F.view files.old) (F.view files.new) result }
{
    match write_trace(alloc, history) {
        Ok(text) => match files.save(alloc, name, &text) {
            Ok(()) => first,
            Err(SaveFault::Failed) => 6,
            Err(SaveFault::NoMemory) => 7,
        },
        Err(NoMemory) => 7,
    }
}

/// Saves the trace of a history where all that its run puts is there.
fn save_said<F: Files>(alloc: Global, name: &str, history: &[Event], first: u8, files: &mut F) -> u8
    ensures { SavesSaid (is_said first) name.now history.now first (F.view files.old)
        (F.view files.new) result }
{
    if is_said(first) {
        save_trace(alloc, name, history, first, files)
    } else {
        first
    }
}

/// The status of a run behind the save of its trace, where a file is named.
fn keep_trace<F: Files>(
    alloc: Global,
    trace: &Option<Name>,
    history: &[Event],
    first: u8,
    files: &mut F,
) -> u8
    ensures { KeepsTrace trace.now history.now first (F.view files.old) (F.view files.new) result }
{
    match trace {
        Some(name) => save_said(alloc, name.as_str(), history, first, files),
        None => first,
    }
}

/// Loads and reads the files of a source, and solves their problem; then the trace of the search is
/// saved, where a file is named and all that the search puts is there.
pub fn solve_kept<F: Files, O: Sink, C: Clock>(
    alloc: Global,
    source: &Source,
    limits: Limits,
    trace: &Option<Name>,
    files: &mut F,
    out: &mut O,
    clock: C,
) -> Ending<C>
    requires limits { AreLimits limits }
    requires scaled { IsScaled source.now }
    ensures ends { KeepsSolve source.now limits trace.now (record {
      files = F.view files.old;
      sink = O.view out.old;
    }) (record { files = F.view files.new; sink = O.view out.new }) (record {
      status = result.status;
      history = result.history.items;
      began = record {
        count = C.count clock;
        last = C.last clock;
        rate = C.rate clock;
        given = C.given clock;
        begun = C.begun clock;
      };
      ended = record {
        count = C.count result.clock;
        last = C.last result.clock;
        rate = C.rate result.clock;
        given = C.given result.clock;
        begun = C.begun result.clock;
      };
    }) }
    ensures contents { KeepsAllBut trace.now (F.view files.old).contents
        (F.view files.new).contents }
    ensures same { 2 < result.status → result.status < 6 → result.clock ≡ clock }
{
    let solved = solve_file(alloc, source, limits, files, out, clock);
    let status = keep_trace(alloc, trace, &solved.history, solved.status, files);
    Ending {
        status,
        history: solved.history,
        clock: solved.clock,
    }
}

/// Loads and reads a source and a script, and plays the script on the problem; then the trace of
/// the play is saved, where a file is named and all that the play puts is there.
pub fn simulate_kept<F: Files, O: Sink, C: Clock>(
    alloc: Global,
    source: &Source,
    script: &str,
    limits: Limits,
    trace: &Option<Name>,
    files: &mut F,
    out: &mut O,
    clock: C,
) -> Ending<C>
    requires limits { AreLimits limits }
    requires scaled { IsScaled source.now }
    ensures ends { KeepsSimulate source.now script.now limits trace.now (record {
      files = F.view files.old;
      sink = O.view out.old;
    }) (record { files = F.view files.new; sink = O.view out.new }) result.status
        result.history.items }
    ensures contents { KeepsAllBut trace.now (F.view files.old).contents
        (F.view files.new).contents }
    ensures clock { result.clock ≡ clock }
{
    let played = simulate_files(alloc, source, script, limits, files, out, clock);
    let status = keep_trace(alloc, trace, &played.history, played.status, files);
    Ending {
        status,
        history: played.history,
        clock: played.clock,
    }
}
