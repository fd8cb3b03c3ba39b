ghost use Rattle.std.specs.Prelude.{◌≡◌, ◌<◌, ◌^◌, ◌⊎◌, [], map, length, true, false, string_bytes};
ghost use Rattle.run_cli.specs.Orders.{order_of, fault_text, is_solve, is_simulate, is_summary, trace_of, is_memory as is_memory_of};
ghost use Rattle.run_cli.specs.Help.{help_text};
ghost use Rattle.run_cli.specs.Printing.{Prints, PrintsNothing};
ghost use Rattle.run_cli.specs.Statuses.{EndsLocal, EndsRun};
ghost use Rattle.run_cli.specs.Tracing.{KeepsAllBut};

use crate::answer::Answer;
use crate::ending::{Ending, say, unsearched};
use crate::grounding::ground_files;
use crate::help::help_text;
use crate::replaying::replay_files;
use crate::solving::leave_file;
use crate::summarizing::summarize;
use crate::tracing::{simulate_kept, solve_kept};
use crate::validating::judge_files;
use crate::words::{Order, Source, WordFault, fault_line, read_words};
use std::alloc::Global;
use tp_spec::NoMemory;
use tp_world::{Clock, Files, Gate, Sink};

/// Does what the words say. A problem is that of a ground text (one file), or of a PDDL domain and
/// a PDDL problem (two files); all files of a command are loaded before one is read. `solve`
/// searches for a plan with one worker, and prints a plan, `exhausted` or `limit`; `simulate` runs
/// the steps of a script; `validate` prints whether the plan of a plan file is valid, and else the
/// first of its parts that is broken; `ground` prints the ground text of a domain and a problem;
/// `replay` prints how many events a trace has, or the first that breaks a rule; `help` prints a
/// line for each command. The status is 0 where a plan is published or valid, no rule is broken, or
/// a text is printed, 1 where the search is exhausted, the plan is not valid, or a rule is broken,
/// 2 at the limit of ids, 3 where the words are refused, 4 where a file is, 5 where one can't be
/// loaded, 6 where the output fails, 7 where memory is refused, and 8 where the script ends before
/// the search. Only `solve` begins and reads the clock, and only `solve` and `simulate` have a
/// history.
pub fn run<F: Files, O: Sink + Send, C: Clock + Send, G: Gate>(
    alloc: Global,
    words: &[String],
    files: &mut F,
    out: &mut O,
    clock: C,
    _gate: &G,
) -> Ending<C>
    requires { length words.now < 2 ^ 31 }
    ensures ends { EndsRun (order_of (map string_bytes words.now)) (record {
      files = F.view files.old;
      sink = O.view out.old;
    }) (record { files = F.view files.new; sink = O.view out.new }) (record {
      status = result.status;
      history = result.history.items;
      began = record {
        count = C.count clock;
        last = C.last clock;
        rate = C.rate clock;
        given = C.given clock;
        begun = C.begun clock;
      };
      ended = record {
        count = C.count result.clock;
        last = C.last result.clock;
        rate = C.rate result.clock;
        given = C.given result.clock;
        begun = C.begun result.clock;
      };
    }) }
    ensures contents { KeepsAllBut (trace_of (order_of (map string_bytes words.now)))
        (F.view files.old).contents (F.view files.new).contents }
    ensures same { 2 < result.status → result.status < 6 → result.clock ≡ clock }
    ensures unsolved { is_solve (order_of (map string_bytes words.now)) ≡ false
        → result.clock ≡ clock }
{
    match read_words(alloc, words) {
        Ok(
            Order::Solve {
                source,
                limits,
                trace,
            },
        ) => solve_kept(alloc, &source, limits, &trace, files, out, clock),
        Ok(
            Order::Simulate {
                source,
                script,
                limits,
                trace,
            },
        ) => simulate_kept(
            alloc,
            &source,
            script.as_str(),
            limits,
            &trace,
            files,
            out,
            clock,
        ),
        Ok(
            Order::Validate {
                source,
                plan,
                limits,
            },
        ) => judge_files(alloc, &source, plan.as_str(), &limits, files, out, clock),
        Ok(
            Order::Ground {
                domain,
                problem,
                scale,
            },
        ) => {
            let source = Source::Pddl {
                domain,
                problem,
                scale,
            };
            ground_files(alloc, &source, files, out, clock)
        }
        Ok(
            Order::Replay {
                source,
                trace,
                limits,
            },
        ) => replay_files(alloc, &source, trace.as_str(), &limits, files, out, clock),
        Ok(Order::Summary { seed }) => summarize(alloc, seed, out, clock),
        Ok(Order::Help) => print_help(alloc, out, clock),
        Err(fault) => refuse_words(alloc, fault, out, clock),
    }
}

/// Does what the words say as `run` does, but waits for nobody: every command but `solve`. `solve`
/// reads its files as `run` does, with the same statuses and lines for a file that is refused or
/// can't be loaded; where they are a problem's nothing is put, and the status is 3.
pub fn run_local<F: Files, O: Sink, C: Clock>(
    alloc: Global,
    words: &[String],
    files: &mut F,
    out: &mut O,
    clock: C,
) -> Ending<C>
    requires { length words.now < 2 ^ 31 }
    ensures ends { EndsLocal (order_of (map string_bytes words.now)) (record {
      files = F.view files.old;
      sink = O.view out.old;
    }) (record { files = F.view files.new; sink = O.view out.new }) result.status
        result.history.items }
    ensures contents { KeepsAllBut (trace_of (order_of (map string_bytes words.now)))
        (F.view files.old).contents (F.view files.new).contents }
    ensures unchanged { is_simulate (order_of (map string_bytes words.now)) ≡ false
        → (F.view files.new).contents ≡ (F.view files.old).contents }
    ensures history { is_simulate (order_of (map string_bytes words.now)) ≡ false
        → is_summary (order_of (map string_bytes words.now)) ≡ false
        → result.history.items ≡ [] }
    ensures clock { result.clock ≡ clock }
{
    match read_words(alloc, words) {
        Ok(Order::Solve { source, .. }) => leave_file(alloc, &source, files, out, clock),
        Ok(
            Order::Simulate {
                source,
                script,
                limits,
                trace,
            },
        ) => simulate_kept(
            alloc,
            &source,
            script.as_str(),
            limits,
            &trace,
            files,
            out,
            clock,
        ),
        Ok(
            Order::Validate {
                source,
                plan,
                limits,
            },
        ) => judge_files(alloc, &source, plan.as_str(), &limits, files, out, clock),
        Ok(
            Order::Ground {
                domain,
                problem,
                scale,
            },
        ) => {
            let source = Source::Pddl {
                domain,
                problem,
                scale,
            };
            ground_files(alloc, &source, files, out, clock)
        }
        Ok(
            Order::Replay {
                source,
                trace,
                limits,
            },
        ) => replay_files(alloc, &source, trace.as_str(), &limits, files, out, clock),
        Ok(Order::Summary { seed }) => summarize(alloc, seed, out, clock),
        Ok(Order::Help) => print_help(alloc, out, clock),
        Err(fault) => refuse_words(alloc, fault, out, clock),
    }
}

/// Prints a line for each command and ends with status 0.
fn print_help<O: Sink, C: Clock>(alloc: Global, out: &mut O, clock: C) -> Ending<C>
    ensures history { result.history.items ≡ [] }
    ensures clock { result.clock ≡ clock }
    ensures prints { Prints help_text 0 (O.view out.old) (O.view out.new) result.status
        ⊎ PrintsNothing (O.view out.old) (O.view out.new) result.status }
{
    match help_text(alloc) {
        Ok(line) => say(alloc, out, Answer { status: 0, line }, clock),
        Err(NoMemory) => unsearched(alloc, 7, clock),
    }
}

/// Prints the fault of the words and ends with status 3.
fn refuse_words<O: Sink, C: Clock>(
    alloc: Global,
    fault: WordFault,
    out: &mut O,
    clock: C,
) -> Ending<C>
    ensures history { result.history.items ≡ [] }
    ensures clock { result.clock ≡ clock }
    ensures prints { Prints (fault_text fault) 3 (O.view out.old) (O.view out.new) result.status
        ⊎ PrintsNothing (O.view out.old) (O.view out.new) result.status }
    ensures memory { is_memory_of fault ≡ true
        → PrintsNothing (O.view out.old) (O.view out.new) result.status }
{
    if fault == WordFault::NoMemory {
        return unsearched(alloc, 7, clock);
    }
    match fault_line(alloc, fault) {
        Ok(line) => say(alloc, out, Answer { status: 3, line }, clock),
        Err(_) => unsearched(alloc, 7, clock),
    }
}
