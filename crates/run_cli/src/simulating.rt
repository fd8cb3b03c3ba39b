ghost use Rattle.std.specs.Prelude.{◌≡◌, ℕ, Err, Some, None, IfOk, IfErr, IfSome, IsSome, MatchOption};
ghost use Rattle.std.specs.Prelude.{List as Items};
ghost use Rattle.tp_spec.specs.WellFormed.{IsWellFormed};
ghost use Rattle.word_network.specs.Conditions.{AreLimits};
ghost use Rattle.script_text.specs.Playable.{IsPlayable};
ghost use Rattle.script_text.specs.Scripts.{IsScript};
ghost use Rattle.run_cli.specs.Simulating.{EndsPlay, EndsSimulate, HoldsScript, IsScriptStop, IsScriptRefusal, fault_line, script_line};
ghost use Rattle.run_cli.specs.Sources.{IsScaled};

use crate::answer::Answer;
use crate::ending::{Ending, say, unsearched};
use crate::loading::{Role, Stop, load_problem_and};
use crate::outcome::print_end;
use crate::words::Source;
use line_text::{push_bytes, push_number};
use run_laws::commitments_of_runs;
use script_text::{ScriptFault, ScriptLine, read_script};
use serial_runs::{Played, commands_of_history, run_script};
use std::alloc::Global;
use tp_spec::{Limits, List, NoMemory, Problem};
use tp_world::{Clock, Files, Sink};

/// Loads and reads a source and a script, and plays the script on the problem.
pub fn simulate_files<F: Files, O: Sink, C: Clock>(
    alloc: Global,
    source: &Source,
    script: &str,
    limits: Limits,
    files: &mut F,
    out: &mut O,
    clock: C,
) -> Ending<C>
    requires limits { AreLimits limits }
    requires scaled { IsScaled source.now }
    ensures ends { EndsSimulate source.now script.now limits (record {
      files = F.view files.old;
      sink = O.view out.old;
    }) (record { files = F.view files.new; sink = O.view out.new }) result.status
        result.history.items }
    ensures contents { (F.view files.new).contents ≡ (F.view files.old).contents }
    ensures clock { result.clock ≡ clock }
{
    match load_script(alloc, source, script, files) {
        Ok((problem, lines)) => play(alloc, &problem, limits, lines.as_slice(), out, clock),
        Err(Stop::Said { answer }) => say(alloc, out, answer, clock),
        Err(Stop::NoMemory) => unsearched(alloc, 7, clock),
    }
}

/// Loads a source and a script, and then reads both.
fn load_script<F: Files>(
    alloc: Global,
    source: &Source,
    script: &str,
    files: &mut F,
) -> Result<(Problem, List<ScriptLine>), Stop>
    requires { IsScaled source.now }
    ensures holds { IfOk result (λ read. HoldsScript source.now script.now read.0 read.1
        (F.view files.old) (F.view files.new)) }
    ensures playable { IfOk result (λ read. IsPlayable read.1) }
    ensures stop { IfErr result (IsScriptStop source.now script.now (F.view files.old)
        (F.view files.new)) }
    ensures contents { (F.view files.new).contents ≡ (F.view files.old).contents }
{
    let (problem, text) = load_problem_and(alloc, source, Role::Script, script, files)?;
    match read_script(alloc, &text) {
        Ok(lines) => Ok((problem, lines)),
        Err(fault) => Err(refusal(alloc, fault)),
    }
}

/// What is said of a text that is no script.
fn refusal(alloc: Global, fault: ScriptFault) -> Stop
    ensures { (text : Items ℕ) → IsScript text (Err fault) → IsScriptRefusal text result }
{
    match refusal_line(alloc, fault) {
        Ok(Some(line)) => Stop::Said {
            answer: Answer { status: 4, line },
        },
        Ok(None) => Stop::NoMemory,
        Err(NoMemory) => Stop::NoMemory,
    }
}

/// The line of a script's fault; none where memory was refused.
fn refusal_line(alloc: Global, fault: ScriptFault) -> Result<Option<Vec<u8>>, NoMemory>
    ensures { IfOk result (λ o. MatchOption o (script_line fault ≡ None)
        (λ line. script_line fault ≡ Some line.items)) }
{
    match fault {
        ScriptFault::Line { number } => fault_line(alloc, number, b"Line"),
        ScriptFault::Holding { number } => fault_line(alloc, number, b"Holding"),
        ScriptFault::Idle { number } => fault_line(alloc, number, b"Idle"),
        ScriptFault::NoMemory => Ok(None),
    }
}

/// The line that names a fault and its place.
fn fault_line(alloc: Global, number: u32, name: &[u8]) -> Result<Option<Vec<u8>>, NoMemory>
    ensures line { IfOk result (λ o. IfSome o (λ text. fault_line number name.now
        ≡ Some text.items)) }
    ensures there { IfOk result (λ o. IsSome o) }
{
    let mut text = Vec::new(alloc);
    push_bytes(&mut text, b"refused script ")?;
    push_number(&mut text, number as u64)?;
    push_bytes(&mut text, b" ")?;
    push_bytes(&mut text, name)?;
    push_bytes(&mut text, b"\n")?;
    Ok(Some(text))
}

/// Plays a script on a problem, a turn a line: puts each command as soon as its turn has ended, and
/// then the result. The clock is not read.
fn play<O: Sink, C: Clock>(
    alloc: Global,
    problem: &Problem,
    limits: Limits,
    script: &[ScriptLine],
    out: &mut O,
    clock: C,
) -> Ending<C>
    requires formed { IsWellFormed problem.now }
    requires limits { AreLimits limits }
    requires script { IsPlayable script.now }
    ensures ends { EndsPlay problem.now limits script.now result.history.items (O.view out.old)
        (O.view out.new) result.status }
    ensures clock { result.clock ≡ clock }
{
    commands_of_history();
    commitments_of_runs();
    match run_script(alloc, problem, limits, script, out) {
        Ok(played) => {
            let Played { history, sent } = played;
            let status = print_end(alloc, problem, sent, out, &history);
            Ending {
                status,
                history,
                clock,
            }
        }
        Err(NoMemory) => unsearched(alloc, 7, clock),
    }
}
