ghost use Rattle.std.specs.Prelude.{◌≡◌, ◌<◌, ◌≤◌, ◌⊎◌, [], ◌∷◌, ◌++◌, Some, IfOk, OnErr, length, codes, decimal};
ghost use Rattle.tp_spec.specs.WellFormed.{IsWellFormed};
ghost use Rattle.tp_world.specs.Loads.{AsksFront};
ghost use Rattle.word_network.specs.Conditions.{AreLimits};
ghost use Rattle.run_cli.specs.Statuses.{EndsReplay};
ghost use Rattle.run_cli.specs.Sources.{IsScaled, source_files};
ghost use Rattle.run_cli.specs.Stopping.{file_of};
ghost use Rattle.run_cli.specs.Replaying.{rule_name, replayed_text, replayed_status, trace_line, IsTraceAnswer, IsAnswer};
ghost use Rattle.run_cli.specs.declared.loading.Role.TheVariants.{Trace};

use crate::answer::Answer;
use crate::ending::{Ending, say, unsearched};
use crate::loading::{Role, Stop, load_problem_and};
use crate::verdicts::numbered;
use crate::words::Source;
use line_text::push_bytes;
use situated_machine::{Replayed, Rule, replay};
use std::alloc::Global;
use tp_spec::{Limits, LineFault, NoMemory, Problem};
use tp_world::{Clock, Files, Sink};
use trace_text::read_trace;

/// The name of a rule in printed lines.
fn rule_name(rule: Rule) -> &'static [u8]
    ensures { result.now ≡ rule_name rule }
{
    match rule {
        Rule::Outcome => b"Outcome",
        Rule::Turn => b"Turn",
        Rule::Id => b"Id",
        Rule::Least => b"Least",
        Rule::Live => b"Live",
        Rule::Marks => b"Marks",
        Rule::Commit => b"Commit",
        Rule::Plan => b"Plan",
        Rule::Number => b"Number",
        Rule::Early => b"Early",
    }
}

/// The line that names the first event that breaks a rule, and the rule.
fn broken_text(alloc: Global, event: u32, rule: Rule) -> Result<Vec<u8>, NoMemory>
    ensures { IfOk result (λ t. t.items ≡ codes "broken " ++ decimal event ++ codes " "
        ++ rule_name rule ++ codes "\n") }
{
    let mut text = numbered(alloc, b"broken ", u64::from(event), b" ")?;
    push_bytes(&mut text, rule_name(rule))?;
    push_bytes(&mut text, b"\n")?;
    Ok(text)
}

/// What is printed of a replay: `replayed` and the number of events, or `broken`, the first event
/// that breaks a rule, counted from 0, and the name of that rule.
fn replayed_text(alloc: Global, answer: Replayed) -> Result<Vec<u8>, NoMemory>
    ensures { IfOk result (λ t. t.items ≡ replayed_text answer) }
{
    match answer {
        Replayed::Run { events } => numbered(alloc, b"replayed ", u64::from(events), b"\n"),
        Replayed::Broken { event, rule } => broken_text(alloc, event, rule),
    }
}

/// 0 where no rule is broken, else 1.
fn replayed_status(answer: Replayed) -> u8
    ensures status { result ≡ replayed_status answer }
    ensures below { result < 2 }
{
    match answer {
        Replayed::Run { .. } => 0,
        Replayed::Broken { .. } => 1,
    }
}

/// The line for a trace that is refused, with the number that `read_trace` tells.
fn trace_line(alloc: Global, fault: LineFault) -> Result<Vec<u8>, NoMemory>
    ensures { IfOk result (λ t. trace_line fault ≡ Some t.items) }
{
    match fault {
        LineFault::Line { number } => {
            numbered(alloc, b"refused trace ", u64::from(number), b" Line\n")
        }
        LineFault::NoMemory => Err(NoMemory),
    }
}

/// What a replay gives of the trace of a file, or the file's fault.
#[tactic(auto, using(crate::proofs::FewEvents::refused_trace))]
fn trace_answer(
    alloc: Global,
    problem: &Problem,
    limits: &Limits,
    bytes: &[u8],
) -> Result<Answer, NoMemory>
    requires short { length bytes.now ≤ 67108864 }
    requires formed { IsWellFormed problem.now }
    requires limited { AreLimits limits.now }
    ensures { IfOk result
        (λ a. IsTraceAnswer problem.now limits.now bytes.now a.status a.line.items) }
{
    match read_trace(alloc, bytes) {
        Ok(history) => {
            let answer = replay(alloc, problem, limits, history.as_slice())?;
            let status = replayed_status(answer);
            let line = replayed_text(alloc, answer)?;
            Ok(Answer { status, line })
        }
        Err(fault) => {
            let line = trace_line(alloc, fault)?;
            Ok(Answer { status: 4, line })
        }
    }
}

/// What the files of a source and a trace give. All are loaded before one is read.
fn files_answer<F: Files>(
    alloc: Global,
    source: &Source,
    trace: &str,
    limits: &Limits,
    files: &mut F,
) -> Result<Answer, NoMemory>
    requires scaled { IsScaled source.now }
    requires limited { AreLimits limits.now }
    ensures answer { IfOk result (λ a. IsAnswer limits.now source.now (file_of Trace trace.now)
        (F.view files.old) (F.view files.new) a.status a.line.items) }
    ensures memory { OnErr result (AsksFront
        (source_files source.now ++ file_of Trace trace.now ∷ []) (F.view files.old)
        (F.view files.new)) }
    ensures contents { (F.view files.new).contents ≡ (F.view files.old).contents }
{
    match load_problem_and(alloc, source, Role::Trace, trace, files) {
        Ok((problem, bytes)) => trace_answer(alloc, &problem, limits, &bytes),
        Err(Stop::Said { answer }) => Ok(answer),
        Err(Stop::NoMemory) => Err(NoMemory),
    }
}

/// Judges the trace of a run on a problem by the rules of the situated machine that can be judged
/// event by event, and prints how many events it has, or the first event that breaks a rule and the
/// rule. The status is 0 where no rule is broken and 1 where one is, 4 where a file is refused, 5
/// where one can't be loaded, 6 where the output fails, and 7 where memory is refused.
pub fn replay_files<F: Files, O: Sink, C: Clock>(
    alloc: Global,
    source: &Source,
    trace: &str,
    limits: &Limits,
    files: &mut F,
    out: &mut O,
    clock: C,
) -> Ending<C>
    requires scaled { IsScaled source.now }
    requires limited { AreLimits limits.now }
    ensures ends { EndsReplay limits.now source.now trace.now (record {
      files = F.view files.old;
      sink = O.view out.old;
    }) (record { files = F.view files.new; sink = O.view out.new }) result.status }
    ensures contents { (F.view files.new).contents ≡ (F.view files.old).contents }
    ensures history { result.history.items ≡ [] }
    ensures clock { result.clock ≡ clock }
{
    match files_answer(alloc, source, trace, limits, files) {
        Ok(answer) => say(alloc, out, answer, clock),
        Err(NoMemory) => unsearched(alloc, 7, clock),
    }
}
