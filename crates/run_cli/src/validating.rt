ghost use Rattle.std.specs.Prelude.{◌≡◌, ◌<◌, ◌≤◌, ◌⊎◌, [], ◌∷◌, ◌++◌, IfOk, OnErr, length};
ghost use Rattle.tp_world.specs.Loads.{AsksFront};
ghost use Rattle.run_cli.specs.Statuses.{EndsValidate};
ghost use Rattle.run_cli.specs.Sources.{IsScaled, source_files};
ghost use Rattle.run_cli.specs.Stopping.{file_of};
ghost use Rattle.run_cli.specs.Validating.{verdict_status, IsPlanAnswer, IsAnswer};
ghost use Rattle.run_cli.specs.declared.loading.Role.TheVariants.{PlanFile};

use crate::answer::Answer;
use crate::ending::{Ending, say, unsearched};
use crate::loading::{Role, Stop, load_problem_and};
use crate::verdicts::{plan_line, verdict_text};
use crate::words::Source;
use plan_text::read_plan;
use plan_validator::{Verdict, validate};
use std::alloc::Global;
use tp_spec::{Limits, NoMemory, Problem};
use tp_world::{Clock, Files, Sink};

/// 0 where a plan is valid, else 1.
fn verdict_status(verdict: &Verdict) -> u8
    ensures status { result ≡ verdict_status verdict.now }
    ensures below { result < 2 }
{
    match verdict {
        Verdict::Valid => 0,
        _ => 1,
    }
}

/// The verdict on the plan of a file, or the file's fault.
fn plan_answer(
    alloc: Global,
    problem: &Problem,
    limits: &Limits,
    bytes: &[u8],
) -> Result<Answer, NoMemory>
    requires { length bytes.now ≤ 1048576 }
    ensures { IfOk result
        (λ a. IsPlanAnswer problem.now limits.now bytes.now a.status a.line.items) }
{
    match read_plan(alloc, problem, bytes) {
        Ok(plan) => {
            let verdict = validate(alloc, problem, limits, &plan)?;
            let status = verdict_status(&verdict);
            let line = verdict_text(alloc, verdict)?;
            Ok(Answer { status, line })
        }
        Err(fault) => {
            let line = plan_line(alloc, fault)?;
            Ok(Answer { status: 4, line })
        }
    }
}

/// What the files of a source and a plan file give. All are loaded before one is read.
fn files_answer<F: Files>(
    alloc: Global,
    source: &Source,
    plan: &str,
    limits: &Limits,
    files: &mut F,
) -> Result<Answer, NoMemory>
    requires { IsScaled source.now }
    ensures answer { IfOk result (λ a. IsAnswer limits.now source.now (file_of PlanFile plan.now)
        (F.view files.old) (F.view files.new) a.status a.line.items) }
    ensures memory { OnErr result (AsksFront
        (source_files source.now ++ file_of PlanFile plan.now ∷ []) (F.view files.old)
        (F.view files.new)) }
    ensures contents { (F.view files.new).contents ≡ (F.view files.old).contents }
{
    match load_problem_and(alloc, source, Role::PlanFile, plan, files) {
        Ok((problem, bytes)) => plan_answer(alloc, &problem, limits, &bytes),
        Err(Stop::Said { answer }) => Ok(answer),
        Err(Stop::NoMemory) => Err(NoMemory),
    }
}

/// Judges the plan of a plan file for a problem, and prints the verdict. The status is 0 where the
/// plan is valid and 1 where it is not, 4 where a file is refused, 5 where one can't be loaded, 6
/// where the output fails, and 7 where memory is refused.
pub fn judge_files<F: Files, O: Sink, C: Clock>(
    alloc: Global,
    source: &Source,
    plan: &str,
    limits: &Limits,
    files: &mut F,
    out: &mut O,
    clock: C,
) -> Ending<C>
    requires { IsScaled source.now }
    ensures ends { EndsValidate limits.now source.now plan.now (record {
      files = F.view files.old;
      sink = O.view out.old;
    }) (record { files = F.view files.new; sink = O.view out.new }) result.status }
    ensures contents { (F.view files.new).contents ≡ (F.view files.old).contents }
    ensures history { result.history.items ≡ [] }
    ensures clock { result.clock ≡ clock }
{
    match files_answer(alloc, source, plan, limits, files) {
        Ok(answer) => say(alloc, out, answer, clock),
        Err(NoMemory) => unsearched(alloc, 7, clock),
    }
}
