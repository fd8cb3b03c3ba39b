ghost use Rattle.std.specs.Prelude.{◌≡◌, ◌<◌, ◌≤◌, ◌^◌, [], ◌∷◌, length, IfOk, IfErr, Some};
ghost use Rattle.pddl_tokens.specs.Numbers.{IsScale};
ghost use Rattle.problem_files.specs.Answers.{IsPddlProblem};
ghost use Rattle.run_cli.specs.Grounds.{IsTextOf, IsFaultyText};
ghost use Rattle.run_cli.specs.Sources.{IsScaled, AreTextsOf, texts_of, ReadsAs, IsRefusal, IsGroundRefusal, IsPddlRefusal};

use crate::answer::Answer;
use crate::loading::{SourceTexts, Stop};
use crate::verdicts::ground_line;
use crate::words::Source;
use ground_text::read_problem_text;
use problem_files::{fault_line, read_pddl};
use std::alloc::Global;
use tp_spec::{LineFault, Problem};

/// The problem whose ground text this is, of less than 2^31 bytes; else the text's first line that
/// doesn't fit, or want of memory.
fn read_ground(alloc: Global, text: &[u8]) -> Result<Problem, LineFault>
    requires { length text.now < 2 ^ 31 }
    ensures problem { IfOk result (IsTextOf text.now) }
    ensures fault { IfErr result (IsFaultyText text.now) }
{
    read_problem_text(alloc, text)
}

/// The problem of a ground text, or the line that tells its fault.
fn read_ground_file(alloc: Global, text: &[u8]) -> Result<Problem, Stop>
    requires { length text.now ≤ 1048576 }
    ensures problem { IfOk result (IsTextOf text.now) }
    ensures stop { IfErr result (IsGroundRefusal text.now) }
{
    match read_ground(alloc, text) {
        Ok(problem) => Ok(problem),
        Err(fault) => {
            let line = ground_line(alloc, fault)?;
            Err(Stop::Said {
                answer: Answer { status: 4, line },
            })
        }
    }
}

/// The problem of the texts of a domain and a problem, or the line that tells the first fault.
fn read_pddl_files(
    alloc: Global,
    domain: &[u8],
    problem: &[u8],
    scale: u32,
) -> Result<Problem, Stop>
    requires domain { length domain.now ≤ 1048576 }
    requires problem { length problem.now ≤ 1048576 }
    requires scale { IsScale scale }
    ensures problem { IfOk result (IsPddlProblem domain.now problem.now scale) }
    ensures stop { IfErr result (IsPddlRefusal domain.now problem.now scale) }
{
    match read_pddl(alloc, domain, problem, scale) {
        Ok(problem) => Ok(problem),
        Err(fault) => {
            let line = fault_line(alloc, &fault)?;
            Err(Stop::Said {
                answer: Answer { status: 4, line },
            })
        }
    }
}

/// The problem of the texts of a source, or the line that tells their first fault.
pub fn read_source(alloc: Global, source: &Source, texts: &SourceTexts) -> Result<Problem, Stop>
    requires scaled { IsScaled source.now }
    requires texts { AreTextsOf source.now texts.now }
    ensures problem { IfOk result (ReadsAs source.now (texts_of texts.now)) }
    ensures stop { IfErr result (IsRefusal source.now (texts_of texts.now)) }
{
    match texts {
        SourceTexts::GroundText { text } => read_ground_file(alloc, text),
        SourceTexts::Pddl {
            domain,
            problem,
            scale,
        } => read_pddl_files(alloc, domain, problem, *scale),
    }
}
