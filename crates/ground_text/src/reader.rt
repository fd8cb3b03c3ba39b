ghost use Rattle.std.specs.Prelude.{◌≡◌, ◌^◌, ◌<◌, length, IfOk, IfErr};
ghost use Rattle.tp_spec.specs.WellFormed.{Ground, IsWellFormed};
ghost use Rattle.line_text.specs.FirstFault.{TellsFault};
ghost use Rattle.ground_text.specs.Texts.{problem_text};
ghost use Rattle.ground_text.specs.Grammar.{IsProblemText, GivesOnly};

use crate::lines::same_bytes;
use crate::search::fault_line;
use crate::sections::read_parts;
use crate::writing::write_problem;
use problem_rules::is_well_formed;
use std::alloc::Global;
use tp_spec::{LineFault, Problem};

/// The problem whose canonical text this is, of less than 2^31 bytes. `Line` where it is the text
/// of no problem: the number, from 1, of the first line such that no ground text begins with the
/// lines up to it. A last piece without a line feed is no line, so it is the fault itself where the
/// lines before it fit; so is the line behind `end` where more follows.
///
/// What is read is written again and compared with the text.
pub fn read_problem_text(alloc: Global, text: &[u8]) -> Result<Problem, LineFault>
    requires { length text.now < 2 ^ 31 }
    // What is read has this text, and keeps the rules of a problem.
    ensures reads { IfOk result (λ p. text.now ≡ problem_text p) }
    ensures formed { IfOk result (λ p. IsWellFormed p) }
    // A line that is told is the first that no ground text has there.
    ensures line { IfErr result (λ fault. TellsFault IsProblemText fault text.now) }
    // Each problem that has this text is the one that is read.
    ensures only { (p : Ground) → IsWellFormed p → text.now ≡ problem_text p → GivesOnly result p }
{
    let parts = read_parts(alloc, text)?;
    let formed = is_well_formed(alloc, &parts)?;
    if !formed {
        return Err(LineFault::Line {
            number: fault_line(alloc, text)?,
        });
    }
    let problem = parts.into_problem();
    let written = write_problem(alloc, &problem)?;
    if same_bytes(written.as_slice(), text) {
        Ok(problem)
    } else {
        Err(LineFault::Line {
            number: fault_line(alloc, text)?,
        })
    }
}
