ghost use Rattle.std.specs.Prelude.{◌≡◌, ◌≤◌, ◌<◌, ◌+◌, ◌^◌, false, length, IfOk, IsTrue};
ghost use Rattle.ground_text.specs.Reading.{parts_at};
ghost use Rattle.line_text.specs.Lines.{lines};
ghost use Rattle.line_text.specs.FirstFault.{Tells};
ghost use Rattle.ground_text.specs.Grammar.{IsProblemText};
ghost use Rattle.ground_text.specs.Completion.{completed, NoneBegins, SomeBegins};
ghost use Rattle.ground_text.specs.Filling.{AreCompleted};

use crate::completion::complete;
use crate::lines::first_lines;
use crate::sections::read_parts;
use crate::unwritten::{filled_begins, is_filled_well};
use problem_rules::Parts;
use std::alloc::{AllocError, Global};
use tp_spec::NoMemory;

/// What was read of the first lines of a text, completed to the parts of a problem, but for names
/// that stay unwritten. None where a tick would not fit.
fn completed_lines(alloc: Global, front: &[u8]) -> Result<Option<Parts>, AllocError>
    ensures { IfOk result (λ o. AreCompleted (parts_at front.now) o) }
{
    let read = read_parts(alloc, front)?;
    complete(alloc, read)
}

/// Whether some ground text begins with the first lines of a text: the one of their completion does
/// then.
fn begins_some(alloc: Global, text: &[u8], count: usize) -> Result<bool, NoMemory>
    ensures yes { IfOk result (λ is. IsTrue is
        → SomeBegins count text.now (completed (parts_at (lines count text.now)))) }
    ensures no { IfOk result (λ is. is ≡ false → NoneBegins count text.now) }
{
    let (front, all) = first_lines(text, count);
    if !all {
        return Ok(false);
    }
    let completion = completed_lines(alloc, front)?;
    match completion {
        None => Ok(false),
        Some(parts) => {
            let formed = is_filled_well(alloc, &parts)?;
            if !formed {
                return Ok(false);
            }
            filled_begins(alloc, &parts, front)
        }
    }
}

/// The greatest number of lines found by halving that begin some ground text: none begins with one
/// line more.
fn last_begun(alloc: Global, text: &[u8]) -> Result<usize, NoMemory>
    ensures begins { IfOk result (λ n. SomeBegins n text.now
        (completed (parts_at (lines n text.now)))) }
    ensures ends { IfOk result (λ n. NoneBegins (n + 1) text.now) }
    ensures within { IfOk result (λ n. n ≤ length text.now) }
{
    let mut low = 0;
    // One more line than the text can have, since each has a line feed.
    let mut high = text.len() + 1;
    'halves: loop {
        if high - low <= 1 {
            return Ok(low);
        }
        let middle = low + (high - low) / 2;
        if begins_some(alloc, text, middle)? {
            low = middle;
        } else {
            high = middle;
        }
    }
}

/// The number, from 1, of the first line such that no ground text begins with the lines up to it.
pub fn fault_line(alloc: Global, text: &[u8]) -> Result<u32, NoMemory>
    requires { length text.now < 2 ^ 31 }
    ensures { IfOk result (λ n. Tells IsProblemText n text.now) }
{
    let begun = last_begun(alloc, text)?;
    Ok(begun as u32 + 1)
}
