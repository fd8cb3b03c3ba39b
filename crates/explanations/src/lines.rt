ghost use Rattle.std.specs.Prelude.{◌≡◌, ◌<◌, ◌^◌, IfOk};
ghost use Rattle.explanations.specs.Explanations.{line_text, BeginsAtLine};

use crate::quotes::push_line;
use crate::sentences::line_sentence;
use fault_places::{line_offset, place};
use line_text::{push_bytes, push_number};
use std::alloc::Global;
use tp_spec::NoMemory;

/// A line of a file as FILE:LINE and a colon.
fn line_text(alloc: Global, file: &str, number: usize) -> Result<Vec<u8>, NoMemory>
    ensures { IfOk result (λ t. t.items ≡ line_text file.now number) }
{
    let mut text = Vec::new(alloc);
    push_bytes(&mut text, file.as_bytes())?;
    push_bytes(&mut text, b":")?;
    push_number(&mut text, number as u64)?;
    push_bytes(&mut text, b": ")?;
    Ok(text)
}

/// What is wrong with a line that can't be told by looking at it: a carriage return before its line
/// feed, or no line feed. Plan files may have both.
fn end_words(role: &str, line: &[u8], ended: bool) -> &'static str {
    if role == "plan" {
        return "";
    }
    match line {
        [.., b'\r'] => " (a carriage return stands at its end)",
        _ => {
            if ended {
                ""
            } else {
                " (no line feed stands at its end)"
            }
        }
    }
}

/// The sentence of a fault of a line, and the line.
fn sentence_and_line(
    alloc: Global,
    bytes: &[u8],
    number: usize,
    role: &str,
    fault: &str,
) -> Result<Vec<u8>, NoMemory> {
    let mut text = Vec::new(alloc);
    let start = line_offset(bytes, number.saturating_sub(1));
    if start == bytes.len() {
        push_bytes(&mut text, b"the file ends here, and lines are missing\n")?;
        return Ok(text);
    }
    let end = place(bytes, start).end;
    let (front, behind) = bytes.split_at(end.min(bytes.len()));
    let (_, line) = front.split_at(start.min(front.len()));
    push_bytes(&mut text, line_sentence(role, fault).as_bytes())?;
    push_bytes(
        &mut text,
        end_words(role, line, !behind.is_empty()).as_bytes(),
    )?;
    push_bytes(&mut text, b"\n")?;
    push_line(&mut text, alloc, line)?;
    Ok(text)
}

/// The explanation of a fault of a line, counted from 1, of a file of lines in this role: its place
/// as `FILE:LINE: `, a sentence of why it is refused, and the line.
pub fn explain_line(
    alloc: Global,
    file: &str,
    bytes: &[u8],
    number: usize,
    role: &str,
    fault: &str,
) -> Result<Vec<u8>, NoMemory>
    ensures { IfOk result (λ t. BeginsAtLine file.now number t.items) }
{
    let mut text = line_text(alloc, file, number)?;
    let rest = sentence_and_line(alloc, bytes, number, role, fault)?;
    push_bytes(&mut text, &rest)?;
    Ok(text)
}
