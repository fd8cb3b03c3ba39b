ghost use Rattle.std.specs.Prelude.{◌≡◌, IfOk};
ghost use Rattle.explanations.specs.Explanations.{place_text, BeginsAtPlace};

use crate::quotes::push_line_and_caret;
use crate::sentences::push_pddl_sentence;
use crate::tokens::token_at;
use fault_places::{LinePlace, place};
use line_text::{push_bytes, push_number};
use std::alloc::Global;
use tp_spec::NoMemory;

/// A place of a file as FILE:LINE:COLUMN and a colon.
fn place_text(alloc: Global, file: &str, place: LinePlace) -> Result<Vec<u8>, NoMemory>
    ensures { IfOk result (λ t. t.items ≡ place_text file.now place) }
{
    let mut text = Vec::new(alloc);
    push_bytes(&mut text, file.as_bytes())?;
    push_bytes(&mut text, b":")?;
    push_number(&mut text, place.line as u64)?;
    push_bytes(&mut text, b":")?;
    push_number(&mut text, place.column as u64)?;
    push_bytes(&mut text, b": ")?;
    Ok(text)
}

/// The sentence of a fault, the line of its place, and a caret below that.
fn sentence_and_line(
    alloc: Global,
    bytes: &[u8],
    place: LinePlace,
    offset: usize,
    fault: &str,
    scale: u32,
) -> Result<Vec<u8>, NoMemory> {
    let mut text = Vec::new(alloc);
    push_pddl_sentence(&mut text, alloc, fault, token_at(bytes, offset), scale)?;
    push_bytes(&mut text, b"\n")?;
    let (front, _) = bytes.split_at(place.end.min(bytes.len()));
    let (_, line) = front.split_at(place.start.min(front.len()));
    push_line_and_caret(&mut text, alloc, line, offset.saturating_sub(place.start))?;
    Ok(text)
}

/// The explanation of a fault of a PDDL file, called as in printed lines, at an offset of its bytes
/// that are read at this scale: its place as `FILE:LINE:COLUMN: `, a sentence of what stands there
/// and why it is refused, the line, and a caret below it.
pub fn explain_pddl(
    alloc: Global,
    file: &str,
    bytes: &[u8],
    offset: usize,
    fault: &str,
    scale: u32,
) -> Result<Vec<u8>, NoMemory>
    ensures { IfOk result (λ t. BeginsAtPlace file.now bytes.now offset t.items) }
{
    let place = place(bytes, offset);
    let mut text = place_text(alloc, file, place)?;
    let rest = sentence_and_line(alloc, bytes, place, offset, fault, scale)?;
    push_bytes(&mut text, &rest)?;
    Ok(text)
}
