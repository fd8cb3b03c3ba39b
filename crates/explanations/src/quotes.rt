use fault_places::caret_line;
use line_text::push_bytes;
use std::alloc::{AllocError, Global};
use tp_spec::NoMemory;

/// How many bytes of a long line are shown on either side of a place.
const SIDE: usize = 70;

/// The most bytes of a word that is quoted.
const MOST_OF_WORD: usize = 60;

/// A text as it may be shown: what is no UTF-8 and what steers a terminal is replaced by U+FFFD.
fn shown(alloc: Global, bytes: &[u8]) -> Result<String, AllocError> {
    let lossy = String::from_utf8_lossy(alloc, bytes)?;
    let mut text = String::new(alloc);
    for c in lossy.chars() {
        text.push(if c.is_control() && c != '\t' {
            '\u{FFFD}'
        } else {
            c
        })?;
    }
    Ok(text)
}

/// Puts a text behind another one, as it may be shown.
pub(crate) fn push_shown(text: &mut Vec<u8>, alloc: Global, bytes: &[u8]) -> Result<(), NoMemory> {
    let shown = shown(alloc, bytes)?;
    push_bytes(text, shown.as_bytes())
}

/// Puts a word in quotation marks behind a text, cut where it is long, between a front and an end.
pub(crate) fn push_quoted(
    text: &mut Vec<u8>,
    alloc: Global,
    word: &[u8],
    front: &[u8],
    end: &[u8],
) -> Result<(), NoMemory> {
    let (shown, rest) = word.split_at(word.len().min(MOST_OF_WORD));
    push_bytes(text, b"'")?;
    push_bytes(text, front)?;
    push_shown(text, alloc, shown)?;
    if !rest.is_empty() {
        push_bytes(text, b"..")?;
    }
    push_bytes(text, end)?;
    push_bytes(text, b"'")
}

/// A line without the carriage return at its end.
pub(crate) fn without_return(line: &[u8]) -> &[u8] {
    match line {
        [front @ .., b'\r'] => front,
        _ => line,
    }
}

/// Puts a line, and below it a caret at an offset in it; of a long one the part around the offset,
/// and nothing of an empty one.
pub(crate) fn push_line_and_caret(
    text: &mut Vec<u8>,
    alloc: Global,
    line: &[u8],
    offset: usize,
) -> Result<(), NoMemory> {
    let line = without_return(line);
    if line.is_empty() {
        return Ok(());
    }
    let offset = offset.min(line.len());
    let (before, behind) = line.split_at(offset);
    let skipped = if before.len() > SIDE {
        before.len() - SIDE
    } else {
        0
    };
    let (_, before) = before.split_at(skipped);
    let (behind, _) = behind.split_at(behind.len().min(SIDE));
    push_shown(text, alloc, before)?;
    push_shown(text, alloc, behind)?;
    push_bytes(text, b"\n")?;
    push_bytes(text, &caret_line(alloc, before, before.len())?)?;
    push_bytes(text, b"\n")
}

/// Puts a line; of a long one its front.
pub(crate) fn push_line(text: &mut Vec<u8>, alloc: Global, line: &[u8]) -> Result<(), NoMemory> {
    let line = without_return(line);
    let (front, rest) = line.split_at(line.len().min(2 * SIDE));
    push_shown(text, alloc, front)?;
    push_bytes(text, if rest.is_empty() { b"\n" } else { b"..\n" })
}
