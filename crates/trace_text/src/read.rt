ghost use Rattle.std.specs.Prelude.{◌≡◌, [], ◌^◌, ◌<◌, false, bytes_eq, codes, List as Items, length, IfOk, IfErr, IfSome, IfNone, IsTrue};
ghost use Rattle.tp_spec.specs.declared.event.Event.{Event as Happened};
ghost use Rattle.line_text.specs.FirstFault.{TellsFault};
ghost use Rattle.trace_text.specs.Traces.{header_line, trace_text};
ghost use Rattle.trace_text.specs.Grammar.{is_wide, IsTraceable, IsTrace, GivesOnly};
ghost use Rattle.trace_text.specs.Cuts.{IsRead, NoneRead};
ghost use Rattle.trace_text.specs.Begun.{BeginsTrace};

use crate::cuts::cut_wide;
use crate::events::event_of;
use crate::keyword::split_word;
use line_text::cut_line;
use std::alloc::Global;
use tp_spec::{Event, LineFault, List};

/// Whether a word is `trace`.
fn is_trace(word: &[u8]) -> bool
    ensures { result ≡ bytes_eq word.now (codes "trace") }
{
    word == b"trace".as_slice()
}

/// The count of events that a first line tells.
fn count_of(line: &[u8]) -> Option<u64>
    ensures some { IfSome result (IsRead header_line is_wide line.now) }
    ensures none { IfNone result (NoneRead header_line is_wide line.now) }
{
    let (word, rest) = split_word(line);
    if !is_trace(word) {
        return None;
    }
    let (version, rest) = cut_wide(rest)?;
    let (count, rest) = cut_wide(rest)?;
    if version != 1 {
        return None;
    }
    if rest.is_empty() { Some(count) } else { None }
}

/// Whether nothing is left to read and no event is to come.
fn is_end(rest: &[u8], left: u64) -> bool
    ensures yes { IsTrue result → (rest.now ≡ []) × (left ≡ 0) }
    ensures no { result ≡ false → rest.now ≡ [] → left ≡ 0 → ⊥ }
{
    rest.is_empty() && left == 0
}

/// The history of a trace whose first line tells this count and has this rest behind it.
fn events_of(
    alloc: Global,
    text: &[u8],
    count: u64,
    behind: &[u8],
) -> Result<List<Event>, LineFault>
    requires short { length text.now < 2 ^ 31 }
    requires first { BeginsTrace text.now count behind.now }
    ensures reads { IfOk result (λ events. text.now ≡ trace_text events) }
    ensures traceable { IfOk result (λ events. IsTraceable events) }
    ensures line { IfErr result (λ fault. TellsFault IsTrace fault text.now) }
    ensures only { (history : Items Happened) → IsTraceable history
        → text.now ≡ trace_text history → GivesOnly result history }
{
    let mut events = List::new(alloc);
    let mut left = count;
    let mut number = 2;
    let mut rest = behind;
    'lines: loop {
        match cut_line(rest) {
            Some((line, back)) => {
                if left == 0 {
                    return Err(LineFault::Line { number });
                }
                match event_of(alloc, line)? {
                    Some(event) => events.push(event)?,
                    None => return Err(LineFault::Line { number }),
                }
                left -= 1;
                number += 1;
                rest = back;
            }
            None => {
                if is_end(rest, left) {
                    return Ok(events);
                }
                return Err(LineFault::Line { number });
            }
        }
    }
}

/// The history whose trace this is, of less than 2^31 bytes. `Line` where it is the trace of no
/// history: the number, from 1, of the first line such that no trace begins with the lines up to
/// it. A last piece without a line feed is no line, so it is the fault itself where the lines
/// before it fit; so is the line behind the last event where more follows, and the end of the text
/// where fewer events follow than the first line tells.
///
/// It takes time and memory in proportion to the text, and reads each line once.
pub fn read_trace(alloc: Global, text: &[u8]) -> Result<List<Event>, LineFault>
    requires { length text.now < 2 ^ 31 }
    // What is read has this text, and its numbers fit their types.
    ensures reads { IfOk result (λ events. text.now ≡ trace_text events) }
    ensures traceable { IfOk result (λ events. IsTraceable events) }
    // A line that is told is the first that no trace has there.
    ensures line { IfErr result (λ fault. TellsFault IsTrace fault text.now) }
    // Each history that has this text is the one that is read.
    ensures only { (history : Items Happened) → IsTraceable history
        → text.now ≡ trace_text history → GivesOnly result history }
{
    match cut_line(text) {
        Some((line, behind)) => match count_of(line) {
            Some(count) => events_of(alloc, text, count, behind),
            None => Err(LineFault::Line { number: 1 }),
        },
        None => Err(LineFault::Line { number: 1 }),
    }
}
