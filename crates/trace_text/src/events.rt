ghost use Rattle.std.specs.Prelude.{◌≡◌, IfOk, IfSome, IfNone};
ghost use Rattle.trace_text.specs.declared.keyword.Keyword.TheVariants.{OfTick, OfTake, OfExpand, OfDrop, OfDispatch, OfPublish, OfExhaust, OfLimit, OfHalt};
ghost use Rattle.trace_text.specs.Traces.{event_line};
ghost use Rattle.trace_text.specs.Grammar.{fits_event};
ghost use Rattle.trace_text.specs.Cuts.{IsRead, NoneRead};
ghost use Rattle.trace_text.specs.Reading.{GivesEvent, cause_of};

use crate::cuts::{cut_narrow, cut_pair, cut_wide};
use crate::keyword::{Keyword, keyword_of, split_word};
use crate::rows::{acts_of, marks_of};
use std::alloc::Global;
use tp_spec::{Cause, Event, NoMemory, Plan, Timed};

/// What stands behind `tick`.
fn tick_of(rest: &[u8]) -> Option<Event>
    ensures { GivesEvent OfTick rest.now result }
{
    let (actor, rest) = cut_narrow(rest)?;
    let (reading, rest) = cut_wide(rest)?;
    if rest.is_empty() {
        Some(Event::Tick { actor, reading })
    } else {
        None
    }
}

/// What stands behind `take`.
fn take_of(rest: &[u8]) -> Option<Event>
    ensures { GivesEvent OfTake rest.now result }
{
    let (actor, id, rest) = cut_pair(rest)?;
    if rest.is_empty() {
        Some(Event::Take { actor, id })
    } else {
        None
    }
}

/// What stands behind `expand`.
fn expand_of(alloc: Global, rest: &[u8]) -> Result<Option<Event>, NoMemory>
    ensures { IfOk result (GivesEvent OfExpand rest.now) }
{
    match cut_pair(rest) {
        Some((actor, id, rest)) => match marks_of(alloc, rest)? {
            Some(marks) => Ok(Some(Event::Expand { actor, id, marks })),
            None => Ok(None),
        },
        None => Ok(None),
    }
}

/// What stands behind `drop`.
fn drop_of(rest: &[u8]) -> Option<Event>
    ensures { GivesEvent OfDrop rest.now result }
{
    let (id, rest) = cut_narrow(rest)?;
    if rest.is_empty() {
        Some(Event::Drop { id })
    } else {
        None
    }
}

/// What stands behind `do`.
fn dispatch_of(rest: &[u8]) -> Option<Event>
    ensures { GivesEvent OfDispatch rest.now result }
{
    let (action, rest) = cut_narrow(rest)?;
    let (start, rest) = cut_wide(rest)?;
    let (length, rest) = cut_wide(rest)?;
    if rest.is_empty() {
        Some(Event::Dispatch {
            act: Timed {
                action,
                start,
                length,
            },
        })
    } else {
        None
    }
}

/// What stands behind `publish`.
fn publish_of(alloc: Global, rest: &[u8]) -> Result<Option<Event>, NoMemory>
    ensures { IfOk result (GivesEvent OfPublish rest.now) }
{
    match cut_pair(rest) {
        Some((actor, id, rest)) => match cut_wide(rest) {
            Some((end, rest)) => match acts_of(alloc, rest)? {
                Some(acts) => Ok(Some(Event::Publish {
                    actor,
                    id,
                    plan: Plan { acts, end },
                })),
                None => Ok(None),
            },
            None => Ok(None),
        },
        None => Ok(None),
    }
}

/// What stands behind `exhaust`.
fn exhaust_of(rest: &[u8]) -> Option<Event>
    ensures { GivesEvent OfExhaust rest.now result }
{
    if rest.is_empty() {
        Some(Event::Exhaust)
    } else {
        None
    }
}

/// What stands behind `limit`.
fn limit_of(rest: &[u8]) -> Option<Event>
    ensures { GivesEvent OfLimit rest.now result }
{
    let (actor, id, rest) = cut_pair(rest)?;
    let (made, marks, rest) = cut_pair(rest)?;
    if rest.is_empty() {
        Some(Event::Limit {
            actor,
            id,
            made,
            marks,
        })
    } else {
        None
    }
}

/// The cause that stands behind a space.
fn cause_of(text: &[u8]) -> Option<Cause>
    ensures { result ≡ cause_of text.now }
{
    if text == b" out".as_slice() {
        Some(Cause::Out)
    } else if text == b" script".as_slice() {
        Some(Cause::Script)
    } else if text == b" memory".as_slice() {
        Some(Cause::Memory)
    } else {
        None
    }
}

/// What stands behind `halt`.
fn halt_of(rest: &[u8]) -> Option<Event>
    ensures { GivesEvent OfHalt rest.now result }
{
    let cause = cause_of(rest)?;
    Some(Event::Halt { cause })
}

/// What stands behind a keyword.
fn event_behind(alloc: Global, keyword: Keyword, rest: &[u8]) -> Result<Option<Event>, NoMemory>
    ensures { IfOk result (GivesEvent keyword rest.now) }
{
    match keyword {
        Keyword::OfTick => Ok(tick_of(rest)),
        Keyword::OfTake => Ok(take_of(rest)),
        Keyword::OfExpand => expand_of(alloc, rest),
        Keyword::OfDrop => Ok(drop_of(rest)),
        Keyword::OfDispatch => Ok(dispatch_of(rest)),
        Keyword::OfPublish => publish_of(alloc, rest),
        Keyword::OfExhaust => Ok(exhaust_of(rest)),
        Keyword::OfLimit => Ok(limit_of(rest)),
        Keyword::OfHalt => Ok(halt_of(rest)),
    }
}

/// The event whose line this is, without its line feed; none where it is no event's.
pub fn event_of(alloc: Global, line: &[u8]) -> Result<Option<Event>, NoMemory>
    ensures some { IfOk result (λ found. IfSome found
        (IsRead event_line fits_event line.now)) }
    ensures none { IfOk result (λ found. IfNone found (NoneRead event_line fits_event line.now)) }
{
    let (word, rest) = split_word(line);
    match keyword_of(word) {
        Some(keyword) => match event_behind(alloc, keyword, rest)? {
            Some(event) => Ok(Some(event)),
            None => Ok(None),
        },
        None => Ok(None),
    }
}
