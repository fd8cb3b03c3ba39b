ghost use Rattle.std.specs.Prelude.{◌≡◌, ◌++◌, OnOk, IfOk};
ghost use Rattle.tp_spec.specs.declared.event.Event.TheVariants.{Dispatch, Expand, Publish, Limit};
ghost use Rattle.trace_text.specs.Traces.{field, listed, mark_text, act_text, sign_text, cause_text, event_line, event_lines, header_line, trace_text};

use line_text::{push_bytes, push_item, push_number};
use std::alloc::Global;
use tp_spec::{Cause, Event, Mark, NoMemory, Plan, Timed};

/// Puts a number behind a space.
#[tactic(auto, unfolding(crate::specs::Traces::field))]
fn put_field(text: &mut Vec<u8>, number: u64) -> Result<(), NoMemory>
    ensures { OnOk result (text.new.items ≡ text.old.items ++ field number) }
{
    push_bytes(text, b" ")?;
    push_number(text, number)
}

/// Puts two numbers, each behind a space.
fn put_pair(text: &mut Vec<u8>, first: u64, second: u64) -> Result<(), NoMemory>
    ensures { OnOk result (text.new.items ≡ text.old.items ++ (field first ++ field second)) }
{
    put_field(text, first)?;
    put_field(text, second)
}

/// The sign of a mark: whether it is fresh.
fn sign_of(mark: &Mark) -> &'static [u8]
    ensures { result.now ≡ sign_text mark.now }
{
    if mark.fresh { b"+" } else { b"." }
}

#[tactic(auto, unfolding(crate::specs::Traces::mark_text))]
fn put_mark(text: &mut Vec<u8>, mark: &Mark) -> Result<(), NoMemory>
    ensures { OnOk result (text.new.items ≡ text.old.items ++ mark_text mark.now) }
{
    push_bytes(text, sign_of(mark))?;
    push_item(text, mark.item)
}

/// Puts marks, each behind a space.
#[tactic(auto, unfolding(crate::specs::Traces::listed))]
fn put_marks(text: &mut Vec<u8>, marks: &[Mark]) -> Result<(), NoMemory>
    ensures { OnOk result (text.new.items ≡ text.old.items ++ listed mark_text marks.now) }
{
    for mark in marks {
        push_bytes(text, b" ")?;
        put_mark(text, mark)?;
    }
    Ok(())
}

#[tactic(auto, unfolding(crate::specs::Traces::act_text))]
fn put_act(text: &mut Vec<u8>, act: &Timed) -> Result<(), NoMemory>
    ensures { OnOk result (text.new.items ≡ text.old.items ++ act_text act.now) }
{
    push_number(text, u64::from(act.action))?;
    push_bytes(text, b":")?;
    push_number(text, act.start)?;
    push_bytes(text, b":")?;
    push_number(text, act.length)
}

/// Puts acts, each behind a space.
#[tactic(auto, unfolding(crate::specs::Traces::listed))]
fn put_acts(text: &mut Vec<u8>, acts: &[Timed]) -> Result<(), NoMemory>
    ensures { OnOk result (text.new.items ≡ text.old.items ++ listed act_text acts.now) }
{
    for act in acts {
        push_bytes(text, b" ")?;
        put_act(text, act)?;
    }
    Ok(())
}

#[tactic(auto, unfolding(crate::specs::Traces::event_line))]
fn put_dispatch(text: &mut Vec<u8>, act: &Timed) -> Result<(), NoMemory>
    ensures { OnOk result (text.new.items ≡ text.old.items ++ event_line (Dispatch act.now)) }
{
    push_bytes(text, b"do")?;
    put_field(text, u64::from(act.action))?;
    put_pair(text, act.start, act.length)
}

#[tactic(auto, unfolding(crate::specs::Traces::event_line))]
fn put_expand(text: &mut Vec<u8>, actor: u32, id: u32, marks: &[Mark]) -> Result<(), NoMemory>
    ensures { OnOk result (text.new.items ≡ text.old.items
        ++ event_line (Expand actor id marks.now)) }
{
    push_bytes(text, b"expand")?;
    put_pair(text, u64::from(actor), u64::from(id))?;
    put_marks(text, marks)
}

#[tactic(auto, unfolding(crate::specs::Traces::event_line))]
fn put_publish(text: &mut Vec<u8>, actor: u32, id: u32, plan: &Plan) -> Result<(), NoMemory>
    ensures { OnOk result (text.new.items ≡ text.old.items
        ++ event_line (Publish actor id plan.now)) }
{
    push_bytes(text, b"publish")?;
    put_pair(text, u64::from(actor), u64::from(id))?;
    put_field(text, plan.end)?;
    put_acts(text, plan.acts.as_slice())
}

#[tactic(auto, unfolding(crate::specs::Traces::event_line))]
fn put_limit(text: &mut Vec<u8>, actor: u32, id: u32, made: u32, marks: u32) -> Result<(), NoMemory>
    ensures { OnOk result (text.new.items ≡ text.old.items
        ++ event_line (Limit actor id made marks)) }
{
    push_bytes(text, b"limit")?;
    put_pair(text, u64::from(actor), u64::from(id))?;
    put_pair(text, u64::from(made), u64::from(marks))
}

fn cause_word(cause: Cause) -> &'static [u8]
    ensures { result.now ≡ cause_text cause }
{
    match cause {
        Cause::Out => b"out",
        Cause::Script => b"script",
        Cause::Memory => b"memory",
    }
}

/// Puts the line of an event, without its line feed.
#[tactic(auto, unfolding(crate::specs::Traces::event_line))]
fn put_event(text: &mut Vec<u8>, event: &Event) -> Result<(), NoMemory>
    ensures { OnOk result (text.new.items ≡ text.old.items ++ event_line event.now) }
{
    match event {
        Event::Tick { actor, reading } => {
            push_bytes(text, b"tick")?;
            put_pair(text, u64::from(*actor), *reading)
        }
        Event::Take { actor, id } => {
            push_bytes(text, b"take")?;
            put_pair(text, u64::from(*actor), u64::from(*id))
        }
        Event::Expand { actor, id, marks } => put_expand(text, *actor, *id, marks.as_slice()),
        Event::Drop { id } => {
            push_bytes(text, b"drop")?;
            put_field(text, u64::from(*id))
        }
        Event::Dispatch { act } => put_dispatch(text, act),
        Event::Publish { actor, id, plan } => put_publish(text, *actor, *id, plan),
        Event::Exhaust => push_bytes(text, b"exhaust"),
        Event::Limit {
            actor,
            id,
            made,
            marks,
        } => put_limit(text, *actor, *id, *made, *marks),
        Event::Halt { cause } => {
            push_bytes(text, b"halt ")?;
            push_bytes(text, cause_word(*cause))
        }
    }
}

/// Puts the lines of events, each ended by a line feed.
#[tactic(auto, unfolding(crate::specs::Traces::event_lines))]
fn put_events(text: &mut Vec<u8>, events: &[Event]) -> Result<(), NoMemory>
    ensures { OnOk result (text.new.items ≡ text.old.items ++ event_lines events.now) }
{
    for event in events {
        put_event(text, event)?;
        push_bytes(text, b"\n")?;
    }
    Ok(())
}

/// Puts the first line, without its line feed.
#[tactic(auto, unfolding(crate::specs::Traces::header_line))]
fn put_header(text: &mut Vec<u8>, count: u64) -> Result<(), NoMemory>
    ensures { OnOk result (text.new.items ≡ text.old.items ++ header_line count) }
{
    push_bytes(text, b"trace")?;
    put_pair(text, 1, count)
}

/// The text of a history: a first line `trace 1 COUNT`, and a line for each event in order. Numbers
/// are ticks, ids and indices in decimal, at every scale. `NoMemory` where memory is refused.
#[tactic(auto, unfolding(crate::specs::Traces::trace_text))]
pub fn write_trace(alloc: Global, history: &[Event]) -> Result<Vec<u8>, NoMemory>
    ensures { IfOk result (λ t. t.items ≡ trace_text history.now) }
{
    let mut text = Vec::new(alloc);
    put_header(&mut text, history.len() as u64)?;
    push_bytes(&mut text, b"\n")?;
    put_events(&mut text, history)?;
    Ok(text)
}
