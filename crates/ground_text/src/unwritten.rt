ghost use Rattle.std.specs.Prelude.{◌≡◌, ◌&&◌, [], ◌++◌, true, codes, length, take, string_bytes, IfOk, OnOk, IsTrue};
ghost use Rattle.tp_spec.specs.WellFormed.{is_name as is_name_of, name_before};
ghost use Rattle.ground_text.specs.Texts.{counted, name_text, header_text, problem_text};
ghost use Rattle.problem_rules.specs.Tests.{are_few_names, names_hold, items_hold as items_hold_of, states_hold as states_hold_of, ranges_hold as ranges_hold_of, well_formed};
ghost use Rattle.ground_text.specs.Completion.{filled};
ghost use Rattle.ground_text.specs.Filling.{rise_from, IsNextName, filled_ground};

use crate::completion::name_or_next;
use crate::lines::same_bytes;
use crate::writing::{put_header, put_items, put_states};
use line_text::{push_bytes, push_number};
use problem_rules::{Parts, is_name, is_scale, items_hold, ranges_hold, states_hold};
use std::alloc::Global;
use tp_spec::{Name, NoMemory};

/// Whether a text is a name that may stand behind another one.
fn is_next_name(before: &str, name: &str) -> bool
    ensures { result ≡ (is_name_of name.now && name_before before.now name.now) }
{
    is_name(name.as_bytes()) && before < name
}

/// A name, or where it is missing the one before it with `!` behind it; none where it may not stand
/// behind that one.
fn next_name(alloc: Global, before: String, name: &str) -> Result<Option<String>, NoMemory>
    requires { is_name_of (string_bytes before) ≡ true }
    ensures { IfOk result (λ o. IsNextName (string_bytes before) name.now o) }
{
    if name.is_empty() {
        let mut next = before;
        next.push('!')?;
        return Ok(Some(next));
    }
    if !is_next_name(before.as_str(), name) {
        return Ok(None);
    }
    Ok(Some(String::from_str(alloc, name)?))
}

/// Whether names rise from one on where the missing ones are filled in. What is filled in always
/// rises.
fn filled_rise(alloc: Global, first: &str, names: &[Name]) -> Result<bool, NoMemory>
    requires { is_name_of first.now ≡ true }
    ensures { IfOk result (λ is. is ≡ rise_from first.now (filled first.now names.now)) }
{
    let mut before = String::from_str(alloc, first)?;
    let mut rest = names;
    'names: loop {
        match rest {
            [name, tail @ ..] => match next_name(alloc, before, name.as_str())? {
                Some(next) => {
                    before = next;
                    rest = tail;
                }
                None => return Ok(false),
            },
            [] => return Ok(true),
        }
    }
}

/// Whether names keep the rules of names where the missing ones are filled in.
fn are_few_filled(alloc: Global, most: usize, names: &[Name]) -> Result<bool, NoMemory>
    ensures { IfOk result (λ is. is ≡ are_few_names most (filled [] names.now)) }
{
    if names.len() > most {
        return Ok(false);
    }
    match names {
        [] => Ok(true),
        [first, rest @ ..] => {
            let first = name_or_next(alloc, "", first.as_str())?;
            if !is_name(first.as_bytes()) {
                return Ok(false);
            }
            filled_rise(alloc, first.as_str(), rest)
        }
    }
}

/// Whether the scale and the names keep the rules of a problem where the missing names are filled
/// in.
fn filled_names_hold(alloc: Global, parts: &Parts) -> Result<bool, NoMemory>
    ensures { IfOk result (λ is. is ≡ names_hold (filled_ground parts.now)) }
{
    if !is_scale(parts.scale) {
        return Ok(false);
    }
    if !are_few_filled(alloc, 4096, parts.facts.as_slice())? {
        return Ok(false);
    }
    are_few_filled(alloc, 256, parts.fluents.as_slice())
}

/// Whether actions and timed items keep the rules of a problem: those that are filled in are as
/// many names.
fn filled_items_hold(alloc: Global, parts: &Parts) -> Result<bool, NoMemory>
    ensures { IfOk result (λ is. is ≡ items_hold_of (filled_ground parts.now)) }
{
    let holds = items_hold(alloc, parts)?;
    Ok(holds)
}

/// Whether the start and the goal keep the rules of a problem.
fn filled_states_hold(parts: &Parts) -> bool
    ensures { result ≡ states_hold_of (filled_ground parts.now) }
{
    states_hold(parts)
}

/// Whether ticks and values are in their ranges.
fn filled_ranges_hold(parts: &Parts) -> bool
    ensures { result ≡ ranges_hold_of (filled_ground parts.now) }
{
    ranges_hold(parts)
}

/// Whether parts keep the rules of a problem where the missing names are filled in.
pub fn is_filled_well(alloc: Global, parts: &Parts) -> Result<bool, NoMemory>
    ensures { IfOk result (λ is. is ≡ well_formed (filled_ground parts.now)) }
{
    let names = filled_names_hold(alloc, parts)?;
    let items = filled_items_hold(alloc, parts)?;
    Ok(names && items && filled_states_hold(parts) && filled_ranges_hold(parts))
}

/// A name on a line.
#[tactic(auto, unfolding(crate::specs::Texts::name_text))]
fn put_line(out: &mut Vec<u8>, name: &str) -> Result<(), NoMemory>
    ensures { OnOk result (out.new.items ≡ out.old.items ++ name_text name.now) }
{
    push_bytes(out, name.as_bytes())?;
    push_bytes(out, b"\n")
}

/// A count of names, and as many lines, the missing names filled in. Once so many bytes are
/// written, the others may lack.
#[tactic(auto, unfolding(crate::specs::Texts::counted))]
fn put_filled_names(
    alloc: Global,
    out: &mut Vec<u8>,
    limit: usize,
    names: &[Name],
) -> Result<(), NoMemory>
    ensures { OnOk result (take limit out.new.items
        ≡ take limit (out.old.items ++ counted name_text (filled [] names.now))) }
{
    push_number(out, names.len() as u64)?;
    out.extend_from_slice(b"\n")?;
    let mut before = String::new(alloc);
    let mut rest = names;
    'names: loop {
        if out.len() >= limit {
            return Ok(());
        }
        match rest {
            [name, tail @ ..] => {
                before = name_or_next(alloc, before.as_str(), name.as_str())?;
                put_line(out, before.as_str())?;
                rest = tail;
            }
            [] => return Ok(()),
        }
    }
}

/// The lines of the scale and of the names, the missing ones filled in, as far as the first bytes.
fn put_filled_front(
    alloc: Global,
    out: &mut Vec<u8>,
    limit: usize,
    parts: &Parts,
) -> Result<(), NoMemory>
    ensures { OnOk result (take limit out.new.items
        ≡ take limit (out.old.items
        ++ (header_text parts.now.scale ++ codes "\nfacts "
        ++ counted name_text (filled [] parts.now.facts) ++ codes "fluents "
        ++ counted name_text (filled [] parts.now.fluents)))) }
{
    put_header(out, parts.scale)?;
    out.extend_from_slice(b"\nfacts ")?;
    put_filled_names(alloc, out, limit, parts.facts.as_slice())?;
    out.extend_from_slice(b"fluents ")?;
    put_filled_names(alloc, out, limit, parts.fluents.as_slice())?;
    Ok(())
}

/// The first bytes of the lines of a problem whose missing names are filled in.
fn put_filled(alloc: Global, out: &mut Vec<u8>, limit: usize, parts: &Parts) -> Result<(), NoMemory>
    ensures { OnOk result (take limit out.new.items
        ≡ take limit (out.old.items ++ problem_text (filled_ground parts.now))) }
{
    put_filled_front(alloc, out, limit, parts)?;
    put_items(out, parts.actions.as_slice(), parts.timed.as_slice())?;
    put_states(
        out,
        parts.init.as_slice(),
        parts.values.as_slice(),
        parts.goal.as_slice(),
    )?;
    out.extend_from_slice(b"\nend\n")?;
    Ok(())
}

/// Whether the text of a problem whose missing names are filled in begins with these bytes.
pub fn filled_begins(alloc: Global, parts: &Parts, front: &[u8]) -> Result<bool, NoMemory>
    ensures yes { IfOk result (λ is. IsTrue is
        → take (length front.now) (problem_text (filled_ground parts.now)) ≡ front.now) }
    ensures no { IfOk result (λ is. take (length front.now) (problem_text (filled_ground parts.now))
        ≡ front.now → IsTrue is) }
{
    let mut out = Vec::new(alloc);
    put_filled(alloc, &mut out, front.len(), parts)?;
    let shown = front.len().min(out.len());
    Ok(same_bytes(out.as_slice().split_at(shown).0, front))
}
