ghost use Rattle.std.specs.Prelude.{◌≡◌, ◌+◌, IfOk, ◌<◌, ◌^◌, ◌==◌, map, position, bytes_eq, length, IfSome, Ok, Err, Some, None};
ghost use Rattle.std.specs.List.{list_all};
ghost use Rattle.std.specs.Str.{is_utf8};
ghost use Rattle.std.specs.Option.{option_map};
ghost use Rattle.pddl_tokens.specs.Numbers.{IsScale};
ghost use Rattle.plan_text.specs.Pieces.{spaced};
ghost use Rattle.plan_text.specs.Acts.{are_words, length_part, parts_of, amount_of, length_of, action_of, lasting, named, timed, act_of, act_from, Gives};

use crate::amount::{Amount, amount_of};
use crate::fault::Fault;
use crate::pieces::{behind, cut, has_mark, is_all_blank, plain, spaced, unindented};
use crate::write::scale_of;
use std::alloc::Global;
use std::str;
use tp_spec::{Action, Problem, Timed};

/// The texts of the parts of an act's line; the length stands between brackets, where those are
/// there.
#[derive(Clone, Copy)]
struct Parts<'a> {
    start: &'a [u8],
    name: &'a [u8],
    length: Option<&'a [u8]>,
}

/// Whether bytes are UTF-8.
pub fn is_utf8(text: &[u8]) -> bool
    ensures { result ≡ is_utf8 text.now }
{
    match str::from_utf8(text) {
        Ok(_) => true,
        Err(_) => false,
    }
}

/// Whether a text has a word or more, and no parenthesis.
fn are_words(text: &[u8]) -> bool
    ensures { result ≡ are_words text.now }
{
    !has_mark(b'(', text) && !is_all_blank(text)
}

/// What stands between brackets behind white space: none where nothing is there, and no answer
/// where something else is.
fn length_part(text: &[u8]) -> Option<Option<&[u8]>>
    ensures { option_map (λ l. option_map (λ t. t.now) l) result ≡ length_part text.now }
{
    match unindented(text) {
        [] => Some(None),
        [first, rest @ ..] => {
            if *first != b'[' {
                return None;
            }
            let (inner, tail) = cut(b']', rest)?;
            if is_all_blank(tail) {
                Some(Some(inner))
            } else {
                None
            }
        }
    }
}

/// The parts of a line without its comment, where it is the line of an act.
fn parts_of(text: &[u8]) -> Option<Parts<'_>>
    ensures { option_map (λ x. record {
      start = x.start.now;
      name = x.name.now;
      length = option_map (λ t. t.now) x.length;
    }) result ≡ parts_of text.now }
{
    let (start, rest) = cut(b':', text)?;
    let inner = behind(b'(', rest)?;
    let (name, rest) = cut(b')', inner)?;
    if !are_words(name) {
        return None;
    }
    let length = length_part(rest)?;
    Some(Parts {
        start,
        name,
        length,
    })
}

/// Whether an action has a name.
fn is_named(action: &Action, name: &[u8]) -> bool
    ensures { result ≡ bytes_eq action.now.name name.now }
{
    action.name.as_str().as_bytes() == name
}

/// The place of the first action of a name.
fn place_of(actions: &[Action], name: &[u8]) -> Option<usize>
    ensures first { result ≡ position (λ x. bytes_eq x.name name.now) actions.now }
    ensures within { IfSome result (λ i. i < length actions.now) }
{
    actions.iter().position(|action| is_named(action, name))
}

/// The index of the action of a name, where the problem has one.
fn action_of(problem: &Problem, name: &[u8]) -> Option<u32>
    ensures { result ≡ action_of problem.now name.now }
{
    match place_of(problem.actions.as_slice(), name) {
        Some(place) => Some(place as u32),
        None => None,
    }
}

/// The length that an act's line says: 0 where it says none.
fn length_of(alloc: Global, scale: u32, text: Option<&[u8]>) -> Result<Amount, Fault>
    requires { IsScale scale }
    ensures { Gives result (length_of scale (option_map (λ t. t.now) text.entry)) }
{
    match text {
        None => Ok(Amount::Ticks(0)),
        Some(text) => amount_of(scale, spaced(alloc, text)?),
    }
}

/// An act whose numbers are whole and small enough, and so is their sum.
fn lasting(action: u32, start: Amount, length: Amount) -> Result<Timed, Fault>
    ensures answer { result ≡ lasting action start length }
    ensures short { IfOk result (λ x. x.start + x.length < 2 ^ 63) }
{
    match (start, length) {
        (Amount::Ticks(start), Amount::Ticks(length)) => match start.checked_add(length) {
            Some(sum) if sum < 1 << 63 => Ok(Timed {
                action,
                start,
                length,
            }),
            _ => Err(Fault::TooLarge),
        },
        (Amount::Parted, _) => Err(Fault::NotWhole),
        (_, Amount::Parted) => Err(Fault::NotWhole),
        (Amount::Far, _) => Err(Fault::TooLarge),
        (_, Amount::Far) => Err(Fault::TooLarge),
    }
}

/// An act of an action, where there is one of that name.
fn named(action: Option<u32>, start: Amount, length: Amount) -> Result<Timed, Fault>
    ensures answer { Gives result (timed action (Ok start) (Ok length)) }
    ensures short { IfOk result (λ x. x.start + x.length < 2 ^ 63) }
{
    match action {
        None => Err(Fault::UnknownAction),
        Some(action) => lasting(action, start, length),
    }
}

/// The act of its parts.
fn act_from(alloc: Global, problem: &Problem, parts: Parts<'_>) -> Result<Timed, Fault>
    ensures answer { Gives result (act_from problem.now
        (Some (record {
          start = parts.entry.start.now;
          name = parts.entry.name.now;
          length = option_map
              (λ t. t.now) parts.entry.length;
        }))) }
    ensures short { IfOk result (λ x. x.start + x.length < 2 ^ 63) }
{
    let scale = scale_of(problem);
    let start = amount_of(scale, spaced(alloc, parts.start)?)?;
    let length = length_of(alloc, scale, parts.length)?;
    let name = spaced(alloc, parts.name)?;
    named(action_of(problem, &name), start, length)
}

/// The act that a line says: `NUMERAL : ( words )`, and maybe `[ NUMERAL ]` behind it, with white
/// space between the parts, behind it maybe a comment, in upper or lower case. The start, and the
/// length between brackets, are in units of time. A fault of its form comes before an unknown name,
/// that before a number that is not whole, and that before one that is too large.
pub fn act_of(alloc: Global, problem: &Problem, line: &[u8]) -> Result<Timed, Fault>
    ensures answer { Gives result (act_of problem.now line.now) }
    ensures short { IfOk result (λ x. x.start + x.length < 2 ^ 63) }
{
    if !is_utf8(line) {
        return Err(Fault::Shape);
    }
    let text = plain(alloc, line)?;
    match parts_of(&text) {
        None => Err(Fault::Shape),
        Some(parts) => act_from(alloc, problem, parts),
    }
}
