ghost use Rattle.std.specs.Prelude.{◌≡◌, IfOk, OnOk, Some, pos, get_or, not, if◌then◌else◌, []};
ghost use Rattle.pddl_tokens.specs.Numbers.{IsScale};
ghost use Rattle.pddl_tokens.specs.Trees.{trees_of};
ghost use Rattle.pddl_parts.specs.First.{first};
ghost use Rattle.pddl_problem.specs.Elements.{joined_words, first_list, behind_equal, value_in, behind_at, literal_in, is_positive, atom_in, time_in};
ghost use Rattle.pddl_problem.specs.Again.{with_fluent, with_first, again_value, values_faults, with_atom, with_dated, clash_of, clash, clashes_faults};

use crate::elements::{
    atom_in, behind_at, behind_equal, dated_words, first_list, is_positive, joined_words,
    literal_in, time_in, value_in,
};
use pddl_parts::{Fault, Kind, Names, earlier, fault};
use pddl_tokens::{Form, Head, head_of};
use std::alloc::Global;
use tp_spec::{List, NoMemory};

/// A value by its number; 0 where there is none.
fn value_at(values: &[i64], number: usize) -> i64
    ensures { result ≡ get_or values.now number (pos 0) }
{
    match values.get(number) {
        Some(value) => *value,
        None => 0,
    }
}

/// Enters the value of a fluent by the fluent's text, and says what is wrong where it has another
/// one.
fn enter_value(
    alloc: Global,
    fluents: &mut Names,
    values: &mut List<i64>,
    at: u32,
    text: &[u8],
    value: i64,
) -> Result<Option<Fault>, NoMemory>
    ensures fault { IfOk result (λ fault. fault
        ≡ first (again_value fluents.old values.old at text.now (Some value))) }
    ensures fluents { OnOk result (fluents.new ≡ with_fluent fluents.old text.now (Some value)) }
    ensures values { OnOk result (values.new
        ≡ with_first fluents.old values.old text.now (Some value)) }
{
    let (number, fresh) = fluents.enter(alloc, text)?;
    if fresh {
        values.push(value)?;
        Ok(None)
    } else if value_at(values.as_slice(), number) == value {
        Ok(None)
    } else {
        Ok(fault(Kind::Twice, at))
    }
}

/// Enters the value that an element at a byte gives, by its members behind `=`.
fn enter_given(
    alloc: Global,
    scale: u32,
    fluents: &mut Names,
    values: &mut List<i64>,
    at: u32,
    members: &[Form],
) -> Result<Option<Fault>, NoMemory>
    requires { IsScale scale }
    ensures fault { IfOk result (λ fault. fault
        ≡ first (again_value fluents.old values.old at
        (joined_words (first_list (trees_of members.now)))
        (value_in scale (trees_of members.now)))) }
    ensures fluents { OnOk result (fluents.new
        ≡ with_fluent fluents.old (joined_words (first_list (trees_of members.now)))
        (value_in scale (trees_of members.now))) }
    ensures values { OnOk result (values.new
        ≡ with_first fluents.old values.old (joined_words (first_list (trees_of members.now)))
        (value_in scale (trees_of members.now))) }
{
    match value_in(scale, members) {
        None => Ok(None),
        Some(value) => {
            let text = joined_words(alloc, first_list(members))?;
            enter_value(alloc, fluents, values, at, text.as_slice(), value)
        }
    }
}

/// The first fluent of `:init` with a second, other value.
#[tactic(auto, using(pddl_parts::proofs::Firsts::first_onto))]
pub fn values_fault(alloc: Global, scale: u32, members: &[Form]) -> Result<Option<Fault>, NoMemory>
    requires { IsScale scale }
    ensures { IfOk result (λ fault. fault
        ≡ first (values_faults scale [] [] (trees_of members.now))) }
{
    let mut best = None;
    let mut fluents = Names::new(alloc);
    let mut values = List::new(alloc);
    let mut rest = members;
    'elements: loop {
        match head_of(rest) {
            Head::Missing => return Ok(best),
            Head::Word(_, more) => rest = more,
            Head::List {
                at,
                parts,
                rest: more,
                ..
            } => {
                let given = behind_equal(parts);
                let again = enter_given(alloc, scale, &mut fluents, &mut values, at, given)?;
                best = earlier(best, again);
                rest = more;
            }
        }
    }
}

/// Enters a timed atom among those of its sign, and says what is wrong where it is among the
/// others.
fn enter_atom(
    alloc: Global,
    begun: &mut Names,
    ended: &mut Names,
    at: u32,
    positive: bool,
    text: &[u8],
) -> Result<Option<Fault>, NoMemory>
    ensures fault { IfOk result (λ fault. fault
        ≡ first (clash_of (if positive then ended.old else begun.old) at text.now)) }
    ensures begun { OnOk result (begun.new ≡ with_atom begun.old positive text.now) }
    ensures ended { OnOk result (ended.new ≡ with_atom ended.old (not positive) text.now) }
{
    let clashes = if positive {
        ended.has(text)
    } else {
        begun.has(text)
    };
    if positive {
        begun.enter(alloc, text)?;
    } else {
        ended.enter(alloc, text)?;
    }
    if clashes {
        Ok(fault(Kind::ClashingTimed, at))
    } else {
        Ok(None)
    }
}

/// Enters the timed literal of an element at a byte, by its members behind `at`.
fn enter_dated(
    alloc: Global,
    scale: u32,
    begun: &mut Names,
    ended: &mut Names,
    at: u32,
    members: &[Form],
) -> Result<Option<Fault>, NoMemory>
    requires { IsScale scale }
    ensures fault { IfOk result (λ fault. fault
        ≡ first (clash
        (if is_positive (literal_in (trees_of members.now)) then ended.old else begun.old) at
        (joined_words (atom_in (literal_in (trees_of members.now))))
        (time_in scale (trees_of members.now)))) }
    ensures begun { OnOk result (begun.new
        ≡ with_dated begun.old (is_positive (literal_in (trees_of members.now)))
        (joined_words (atom_in (literal_in (trees_of members.now))))
        (time_in scale (trees_of members.now))) }
    ensures ended { OnOk result (ended.new
        ≡ with_dated ended.old (not (is_positive (literal_in (trees_of members.now))))
        (joined_words (atom_in (literal_in (trees_of members.now))))
        (time_in scale (trees_of members.now))) }
{
    match time_in(scale, members) {
        None => Ok(None),
        Some(time) => {
            let literal = literal_in(members);
            let words = joined_words(alloc, atom_in(literal))?;
            let text = dated_words(alloc, time, words.as_slice())?;
            enter_atom(
                alloc,
                begun,
                ended,
                at,
                is_positive(literal),
                text.as_slice(),
            )
        }
    }
}

/// The first timed literal of `:init` whose contrary came before at its tick.
#[tactic(auto, using(pddl_parts::proofs::Firsts::first_onto))]
pub fn clashes_fault(alloc: Global, scale: u32, members: &[Form]) -> Result<Option<Fault>, NoMemory>
    requires { IsScale scale }
    ensures { IfOk result (λ fault. fault
        ≡ first (clashes_faults scale [] [] (trees_of members.now))) }
{
    let mut best = None;
    let mut begun = Names::new(alloc);
    let mut ended = Names::new(alloc);
    let mut rest = members;
    'elements: loop {
        match head_of(rest) {
            Head::Missing => return Ok(best),
            Head::Word(_, more) => rest = more,
            Head::List {
                at,
                parts,
                rest: more,
                ..
            } => {
                let dated = behind_at(parts);
                let clash = enter_dated(alloc, scale, &mut begun, &mut ended, at, dated)?;
                best = earlier(best, clash);
                rest = more;
            }
        }
    }
}
