ghost use Rattle.std.specs.Prelude.{◌≡◌, IfOk, OnOk};
ghost use Rattle.pddl_tokens.specs.Trees.{trees_of};
ghost use Rattle.pddl_parts.specs.First.{first};
ghost use Rattle.pddl_parts.specs.Typed.{item_faults, type_faults, next, next_of_list, word_faults, end_faults, typed_faults, is_item, again_faults, with_item, repeat_faults};

use crate::faults::{Fault, Kind};
use crate::first::{earlier, fault};
use crate::literals::{misfit_list, name_fault, variable_fault};
use crate::names::Names;
use crate::words::{is_dash, is_left_out, is_name, is_variable};
use pddl_tokens::{Form, Head, Word, head_of};
use std::alloc::Global;
use tp_spec::NoMemory;

/// What the items and types of a typed list are: variables or names, and any names or declared
/// ones.
#[derive(Clone, Copy, Debug, PartialEq, Eq)]
pub struct Rule {
    /// Items are variables; else they are names.
    pub variables: bool,
    /// A type may be any name; else it is a declared one.
    pub any_type: bool,
}

/// What stands before a member of a typed list, in its group of items.
#[derive(Clone, Copy, Debug, PartialEq, Eq)]
pub enum Part {
    /// Nothing yet.
    Start,
    /// An item.
    Items,
    /// A hyphen: the type comes next.
    Hyphen,
}

fn item_fault(rule: Rule, word: &Word) -> Option<Fault>
    ensures { result ≡ first (item_faults rule word.now.at word.now.text) }
{
    if rule.variables {
        variable_fault(word)
    } else {
        name_fault(word)
    }
}

#[tactic(auto, using(crate::proofs::Firsts::first_append))]
fn type_fault(rule: Rule, types: &Names, word: &Word) -> Option<Fault>
    ensures { result ≡ first (type_faults rule types.now word.now.at word.now.text) }
{
    let unknown = if rule.any_type || types.has(word.text.as_slice()) {
        None
    } else {
        fault(Kind::Unknown, word.at)
    };
    earlier(name_fault(word), unknown)
}

/// What stands before what follows a word.
pub fn next(part: Part, text: &[u8]) -> Part
    ensures { result ≡ next part text.now }
{
    match part {
        Part::Hyphen => Part::Start,
        Part::Start | Part::Items => {
            if is_dash(text) {
                Part::Hyphen
            } else {
                Part::Items
            }
        }
    }
}

/// What stands before what follows a list.
pub fn next_of_list(part: Part) -> Part
    ensures { result ≡ next_of_list part }
{
    match part {
        Part::Hyphen => Part::Start,
        Part::Start | Part::Items => Part::Items,
    }
}

fn word_fault(rule: Rule, types: &Names, part: Part, word: &Word) -> Option<Fault>
    ensures { result ≡ first (word_faults rule types.now part word.now.at word.now.text) }
{
    match part {
        Part::Hyphen => type_fault(rule, types, word),
        Part::Start => {
            if is_dash(word.text.as_slice()) {
                fault(Kind::Shape, word.at)
            } else {
                item_fault(rule, word)
            }
        }
        Part::Items => {
            if is_dash(word.text.as_slice()) {
                None
            } else {
                item_fault(rule, word)
            }
        }
    }
}

/// What is wrong where a typed list ends: a type is missing behind a hyphen.
pub fn end_fault(part: Part, close: u32) -> Option<Fault>
    ensures { result ≡ first (end_faults part close) }
{
    match part {
        Part::Hyphen => fault(Kind::Shape, close),
        Part::Start | Part::Items => None,
    }
}

/// The first fault of a typed list, but for items that come again. `close` is its closing
/// parenthesis.
#[tactic(auto, using(crate::proofs::Firsts::first_onto))]
pub fn typed_fault(rule: Rule, types: &Names, close: u32, forms: &[Form]) -> Option<Fault>
    ensures { result ≡ first (typed_faults rule types.now close Part.Start (trees_of forms.now)) }
{
    let mut best = None;
    let mut part = Part::Start;
    let mut rest = forms;
    'members: loop {
        match head_of(rest) {
            Head::Missing => return earlier(best, end_fault(part, close)),
            Head::Word(word, more) => {
                best = earlier(best, word_fault(rule, types, part, word));
                part = next(part, word.text.as_slice());
                rest = more;
            }
            Head::List {
                at,
                parts,
                rest: more,
                ..
            } => {
                best = earlier(best, misfit_list(at, parts));
                part = next_of_list(part);
                rest = more;
            }
        }
    }
}

/// Whether a word is an item that fits.
pub fn is_item(rule: Rule, part: Part, word: &Word) -> bool
    ensures { result ≡ is_item rule part word.now.text }
{
    match part {
        Part::Hyphen => false,
        Part::Start | Part::Items => {
            !is_left_out(word.text.as_slice())
                && if rule.variables {
                    is_variable(word)
                } else {
                    is_name(word)
                }
        }
    }
}

/// Enters an item, and says what is wrong where it came before.
pub fn enter_item(
    alloc: Global,
    item: bool,
    seen: &mut Names,
    word: &Word,
) -> Result<Option<Fault>, NoMemory>
    ensures fault { IfOk result (λ fault. fault
        ≡ first (again_faults item seen.old word.now.at word.now.text)) }
    ensures seen { OnOk result (seen.new ≡ with_item item seen.old word.now.text) }
{
    if !item {
        return Ok(None);
    }
    let (_, fresh) = seen.enter(alloc, word.text.as_slice())?;
    if fresh {
        Ok(None)
    } else {
        Ok(fault(Kind::Twice, word.at))
    }
}

/// The first item of a typed list that came before, in the list or among the names given, which are
/// entered.
#[tactic(auto, using(crate::proofs::Firsts::first_onto))]
pub fn repeat_fault(
    alloc: Global,
    rule: Rule,
    mut seen: Names,
    forms: &[Form],
) -> Result<Option<Fault>, NoMemory>
    ensures { IfOk result (λ fault. fault
        ≡ first (repeat_faults rule seen Part.Start (trees_of forms.now))) }
{
    let mut best = None;
    let mut part = Part::Start;
    let mut rest = forms;
    'members: loop {
        match head_of(rest) {
            Head::Missing => return Ok(best),
            Head::Word(word, more) => {
                let item = is_item(rule, part, word);
                best = earlier(best, enter_item(alloc, item, &mut seen, word)?);
                part = next(part, word.text.as_slice());
                rest = more;
            }
            Head::List { rest: more, .. } => {
                part = next_of_list(part);
                rest = more;
            }
        }
    }
}
