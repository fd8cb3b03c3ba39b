ghost use Rattle.std.specs.Prelude.{◌≡◌, IfOk, OnOk, []};
ghost use Rattle.pddl_tokens.specs.Trees.{trees_of};
ghost use Rattle.pddl_parts.specs.First.{first};
ghost use Rattle.domain_faults.specs.Heads.{variables_faults, head_faults, again_head, with_head, number_faults, behind_word, listed_faults, with_listed, behind_list, heads_faults};

use pddl_parts::{
    Fault, Names, Part, Rule, earlier, end_fault, enter_item, is_dash, is_head_word, is_thing,
    misfit_list, misfit_word, name_fault, repeat_fault, typed_fault,
};
use pddl_tokens::{Form, Head, Word, head_of};
use std::alloc::Global;
use tp_spec::NoMemory;

/// What is declared by heads, lists of a name and typed variables.
#[derive(Clone, Copy, Debug, PartialEq, Eq)]
pub enum HeadKind {
    Predicates,
    Functions,
}

/// The first fault of typed variables, as an action's parameters: each is to be new, and its type
/// among `types`. `close` is the closing parenthesis of their list.
#[tactic(auto, using(pddl_parts::proofs::Firsts::first_append))]
pub fn variables_fault(
    alloc: Global,
    types: &Names,
    close: u32,
    forms: &[Form],
) -> Result<Option<Fault>, NoMemory>
    ensures { IfOk result (λ fault. fault
        ≡ first (variables_faults types.now close (trees_of forms.now))) }
{
    let rule = Rule {
        variables: true,
        any_type: false,
    };
    let typed = typed_fault(rule, types, close, forms);
    let again = repeat_fault(alloc, rule, Names::new(alloc), forms)?;
    Ok(earlier(typed, again))
}

/// The first fault of a head, but for its name's being declared before.
#[tactic(auto, using(pddl_parts::proofs::Firsts::first_append))]
fn head_fault(
    alloc: Global,
    types: &Names,
    at: u32,
    close: u32,
    parts: &[Form],
) -> Result<Option<Fault>, NoMemory>
    ensures { IfOk result (λ fault. fault
        ≡ first (head_faults types.now at close (trees_of parts.now))) }
{
    match head_of(parts) {
        Head::Missing | Head::List { .. } => Ok(misfit_list(at, parts)),
        Head::Word(head, rest) => {
            if is_head_word(head) {
                let variables = variables_fault(alloc, types, close, rest)?;
                Ok(earlier(name_fault(head), variables))
            } else {
                Ok(misfit_list(at, parts))
            }
        }
    }
}

/// Enters a head's name, and says what is wrong where it came before.
fn enter_head(alloc: Global, seen: &mut Names, parts: &[Form]) -> Result<Option<Fault>, NoMemory>
    ensures fault { IfOk result (λ fault. fault
        ≡ first (again_head seen.old (trees_of parts.now))) }
    ensures seen { OnOk result (seen.new ≡ with_head seen.old (trees_of parts.now)) }
{
    match head_of(parts) {
        Head::Missing | Head::List { .. } => Ok(None),
        Head::Word(head, _) => enter_item(alloc, is_thing(head), seen, head),
    }
}

fn number_fault(part: Part, word: &Word) -> Option<Fault>
    ensures { result ≡ first (number_faults part word.now.at word.now.text) }
{
    let text = word.text.as_slice();
    match part {
        Part::Start => misfit_word(word),
        Part::Items => {
            if is_dash(text) {
                None
            } else {
                misfit_word(word)
            }
        }
        Part::Hyphen => {
            if text == b"number".as_slice() {
                None
            } else {
                misfit_word(word)
            }
        }
    }
}

/// What a word among predicates or functions, at this part of them, leaves to stand before what
/// follows it: only behind a head may a hyphen stand.
pub fn behind_word(part: Part, text: &[u8]) -> Part
    ensures { result ≡ behind_word part text.now }
{
    match part {
        Part::Items => {
            if is_dash(text) {
                Part::Hyphen
            } else {
                Part::Start
            }
        }
        Part::Start | Part::Hyphen => Part::Start,
    }
}

/// What a list among predicates or functions, at this part of them, leaves to stand before what
/// follows it: `- number` may stand behind a function.
pub fn behind_list(kind: HeadKind, part: Part) -> Part
    ensures { result ≡ behind_list kind part }
{
    match (kind, part) {
        (HeadKind::Predicates, _) => Part::Start,
        (HeadKind::Functions, Part::Hyphen) => Part::Start,
        (HeadKind::Functions, Part::Start | Part::Items) => Part::Items,
    }
}

/// Enters the name of a list among predicates or functions, where it is a head; directly behind a
/// hyphen it is none.
pub fn enter_listed(
    alloc: Global,
    seen: &mut Names,
    part: Part,
    parts: &[Form],
) -> Result<(), NoMemory>
    ensures { OnOk result (seen.new ≡ with_listed seen.old part (trees_of parts.now)) }
{
    match part {
        Part::Hyphen => Ok(()),
        Part::Start | Part::Items => {
            enter_head(alloc, seen, parts)?;
            Ok(())
        }
    }
}

/// The first fault of a list among predicates or functions, whose name is entered where it is a
/// head.
#[tactic(auto, using(pddl_parts::proofs::Firsts::first_append))]
fn listed_fault(
    alloc: Global,
    types: &Names,
    seen: &mut Names,
    part: Part,
    at: u32,
    close: u32,
    parts: &[Form],
) -> Result<Option<Fault>, NoMemory>
    ensures fault { IfOk result (λ fault. fault
        ≡ first (listed_faults types.now seen.old part at close (trees_of parts.now))) }
    ensures seen { OnOk result (seen.new ≡ with_listed seen.old part (trees_of parts.now)) }
{
    match part {
        Part::Hyphen => Ok(misfit_list(at, parts)),
        Part::Start | Part::Items => {
            let again = enter_head(alloc, seen, parts)?;
            let head = head_fault(alloc, types, at, close, parts)?;
            Ok(earlier(again, head))
        }
    }
}

/// The first fault of the members of `:predicates`, or of `:functions`. `close` is the section's
/// closing parenthesis.
#[tactic(auto, using(pddl_parts::proofs::Firsts::first_onto))]
pub fn heads_fault(
    alloc: Global,
    kind: HeadKind,
    types: &Names,
    close: u32,
    forms: &[Form],
) -> Result<Option<Fault>, NoMemory>
    ensures { IfOk result (λ fault. fault
        ≡ first (heads_faults kind types.now close [] Part.Start (trees_of forms.now))) }
{
    let mut best = None;
    let mut part = Part::Start;
    let mut seen = Names::new(alloc);
    let mut rest = forms;
    'members: loop {
        match head_of(rest) {
            Head::Missing => return Ok(earlier(best, end_fault(part, close))),
            Head::Word(word, more) => {
                best = earlier(best, number_fault(part, word));
                part = behind_word(part, word.text.as_slice());
                rest = more;
            }
            Head::List {
                at,
                close,
                parts,
                rest: more,
            } => {
                let listed = listed_fault(alloc, types, &mut seen, part, at, close, parts)?;
                best = earlier(best, listed);
                part = behind_list(kind, part);
                rest = more;
            }
        }
    }
}
