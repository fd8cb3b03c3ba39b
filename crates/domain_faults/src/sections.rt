ghost use Rattle.std.specs.Prelude.{◌≡◌, IfOk, OnOk, []};
ghost use Rattle.pddl_tokens.specs.Trees.{trees_of};
ghost use Rattle.pddl_parts.specs.First.{first};
ghost use Rattle.domain_faults.specs.Sections.{comes_once, constants_faults, head_kind, members_faults, once_faults, section_faults, with_section, sections_faults};

use crate::heads::{HeadKind, heads_fault};
use crate::parts::is_action;
use crate::types::types_fault;
use pddl_parts::{
    Fault, Kind, Names, Rule, earlier, enter_item, fault, misfit_list, misfit_word, repeat_fault,
    requirements_fault, typed_fault, unfit_section,
};
use pddl_tokens::{Form, Head, Word, head_of};
use std::alloc::Global;
use tp_spec::NoMemory;

fn comes_once(text: &[u8]) -> bool
    ensures { result ≡ comes_once text.now }
{
    text == b":requirements".as_slice()
        || text == b":types".as_slice()
        || text == b":constants".as_slice()
        || text == b":predicates".as_slice()
        || text == b":functions".as_slice()
}

/// The first fault of the members of `:constants`.
#[tactic(auto, using(pddl_parts::proofs::Firsts::first_append))]
fn constants_fault(
    alloc: Global,
    types: &Names,
    close: u32,
    members: &[Form],
) -> Result<Option<Fault>, NoMemory>
    ensures { IfOk result (λ fault. fault
        ≡ first (constants_faults types.now close (trees_of members.now))) }
{
    let rule = Rule {
        variables: false,
        any_type: false,
    };
    let typed = typed_fault(rule, types, close, members);
    let again = repeat_fault(alloc, rule, Names::new(alloc), members)?;
    Ok(earlier(typed, again))
}

/// What `:predicates` or `:functions` declares.
fn head_kind(text: &[u8]) -> HeadKind
    ensures { result ≡ head_kind text.now }
{
    if text == b":functions".as_slice() {
        HeadKind::Functions
    } else {
        HeadKind::Predicates
    }
}

/// The first fault of the members of a section that comes once.
fn members_fault(
    alloc: Global,
    types: &Names,
    text: &[u8],
    close: u32,
    members: &[Form],
) -> Result<Option<Fault>, NoMemory>
    ensures { IfOk result (λ fault. fault
        ≡ first (members_faults types.now text.now close (trees_of members.now))) }
{
    if text == b":requirements".as_slice() {
        Ok(requirements_fault(members))
    } else if text == b":types".as_slice() {
        types_fault(alloc, types, close, members)
    } else if text == b":constants".as_slice() {
        constants_fault(alloc, types, close, members)
    } else {
        heads_fault(alloc, head_kind(text), types, close, members)
    }
}

/// The first fault of a section that comes once.
fn once_fault(
    alloc: Global,
    types: &Names,
    seen: &Names,
    close: u32,
    head: &Word,
    members: &[Form],
) -> Result<Option<Fault>, NoMemory>
    ensures { IfOk result (λ fault. fault
        ≡ first (once_faults types.now seen.now close head.now.at head.now.text
        (trees_of members.now))) }
{
    if seen.has(head.text.as_slice()) {
        Ok(fault(Kind::Twice, head.at))
    } else {
        members_fault(alloc, types, head.text.as_slice(), close, members)
    }
}

/// The first fault of a section, but for an action's parts.
fn section_fault(
    alloc: Global,
    types: &Names,
    seen: &Names,
    at: u32,
    close: u32,
    parts: &[Form],
) -> Result<Option<Fault>, NoMemory>
    ensures { IfOk result (λ fault. fault
        ≡ first (section_faults types.now seen.now at close (trees_of parts.now))) }
{
    match head_of(parts) {
        Head::Missing => Ok(misfit_list(at, parts)),
        Head::List { at, .. } => Ok(fault(Kind::Shape, at)),
        Head::Word(head, members) => {
            if comes_once(head.text.as_slice()) {
                once_fault(alloc, types, seen, close, head, members)
            } else if is_action(head.text.as_slice()) {
                Ok(None)
            } else {
                Ok(unfit_section(head, members))
            }
        }
    }
}

/// Enters a section's head.
fn enter_section(alloc: Global, seen: &mut Names, parts: &[Form]) -> Result<(), NoMemory>
    ensures { OnOk result (seen.new ≡ with_section seen.old (trees_of parts.now)) }
{
    match head_of(parts) {
        Head::Missing | Head::List { .. } => Ok(()),
        Head::Word(head, _) => {
            let once = comes_once(head.text.as_slice());
            enter_item(alloc, once, seen, head)?;
            Ok(())
        }
    }
}

/// The first fault of the sections, but for actions' parts.
#[tactic(auto, using(pddl_parts::proofs::Firsts::first_onto))]
pub fn sections_fault(
    alloc: Global,
    types: &Names,
    sections: &[Form],
) -> Result<Option<Fault>, NoMemory>
    ensures { IfOk result (λ fault. fault
        ≡ first (sections_faults types.now [] (trees_of sections.now))) }
{
    let mut best = None;
    let mut seen = Names::new(alloc);
    let mut rest = sections;
    'sections: loop {
        match head_of(rest) {
            Head::Missing => return Ok(best),
            Head::Word(word, more) => {
                best = earlier(best, misfit_word(word));
                rest = more;
            }
            Head::List {
                at,
                close,
                parts,
                rest: more,
            } => {
                let section = section_fault(alloc, types, &seen, at, close, parts)?;
                best = earlier(best, section);
                enter_section(alloc, &mut seen, parts)?;
                rest = more;
            }
        }
    }
}
