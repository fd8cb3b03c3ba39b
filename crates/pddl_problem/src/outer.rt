ghost use Rattle.std.specs.Prelude.{◌≡◌, IfOk, OnOk, []};
ghost use Rattle.pddl_tokens.specs.Trees.{trees_of};
ghost use Rattle.pddl_parts.specs.First.{first};
ghost use Rattle.pddl_problem.specs.Outer.{is_section, other_faults, members_faults, once_faults, section_faults, with_section, missing_faults, sections_faults, defined_faults, form_faults, declared_faults};

use crate::known::{constants_of, types_of};
use crate::objects::objects_fault;
use pddl_domain::Domain;
use pddl_parts::{
    Fault, Kind, Names, earlier, enter_item, fault, misfit_list, misfit_word, named_fault,
    one_name_fault, others_fault, requirements_fault, unfit_section,
};
use pddl_tokens::{Form, Forms, Head, Word, head_of};
use std::alloc::Global;
use tp_spec::NoMemory;

fn is_section(text: &[u8]) -> bool
    ensures { result ≡ is_section text.now }
{
    text == b":domain".as_slice()
        || text == b":requirements".as_slice()
        || text == b":objects".as_slice()
        || text == b":init".as_slice()
        || text == b":goal".as_slice()
        || text == b":metric".as_slice()
        || text == b":length".as_slice()
}

fn other_fault(name: &[u8], members: &[Form]) -> Option<Fault>
    ensures { result ≡ first (other_faults name.now (trees_of members.now)) }
{
    match head_of(members) {
        Head::Missing | Head::List { .. } => None,
        Head::Word(word, _) => {
            if word.text.as_slice() == name {
                None
            } else {
                fault(Kind::OtherDomain, word.at)
            }
        }
    }
}

/// The first fault of the members of a section, in the first pass.
#[tactic(auto, using(pddl_parts::proofs::Firsts::first_append))]
fn members_fault(
    alloc: Global,
    domain: &Domain,
    text: &[u8],
    close: u32,
    members: &[Form],
) -> Result<Option<Fault>, NoMemory>
    ensures { IfOk result (λ fault. fault
        ≡ first (members_faults domain.now text.now close (trees_of members.now))) }
{
    if text == b":domain".as_slice() {
        let other = other_fault(domain.name.as_str().as_bytes(), members);
        Ok(earlier(one_name_fault(close, members), other))
    } else if text == b":requirements".as_slice() {
        Ok(requirements_fault(members))
    } else if text == b":objects".as_slice() {
        let types = types_of(alloc, domain)?;
        let constants = constants_of(alloc, domain)?;
        objects_fault(alloc, &types, &constants, close, members)
    } else {
        Ok(None)
    }
}

fn once_fault(
    alloc: Global,
    domain: &Domain,
    seen: &Names,
    close: u32,
    head: &Word,
    members: &[Form],
) -> Result<Option<Fault>, NoMemory>
    ensures { IfOk result (λ fault. fault
        ≡ first (once_faults domain.now seen.now close head.now.at head.now.text
        (trees_of members.now))) }
{
    if seen.has(head.text.as_slice()) {
        Ok(fault(Kind::Twice, head.at))
    } else {
        members_fault(alloc, domain, head.text.as_slice(), close, members)
    }
}

fn section_fault(
    alloc: Global,
    domain: &Domain,
    seen: &Names,
    at: u32,
    close: u32,
    parts: &[Form],
) -> Result<Option<Fault>, NoMemory>
    ensures { IfOk result (λ fault. fault
        ≡ first (section_faults domain.now seen.now at close (trees_of parts.now))) }
{
    match head_of(parts) {
        Head::Missing => Ok(misfit_list(at, parts)),
        Head::List { at, .. } => Ok(fault(Kind::Shape, at)),
        Head::Word(head, members) => {
            if is_section(head.text.as_slice()) {
                once_fault(alloc, domain, seen, close, head, members)
            } else {
                Ok(unfit_section(head, members))
            }
        }
    }
}

fn enter_section(alloc: Global, seen: &mut Names, parts: &[Form]) -> Result<(), NoMemory>
    ensures { OnOk result (seen.new ≡ with_section seen.old (trees_of parts.now)) }
{
    match head_of(parts) {
        Head::Missing | Head::List { .. } => Ok(()),
        Head::Word(head, _) => {
            enter_item(alloc, is_section(head.text.as_slice()), seen, head)?;
            Ok(())
        }
    }
}

fn missing_fault(seen: &Names, close: u32) -> Option<Fault>
    ensures { result ≡ first (missing_faults seen.now close) }
{
    if seen.has(b":domain") && seen.has(b":goal") {
        None
    } else {
        fault(Kind::Shape, close)
    }
}

/// The first fault of the sections, in the first pass. `close` is the closing parenthesis of the
/// whole form.
#[tactic(auto, using(pddl_parts::proofs::Firsts::first_onto))]
fn sections_fault(
    alloc: Global,
    domain: &Domain,
    close: u32,
    sections: &[Form],
) -> Result<Option<Fault>, NoMemory>
    ensures { IfOk result (λ fault. fault
        ≡ first (sections_faults domain.now close [] (trees_of sections.now))) }
{
    let mut best = None;
    let mut seen = Names::new(alloc);
    let mut rest = sections;
    'sections: loop {
        match head_of(rest) {
            Head::Missing => return Ok(earlier(best, missing_fault(&seen, close))),
            Head::Word(word, more) => {
                best = earlier(best, misfit_word(word));
                rest = more;
            }
            Head::List {
                at,
                close: end,
                parts,
                rest: more,
            } => {
                let section = section_fault(alloc, domain, &seen, at, end, parts)?;
                best = earlier(best, section);
                enter_section(alloc, &mut seen, parts)?;
                rest = more;
            }
        }
    }
}

/// The first fault behind `define`.
#[tactic(auto, using(pddl_parts::proofs::Firsts::first_append))]
fn defined_fault(
    alloc: Global,
    domain: &Domain,
    close: u32,
    forms: &[Form],
) -> Result<Option<Fault>, NoMemory>
    ensures { IfOk result (λ fault. fault
        ≡ first (defined_faults domain.now close (trees_of forms.now))) }
{
    match head_of(forms) {
        Head::Missing => Ok(fault(Kind::Shape, close)),
        Head::Word(word, rest) => {
            let sections = sections_fault(alloc, domain, close, rest)?;
            Ok(earlier(misfit_word(word), sections))
        }
        Head::List {
            at,
            close: end,
            parts,
            rest,
        } => {
            let sections = sections_fault(alloc, domain, close, rest)?;
            Ok(earlier(named_fault(b"problem", at, end, parts), sections))
        }
    }
}

/// The first fault of a form that is to be a problem.
fn form_fault(
    alloc: Global,
    domain: &Domain,
    at: u32,
    close: u32,
    parts: &[Form],
) -> Result<Option<Fault>, NoMemory>
    ensures { IfOk result (λ fault. fault
        ≡ first (form_faults domain.now at close (trees_of parts.now))) }
{
    match head_of(parts) {
        Head::Missing | Head::List { .. } => Ok(misfit_list(at, parts)),
        Head::Word(head, rest) => {
            if head.text.as_slice() == b"define".as_slice() {
                defined_fault(alloc, domain, close, rest)
            } else {
                Ok(misfit_list(at, parts))
            }
        }
    }
}

/// The first fault of a problem's file but for `:init` and `:goal`.
#[tactic(auto, using(pddl_parts::proofs::Firsts::first_append))]
pub fn declared_fault(
    alloc: Global,
    domain: &Domain,
    forms: &Forms,
) -> Result<Option<Fault>, NoMemory>
    ensures { IfOk result (λ fault. fault
        ≡ first (declared_faults domain.now forms.now.bytes (trees_of forms.now.forms))) }
{
    match head_of(forms.forms.as_slice()) {
        Head::Missing => Ok(fault(Kind::Shape, forms.bytes)),
        Head::Word(word, rest) => Ok(earlier(misfit_word(word), others_fault(rest))),
        Head::List {
            at,
            close,
            parts,
            rest,
        } => {
            let form = form_fault(alloc, domain, at, close, parts)?;
            Ok(earlier(form, others_fault(rest)))
        }
    }
}
