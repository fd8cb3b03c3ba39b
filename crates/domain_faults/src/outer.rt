ghost use Rattle.std.specs.Prelude.{◌≡◌, IfOk};
ghost use Rattle.pddl_tokens.specs.Trees.{trees_of};
ghost use Rattle.pddl_parts.specs.First.{first};
ghost use Rattle.domain_faults.specs.Outer.{declarations_faults, defined_faults, form_faults, declared_faults};

use crate::sections::sections_fault;
use crate::types::type_names;
use pddl_parts::{
    Fault, Kind, earlier, fault, members_of, misfit_list, misfit_word, named_fault, others_fault,
};
use pddl_tokens::{Form, Forms, Head, head_of};
use std::alloc::Global;
use tp_spec::NoMemory;

/// The first fault of a domain's sections, but for actions' parts.
fn declarations_fault(alloc: Global, sections: &[Form]) -> Result<Option<Fault>, NoMemory>
    ensures { IfOk result (λ fault. fault ≡ first (declarations_faults (trees_of sections.now))) }
{
    let types = type_names(alloc, members_of(b":types", sections))?;
    sections_fault(alloc, &types, sections)
}

/// The first fault behind `define`.
#[tactic(auto, using(pddl_parts::proofs::Firsts::first_append))]
fn defined_fault(alloc: Global, close: u32, forms: &[Form]) -> Result<Option<Fault>, NoMemory>
    ensures { IfOk result (λ fault. fault ≡ first (defined_faults close (trees_of forms.now))) }
{
    match head_of(forms) {
        Head::Missing => Ok(fault(Kind::Shape, close)),
        Head::Word(word, sections) => {
            let declarations = declarations_fault(alloc, sections)?;
            Ok(earlier(misfit_word(word), declarations))
        }
        Head::List {
            at,
            close,
            parts,
            rest: sections,
        } => {
            let declarations = declarations_fault(alloc, sections)?;
            Ok(earlier(named_fault(b"domain", at, close, parts), declarations))
        }
    }
}

/// The first fault of a form that is to be a domain.
fn form_fault(alloc: Global, at: u32, close: u32, parts: &[Form]) -> Result<Option<Fault>, NoMemory>
    ensures { IfOk result (λ fault. fault ≡ first (form_faults at close (trees_of parts.now))) }
{
    match head_of(parts) {
        Head::Missing | Head::List { .. } => Ok(misfit_list(at, parts)),
        Head::Word(head, rest) => {
            if head.text.as_slice() == b"define".as_slice() {
                defined_fault(alloc, close, rest)
            } else {
                Ok(misfit_list(at, parts))
            }
        }
    }
}

/// The first fault of a domain's file, but for the parts of its actions.
#[tactic(auto, using(pddl_parts::proofs::Firsts::first_append))]
pub fn declared_fault(alloc: Global, forms: &Forms) -> Result<Option<Fault>, NoMemory>
    ensures { IfOk result (λ fault. fault
        ≡ first (declared_faults forms.now.bytes (trees_of forms.now.forms))) }
{
    match head_of(forms.forms.as_slice()) {
        Head::Missing => Ok(fault(Kind::Shape, forms.bytes)),
        Head::Word(word, rest) => Ok(earlier(misfit_word(word), others_fault(rest))),
        Head::List {
            at,
            close,
            parts,
            rest,
        } => {
            let form = form_fault(alloc, at, close, parts)?;
            Ok(earlier(form, others_fault(rest)))
        }
    }
}
