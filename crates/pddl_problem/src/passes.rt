ghost use Rattle.std.specs.Prelude.{◌≡◌, IfOk, []};
ghost use Rattle.pddl_tokens.specs.Numbers.{IsScale};
ghost use Rattle.pddl_tokens.specs.Trees.{trees_of};
ghost use Rattle.pddl_parts.specs.First.{first};
ghost use Rattle.pddl_parts.specs.Settings.{setting_of, outside};
ghost use Rattle.pddl_problem.specs.Passes.{init_faults, goal_faults, state_faults, section_faults, sections_faults, judged_faults, sections_of, problem_fault};

use crate::again::{clashes_fault, values_fault};
use crate::elements::first_list;
use crate::init::elements_fault;
use crate::known::scope_of;
use crate::outer::declared_fault;
use pddl_domain::Domain;
use pddl_meaning::behind_first;
use pddl_parts::{
    Context, Fault, Kind, Names, Place, Scope, condition_fault, earlier, fault, members_of,
    misfit_word, surplus_fault,
};
use pddl_tokens::{Form, Forms, Head, head_of};
use std::alloc::Global;
use tp_spec::NoMemory;

/// The first fault of the members of `:init`.
#[tactic(auto, using(pddl_parts::proofs::Firsts::first_append))]
fn init_fault(
    alloc: Global,
    context: &Context<'_>,
    members: &[Form],
) -> Result<Option<Fault>, NoMemory>
    requires { IsScale context.now.scale }
    ensures { IfOk result (λ fault. fault
        ≡ first (init_faults (setting_of context.now) (trees_of members.now))) }
{
    let values = values_fault(alloc, context.scale, members)?;
    let clashes = clashes_fault(alloc, context.scale, members)?;
    let elements = elements_fault(context, members);
    Ok(earlier(elements, earlier(values, clashes)))
}

/// The first fault of the members of `:goal`, up to its closing parenthesis.
#[tactic(auto, using(pddl_parts::proofs::Firsts::first_append))]
fn goal_fault(context: &Context<'_>, close: u32, members: &[Form]) -> Option<Fault>
    requires { IsScale context.now.scale }
    ensures { result ≡ first (goal_faults (setting_of context.now) close (trees_of members.now)) }
{
    match head_of(members) {
        Head::Missing => fault(Kind::Shape, close),
        Head::Word(word, rest) => earlier(misfit_word(word), surplus_fault(rest)),
        Head::List {
            at,
            close: end,
            parts,
            rest,
        } => {
            let condition = condition_fault(context, at, end, parts);
            earlier(condition, surplus_fault(rest))
        }
    }
}

/// The first fault of the members of a section with a head, in the second pass.
fn state_fault(
    alloc: Global,
    context: &Context<'_>,
    close: u32,
    text: &[u8],
    members: &[Form],
) -> Result<Option<Fault>, NoMemory>
    requires { IsScale context.now.scale }
    ensures { IfOk result (λ fault. fault
        ≡ first (state_faults (setting_of context.now) close text.now (trees_of members.now))) }
{
    if text == b":init".as_slice() {
        init_fault(alloc, context, members)
    } else if text == b":goal".as_slice() {
        Ok(goal_fault(context, close, members))
    } else {
        Ok(None)
    }
}

fn section_fault(
    alloc: Global,
    context: &Context<'_>,
    close: u32,
    parts: &[Form],
) -> Result<Option<Fault>, NoMemory>
    requires { IsScale context.now.scale }
    ensures { IfOk result (λ fault. fault
        ≡ first (section_faults (setting_of context.now) close (trees_of parts.now))) }
{
    match head_of(parts) {
        Head::Missing | Head::List { .. } => Ok(None),
        Head::Word(head, members) => {
            state_fault(alloc, context, close, head.text.as_slice(), members)
        }
    }
}

/// The first fault of the sections, in the second pass.
#[tactic(auto, using(pddl_parts::proofs::Firsts::first_onto))]
fn sections_fault(
    alloc: Global,
    context: &Context<'_>,
    sections: &[Form],
) -> Result<Option<Fault>, NoMemory>
    requires { IsScale context.now.scale }
    ensures { IfOk result (λ fault. fault
        ≡ first (sections_faults (setting_of context.now) (trees_of sections.now))) }
{
    let mut best = None;
    let mut rest = sections;
    'sections: loop {
        match head_of(rest) {
            Head::Missing => return Ok(best),
            Head::Word(_, more) => rest = more,
            Head::List {
                close,
                parts,
                rest: more,
                ..
            } => {
                let section = section_fault(alloc, context, close, parts)?;
                best = earlier(best, section);
                rest = more;
            }
        }
    }
}

/// The first fault of `:init` and `:goal`, by what they may name.
fn judged_in(
    alloc: Global,
    scope: &Scope,
    scale: u32,
    sections: &[Form],
) -> Result<Option<Fault>, NoMemory>
    requires { IsScale scale }
    ensures { IfOk result (λ fault. fault
        ≡ first (sections_faults (outside scope.now [] scale) (trees_of sections.now))) }
{
    let variables = Names::new(alloc);
    let context = Context {
        scope,
        variables: &variables,
        scale,
        place: Place::Elsewhere,
    };
    sections_fault(alloc, &context, sections)
}

/// The first fault of `:init` and `:goal`.
fn judged_fault(
    alloc: Global,
    domain: &Domain,
    scale: u32,
    sections: &[Form],
) -> Result<Option<Fault>, NoMemory>
    requires { IsScale scale }
    ensures { IfOk result (λ fault. fault
        ≡ first (judged_faults domain.now scale (trees_of sections.now))) }
{
    let scope = scope_of(alloc, domain, members_of(b":objects", sections))?;
    judged_in(alloc, &scope, scale, sections)
}

/// The sections of a problem.
pub fn sections_of(forms: &[Form]) -> &[Form]
    ensures { trees_of result.now ≡ sections_of (trees_of forms.now) }
{
    behind_first(behind_first(first_list(forms)))
}

/// The first fault of a problem's file: that of its declarations, where they have one, else that of
/// `:init` and `:goal`.
pub fn problem_fault(
    alloc: Global,
    domain: &Domain,
    scale: u32,
    forms: &Forms,
) -> Result<Option<Fault>, NoMemory>
    requires { IsScale scale }
    ensures { IfOk result (λ fault. fault
        ≡ problem_fault domain.now scale forms.now.bytes (trees_of forms.now.forms)) }
{
    let declared = declared_fault(alloc, domain, forms)?;
    match declared {
        Some(fault) => Ok(Some(fault)),
        None => judged_fault(alloc, domain, scale, sections_of(forms.forms.as_slice())),
    }
}
