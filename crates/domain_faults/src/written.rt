ghost use Rattle.std.specs.Prelude.{◌≡◌, IfOk};
ghost use Rattle.pddl_tokens.specs.Trees.{trees_of};
ghost use Rattle.domain_faults.specs.Written.{with_target, with_effect, with_effects, with_labelled, with_at, with_timed, with_all_timed, with_section, written_of};

use crate::parts::{ActionKind, behind_name, part_of};
use pddl_parts::{Names, is_update};
use pddl_tokens::{Form, Head, head_of};
use std::alloc::Global;
use tp_spec::NoMemory;

/// Enters the function that an update writes, by what stands behind its head.
fn with_target(alloc: Global, mut names: Names, members: &[Form]) -> Result<Names, NoMemory>
    ensures { IfOk result (λ more. more ≡ with_target names (trees_of members.now)) }
{
    match head_of(members) {
        Head::Missing | Head::Word(..) => Ok(names),
        Head::List { parts, .. } => {
            match head_of(parts) {
                Head::Missing | Head::List { .. } => Ok(names),
                Head::Word(head, _) => {
                    names.enter(alloc, head.text.as_slice())?;
                    Ok(names)
                }
            }
        }
    }
}

/// Enters the functions that a list in an effect's place writes.
#[cycle(effects)]
fn with_effect(alloc: Global, names: Names, parts: &[Form]) -> Result<Names, NoMemory>
    ensures { IfOk result (λ more. more ≡ with_effect names (trees_of parts.now)) }
{
    match head_of(parts) {
        Head::Missing | Head::List { .. } => Ok(names),
        Head::Word(head, rest) => {
            let text = head.text.as_slice();
            if text == b"and".as_slice() {
                with_effects(alloc, names, rest)
            } else if is_update(text) {
                with_target(alloc, names, rest)
            } else {
                Ok(names)
            }
        }
    }
}

#[cycle(effects)]
fn with_effects(alloc: Global, mut names: Names, forms: &[Form]) -> Result<Names, NoMemory>
    ensures { IfOk result (λ more. more ≡ with_effects names (trees_of forms.now)) }
{
    let mut rest = forms;
    'effects: loop {
        match head_of(rest) {
            Head::Missing => return Ok(names),
            Head::Word(_, more) => rest = more,
            Head::List {
                parts,
                rest: more,
                ..
            } => {
                names = with_effect(alloc, names, parts)?;
                rest = more;
            }
        }
    }
}

fn with_labelled(alloc: Global, names: Names, members: &[Form]) -> Result<Names, NoMemory>
    ensures { IfOk result (λ more. more ≡ with_labelled names (trees_of members.now)) }
{
    match head_of(members) {
        Head::Missing | Head::Word(..) => Ok(names),
        Head::List { parts, .. } => with_effect(alloc, names, parts),
    }
}

fn with_at(alloc: Global, names: Names, members: &[Form]) -> Result<Names, NoMemory>
    ensures { IfOk result (λ more. more ≡ with_at names (trees_of members.now)) }
{
    match head_of(members) {
        Head::Missing | Head::List { .. } => Ok(names),
        Head::Word(label, rest) => {
            let text = label.text.as_slice();
            if text == b"start".as_slice() || text == b"end".as_slice() {
                with_labelled(alloc, names, rest)
            } else {
                Ok(names)
            }
        }
    }
}

/// Enters the functions that a list in a timed effect's place writes.
#[cycle(timed)]
fn with_timed(alloc: Global, names: Names, parts: &[Form]) -> Result<Names, NoMemory>
    ensures { IfOk result (λ more. more ≡ with_timed names (trees_of parts.now)) }
{
    match head_of(parts) {
        Head::Missing | Head::List { .. } => Ok(names),
        Head::Word(head, rest) => {
            let text = head.text.as_slice();
            if text == b"and".as_slice() {
                with_all_timed(alloc, names, rest)
            } else if text == b"at".as_slice() {
                with_at(alloc, names, rest)
            } else {
                Ok(names)
            }
        }
    }
}

#[cycle(timed)]
fn with_all_timed(alloc: Global, mut names: Names, forms: &[Form]) -> Result<Names, NoMemory>
    ensures { IfOk result (λ more. more ≡ with_all_timed names (trees_of forms.now)) }
{
    let mut rest = forms;
    'members: loop {
        match head_of(rest) {
            Head::Missing => return Ok(names),
            Head::Word(_, more) => rest = more,
            Head::List {
                parts,
                rest: more,
                ..
            } => {
                names = with_timed(alloc, names, parts)?;
                rest = more;
            }
        }
    }
}

/// Enters the functions that a section's effect writes, where it is an action.
fn with_section(alloc: Global, names: Names, parts: &[Form]) -> Result<Names, NoMemory>
    ensures { IfOk result (λ more. more ≡ with_section names (trees_of parts.now)) }
{
    match head_of(parts) {
        Head::Missing | Head::List { .. } => Ok(names),
        Head::Word(head, members) => {
            let text = head.text.as_slice();
            if text == b":action".as_slice() {
                with_effect(
                    alloc,
                    names,
                    part_of(ActionKind::Instant, b":effect", behind_name(members)),
                )
            } else if text == b":durative-action".as_slice() {
                with_timed(
                    alloc,
                    names,
                    part_of(ActionKind::Durative, b":effect", behind_name(members)),
                )
            } else {
                Ok(names)
            }
        }
    }
}

/// The functions that the actions among the sections of a domain write.
pub fn written_of(alloc: Global, sections: &[Form]) -> Result<Names, NoMemory>
    ensures { IfOk result (λ names. names ≡ written_of (trees_of sections.now)) }
{
    let mut names = Names::new(alloc);
    let mut rest = sections;
    'sections: loop {
        match head_of(rest) {
            Head::Missing => return Ok(names),
            Head::Word(_, more) => rest = more,
            Head::List {
                parts,
                rest: more,
                ..
            } => {
                names = with_section(alloc, names, parts)?;
                rest = more;
            }
        }
    }
}
