ghost use Rattle.std.specs.Prelude.{◌≡◌, ◌++◌, [], IfOk};
ghost use Rattle.pddl_tokens.specs.Numbers.{IsScale};
ghost use Rattle.pddl_tokens.specs.Trees.{trees_of};
ghost use Rattle.pddl_meaning.specs.declared.changes.Change.TheVariants.{Lit};
ghost use Rattle.pddl_meaning.specs.Terms.{atom_of};
ghost use Rattle.pddl_meaning.specs.Changes.{how_of, function_of, target_of, change_of, deletion_of, deleted_of, effect_of, effects_of};

use crate::terms::{Atom, Symbols, atom_of, behind_first};
use crate::values::{Value, operand_of};
use pddl_parts::{Names, is_update};
use pddl_tokens::{Form, Head, head_of};
use std::alloc::Global;
use tp_spec::{How, List, NoMemory};

/// What an effect does to a state: it makes an atom true or false, or updates the value of a
/// function.
#[derive(Drop)]
pub enum Change {
    Lit {
        positive: bool,
        atom: Atom,
    },
    Update {
        how: How,
        target: Atom,
        value: Value,
    },
}

fn how_of(text: &[u8]) -> How
    ensures { result ≡ how_of text.now }
{
    if text == b"increase".as_slice() {
        How::Increase
    } else if text == b"decrease".as_slice() {
        How::Decrease
    } else {
        How::Assign
    }
}

fn no_atom(alloc: Global) -> Atom
    ensures { result ≡ record { head = 0; terms = [] } }
{
    Atom {
        head: 0,
        terms: List::new(alloc),
    }
}

/// A function with its arguments, as a list's parts.
pub fn function_of(
    alloc: Global,
    symbols: &Symbols,
    variables: &Names,
    parts: &[Form],
) -> Result<Atom, NoMemory>
    ensures { IfOk result (λ atom. atom
        ≡ function_of symbols.now variables.now (trees_of parts.now)) }
{
    match head_of(parts) {
        Head::Missing | Head::List { .. } => Ok(no_atom(alloc)),
        Head::Word(head, rest) => {
            atom_of(
                alloc,
                symbols,
                variables,
                &symbols.functions,
                head.text.as_slice(),
                rest,
            )
        }
    }
}

/// The first member as a function with its arguments.
pub fn target_of(
    alloc: Global,
    symbols: &Symbols,
    variables: &Names,
    members: &[Form],
) -> Result<Atom, NoMemory>
    ensures { IfOk result (λ atom. atom
        ≡ target_of symbols.now variables.now (trees_of members.now)) }
{
    match head_of(members) {
        Head::Missing | Head::Word(..) => Ok(no_atom(alloc)),
        Head::List { parts, .. } => function_of(alloc, symbols, variables, parts),
    }
}

fn literal_of(
    alloc: Global,
    symbols: &Symbols,
    variables: &Names,
    positive: bool,
    text: &[u8],
    rest: &[Form],
) -> Result<Change, NoMemory>
    ensures { IfOk result (λ c. c
        ≡ Lit positive (atom_of symbols.now variables.now symbols.now.predicates text.now
        (trees_of rest.now))) }
{
    let atom = atom_of(alloc, symbols, variables, &symbols.predicates, text, rest)?;
    Ok(Change::Lit { positive, atom })
}

/// What a list says that is no conjunction and no negation.
fn change_of(
    alloc: Global,
    symbols: &Symbols,
    variables: &Names,
    scale: u32,
    text: &[u8],
    rest: &[Form],
) -> Result<Change, NoMemory>
    requires { IsScale scale }
    ensures { IfOk result (λ c. c
        ≡ change_of symbols.now variables.now scale text.now (trees_of rest.now)) }
{
    if !is_update(text) {
        return literal_of(alloc, symbols, variables, true, text, rest);
    }
    let target = target_of(alloc, symbols, variables, rest)?;
    let value = operand_of(alloc, symbols, variables, scale, behind_first(rest))?;
    Ok(Change::Update {
        how: how_of(text),
        target,
        value,
    })
}

fn with_deletion(
    alloc: Global,
    mut changes: List<Change>,
    symbols: &Symbols,
    variables: &Names,
    parts: &[Form],
) -> Result<List<Change>, NoMemory>
    ensures { IfOk result (λ more. more ≡ changes
        ++ deletion_of symbols.now variables.now (trees_of parts.now)) }
{
    match head_of(parts) {
        Head::Missing | Head::List { .. } => Ok(changes),
        Head::Word(head, rest) => {
            let text = head.text.as_slice();
            changes.push(literal_of(alloc, symbols, variables, false, text, rest)?)?;
            Ok(changes)
        }
    }
}

fn with_deleted(
    alloc: Global,
    changes: List<Change>,
    symbols: &Symbols,
    variables: &Names,
    members: &[Form],
) -> Result<List<Change>, NoMemory>
    ensures { IfOk result (λ more. more ≡ changes
        ++ deleted_of symbols.now variables.now (trees_of members.now)) }
{
    match head_of(members) {
        Head::Missing | Head::Word(..) => Ok(changes),
        Head::List { parts, .. } => with_deletion(alloc, changes, symbols, variables, parts),
    }
}

/// Puts the changes of a list that is an effect behind others; numbers are in units of `scale`.
#[cycle(effects)]
#[tactic(auto, using(std::proofs::Common::append_assoc))]
pub fn with_effect(
    alloc: Global,
    mut changes: List<Change>,
    symbols: &Symbols,
    variables: &Names,
    scale: u32,
    parts: &[Form],
) -> Result<List<Change>, NoMemory>
    requires { IsScale scale }
    ensures { IfOk result (λ more. more ≡ changes
        ++ effect_of symbols.now variables.now scale (trees_of parts.now)) }
{
    match head_of(parts) {
        Head::Missing | Head::List { .. } => Ok(changes),
        Head::Word(head, rest) => {
            let text = head.text.as_slice();
            if text == b"and".as_slice() {
                with_effects(alloc, changes, symbols, variables, scale, rest)
            } else if text == b"not".as_slice() {
                with_deleted(alloc, changes, symbols, variables, rest)
            } else {
                let change = change_of(alloc, symbols, variables, scale, text, rest)?;
                changes.push(change)?;
                Ok(changes)
            }
        }
    }
}

#[cycle(effects)]
#[tactic(auto, using(std::proofs::Common::append_assoc))]
fn with_effects(
    alloc: Global,
    mut changes: List<Change>,
    symbols: &Symbols,
    variables: &Names,
    scale: u32,
    forms: &[Form],
) -> Result<List<Change>, NoMemory>
    requires { IsScale scale }
    ensures { IfOk result (λ more. more ≡ changes
        ++ effects_of symbols.now variables.now scale (trees_of forms.now)) }
{
    let mut rest = forms;
    'effects: loop {
        match head_of(rest) {
            Head::Missing => return Ok(changes),
            Head::Word(_, more) => rest = more,
            Head::List {
                parts,
                rest: more,
                ..
            } => {
                changes = with_effect(alloc, changes, symbols, variables, scale, parts)?;
                rest = more;
            }
        }
    }
}
