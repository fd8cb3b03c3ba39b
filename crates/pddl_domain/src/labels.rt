ghost use Rattle.std.specs.Prelude.{◌≡◌, ◌++◌, IfOk};
ghost use Rattle.pddl_tokens.specs.Numbers.{IsScale};
ghost use Rattle.pddl_tokens.specs.Trees.{trees_of};
ghost use Rattle.pddl_domain.specs.Bounds.{first_condition, labelled_condition, timed_condition, timed_conditions, first_effect, labelled_effect, timed_effect, timed_effects};

use pddl_meaning::{Change, Condition, Symbols, with_condition, with_effect};
use pddl_parts::Names;
use pddl_tokens::{Form, Head, head_of};
use std::alloc::Global;
use tp_spec::{List, NoMemory};

/// Puts what the first member says behind others.
fn with_first_condition(
    alloc: Global,
    listed: List<Condition>,
    symbols: &Symbols,
    variables: &Names,
    scale: u32,
    members: &[Form],
) -> Result<List<Condition>, NoMemory>
    requires { IsScale scale }
    ensures { IfOk result (λ more. more ≡ listed
        ++ first_condition symbols.now variables.now scale (trees_of members.now)) }
{
    match head_of(members) {
        Head::Missing | Head::Word(..) => Ok(listed),
        Head::List { parts, .. } => with_condition(alloc, listed, symbols, variables, scale, parts),
    }
}

fn with_labelled_condition(
    alloc: Global,
    listed: List<Condition>,
    symbols: &Symbols,
    variables: &Names,
    scale: u32,
    label: &[u8],
    members: &[Form],
) -> Result<List<Condition>, NoMemory>
    requires { IsScale scale }
    ensures { IfOk result (λ more. more ≡ listed
        ++ labelled_condition symbols.now variables.now scale label.now (trees_of members.now)) }
{
    match head_of(members) {
        Head::Missing | Head::List { .. } => Ok(listed),
        Head::Word(word, rest) => {
            if word.text.as_slice() == label {
                with_first_condition(alloc, listed, symbols, variables, scale, rest)
            } else {
                Ok(listed)
            }
        }
    }
}

/// Puts what a list with this label says behind others.
#[cycle(conditions)]
#[tactic(auto, using(std::proofs::Common::append_assoc))]
fn with_timed_condition(
    alloc: Global,
    listed: List<Condition>,
    symbols: &Symbols,
    variables: &Names,
    scale: u32,
    label: &[u8],
    parts: &[Form],
) -> Result<List<Condition>, NoMemory>
    requires { IsScale scale }
    ensures { IfOk result (λ more. more ≡ listed
        ++ timed_condition symbols.now variables.now scale label.now (trees_of parts.now)) }
{
    match head_of(parts) {
        Head::Missing | Head::List { .. } => Ok(listed),
        Head::Word(head, rest) => {
            if head.text.as_slice() == b"and".as_slice() {
                with_timed_conditions(alloc, listed, symbols, variables, scale, label, rest)
            } else {
                with_labelled_condition(alloc, listed, symbols, variables, scale, label, rest)
            }
        }
    }
}

#[cycle(conditions)]
#[tactic(auto, using(std::proofs::Common::append_assoc))]
fn with_timed_conditions(
    alloc: Global,
    mut listed: List<Condition>,
    symbols: &Symbols,
    variables: &Names,
    scale: u32,
    label: &[u8],
    forms: &[Form],
) -> Result<List<Condition>, NoMemory>
    requires { IsScale scale }
    ensures { IfOk result (λ more. more ≡ listed
        ++ timed_conditions symbols.now variables.now scale label.now (trees_of forms.now)) }
{
    let mut rest = forms;
    'members: loop {
        match head_of(rest) {
            Head::Missing => return Ok(listed),
            Head::Word(_, more) => rest = more,
            Head::List {
                parts,
                rest: more,
                ..
            } => {
                listed = with_timed_condition(
                    alloc, listed, symbols, variables, scale, label, parts,
                )?;
                rest = more;
            }
        }
    }
}

/// What the parts with this label of a timed condition say.
pub fn timed_condition(
    alloc: Global,
    symbols: &Symbols,
    variables: &Names,
    scale: u32,
    label: &[u8],
    parts: &[Form],
) -> Result<List<Condition>, NoMemory>
    requires { IsScale scale }
    ensures { IfOk result (λ listed. listed
        ≡ timed_condition symbols.now variables.now scale label.now (trees_of parts.now)) }
{
    with_timed_condition(
        alloc,
        List::new(alloc),
        symbols,
        variables,
        scale,
        label,
        parts,
    )
}

/// Puts what the first member says behind others.
fn with_first_effect(
    alloc: Global,
    listed: List<Change>,
    symbols: &Symbols,
    variables: &Names,
    scale: u32,
    members: &[Form],
) -> Result<List<Change>, NoMemory>
    requires { IsScale scale }
    ensures { IfOk result (λ more. more ≡ listed
        ++ first_effect symbols.now variables.now scale (trees_of members.now)) }
{
    match head_of(members) {
        Head::Missing | Head::Word(..) => Ok(listed),
        Head::List { parts, .. } => with_effect(alloc, listed, symbols, variables, scale, parts),
    }
}

fn with_labelled_effect(
    alloc: Global,
    listed: List<Change>,
    symbols: &Symbols,
    variables: &Names,
    scale: u32,
    label: &[u8],
    members: &[Form],
) -> Result<List<Change>, NoMemory>
    requires { IsScale scale }
    ensures { IfOk result (λ more. more ≡ listed
        ++ labelled_effect symbols.now variables.now scale label.now (trees_of members.now)) }
{
    match head_of(members) {
        Head::Missing | Head::List { .. } => Ok(listed),
        Head::Word(word, rest) => {
            if word.text.as_slice() == label {
                with_first_effect(alloc, listed, symbols, variables, scale, rest)
            } else {
                Ok(listed)
            }
        }
    }
}

/// Puts what a list with this label says behind others.
#[cycle(effects)]
#[tactic(auto, using(std::proofs::Common::append_assoc))]
fn with_timed_effect(
    alloc: Global,
    listed: List<Change>,
    symbols: &Symbols,
    variables: &Names,
    scale: u32,
    label: &[u8],
    parts: &[Form],
) -> Result<List<Change>, NoMemory>
    requires { IsScale scale }
    ensures { IfOk result (λ more. more ≡ listed
        ++ timed_effect symbols.now variables.now scale label.now (trees_of parts.now)) }
{
    match head_of(parts) {
        Head::Missing | Head::List { .. } => Ok(listed),
        Head::Word(head, rest) => {
            if head.text.as_slice() == b"and".as_slice() {
                with_timed_effects(alloc, listed, symbols, variables, scale, label, rest)
            } else {
                with_labelled_effect(alloc, listed, symbols, variables, scale, label, rest)
            }
        }
    }
}

#[cycle(effects)]
#[tactic(auto, using(std::proofs::Common::append_assoc))]
fn with_timed_effects(
    alloc: Global,
    mut listed: List<Change>,
    symbols: &Symbols,
    variables: &Names,
    scale: u32,
    label: &[u8],
    forms: &[Form],
) -> Result<List<Change>, NoMemory>
    requires { IsScale scale }
    ensures { IfOk result (λ more. more ≡ listed
        ++ timed_effects symbols.now variables.now scale label.now (trees_of forms.now)) }
{
    let mut rest = forms;
    'members: loop {
        match head_of(rest) {
            Head::Missing => return Ok(listed),
            Head::Word(_, more) => rest = more,
            Head::List {
                parts,
                rest: more,
                ..
            } => {
                listed = with_timed_effect(alloc, listed, symbols, variables, scale, label, parts)?;
                rest = more;
            }
        }
    }
}

/// What the parts with this label of a timed effect say.
pub fn timed_effect(
    alloc: Global,
    symbols: &Symbols,
    variables: &Names,
    scale: u32,
    label: &[u8],
    parts: &[Form],
) -> Result<List<Change>, NoMemory>
    requires { IsScale scale }
    ensures { IfOk result (λ listed. listed
        ≡ timed_effect symbols.now variables.now scale label.now (trees_of parts.now)) }
{
    with_timed_effect(
        alloc,
        List::new(alloc),
        symbols,
        variables,
        scale,
        label,
        parts,
    )
}
