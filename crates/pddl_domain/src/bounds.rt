ghost use Rattle.std.specs.Prelude.{◌≡◌, ◌++◌, IfOk};
ghost use Rattle.pddl_tokens.specs.Numbers.{IsScale};
ghost use Rattle.pddl_tokens.specs.Trees.{trees_of};
ghost use Rattle.pddl_domain.specs.Bounds.{bound_of, listed_bound, first_bound, constraint_of, constraints_of, duration_of};

use crate::domain::Bound;
use pddl_meaning::{Symbols, Value, behind_first, operand_of};
use pddl_parts::Names;
use pddl_tokens::{Form, Head, head_of};
use std::alloc::Global;
use tp_spec::{List, NoMemory};

/// Puts the bounds that a list with this head says behind others.
#[tactic(auto, using(std::proofs::Common::append_assoc))]
fn with_bound(
    alloc: Global,
    mut bounds: List<Bound>,
    symbols: &Symbols,
    variables: &Names,
    scale: u32,
    text: &[u8],
    rest: &[Form],
) -> Result<List<Bound>, NoMemory>
    requires { IsScale scale }
    ensures { IfOk result (λ more. more ≡ bounds
        ++ bound_of symbols.now variables.now scale text.now (trees_of rest.now)) }
{
    let value = operand_of(alloc, symbols, variables, scale, behind_first(rest))?;
    if text == b"=".as_slice() {
        let most = operand_of(alloc, symbols, variables, scale, behind_first(rest))?;
        bounds.push(Bound::Least(value))?;
        bounds.push(Bound::Most(most))?;
        Ok(bounds)
    } else if text == b"<=".as_slice() {
        bounds.push(Bound::Most(value))?;
        Ok(bounds)
    } else if text == b">=".as_slice() {
        bounds.push(Bound::Least(value))?;
        Ok(bounds)
    } else {
        Ok(bounds)
    }
}

fn with_listed(
    alloc: Global,
    bounds: List<Bound>,
    symbols: &Symbols,
    variables: &Names,
    scale: u32,
    parts: &[Form],
) -> Result<List<Bound>, NoMemory>
    requires { IsScale scale }
    ensures { IfOk result (λ more. more ≡ bounds
        ++ listed_bound symbols.now variables.now scale (trees_of parts.now)) }
{
    match head_of(parts) {
        Head::Missing | Head::List { .. } => Ok(bounds),
        Head::Word(head, rest) => {
            with_bound(
                alloc,
                bounds,
                symbols,
                variables,
                scale,
                head.text.as_slice(),
                rest,
            )
        }
    }
}

fn with_first(
    alloc: Global,
    bounds: List<Bound>,
    symbols: &Symbols,
    variables: &Names,
    scale: u32,
    members: &[Form],
) -> Result<List<Bound>, NoMemory>
    requires { IsScale scale }
    ensures { IfOk result (λ more. more ≡ bounds
        ++ first_bound symbols.now variables.now scale (trees_of members.now)) }
{
    match head_of(members) {
        Head::Missing | Head::Word(..) => Ok(bounds),
        Head::List { parts, .. } => with_listed(alloc, bounds, symbols, variables, scale, parts),
    }
}

/// Puts the bounds of a list, at the start or without a time, behind others.
fn with_constraint(
    alloc: Global,
    bounds: List<Bound>,
    symbols: &Symbols,
    variables: &Names,
    scale: u32,
    parts: &[Form],
) -> Result<List<Bound>, NoMemory>
    requires { IsScale scale }
    ensures { IfOk result (λ more. more ≡ bounds
        ++ constraint_of symbols.now variables.now scale (trees_of parts.now)) }
{
    match head_of(parts) {
        Head::Missing | Head::List { .. } => Ok(bounds),
        Head::Word(head, rest) => {
            let text = head.text.as_slice();
            if text == b"at".as_slice() {
                with_first(alloc, bounds, symbols, variables, scale, behind_first(rest))
            } else {
                with_bound(alloc, bounds, symbols, variables, scale, text, rest)
            }
        }
    }
}

#[tactic(auto, using(std::proofs::Common::append_assoc))]
fn constraints_of(
    alloc: Global,
    symbols: &Symbols,
    variables: &Names,
    scale: u32,
    forms: &[Form],
) -> Result<List<Bound>, NoMemory>
    requires { IsScale scale }
    ensures { IfOk result (λ bounds. bounds
        ≡ constraints_of symbols.now variables.now scale (trees_of forms.now)) }
{
    let mut bounds = List::new(alloc);
    let mut rest = forms;
    'bounds: loop {
        match head_of(rest) {
            Head::Missing => return Ok(bounds),
            Head::Word(_, more) => rest = more,
            Head::List {
                parts,
                rest: more,
                ..
            } => {
                bounds = with_constraint(alloc, bounds, symbols, variables, scale, parts)?;
                rest = more;
            }
        }
    }
}

/// The bounds of a duration, in units of `scale`.
pub fn duration_of(
    alloc: Global,
    symbols: &Symbols,
    variables: &Names,
    scale: u32,
    parts: &[Form],
) -> Result<List<Bound>, NoMemory>
    requires { IsScale scale }
    ensures { IfOk result (λ bounds. bounds
        ≡ duration_of symbols.now variables.now scale (trees_of parts.now)) }
{
    match head_of(parts) {
        Head::Missing | Head::List { .. } => Ok(List::new(alloc)),
        Head::Word(head, rest) => {
            if head.text.as_slice() == b"and".as_slice() {
                constraints_of(alloc, symbols, variables, scale, rest)
            } else {
                with_constraint(alloc, List::new(alloc), symbols, variables, scale, parts)
            }
        }
    }
}
