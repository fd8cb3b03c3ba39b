ghost use Rattle.std.specs.Prelude.{◌≡◌, ◌++◌, IfOk};
ghost use Rattle.pddl_tokens.specs.Numbers.{IsScale};
ghost use Rattle.pddl_tokens.specs.Trees.{trees_of};
ghost use Rattle.pddl_meaning.specs.declared.conditions.Condition.TheVariants.{Lit};
ghost use Rattle.pddl_meaning.specs.Terms.{atom_of};
ghost use Rattle.pddl_meaning.specs.Conditions.{op_of, same_of, compared_of, plain_of, negation_of, negated_of, condition_of, conditions_of};

use crate::terms::{Atom, Symbols, Term, atom_of, behind_first, first_term};
use crate::values::{Value, operand_of};
use pddl_parts::{Names, is_order, may_be_term};
use pddl_tokens::{Form, Head, head_of};
use std::alloc::Global;
use tp_spec::{List, NoMemory, Op};

/// A condition on a state: a literal, an object equality or its negation, or a comparison.
#[derive(Drop)]
pub enum Condition {
    Lit {
        positive: bool,
        atom: Atom,
    },
    Same {
        positive: bool,
        left: Term,
        right: Term,
    },
    Compare {
        op: Op,
        left: Value,
        right: Value,
    },
}

fn op_of(text: &[u8]) -> Op
    ensures { result ≡ op_of text.now }
{
    if text == b"<".as_slice() {
        Op::Less
    } else if text == b"<=".as_slice() {
        Op::LessEq
    } else if text == b">=".as_slice() {
        Op::MoreEq
    } else if text == b">".as_slice() {
        Op::More
    } else {
        Op::Equal
    }
}

fn same_of(
    symbols: &Symbols,
    variables: &Names,
    positive: bool,
    members: &[Form],
) -> Result<Condition, NoMemory>
    ensures { IfOk result (λ c. c
        ≡ same_of symbols.now variables.now positive (trees_of members.now)) }
{
    let left = first_term(symbols, variables, members)?;
    let right = first_term(symbols, variables, behind_first(members))?;
    Ok(Condition::Same {
        positive,
        left,
        right,
    })
}

fn compared_of(
    alloc: Global,
    symbols: &Symbols,
    variables: &Names,
    scale: u32,
    op: Op,
    members: &[Form],
) -> Result<Condition, NoMemory>
    requires { IsScale scale }
    ensures { IfOk result (λ c. c
        ≡ compared_of symbols.now variables.now scale op (trees_of members.now)) }
{
    let left = operand_of(alloc, symbols, variables, scale, members)?;
    let right = operand_of(alloc, symbols, variables, scale, behind_first(members))?;
    Ok(Condition::Compare { op, left, right })
}

fn literal_of(
    alloc: Global,
    symbols: &Symbols,
    variables: &Names,
    positive: bool,
    text: &[u8],
    rest: &[Form],
) -> Result<Condition, NoMemory>
    ensures { IfOk result (λ c. c
        ≡ Lit positive (atom_of symbols.now variables.now symbols.now.predicates text.now
        (trees_of rest.now))) }
{
    let atom = atom_of(alloc, symbols, variables, &symbols.predicates, text, rest)?;
    Ok(Condition::Lit { positive, atom })
}

/// What a list says that is no conjunction and no negation.
fn plain_of(
    alloc: Global,
    symbols: &Symbols,
    variables: &Names,
    scale: u32,
    text: &[u8],
    rest: &[Form],
) -> Result<Condition, NoMemory>
    requires { IsScale scale }
    ensures { IfOk result (λ c. c
        ≡ plain_of symbols.now variables.now scale text.now (trees_of rest.now)) }
{
    if text == b"=".as_slice() {
        if may_be_term(rest) {
            same_of(symbols, variables, true, rest)
        } else {
            compared_of(alloc, symbols, variables, scale, Op::Equal, rest)
        }
    } else if is_order(text) {
        compared_of(alloc, symbols, variables, scale, op_of(text), rest)
    } else {
        literal_of(alloc, symbols, variables, true, text, rest)
    }
}

fn with_negation(
    alloc: Global,
    mut conditions: List<Condition>,
    symbols: &Symbols,
    variables: &Names,
    parts: &[Form],
) -> Result<List<Condition>, NoMemory>
    ensures { IfOk result (λ more. more ≡ conditions
        ++ negation_of symbols.now variables.now (trees_of parts.now)) }
{
    match head_of(parts) {
        Head::Missing | Head::List { .. } => Ok(conditions),
        Head::Word(head, rest) => {
            let text = head.text.as_slice();
            let condition = if text == b"=".as_slice() {
                same_of(symbols, variables, false, rest)?
            } else {
                literal_of(alloc, symbols, variables, false, text, rest)?
            };
            conditions.push(condition)?;
            Ok(conditions)
        }
    }
}

fn with_negated(
    alloc: Global,
    conditions: List<Condition>,
    symbols: &Symbols,
    variables: &Names,
    members: &[Form],
) -> Result<List<Condition>, NoMemory>
    ensures { IfOk result (λ more. more ≡ conditions
        ++ negated_of symbols.now variables.now (trees_of members.now)) }
{
    match head_of(members) {
        Head::Missing | Head::Word(..) => Ok(conditions),
        Head::List { parts, .. } => with_negation(alloc, conditions, symbols, variables, parts),
    }
}

/// Puts the conjuncts of a list that is a condition behind others; numbers are in units of `scale`.
#[cycle(conditions)]
#[tactic(auto, using(std::proofs::Common::append_assoc))]
pub fn with_condition(
    alloc: Global,
    mut conditions: List<Condition>,
    symbols: &Symbols,
    variables: &Names,
    scale: u32,
    parts: &[Form],
) -> Result<List<Condition>, NoMemory>
    requires { IsScale scale }
    ensures { IfOk result (λ more. more ≡ conditions
        ++ condition_of symbols.now variables.now scale (trees_of parts.now)) }
{
    match head_of(parts) {
        Head::Missing | Head::List { .. } => Ok(conditions),
        Head::Word(head, rest) => {
            let text = head.text.as_slice();
            if text == b"and".as_slice() {
                with_conditions(alloc, conditions, symbols, variables, scale, rest)
            } else if text == b"not".as_slice() {
                with_negated(alloc, conditions, symbols, variables, rest)
            } else {
                let condition = plain_of(alloc, symbols, variables, scale, text, rest)?;
                conditions.push(condition)?;
                Ok(conditions)
            }
        }
    }
}

#[cycle(conditions)]
#[tactic(auto, using(std::proofs::Common::append_assoc))]
fn with_conditions(
    alloc: Global,
    mut conditions: List<Condition>,
    symbols: &Symbols,
    variables: &Names,
    scale: u32,
    forms: &[Form],
) -> Result<List<Condition>, NoMemory>
    requires { IsScale scale }
    ensures { IfOk result (λ more. more ≡ conditions
        ++ conditions_of symbols.now variables.now scale (trees_of forms.now)) }
{
    let mut rest = forms;
    'conditions: loop {
        match head_of(rest) {
            Head::Missing => return Ok(conditions),
            Head::Word(_, more) => rest = more,
            Head::List {
                parts,
                rest: more,
                ..
            } => {
                conditions = with_condition(alloc, conditions, symbols, variables, scale, parts)?;
                rest = more;
            }
        }
    }
}
