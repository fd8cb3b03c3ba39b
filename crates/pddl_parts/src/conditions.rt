ghost use Rattle.std.specs.Prelude.{◌≡◌};
ghost use Rattle.pddl_tokens.specs.Numbers.{IsScale};
ghost use Rattle.pddl_tokens.specs.Trees.{trees_of};
ghost use Rattle.pddl_parts.specs.First.{first};
ghost use Rattle.pddl_parts.specs.Settings.{setting_of};
ghost use Rattle.pddl_parts.specs.Conditions.{last_operand_faults, compared_faults, last_term_faults, equal_faults, negated_list_faults, negated_faults, condition_faults, conditions_faults};

use crate::atoms::{predicate_fault, term_fault};
use crate::expressions::{expression_fault, numeral_fault};
use crate::faults::{Fault, Kind};
use crate::first::{earlier, fault};
use crate::literals::{is_literal, misfit_list, misfit_word};
use crate::members::{extra_fault, surplus_fault};
use crate::scope::Context;
use crate::words::{is_atom_word, is_order};
use pddl_tokens::{Form, Head, Word, head_of, is_numeral};

/// The first fault where an expression is to be the last member.
#[tactic(auto, using(crate::proofs::Firsts::first_append))]
pub fn last_operand_fault(context: &Context<'_>, close: u32, operands: &[Form]) -> Option<Fault>
    requires { IsScale context.now.scale }
    ensures { result ≡ first (last_operand_faults (setting_of context.now) close
        (trees_of operands.now)) }
{
    match head_of(operands) {
        Head::Missing => fault(Kind::Shape, close),
        Head::Word(word, rest) => earlier(
            numeral_fault(context, word),
            extra_fault(context.place, rest),
        ),
        Head::List {
            at,
            close,
            parts,
            rest,
        } => {
            let operation = expression_fault(context, at, close, parts);
            earlier(operation, extra_fault(context.place, rest))
        }
    }
}

/// The first fault of the two expressions of a comparison.
#[tactic(auto, using(crate::proofs::Firsts::first_append))]
fn compared_fault(context: &Context<'_>, close: u32, operands: &[Form]) -> Option<Fault>
    requires { IsScale context.now.scale }
    ensures { result ≡ first (compared_faults (setting_of context.now) close
        (trees_of operands.now)) }
{
    match head_of(operands) {
        Head::Missing => fault(Kind::Shape, close),
        Head::Word(word, rest) => {
            let last = last_operand_fault(context, close, rest);
            earlier(numeral_fault(context, word), last)
        }
        Head::List {
            at,
            close: end,
            parts,
            rest,
        } => {
            let operation = expression_fault(context, at, end, parts);
            earlier(operation, last_operand_fault(context, close, rest))
        }
    }
}

/// The first fault where a term is to be the last member.
#[tactic(auto, using(crate::proofs::Firsts::first_append))]
fn last_term_fault(context: &Context<'_>, close: u32, terms: &[Form]) -> Option<Fault>
    ensures { result ≡ first (last_term_faults (setting_of context.now) close
        (trees_of terms.now)) }
{
    match head_of(terms) {
        Head::Missing => fault(Kind::Shape, close),
        Head::Word(word, rest) => earlier(term_fault(context, word), surplus_fault(rest)),
        Head::List {
            at,
            parts,
            rest,
            ..
        } => earlier(misfit_list(at, parts), surplus_fault(rest)),
    }
}

/// The first fault behind `=`.
#[tactic(auto, using(crate::proofs::Firsts::first_append))]
fn equal_fault(context: &Context<'_>, close: u32, members: &[Form]) -> Option<Fault>
    requires { IsScale context.now.scale }
    ensures { result ≡ first (equal_faults (setting_of context.now) close (trees_of members.now)) }
{
    match head_of(members) {
        Head::Missing => fault(Kind::Shape, close),
        Head::Word(word, rest) => {
            if is_numeral(word) {
                let last = last_operand_fault(context, close, rest);
                earlier(numeral_fault(context, word), last)
            } else {
                let last = last_term_fault(context, close, rest);
                earlier(term_fault(context, word), last)
            }
        }
        Head::List {
            at,
            close: end,
            parts,
            rest,
        } => {
            let operation = expression_fault(context, at, end, parts);
            earlier(operation, last_operand_fault(context, close, rest))
        }
    }
}

/// The first fault of a list behind `not`, which stands at `before`.
fn negated_list_fault(
    context: &Context<'_>,
    before: u32,
    at: u32,
    close: u32,
    parts: &[Form],
) -> Option<Fault>
    requires { IsScale context.now.scale }
    ensures { result ≡ first (negated_list_faults (setting_of context.now) before at close
        (trees_of parts.now)) }
{
    match head_of(parts) {
        Head::Missing | Head::List { .. } => fault(Kind::LeftOut, before),
        Head::Word(head, rest) => {
            if !is_literal(head, rest) {
                fault(Kind::LeftOut, before)
            } else if head.text.as_slice() == b"=".as_slice() {
                equal_fault(context, close, rest)
            } else {
                predicate_fault(context, at, head, rest)
            }
        }
    }
}

/// The first fault behind `not`, which stands at `before`.
#[tactic(auto, using(crate::proofs::Firsts::first_append))]
fn negated_fault(context: &Context<'_>, before: u32, close: u32, members: &[Form]) -> Option<Fault>
    requires { IsScale context.now.scale }
    ensures { result ≡ first (negated_faults (setting_of context.now) before close
        (trees_of members.now)) }
{
    match head_of(members) {
        Head::Missing => fault(Kind::Shape, close),
        Head::Word(_, rest) => earlier(fault(Kind::LeftOut, before), surplus_fault(rest)),
        Head::List {
            at,
            close,
            parts,
            rest,
        } => {
            let list = negated_list_fault(context, before, at, close, parts);
            earlier(list, surplus_fault(rest))
        }
    }
}

/// The first fault of a list that is to be a condition: a conjunction, a literal, an object
/// equality or a comparison. It stands at `at` and closes at `close`.
#[cycle(conditions)]
pub fn condition_fault(context: &Context<'_>, at: u32, close: u32, parts: &[Form]) -> Option<Fault>
    requires { IsScale context.now.scale }
    ensures { result ≡ first (condition_faults (setting_of context.now) at close
        (trees_of parts.now)) }
{
    match head_of(parts) {
        Head::Missing => None,
        Head::List { .. } => misfit_list(at, parts),
        Head::Word(head, rest) => {
            let text = head.text.as_slice();
            if text == b"and".as_slice() {
                conditions_fault(context, rest)
            } else if text == b"not".as_slice() {
                negated_fault(context, head.at, close, rest)
            } else if text == b"=".as_slice() {
                equal_fault(context, close, rest)
            } else if is_order(text) {
                compared_fault(context, close, rest)
            } else if is_atom_word(head) {
                predicate_fault(context, at, head, rest)
            } else {
                misfit_list(at, parts)
            }
        }
    }
}

/// The first fault of some conditions.
#[cycle(conditions)]
#[tactic(auto, using(crate::proofs::Firsts::first_onto))]
fn conditions_fault(context: &Context<'_>, forms: &[Form]) -> Option<Fault>
    requires { IsScale context.now.scale }
    ensures { result ≡ first (conditions_faults (setting_of context.now) (trees_of forms.now)) }
{
    let mut best = None;
    let mut rest = forms;
    'conditions: loop {
        match head_of(rest) {
            Head::Missing => return best,
            Head::Word(word, more) => {
                best = earlier(best, misfit_word(word));
                rest = more;
            }
            Head::List {
                at,
                close,
                parts,
                rest: more,
            } => {
                let condition = condition_fault(context, at, close, parts);
                best = earlier(best, condition);
                rest = more;
            }
        }
    }
}
