ghost use Rattle.std.specs.Prelude.{◌≡◌};
ghost use Rattle.pddl_tokens.specs.Numbers.{IsScale};
ghost use Rattle.pddl_tokens.specs.Trees.{trees_of};
ghost use Rattle.pddl_parts.specs.First.{first};
ghost use Rattle.pddl_parts.specs.Settings.{setting_of};
ghost use Rattle.pddl_problem.specs.Init.{last_numeral_faults, fluent_faults, given_faults, element_faults, elements_faults};

use crate::literals::{dated_fault, ground_fault, is_dated, negated_fault};
use pddl_parts::{
    Context, Fault, Kind, earlier, fault, is_atom_word, is_head_word, misfit_list, misfit_word,
    numeral_fault, surplus_fault,
};
use pddl_tokens::{Form, Head, head_of};

/// The first fault where a numeral is to be the last member.
#[tactic(auto, using(pddl_parts::proofs::Firsts::first_append))]
fn last_numeral_fault(context: &Context<'_>, close: u32, members: &[Form]) -> Option<Fault>
    requires { IsScale context.now.scale }
    ensures { result ≡ first (last_numeral_faults (setting_of context.now) close
        (trees_of members.now)) }
{
    match head_of(members) {
        Head::Missing => fault(Kind::Shape, close),
        Head::Word(word, rest) => earlier(numeral_fault(context, word), surplus_fault(rest)),
        Head::List {
            at,
            parts,
            rest,
            ..
        } => earlier(misfit_list(at, parts), surplus_fault(rest)),
    }
}

/// The first fault of a list that is to be a function with objects.
fn fluent_fault(context: &Context<'_>, at: u32, parts: &[Form]) -> Option<Fault>
    ensures { result ≡ first (fluent_faults (setting_of context.now) at (trees_of parts.now)) }
{
    match head_of(parts) {
        Head::Missing | Head::List { .. } => misfit_list(at, parts),
        Head::Word(head, rest) => {
            if is_head_word(head) {
                ground_fault(context, &context.scope.functions, at, head, rest)
            } else {
                misfit_list(at, parts)
            }
        }
    }
}

/// The first fault behind `=`.
#[tactic(auto, using(pddl_parts::proofs::Firsts::first_append))]
fn given_fault(context: &Context<'_>, close: u32, members: &[Form]) -> Option<Fault>
    requires { IsScale context.now.scale }
    ensures { result ≡ first (given_faults (setting_of context.now) close (trees_of members.now)) }
{
    match head_of(members) {
        Head::Missing => fault(Kind::Shape, close),
        Head::Word(word, rest) => {
            earlier(misfit_word(word), last_numeral_fault(context, close, rest))
        }
        Head::List {
            at,
            parts,
            rest,
            ..
        } => earlier(
            fluent_fault(context, at, parts),
            last_numeral_fault(context, close, rest),
        ),
    }
}

/// The first fault of a list of `:init`.
fn element_fault(context: &Context<'_>, at: u32, close: u32, parts: &[Form]) -> Option<Fault>
    requires { IsScale context.now.scale }
    ensures { result ≡ first (element_faults (setting_of context.now) at close
        (trees_of parts.now)) }
{
    match head_of(parts) {
        Head::Missing | Head::List { .. } => misfit_list(at, parts),
        Head::Word(head, rest) => {
            let text = head.text.as_slice();
            if text == b"not".as_slice() {
                negated_fault(context, head.at, close, rest)
            } else if text == b"=".as_slice() {
                given_fault(context, close, rest)
            } else if text == b"at".as_slice() && is_dated(rest) {
                dated_fault(context, rest)
            } else if is_atom_word(head) {
                ground_fault(context, &context.scope.predicates, at, head, rest)
            } else {
                misfit_list(at, parts)
            }
        }
    }
}

/// The first fault of the members of `:init`, each by itself; numbers and times are whole at the
/// scale.
#[tactic(auto, using(pddl_parts::proofs::Firsts::first_onto))]
pub fn elements_fault(context: &Context<'_>, members: &[Form]) -> Option<Fault>
    requires { IsScale context.now.scale }
    ensures { result ≡ first (elements_faults (setting_of context.now) (trees_of members.now)) }
{
    let mut best = None;
    let mut rest = members;
    'elements: loop {
        match head_of(rest) {
            Head::Missing => return best,
            Head::Word(word, more) => {
                best = earlier(best, misfit_word(word));
                rest = more;
            }
            Head::List {
                at,
                close,
                parts,
                rest: more,
            } => {
                best = earlier(best, element_fault(context, at, close, parts));
                rest = more;
            }
        }
    }
}
