ghost use Rattle.std.specs.Prelude.{◌≡◌};
ghost use Rattle.pddl_tokens.specs.Numbers.{IsScale};
ghost use Rattle.pddl_tokens.specs.Trees.{trees_of};
ghost use Rattle.pddl_parts.specs.First.{first};
ghost use Rattle.pddl_parts.specs.Settings.{setting_of};
ghost use Rattle.pddl_parts.specs.Effects.{function_faults, update_faults, deleted_list_faults, deleted_faults, effect_faults, effects_faults};

use crate::atoms::{atom_fault, predicate_fault};
use crate::conditions::last_operand_fault;
use crate::faults::{Fault, Kind};
use crate::first::{earlier, fault};
use crate::literals::{is_literal, misfit_list, misfit_word};
use crate::members::surplus_fault;
use crate::scope::Context;
use crate::words::{is_atom_word, is_head_word, is_update};
use pddl_tokens::{Form, Head, head_of};

/// The first fault of a list that is to be a function with its arguments.
fn function_fault(context: &Context<'_>, at: u32, parts: &[Form]) -> Option<Fault>
    ensures { result ≡ first (function_faults (setting_of context.now) at (trees_of parts.now)) }
{
    match head_of(parts) {
        Head::Missing | Head::List { .. } => misfit_list(at, parts),
        Head::Word(head, rest) => {
            if is_head_word(head) {
                atom_fault(context, &context.scope.functions, at, head, rest)
            } else {
                misfit_list(at, parts)
            }
        }
    }
}

/// The first fault of what is updated, and by what.
#[tactic(auto, using(crate::proofs::Firsts::first_append))]
fn update_fault(context: &Context<'_>, close: u32, members: &[Form]) -> Option<Fault>
    requires { IsScale context.now.scale }
    ensures { result ≡ first (update_faults (setting_of context.now) close (trees_of members.now)) }
{
    match head_of(members) {
        Head::Missing => fault(Kind::Shape, close),
        Head::Word(word, rest) => {
            let value = last_operand_fault(context, close, rest);
            earlier(misfit_word(word), value)
        }
        Head::List {
            at,
            parts,
            rest,
            ..
        } => {
            let value = last_operand_fault(context, close, rest);
            earlier(function_fault(context, at, parts), value)
        }
    }
}

/// The first fault of a list behind `not`, which stands at `before`.
fn deleted_list_fault(context: &Context<'_>, before: u32, at: u32, parts: &[Form]) -> Option<Fault>
    ensures { result ≡ first (deleted_list_faults (setting_of context.now) before at
        (trees_of parts.now)) }
{
    match head_of(parts) {
        Head::Missing | Head::List { .. } => fault(Kind::LeftOut, before),
        Head::Word(head, rest) => {
            if is_literal(head, rest) {
                predicate_fault(context, at, head, rest)
            } else {
                fault(Kind::LeftOut, before)
            }
        }
    }
}

/// The first fault behind `not`, which stands at `before`.
#[tactic(auto, using(crate::proofs::Firsts::first_append))]
fn deleted_fault(context: &Context<'_>, before: u32, close: u32, members: &[Form]) -> Option<Fault>
    ensures { result ≡ first (deleted_faults (setting_of context.now) before close
        (trees_of members.now)) }
{
    match head_of(members) {
        Head::Missing => fault(Kind::Shape, close),
        Head::Word(_, rest) => earlier(fault(Kind::LeftOut, before), surplus_fault(rest)),
        Head::List {
            at,
            parts,
            rest,
            ..
        } => {
            let list = deleted_list_fault(context, before, at, parts);
            earlier(list, surplus_fault(rest))
        }
    }
}

/// The first fault of a list that is to be an effect of an action: a conjunction, a literal or an
/// update. It stands at `at` and closes at `close`.
#[cycle(effects)]
pub fn effect_fault(context: &Context<'_>, at: u32, close: u32, parts: &[Form]) -> Option<Fault>
    requires { IsScale context.now.scale }
    ensures { result ≡ first (effect_faults (setting_of context.now) at close
        (trees_of parts.now)) }
{
    match head_of(parts) {
        Head::Missing => None,
        Head::List { .. } => misfit_list(at, parts),
        Head::Word(head, rest) => {
            let text = head.text.as_slice();
            if text == b"and".as_slice() {
                effects_fault(context, rest)
            } else if text == b"not".as_slice() {
                deleted_fault(context, head.at, close, rest)
            } else if is_update(text) {
                update_fault(context, close, rest)
            } else if is_atom_word(head) {
                predicate_fault(context, at, head, rest)
            } else {
                misfit_list(at, parts)
            }
        }
    }
}

/// The first fault of some effects.
#[cycle(effects)]
#[tactic(auto, using(crate::proofs::Firsts::first_onto))]
fn effects_fault(context: &Context<'_>, forms: &[Form]) -> Option<Fault>
    requires { IsScale context.now.scale }
    ensures { result ≡ first (effects_faults (setting_of context.now) (trees_of forms.now)) }
{
    let mut best = None;
    let mut rest = forms;
    'effects: loop {
        match head_of(rest) {
            Head::Missing => return best,
            Head::Word(word, more) => {
                best = earlier(best, misfit_word(word));
                rest = more;
            }
            Head::List {
                at,
                close,
                parts,
                rest: more,
            } => {
                let effect = effect_fault(context, at, close, parts);
                best = earlier(best, effect);
                rest = more;
            }
        }
    }
}
