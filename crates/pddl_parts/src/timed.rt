ghost use Rattle.std.specs.Prelude.{◌≡◌};
ghost use Rattle.pddl_tokens.specs.Numbers.{IsScale};
ghost use Rattle.pddl_tokens.specs.Trees.{trees_of};
ghost use Rattle.pddl_parts.specs.First.{first};
ghost use Rattle.pddl_parts.specs.Settings.{setting_of};
ghost use Rattle.pddl_parts.specs.Timed.{inner_faults, is_label, begins_with_list, has_label, is_labelled, denies_labelled, takes_over, labelled_faults, at_faults, last_condition_faults, over_faults, timed_faults, all_timed_faults};

use crate::conditions::condition_fault;
use crate::effects::effect_fault;
use crate::faults::{Fault, Kind};
use crate::first::{earlier, fault};
use crate::literals::{misfit_list, misfit_word};
use crate::members::surplus_fault;
use crate::scope::Context;
use pddl_tokens::{Form, Head, head_of};

/// What is labelled in a durative action: its condition, or its effect.
#[derive(Clone, Copy, Debug, PartialEq, Eq)]
pub enum TimedPart {
    Condition,
    Effect,
}

/// The first fault of a list that is to be a condition, or an effect.
fn inner_fault(
    part: TimedPart,
    context: &Context<'_>,
    at: u32,
    close: u32,
    parts: &[Form],
) -> Option<Fault>
    requires { IsScale context.now.scale }
    ensures { result ≡ first (inner_faults part (setting_of context.now) at close
        (trees_of parts.now)) }
{
    match part {
        TimedPart::Condition => condition_fault(context, at, close, parts),
        TimedPart::Effect => effect_fault(context, at, close, parts),
    }
}

/// Whether a word is one of the two labels behind `at`.
fn is_label(text: &[u8]) -> bool
    ensures { result ≡ is_label text.now }
{
    text == b"start".as_slice() || text == b"end".as_slice()
}

fn begins_with_list(members: &[Form]) -> bool
    ensures { result ≡ begins_with_list (trees_of members.now) }
{
    match head_of(members) {
        Head::Missing | Head::Word(..) => false,
        Head::List { .. } => true,
    }
}

/// Whether a label and a list come first, as behind `at`.
fn has_label(members: &[Form]) -> bool
    ensures { result ≡ has_label (trees_of members.now) }
{
    match head_of(members) {
        Head::Missing | Head::List { .. } => false,
        Head::Word(label, rest) => is_label(label.text.as_slice()) && begins_with_list(rest),
    }
}

fn is_labelled(parts: &[Form]) -> bool
    ensures { result ≡ is_labelled (trees_of parts.now) }
{
    match head_of(parts) {
        Head::Missing | Head::List { .. } => false,
        Head::Word(head, rest) => head.text.as_slice() == b"at".as_slice() && has_label(rest),
    }
}

/// Whether a labelled list comes first, as behind `not`.
fn denies_labelled(members: &[Form]) -> bool
    ensures { result ≡ denies_labelled (trees_of members.now) }
{
    match head_of(members) {
        Head::Missing | Head::Word(..) => false,
        Head::List { parts, .. } => is_labelled(parts),
    }
}

/// Whether a word is `over` where that may stand.
fn takes_over(part: TimedPart, text: &[u8]) -> bool
    ensures { result ≡ takes_over part text.now }
{
    match part {
        TimedPart::Condition => text == b"over".as_slice(),
        TimedPart::Effect => false,
    }
}

/// The first fault behind `at start` or `at end`, of a list at `at`.
#[tactic(auto, using(crate::proofs::Firsts::first_append))]
fn labelled_fault(
    part: TimedPart,
    context: &Context<'_>,
    at: u32,
    close: u32,
    members: &[Form],
) -> Option<Fault>
    requires { IsScale context.now.scale }
    ensures { result ≡ first (labelled_faults part (setting_of context.now) at close
        (trees_of members.now)) }
{
    match head_of(members) {
        Head::Missing => fault(Kind::Shape, close),
        Head::Word(..) => fault(Kind::Shape, at),
        Head::List {
            at,
            close,
            parts,
            rest,
        } => {
            let inner = inner_fault(part, context, at, close, parts);
            earlier(inner, surplus_fault(rest))
        }
    }
}

/// The first fault behind `at`, of a list at `at`.
fn at_fault(
    part: TimedPart,
    context: &Context<'_>,
    at: u32,
    close: u32,
    members: &[Form],
) -> Option<Fault>
    requires { IsScale context.now.scale }
    ensures { result ≡ first (at_faults part (setting_of context.now) at close
        (trees_of members.now)) }
{
    match head_of(members) {
        Head::Missing | Head::List { .. } => fault(Kind::Shape, at),
        Head::Word(label, rest) => {
            if is_label(label.text.as_slice()) {
                labelled_fault(part, context, at, close, rest)
            } else {
                fault(Kind::Shape, at)
            }
        }
    }
}

/// The first fault where a condition is to be the last member.
#[tactic(auto, using(crate::proofs::Firsts::first_append))]
fn last_condition_fault(context: &Context<'_>, close: u32, members: &[Form]) -> Option<Fault>
    requires { IsScale context.now.scale }
    ensures { result ≡ first (last_condition_faults (setting_of context.now) close
        (trees_of members.now)) }
{
    match head_of(members) {
        Head::Missing => fault(Kind::Shape, close),
        Head::Word(word, rest) => earlier(misfit_word(word), surplus_fault(rest)),
        Head::List {
            at,
            close,
            parts,
            rest,
        } => {
            let condition = condition_fault(context, at, close, parts);
            earlier(condition, surplus_fault(rest))
        }
    }
}

/// The first fault behind `over`.
#[tactic(auto, using(crate::proofs::Firsts::first_append))]
fn over_fault(context: &Context<'_>, close: u32, members: &[Form]) -> Option<Fault>
    requires { IsScale context.now.scale }
    ensures { result ≡ first (over_faults (setting_of context.now) close (trees_of members.now)) }
{
    match head_of(members) {
        Head::Missing => fault(Kind::Shape, close),
        Head::List {
            at,
            parts,
            rest,
            ..
        } => {
            let condition = last_condition_fault(context, close, rest);
            earlier(misfit_list(at, parts), condition)
        }
        Head::Word(word, rest) => {
            let condition = last_condition_fault(context, close, rest);
            if word.text.as_slice() == b"all".as_slice() {
                condition
            } else {
                earlier(misfit_word(word), condition)
            }
        }
    }
}

/// The first fault of a list that is to be a durative action's condition, or its effect: a
/// conjunction, or one `at start`, `at end` or, of conditions alone, `over all` (PDDL 2.1: Fox and
/// Long 2003).
#[cycle(timed)]
pub fn timed_fault(
    part: TimedPart,
    context: &Context<'_>,
    at: u32,
    close: u32,
    parts: &[Form],
) -> Option<Fault>
    requires { IsScale context.now.scale }
    ensures { result ≡ first (timed_faults part (setting_of context.now) at close
        (trees_of parts.now)) }
{
    match head_of(parts) {
        Head::Missing => None,
        Head::List { .. } => misfit_list(at, parts),
        Head::Word(head, rest) => {
            let text = head.text.as_slice();
            if text == b"and".as_slice() {
                all_timed_fault(part, context, rest)
            } else if text == b"at".as_slice() {
                at_fault(part, context, at, close, rest)
            } else if takes_over(part, text) {
                over_fault(context, close, rest)
            } else if text == b"not".as_slice() && denies_labelled(rest) {
                fault(Kind::LeftOut, head.at)
            } else {
                misfit_list(at, parts)
            }
        }
    }
}

/// The first fault of some timed conditions, or timed effects.
#[cycle(timed)]
#[tactic(auto, using(crate::proofs::Firsts::first_onto))]
fn all_timed_fault(part: TimedPart, context: &Context<'_>, forms: &[Form]) -> Option<Fault>
    requires { IsScale context.now.scale }
    ensures { result ≡ first (all_timed_faults part (setting_of context.now) (trees_of forms.now)) }
{
    let mut best = None;
    let mut rest = forms;
    'members: loop {
        match head_of(rest) {
            Head::Missing => return best,
            Head::Word(word, more) => {
                best = earlier(best, misfit_word(word));
                rest = more;
            }
            Head::List {
                at,
                close,
                parts,
                rest: more,
            } => {
                let timed = timed_fault(part, context, at, close, parts);
                best = earlier(best, timed);
                rest = more;
            }
        }
    }
}
