ghost use Rattle.std.specs.Prelude.{◌≡◌, ◌&&◌, is_some};
ghost use Rattle.std.specs.List.{list_any};
ghost use Rattle.std.specs.Str.{bytes_eq};
ghost use Rattle.pddl_tokens.specs.Numbers.{IsScale};
ghost use Rattle.pddl_tokens.specs.Trees.{trees_of};
ghost use Rattle.pddl_parts.specs.First.{first};
ghost use Rattle.pddl_parts.specs.Settings.{setting_of};
ghost use Rattle.pddl_parts.specs.Tables.{value_of};
ghost use Rattle.pddl_parts.specs.Expressions.{numeral_faults, few_faults, written_at, function_faults, deep_faults, expression_faults, operation_faults, difference_faults, second_faults, expressions_faults};

use crate::atoms::{atom_fault, count_of};
use crate::depth::depth_of;
use crate::faults::{Fault, Kind};
use crate::first::{earlier, fault};
use crate::literals::{unfit_list, unfit_word};
use crate::members::extra_fault;
use crate::scope::{Context, Place, Scope};
use crate::words::{is_dash, is_head_word};
use pddl_tokens::{Form, Head, NumberFault, Word, head_of, number};

/// What is wrong with a word that is to be a numeral, whole at the scale.
pub fn numeral_fault(context: &Context<'_>, word: &Word) -> Option<Fault>
    requires { IsScale context.now.scale }
    ensures { result ≡ first (numeral_faults (setting_of context.now) word.now.at word.now.text) }
{
    match number(word, context.scale) {
        Ok(_) => None,
        Err(NumberFault::NotNumber) => unfit_word(context.place, word),
        Err(NumberFault::NotWhole) => fault(Kind::NotWhole, word.at),
        Err(NumberFault::TooLarge) => fault(Kind::TooLarge, word.at),
    }
}

fn few_fault(close: u32, summands: &[Form]) -> Option<Fault>
    ensures { result ≡ first (few_faults close (trees_of summands.now)) }
{
    if count_of(summands) < 2 {
        fault(Kind::Shape, close)
    } else {
        None
    }
}

fn is_written(scope: &Scope, text: &[u8]) -> bool
    ensures { result ≡ (is_some (value_of scope.now.functions text.now)
        && list_any (bytes_eq text.now) scope.now.written) }
{
    scope.functions.value(text).is_some() && scope.written.has(text)
}

/// What is wrong with a function that is declared and that an effect writes: it is left out in a
/// duration.
fn written_fault(place: Place, scope: &Scope, head: &Word) -> Option<Fault>
    ensures { result ≡ first (written_at place scope.now head.now.at head.now.text) }
{
    match place {
        Place::Elsewhere => None,
        Place::Duration => {
            if is_written(scope, head.text.as_slice()) {
                fault(Kind::LeftOut, head.at)
            } else {
                None
            }
        }
    }
}

/// The first fault of a list that begins with a function's name.
#[tactic(auto, using(crate::proofs::Firsts::first_append))]
fn function_fault(context: &Context<'_>, at: u32, head: &Word, arguments: &[Form]) -> Option<Fault>
    ensures { result ≡ first (function_faults (setting_of context.now) at head.now.at head.now.text
        (trees_of arguments.now)) }
{
    let written = written_fault(context.place, context.scope, head);
    let atom = atom_fault(context, &context.scope.functions, at, head, arguments);
    earlier(written, atom)
}

/// The first fault of a list that is to be an expression, but for its depth: a sum, a difference, a
/// negation or a function with its arguments. It stands at `at` and closes at `close`.
#[cycle(expressions)]
#[tactic(auto, using(crate::proofs::Firsts::first_append))]
pub fn operation_fault(context: &Context<'_>, at: u32, close: u32, parts: &[Form]) -> Option<Fault>
    requires { IsScale context.now.scale }
    ensures { result ≡ first (operation_faults (setting_of context.now) at close
        (trees_of parts.now)) }
{
    match head_of(parts) {
        Head::Missing | Head::List { .. } => unfit_list(context.place, at, parts),
        Head::Word(head, rest) => {
            let text = head.text.as_slice();
            if text == b"+".as_slice() {
                let summands = expressions_fault(context, rest);
                earlier(summands, few_fault(close, rest))
            } else if is_dash(text) {
                difference_fault(context, close, rest)
            } else if is_head_word(head) {
                function_fault(context, at, head, rest)
            } else {
                unfit_list(context.place, at, parts)
            }
        }
    }
}

/// The first fault of the operands of a difference, or of a negation.
#[cycle(expressions)]
#[tactic(auto, using(crate::proofs::Firsts::first_append))]
fn difference_fault(context: &Context<'_>, close: u32, operands: &[Form]) -> Option<Fault>
    requires { IsScale context.now.scale }
    ensures { result ≡ first (difference_faults (setting_of context.now) close
        (trees_of operands.now)) }
{
    match head_of(operands) {
        Head::Missing => fault(Kind::Shape, close),
        Head::Word(word, rest) => {
            let second = second_fault(context, rest);
            earlier(numeral_fault(context, word), second)
        }
        Head::List {
            at,
            close,
            parts,
            rest,
        } => {
            let first = operation_fault(context, at, close, parts);
            let second = second_fault(context, rest);
            earlier(first, second)
        }
    }
}

/// The first fault behind the first operand of a difference.
#[cycle(expressions)]
#[tactic(auto, using(crate::proofs::Firsts::first_append))]
fn second_fault(context: &Context<'_>, operands: &[Form]) -> Option<Fault>
    requires { IsScale context.now.scale }
    ensures { result ≡ first (second_faults (setting_of context.now) (trees_of operands.now)) }
{
    match head_of(operands) {
        Head::Missing => None,
        Head::Word(word, rest) => earlier(
            numeral_fault(context, word),
            extra_fault(context.place, rest),
        ),
        Head::List {
            at,
            close,
            parts,
            rest,
        } => {
            let second = operation_fault(context, at, close, parts);
            earlier(second, extra_fault(context.place, rest))
        }
    }
}

/// The first fault of some expressions, but for their depths.
#[cycle(expressions)]
#[tactic(auto, using(crate::proofs::Firsts::first_onto))]
fn expressions_fault(context: &Context<'_>, forms: &[Form]) -> Option<Fault>
    requires { IsScale context.now.scale }
    ensures { result ≡ first (expressions_faults (setting_of context.now) (trees_of forms.now)) }
{
    let mut best = None;
    let mut rest = forms;
    'expressions: loop {
        match head_of(rest) {
            Head::Missing => return best,
            Head::Word(word, more) => {
                best = earlier(best, numeral_fault(context, word));
                rest = more;
            }
            Head::List {
                at,
                close,
                parts,
                rest: more,
            } => {
                let operation = operation_fault(context, at, close, parts);
                best = earlier(best, operation);
                rest = more;
            }
        }
    }
}

fn deep_fault(at: u32, parts: &[Form]) -> Option<Fault>
    ensures { result ≡ first (deep_faults at (trees_of parts.now)) }
{
    if depth_of(parts) > 32 {
        fault(Kind::Shape, at)
    } else {
        None
    }
}

/// The first fault of a list that is to be a whole expression, at most 32 operations deep. It
/// stands at `at` and closes at `close`.
#[tactic(auto, using(crate::proofs::Firsts::first_append))]
pub fn expression_fault(context: &Context<'_>, at: u32, close: u32, parts: &[Form]) -> Option<Fault>
    requires { IsScale context.now.scale }
    ensures { result ≡ first (expression_faults (setting_of context.now) at close
        (trees_of parts.now)) }
{
    let operation = operation_fault(context, at, close, parts);
    earlier(operation, deep_fault(at, parts))
}
