ghost use Rattle.std.specs.Prelude.{◌≡◌, Bool, IfOk, ◌+ℤ◌, ◌-ℤ◌};
ghost use Rattle.pddl_meaning.specs.declared.values.Value.{fold-Value};
ghost use Rattle.tp_spec.specs.Lists.{some_and};
ghost use Rattle.tp_spec.specs.States.{of_both, compares};
ghost use Rattle.grounder.specs.Sources.{source_of};
ghost use Rattle.grounder.specs.Starts.{worth as worth_of, within};
ghost use Rattle.grounder.specs.Rigid.{is_static_value as is_static_value_of, is_known as is_known_of};

use crate::sources::call_name;
use crate::start::Start;
use crate::tables::{given, is_static_function};
use pddl_meaning::Value;
use std::alloc::Global;
use tp_spec::{NoMemory, Op};

/// A number in 128 bits.
fn widened(value: Option<i64>) -> Option<i128>
    ensures { result ≡ value }
{
    match value {
        Some(number) => Some(i128::from(number)),
        None => None,
    }
}

fn sum(left: Option<i128>, right: Option<i128>) -> Option<i128>
    ensures { result ≡ within (of_both (λ m n. m +ℤ n) left right) }
{
    match left {
        None => None,
        Some(left) => match right {
            None => None,
            Some(right) => left.checked_add(right),
        },
    }
}

fn difference(left: Option<i128>, right: Option<i128>) -> Option<i128>
    ensures { result ≡ within (of_both (λ m n. m -ℤ n) left right) }
{
    match left {
        None => None,
        Some(left) => match right {
            None => None,
            Some(right) => left.checked_sub(right),
        },
    }
}

/// The value of an expression at the start under a substitution, none where a function has none.
pub fn worth(
    alloc: Global,
    start: &Start,
    objects: &[u32],
    value: &Value,
) -> Result<Option<i128>, NoMemory>
    ensures { IfOk result (λ worth. worth
        ≡ worth_of (source_of start.now.source) objects.now value.now) }
{
    match value {
        Value::Number(number) => Ok(Some(i128::from(*number))),
        Value::Call(atom) => {
            let name = call_name(alloc, &start.source, objects, atom)?;
            Ok(widened(given(start, name.as_str())))
        }
        Value::Sum(left, right) => {
            let left = worth(alloc, start, objects, left.get())?;
            let right = worth(alloc, start, objects, right.get())?;
            Ok(sum(left, right))
        }
        Value::Difference(left, right) => {
            let left = worth(alloc, start, objects, left.get())?;
            let right = worth(alloc, start, objects, right.get())?;
            Ok(difference(left, right))
        }
    }
}

/// Whether each function of an expression is static.
pub fn is_static_value(start: &Start, value: &Value) -> bool
    ensures { result ≡ is_static_value_of (source_of start.now.source) value.now }
{
    match value {
        Value::Number(_) => true,
        Value::Call(atom) => is_static_function(start, atom.head),
        Value::Sum(left, right) => is_static_value(start, left.get())
            && is_static_value(start, right.get()),
        Value::Difference(left, right) => is_static_value(start, left.get())
            && is_static_value(start, right.get()),
    }
}

/// Whether each static function term of an expression has a value at the start.
pub fn is_known(
    alloc: Global,
    start: &Start,
    objects: &[u32],
    value: &Value,
) -> Result<bool, NoMemory>
    ensures { IfOk result (λ is. is
        ≡ is_known_of (source_of start.now.source) objects.now value.now) }
{
    match value {
        Value::Number(_) => Ok(true),
        Value::Call(atom) => {
            if !is_static_function(start, atom.head) {
                return Ok(true);
            }
            let name = call_name(alloc, &start.source, objects, atom)?;
            Ok(given(start, name.as_str()).is_some())
        }
        Value::Sum(left, right) => {
            let left = is_known(alloc, start, objects, left.get())?;
            let right = is_known(alloc, start, objects, right.get())?;
            Ok(left && right)
        }
        Value::Difference(left, right) => {
            let left = is_known(alloc, start, objects, left.get())?;
            let right = is_known(alloc, start, objects, right.get())?;
            Ok(left && right)
        }
    }
}

fn compare_numbers(op: Op, left: i128, right: i128) -> bool
    ensures { result ≡ compares op left right }
{
    match op {
        Op::Less => left < right,
        Op::LessEq => left <= right,
        Op::Equal => left == right,
        Op::MoreEq => left >= right,
        Op::More => left > right,
    }
}

/// How two values compare. Where one of them is none they do not.
pub fn compare(op: Op, left: Option<i128>, right: Option<i128>) -> bool
    ensures { result ≡ some_and (of_both (compares op) left right) (λ b. b) }
{
    match left {
        Some(left) => match right {
            Some(right) => compare_numbers(op, left, right),
            None => false,
        },
        None => false,
    }
}
