ghost use Rattle.std.specs.Prelude.{◌≡◌, ◌+◌, ◌≤◌, ◌^◌, ◌+ℤ◌, ◌-ℤ◌};
ghost use Rattle.tp_spec.specs.States.{value, of_both};
ghost use Rattle.tp_spec.specs.WellFormed.{depth};
ghost use Rattle.world_state.specs.Exact.{IsBounded};
ghost use Rattle.world_state.specs.View.{meaning};

use crate::state::{State, value_at};
use tp_spec::Expr;

/// The exact value of an expression in a state, none where a fluent in it is undefined.
pub(crate) fn value_in(state: &State, expr: &Expr) -> Option<i128>
    requires { depth expr.now ≤ 32 }
    ensures is { result ≡ value (meaning state.now) expr.now }
    ensures bounded { IsBounded (2 ^ (63 + depth expr.now)) result }
{
    match expr {
        Expr::Number(number) => Some(i128::from(*number)),
        Expr::Fluent(fluent) => widened(state.fluent(*fluent)),
        Expr::Sum(left, right) => sum(value_in(state, left.get()), value_in(state, right.get())),
        Expr::Difference(left, right) => difference(
            value_in(state, left.get()),
            value_in(state, right.get()),
        ),
    }
}

/// The same value in 128 bits.
pub(crate) fn widened(value: Option<i64>) -> Option<i128>
    ensures same { result ≡ value }
    ensures bounded { IsBounded (2 ^ 63) result }
{
    match value {
        Some(number) => Some(i128::from(number)),
        None => None,
    }
}

/// The sum of two values, none where one of them is.
pub(crate) fn sum(left: Option<i128>, right: Option<i128>) -> Option<i128>
    requires left_fits { IsBounded (2 ^ 126) left }
    requires right_fits { IsBounded (2 ^ 95) right }
    ensures { result ≡ of_both (λ m n. m +ℤ n) left right }
{
    match (left, right) {
        (Some(m), Some(n)) => Some(m + n),
        _ => None,
    }
}

/// The difference of two values, none where one of them is.
pub(crate) fn difference(left: Option<i128>, right: Option<i128>) -> Option<i128>
    requires left_fits { IsBounded (2 ^ 126) left }
    requires right_fits { IsBounded (2 ^ 95) right }
    ensures { result ≡ of_both (λ m n. m -ℤ n) left right }
{
    match (left, right) {
        (Some(m), Some(n)) => Some(m - n),
        _ => None,
    }
}
