ghost use Rattle.std.specs.Prelude.{◌≡◌, pos, IfOk};
ghost use Rattle.ground_text.specs.Reading.{expr_at, both_expr, whole_expr_at, op_at, cond_at, how_of, effect_at, conds_at, effects_at, indices_at, begins_with_digit as begins_with_digit_of, value_at, values_at};

use crate::bytes::{first_is, index, integer, skip};
use sqlite_items::Boxed;
use std::alloc::{AllocError, Global};
use tp_spec::{Cond, Effect, Expr, How, List, Op};

/// The sum or the difference of two expressions.
fn both(alloc: Global, sum: bool, left: Expr, right: Expr) -> Result<Expr, AllocError>
    ensures { IfOk result (λ e. e ≡ both_expr sum left right) }
{
    let left = Boxed::new(alloc, left)?;
    let right = Boxed::new(alloc, right)?;
    Ok(if sum {
        Expr::Sum(left, right)
    } else {
        Expr::Difference(left, right)
    })
}

/// The expression in front, read as one that is less than so many operations deep.
fn expr(alloc: Global, levels: u32, bytes: &[u8]) -> Result<(Expr, &[u8]), AllocError>
    ensures { IfOk result (λ x. (x.0, x.1.now) ≡ expr_at levels bytes.now) }
{
    if levels == 0 {
        return Ok((Expr::Number(0), bytes));
    }
    if first_is(b'(', bytes) {
        let sum = first_is(b'+', skip(bytes, 1));
        let (left, rest) = expr(alloc, levels - 1, skip(bytes, 3))?;
        let (right, rest) = expr(alloc, levels - 1, skip(rest, 1))?;
        return Ok((both(alloc, sum, left, right)?, skip(rest, 1)));
    }
    if first_is(b'n', bytes) {
        let (fluent, rest) = index(skip(bytes, 1));
        return Ok((Expr::Fluent(fluent), rest));
    }
    let (number, rest) = integer(bytes);
    Ok((Expr::Number(number), rest))
}

#[tactic(auto, unfolding(crate::specs::Reading::whole_expr_at))]
fn whole_expr(alloc: Global, bytes: &[u8]) -> Result<(Expr, &[u8]), AllocError>
    ensures { IfOk result (λ x. (x.0, x.1.now) ≡ whole_expr_at bytes.now) }
{
    expr(alloc, 33, bytes)
}

#[tactic(auto, unfolding(crate::specs::Reading::op_at))]
fn op(bytes: &[u8]) -> (Op, &[u8])
    ensures { (result.0, result.1.now) ≡ op_at bytes.now }
{
    let or_equal = first_is(b'=', skip(bytes, 1));
    if first_is(b'<', bytes) {
        return if or_equal {
            (Op::LessEq, skip(bytes, 2))
        } else {
            (Op::Less, skip(bytes, 1))
        };
    }
    if first_is(b'>', bytes) {
        return if or_equal {
            (Op::MoreEq, skip(bytes, 2))
        } else {
            (Op::More, skip(bytes, 1))
        };
    }
    (Op::Equal, skip(bytes, 1))
}

/// The condition in front.
#[tactic(auto, unfolding(crate::specs::Reading::cond_at))]
fn cond(alloc: Global, bytes: &[u8]) -> Result<(Cond, &[u8]), AllocError>
    ensures { IfOk result (λ x. (x.0, x.1.now) ≡ cond_at bytes.now) }
{
    if !first_is(b'(', bytes) {
        let positive = first_is(b'+', bytes);
        let (fact, rest) = index(skip(bytes, 1));
        return Ok((Cond::Lit { fact, positive }, rest));
    }
    let (op, rest) = op(skip(bytes, 1));
    let (left, rest) = whole_expr(alloc, skip(rest, 1))?;
    let (right, rest) = whole_expr(alloc, skip(rest, 1))?;
    Ok((Cond::Compare { op, left, right }, skip(rest, 1)))
}

fn how(bytes: &[u8]) -> How
    ensures { result ≡ how_of bytes.now }
{
    if first_is(b'i', bytes) {
        How::Increase
    } else if first_is(b'd', bytes) {
        How::Decrease
    } else {
        How::Assign
    }
}

/// The effect in front.
#[tactic(auto, unfolding(crate::specs::Reading::effect_at))]
fn effect(alloc: Global, bytes: &[u8]) -> Result<(Effect, &[u8]), AllocError>
    ensures { IfOk result (λ x. (x.0, x.1.now) ≡ effect_at bytes.now) }
{
    if first_is(b'(', bytes) {
        let how = how(skip(bytes, 1));
        let (fluent, rest) = index(skip(bytes, 5));
        let (value, rest) = whole_expr(alloc, skip(rest, 1))?;
        return Ok((Effect::Change { how, fluent, value }, skip(rest, 1)));
    }
    let (fact, rest) = index(skip(bytes, 1));
    if first_is(b'+', bytes) {
        return Ok((Effect::Add(fact), rest));
    }
    Ok((Effect::Delete(fact), rest))
}

/// The conditions in front, each behind a space.
#[tactic(auto, unfolding(crate::specs::Reading::conds_at))]
pub fn conds(alloc: Global, bytes: &[u8]) -> Result<(List<Cond>, &[u8]), AllocError>
    ensures { IfOk result (λ x. (x.0, x.1.now) ≡ conds_at bytes.now) }
{
    let mut items = Vec::new(alloc);
    let mut rest = bytes;
    for _ in 0..bytes.len() {
        if !first_is(b' ', rest) {
            return Ok((List::of(items), rest));
        }
        let (item, after) = cond(alloc, skip(rest, 1))?;
        items.push(item)?;
        rest = after;
    }
    Ok((List::of(items), rest))
}

/// The effects in front, each behind a space.
#[tactic(auto, unfolding(crate::specs::Reading::effects_at))]
pub fn effects(alloc: Global, bytes: &[u8]) -> Result<(List<Effect>, &[u8]), AllocError>
    ensures { IfOk result (λ x. (x.0, x.1.now) ≡ effects_at bytes.now) }
{
    let mut items = Vec::new(alloc);
    let mut rest = bytes;
    for _ in 0..bytes.len() {
        if !first_is(b' ', rest) {
            return Ok((List::of(items), rest));
        }
        let (item, after) = effect(alloc, skip(rest, 1))?;
        items.push(item)?;
        rest = after;
    }
    Ok((List::of(items), rest))
}

/// The numbers in front, each behind a space.
#[tactic(auto, unfolding(crate::specs::Reading::indices_at))]
pub fn indices(alloc: Global, bytes: &[u8]) -> Result<(List<u32>, &[u8]), AllocError>
    ensures { IfOk result (λ x. (x.0, x.1.now) ≡ indices_at bytes.now) }
{
    let mut items = Vec::new(alloc);
    let mut rest = bytes;
    for _ in 0..bytes.len() {
        if !first_is(b' ', rest) {
            return Ok((List::of(items), rest));
        }
        let (item, after) = index(skip(rest, 1));
        items.push(item)?;
        rest = after;
    }
    Ok((List::of(items), rest))
}

fn begins_with_digit(bytes: &[u8]) -> bool
    ensures { result ≡ begins_with_digit_of bytes.now }
{
    match bytes {
        [first, ..] => 48 <= *first && *first <= 57,
        [] => false,
    }
}

/// The value in front, or none where a minus alone stands.
#[tactic(auto, unfolding(crate::specs::Reading::value_at))]
fn value(bytes: &[u8]) -> (Option<i64>, &[u8])
    ensures { (result.0, result.1.now) ≡ value_at bytes.now }
{
    if first_is(b'-', bytes) && !begins_with_digit(skip(bytes, 1)) {
        return (None, skip(bytes, 1));
    }
    let (number, rest) = integer(bytes);
    (Some(number), rest)
}

/// The values in front, each behind a space.
#[tactic(auto, unfolding(crate::specs::Reading::values_at))]
pub fn values(alloc: Global, bytes: &[u8]) -> Result<(List<Option<i64>>, &[u8]), AllocError>
    ensures { IfOk result (λ x. (x.0, x.1.now) ≡ values_at bytes.now) }
{
    let mut items = Vec::new(alloc);
    let mut rest = bytes;
    for _ in 0..bytes.len() {
        if !first_is(b' ', rest) {
            return Ok((List::of(items), rest));
        }
        let (item, after) = value(skip(rest, 1));
        items.push(item)?;
        rest = after;
    }
    Ok((List::of(items), rest))
}
