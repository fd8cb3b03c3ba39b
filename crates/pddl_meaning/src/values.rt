ghost use Rattle.std.specs.Prelude.{◌≡◌, IfOk};
ghost use Rattle.pddl_tokens.specs.Numbers.{IsScale};
ghost use Rattle.pddl_tokens.specs.Trees.{trees_of};
ghost use Rattle.pddl_meaning.specs.declared.values.Value.TheVariants.{Sum, Difference};
ghost use Rattle.pddl_meaning.specs.Values.{numeral_value, operation_value, sum_value, grouped_value, difference_value, less_value, operand_of};

use crate::terms::{Atom, Symbols, atom_of};
use pddl_parts::{Names, is_dash};
use pddl_tokens::{Form, Head, Word, head_of, number};
use sqlite_items::Boxed;
use std::alloc::Global;
use tp_spec::NoMemory;

/// A numeric expression: a number in units of the scale, the value of a function, a sum or a
/// difference.
#[derive(Drop)]
pub enum Value {
    Number(i64),
    Call(Atom),
    Sum(Boxed<Value>, Boxed<Value>),
    Difference(Boxed<Value>, Boxed<Value>),
}

fn boxed(alloc: Global, value: Value) -> Result<Boxed<Value>, NoMemory>
    ensures { IfOk result (λ b. b ≡ value) }
{
    match Boxed::new(alloc, value) {
        Ok(value) => Ok(value),
        Err(_) => Err(NoMemory),
    }
}

fn sum(alloc: Global, first: Value, second: Value) -> Result<Value, NoMemory>
    ensures { IfOk result (λ v. v ≡ Sum first second) }
{
    let first = boxed(alloc, first)?;
    let second = boxed(alloc, second)?;
    Ok(Value::Sum(first, second))
}

fn difference(alloc: Global, first: Value, second: Value) -> Result<Value, NoMemory>
    ensures { IfOk result (λ v. v ≡ Difference first second) }
{
    let first = boxed(alloc, first)?;
    let second = boxed(alloc, second)?;
    Ok(Value::Difference(first, second))
}

/// The value that a numeral says, in units of `scale`.
pub fn numeral_value(scale: u32, word: &Word) -> Value
    requires { IsScale scale }
    ensures { result ≡ numeral_value scale word.now.text }
{
    match number(word, scale) {
        Ok(number) => Value::Number(number),
        Err(_) => Value::Number(0),
    }
}

/// What a list says as an expression.
#[cycle(values)]
pub fn operation_value(
    alloc: Global,
    symbols: &Symbols,
    variables: &Names,
    scale: u32,
    parts: &[Form],
) -> Result<Value, NoMemory>
    requires { IsScale scale }
    ensures { IfOk result (λ v. v
        ≡ operation_value symbols.now variables.now scale (trees_of parts.now)) }
{
    match head_of(parts) {
        Head::Missing | Head::List { .. } => Ok(Value::Number(0)),
        Head::Word(head, rest) => {
            let text = head.text.as_slice();
            if text == b"+".as_slice() {
                sum_value(alloc, symbols, variables, scale, rest)
            } else if is_dash(text) {
                difference_value(alloc, symbols, variables, scale, rest)
            } else {
                let atom = atom_of(alloc, symbols, variables, &symbols.functions, text, rest)?;
                Ok(Value::Call(atom))
            }
        }
    }
}

#[cycle(values)]
fn sum_value(
    alloc: Global,
    symbols: &Symbols,
    variables: &Names,
    scale: u32,
    summands: &[Form],
) -> Result<Value, NoMemory>
    requires { IsScale scale }
    ensures { IfOk result (λ v. v
        ≡ sum_value symbols.now variables.now scale (trees_of summands.now)) }
{
    match head_of(summands) {
        Head::Missing => Ok(Value::Number(0)),
        Head::Word(word, rest) => {
            grouped_value(
                alloc,
                symbols,
                variables,
                scale,
                numeral_value(scale, word),
                rest,
            )
        }
        Head::List { parts, rest, .. } => {
            let first = operation_value(alloc, symbols, variables, scale, parts)?;
            grouped_value(alloc, symbols, variables, scale, first, rest)
        }
    }
}

/// A value with more summands, grouped from the left.
#[cycle(values)]
fn grouped_value(
    alloc: Global,
    symbols: &Symbols,
    variables: &Names,
    scale: u32,
    first: Value,
    summands: &[Form],
) -> Result<Value, NoMemory>
    requires { IsScale scale }
    ensures { IfOk result (λ v. v
        ≡ grouped_value symbols.now variables.now scale first (trees_of summands.now)) }
{
    let mut total = first;
    let mut rest = summands;
    'summands: loop {
        match head_of(rest) {
            Head::Missing => return Ok(total),
            Head::Word(word, more) => {
                total = sum(alloc, total, numeral_value(scale, word))?;
                rest = more;
            }
            Head::List {
                parts,
                rest: more,
                ..
            } => {
                let summand = operation_value(alloc, symbols, variables, scale, parts)?;
                total = sum(alloc, total, summand)?;
                rest = more;
            }
        }
    }
}

#[cycle(values)]
fn difference_value(
    alloc: Global,
    symbols: &Symbols,
    variables: &Names,
    scale: u32,
    operands: &[Form],
) -> Result<Value, NoMemory>
    requires { IsScale scale }
    ensures { IfOk result (λ v. v
        ≡ difference_value symbols.now variables.now scale (trees_of operands.now)) }
{
    match head_of(operands) {
        Head::Missing => Ok(Value::Number(0)),
        Head::Word(word, rest) => {
            less_value(
                alloc,
                symbols,
                variables,
                scale,
                numeral_value(scale, word),
                rest,
            )
        }
        Head::List { parts, rest, .. } => {
            let first = operation_value(alloc, symbols, variables, scale, parts)?;
            less_value(alloc, symbols, variables, scale, first, rest)
        }
    }
}

/// A value less the first of these, or 0 less the value.
#[cycle(values)]
fn less_value(
    alloc: Global,
    symbols: &Symbols,
    variables: &Names,
    scale: u32,
    first: Value,
    operands: &[Form],
) -> Result<Value, NoMemory>
    requires { IsScale scale }
    ensures { IfOk result (λ v. v
        ≡ less_value symbols.now variables.now scale first (trees_of operands.now)) }
{
    match head_of(operands) {
        Head::Missing => difference(alloc, Value::Number(0), first),
        Head::Word(word, _) => difference(alloc, first, numeral_value(scale, word)),
        Head::List { parts, .. } => {
            let second = operation_value(alloc, symbols, variables, scale, parts)?;
            difference(alloc, first, second)
        }
    }
}

/// What the first member says as an expression.
pub fn operand_of(
    alloc: Global,
    symbols: &Symbols,
    variables: &Names,
    scale: u32,
    forms: &[Form],
) -> Result<Value, NoMemory>
    requires { IsScale scale }
    ensures { IfOk result (λ v. v
        ≡ operand_of symbols.now variables.now scale (trees_of forms.now)) }
{
    match head_of(forms) {
        Head::Missing => Ok(Value::Number(0)),
        Head::Word(word, _) => Ok(numeral_value(scale, word)),
        Head::List { parts, .. } => operation_value(alloc, symbols, variables, scale, parts),
    }
}
