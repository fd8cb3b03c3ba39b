ghost use Rattle.std.specs.Prelude.{◌≡◌};
ghost use Rattle.pddl_tokens.specs.Trees.{trees_of};
ghost use Rattle.pddl_parts.specs.Expressions.{one_deeper, depth_of, sum_depth, grouped_depth, difference_depth, second_depth};

use crate::words::is_dash;
use pddl_tokens::{Form, Head, head_of};

fn one_deeper(first: u32, second: u32) -> u32
    ensures { result ≡ one_deeper first second }
{
    let deeper = if first < second { second } else { first };
    if deeper < 33 { deeper + 1 } else { deeper }
}

/// How many operations stand in one another in an expression's list, counted up to 33. A sum is
/// grouped from the left.
#[cycle(depth)]
pub fn depth_of(parts: &[Form]) -> u32
    ensures { result ≡ depth_of (trees_of parts.now) }
{
    match head_of(parts) {
        Head::Missing | Head::List { .. } => 0,
        Head::Word(head, rest) => {
            let text = head.text.as_slice();
            if text == b"+".as_slice() {
                sum_depth(rest)
            } else if is_dash(text) {
                difference_depth(rest)
            } else {
                0
            }
        }
    }
}

#[cycle(depth)]
fn sum_depth(summands: &[Form]) -> u32
    ensures { result ≡ sum_depth (trees_of summands.now) }
{
    match head_of(summands) {
        Head::Missing => 0,
        Head::Word(_, rest) => grouped_depth(0, rest),
        Head::List { parts, rest, .. } => grouped_depth(depth_of(parts), rest),
    }
}

/// The depth of a sum of one that is `first` deep and of more summands.
#[cycle(depth)]
fn grouped_depth(first: u32, summands: &[Form]) -> u32
    ensures { result ≡ grouped_depth first (trees_of summands.now) }
{
    let mut sum = first;
    let mut rest = summands;
    'summands: loop {
        match head_of(rest) {
            Head::Missing => return sum,
            Head::Word(_, more) => {
                sum = one_deeper(sum, 0);
                rest = more;
            }
            Head::List {
                parts,
                rest: more,
                ..
            } => {
                sum = one_deeper(sum, depth_of(parts));
                rest = more;
            }
        }
    }
}

/// The depth of a difference, or of a negation, which is 0 less its operand.
#[cycle(depth)]
fn difference_depth(operands: &[Form]) -> u32
    ensures { result ≡ difference_depth (trees_of operands.now) }
{
    match head_of(operands) {
        Head::Missing => 0,
        Head::Word(_, rest) => one_deeper(0, second_depth(rest)),
        Head::List { parts, rest, .. } => one_deeper(depth_of(parts), second_depth(rest)),
    }
}

#[cycle(depth)]
fn second_depth(operands: &[Form]) -> u32
    ensures { result ≡ second_depth (trees_of operands.now) }
{
    match head_of(operands) {
        Head::Missing | Head::Word(..) => 0,
        Head::List { parts, .. } => depth_of(parts),
    }
}
