ghost use Rattle.std.specs.Prelude.{◌≡◌, ◌≤◌, ◌^◌, IfOk, OnErr};
ghost use Rattle.pddl_tokens.specs.Trees.{trees_of};
ghost use Rattle.pddl_parts.specs.Items.{with_items};

use crate::names::Names;
use crate::typed::{Part, Rule, enter_item, is_item, next, next_of_list};
use pddl_tokens::{Form, Head, head_of};
use std::alloc::Global;
use tp_spec::NoMemory;

/// The names given, with each item of a typed list that fits behind them where it is new.
pub fn with_items(
    alloc: Global,
    rule: Rule,
    mut names: Names,
    forms: &[Form],
) -> Result<Names, NoMemory>
    ensures { IfOk result (λ more. more ≡ with_items rule names Part.Start (trees_of forms.now)) }
{
    let mut part = Part::Start;
    let mut rest = forms;
    'members: loop {
        match head_of(rest) {
            Head::Missing => return Ok(names),
            Head::Word(word, more) => {
                enter_item(alloc, is_item(rule, part, word), &mut names, word)?;
                part = next(part, word.text.as_slice());
                rest = more;
            }
            Head::List { rest: more, .. } => {
                part = next_of_list(part);
                rest = more;
            }
        }
    }
}

/// A number of something in 32 bits. More than those hold would not fit in memory.
pub fn in_32_bits(number: usize) -> Result<u32, NoMemory>
    ensures number { IfOk result (λ n. n ≡ number) }
    ensures many { OnErr result (2 ^ 32 ≤ number) }
{
    match u32::try_from(number) {
        Ok(number) => Ok(number),
        Err(_) => Err(NoMemory),
    }
}
