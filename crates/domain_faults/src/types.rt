ghost use Rattle.std.specs.Prelude.{◌≡◌, IfOk};
ghost use Rattle.pddl_tokens.specs.Trees.{trees_of};
ghost use Rattle.pddl_parts.specs.First.{first};
ghost use Rattle.domain_faults.specs.Types.{type_names, types_faults};

use crate::cycles::cycle_fault;
use crate::parents::parents_of;
use pddl_parts::{Fault, Names, Rule, earlier, enter_item, is_thing, typed_fault};
use pddl_tokens::{Form, Head, head_of};
use std::alloc::Global;
use tp_spec::NoMemory;

/// The types that the members of `:types` name, as a type or as a parent: `object` is number 0, and
/// the others have their numbers in the order in which they first come.
pub fn type_names(alloc: Global, members: &[Form]) -> Result<Names, NoMemory>
    ensures { IfOk result (λ names. names ≡ type_names (trees_of members.now)) }
{
    let mut names = Names::new(alloc);
    names.enter(alloc, b"object")?;
    let mut rest = members;
    'members: loop {
        match head_of(rest) {
            Head::Missing => return Ok(names),
            Head::Word(word, more) => {
                enter_item(alloc, is_thing(word), &mut names, word)?;
                rest = more;
            }
            Head::List { rest: more, .. } => rest = more,
        }
    }
}

/// The first fault of the members of `:types`, of which `types` are the names.
#[tactic(auto, using(pddl_parts::proofs::Firsts::first_append))]
pub fn types_fault(
    alloc: Global,
    types: &Names,
    close: u32,
    members: &[Form],
) -> Result<Option<Fault>, NoMemory>
    ensures { IfOk result (λ fault. fault
        ≡ first (types_faults types.now close (trees_of members.now))) }
{
    let rule = Rule {
        variables: false,
        any_type: true,
    };
    let typed = typed_fault(rule, &Names::new(alloc), close, members);
    let (parents, again) = parents_of(alloc, types, members)?;
    let cycle = cycle_fault(alloc, types, &parents, members)?;
    Ok(earlier(typed, earlier(again, cycle)))
}
