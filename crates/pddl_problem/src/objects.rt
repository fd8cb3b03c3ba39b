ghost use Rattle.std.specs.Prelude.{◌≡◌, IfOk, OnOk, []};
ghost use Rattle.pddl_tokens.specs.Trees.{trees_of};
ghost use Rattle.pddl_parts.specs.First.{first};
ghost use Rattle.pddl_parts.specs.Names.{with_name};
ghost use Rattle.pddl_parts.specs.Tables.{value_of};
ghost use Rattle.pddl_parts.specs.declared.typed.Part.TheVariants.{Start};
ghost use Rattle.pddl_problem.specs.Objects.{again_object, again_objects, objects_faults};

use crate::known::OBJECTS;
use pddl_meaning::group_parent;
use pddl_parts::{
    Fault, Kind, Names, Part, Table, earlier, fault, is_dash, is_item, next, next_of_list,
    typed_fault,
};
use pddl_tokens::{Form, Head, Word, head_of};
use std::alloc::Global;
use tp_spec::NoMemory;

/// Enters an object with its type, and says what is wrong where it was declared before.
fn enter_object(
    alloc: Global,
    constants: &Table,
    seen: &mut Names,
    word: &Word,
    sort: Option<u32>,
) -> Result<Option<Fault>, NoMemory>
    ensures fault { IfOk result (λ fault. fault
        ≡ first (again_object (value_of constants.now word.now.text) sort seen.old word.now.at
        word.now.text)) }
    ensures seen { OnOk result (seen.new ≡ with_name seen.old word.now.text) }
{
    let text = word.text.as_slice();
    let (_, fresh) = seen.enter(alloc, text)?;
    match (constants.value(text), sort) {
        (None, _) => {
            if fresh {
                Ok(None)
            } else {
                Ok(fault(Kind::Twice, word.at))
            }
        }
        (Some(_), None) => Ok(fault(Kind::Twice, word.at)),
        (Some(s), Some(t)) => {
            if s == t {
                Ok(None)
            } else {
                Ok(fault(Kind::Twice, word.at))
            }
        }
    }
}

/// The first object that came before. The type of a group is looked up once.
#[tactic(auto, using(pddl_parts::proofs::Firsts::first_onto))]
fn again_fault(
    alloc: Global,
    types: &Names,
    constants: &Table,
    members: &[Form],
) -> Result<Option<Fault>, NoMemory>
    ensures { IfOk result (λ fault. fault
        ≡ first (again_objects types.now constants.now [] Start (trees_of members.now))) }
{
    let mut best = None;
    let mut seen = Names::new(alloc);
    let mut known = None;
    let mut part = Part::Start;
    let mut rest = members;
    'members: loop {
        match head_of(rest) {
            Head::Missing => return Ok(best),
            Head::Word(word, more) => {
                if is_dash(word.text.as_slice()) {
                    known = None;
                }
                if is_item(OBJECTS, part, word) {
                    let sort = group_parent(types, known, more)?;
                    best = earlier(best, enter_object(alloc, constants, &mut seen, word, sort)?);
                    known = Some(sort);
                }
                part = next(part, word.text.as_slice());
                rest = more;
            }
            Head::List { rest: more, .. } => {
                part = next_of_list(part);
                rest = more;
            }
        }
    }
}

/// The first fault of the members of `:objects`, over a domain's types and constants.
#[tactic(auto, using(pddl_parts::proofs::Firsts::first_append))]
pub fn objects_fault(
    alloc: Global,
    types: &Names,
    constants: &Table,
    close: u32,
    members: &[Form],
) -> Result<Option<Fault>, NoMemory>
    ensures { IfOk result (λ fault. fault
        ≡ first (objects_faults types.now constants.now close (trees_of members.now))) }
{
    let typed = typed_fault(OBJECTS, types, close, members);
    let again = again_fault(alloc, types, constants, members)?;
    Ok(earlier(typed, again))
}
