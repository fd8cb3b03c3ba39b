ghost use Rattle.std.specs.Prelude.{◌≡◌, IfOk, OnOk};
ghost use Rattle.pddl_tokens.specs.Trees.{trees_of};
ghost use Rattle.pddl_parts.specs.First.{first};
ghost use Rattle.pddl_parts.specs.Names.{with_name};
ghost use Rattle.pddl_parts.specs.declared.typed.Part.TheVariants.{Start};
ghost use Rattle.std.specs.Prelude.{codes, ◌∷◌, []};
ghost use Rattle.domain_faults.specs.Types.{is_same, again_type, with_first, again_types, parents_of, object_alone};

use pddl_meaning::group_parent;
use pddl_parts::{
    Fault, Kind, Names, Part, Rule, Table, earlier, fault, is_dash, is_item, next, next_of_list,
};
use pddl_tokens::{Form, Head, Word, head_of};
use std::alloc::Global;
use tp_spec::NoMemory;

fn is_same(first: Option<u32>, parent: Option<u32>) -> bool
    ensures { result ≡ is_same first parent }
{
    match (first, parent) {
        (Some(p), Some(q)) => p == q,
        (None, _) | (Some(_), None) => false,
    }
}

/// Enters a type with its parent, and says what is wrong where it was declared before.
fn enter_type(
    alloc: Global,
    seen: &mut Names,
    parents: &mut Table,
    word: &Word,
    parent: Option<u32>,
) -> Result<Option<Fault>, NoMemory>
    ensures fault { IfOk result (λ fault. fault
        ≡ first (again_type seen.old parents.old word.now.at word.now.text parent)) }
    ensures seen { OnOk result (seen.new ≡ with_name seen.old word.now.text) }
    ensures parents { OnOk result (parents.new
        ≡ with_first seen.old parents.old word.now.text parent) }
{
    let text = word.text.as_slice();
    let (_, fresh) = seen.enter(alloc, text)?;
    if fresh {
        match parent {
            Some(p) => parents.enter(alloc, text, p)?,
            None => {}
        }
        return Ok(None);
    }
    if is_same(parents.value(text), parent) {
        Ok(None)
    } else {
        Ok(fault(Kind::Twice, word.at))
    }
}

/// The parents of types by their first declarations, and the first fault of a type that is declared
/// again. The parent of a group is looked up once.
#[tactic(auto, using(pddl_parts::proofs::Firsts::first_onto))]
pub fn parents_of(
    alloc: Global,
    types: &Names,
    members: &[Form],
) -> Result<(Table, Option<Fault>), NoMemory>
    ensures parents { IfOk result (λ r. r.0 ≡ parents_of types.now (trees_of members.now)) }
    ensures fault { IfOk result (λ r. r.1
        ≡ first (again_types types.now object_alone ((codes "object", 0) ∷ []) Start
        (trees_of members.now))) }
{
    let rule = Rule {
        variables: false,
        any_type: true,
    };
    let mut seen = Names::new(alloc);
    seen.enter(alloc, b"object")?;
    let mut parents = Table::new(alloc);
    parents.enter(alloc, b"object", 0)?;
    let mut best = None;
    let mut known = None;
    let mut part = Part::Start;
    let mut rest = members;
    'members: loop {
        match head_of(rest) {
            Head::Missing => return Ok((parents, best)),
            Head::Word(word, more) => {
                if is_dash(word.text.as_slice()) {
                    known = None;
                }
                if is_item(rule, part, word) {
                    let parent = group_parent(types, known, more)?;
                    best = earlier(
                        best,
                        enter_type(alloc, &mut seen, &mut parents, word, parent)?,
                    );
                    known = Some(parent);
                }
                part = next(part, word.text.as_slice());
                rest = more;
            }
            Head::List { rest: more, .. } => {
                part = next_of_list(part);
                rest = more;
            }
        }
    }
}
