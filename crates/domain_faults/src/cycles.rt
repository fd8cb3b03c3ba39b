ghost use Rattle.std.specs.Prelude.{◌≡◌, ℕ, ◌<◌, false, length, get_or, IfOk, position};
ghost use Rattle.std.specs.Str.{bytes_eq};
ghost use Rattle.pddl_tokens.specs.Trees.{trees_of};
ghost use Rattle.pddl_parts.specs.First.{first};
ghost use Rattle.domain_faults.specs.Types.{parent_of, is_own_ancestor, cycle_faults};
ghost use Rattle.domain_faults.specs.Cycles.{AreInside, IsAbove, is_marked, marked_faults};

use crate::ancestors::own_ancestors;
use pddl_meaning::type_number;
use pddl_parts::{Fault, Kind, Names, Table, earlier, fault};
use pddl_tokens::{Form, Head, head_of};
use std::alloc::Global;
use tp_spec::{List, NoMemory};

/// The parent of a type, both by their numbers.
fn parent_of(types: &Names, parents: &Table, number: usize) -> u32
    ensures { result ≡ parent_of types.now parents.now number }
{
    match parents.value(types.name_at(number)) {
        None => 0,
        Some(parent) => parent,
    }
}

/// The parent of each type, by number. `object` counts as above itself.
fn above_each(alloc: Global, types: &Names, parents: &Table) -> Result<List<u32>, NoMemory>
    ensures { IfOk result (λ above. IsAbove types.now parents.now above) }
{
    let mut above = List::new(alloc);
    above.push(0)?;
    for number in 1..types.len() {
        above.push(parent_of(types, parents, number))?;
    }
    Ok(above)
}

/// Which types are their own ancestors, by number.
fn cyclic_types(alloc: Global, types: &Names, parents: &Table) -> Result<List<bool>, NoMemory>
    requires { AreInside types.now parents.now }
    ensures { IfOk result (λ marks. (v : ℕ) → v < length types.now
        → get_or marks v false ≡ is_own_ancestor types.now parents.now v) }
{
    let above = above_each(alloc, types, parents)?;
    own_ancestors(alloc, above.as_slice())
}

fn is_marked(marks: &[bool], number: Option<u32>) -> bool
    ensures { result ≡ is_marked marks.now number }
{
    match number {
        None => false,
        Some(number) => match marks.get(number as usize) {
            None => false,
            Some(mark) => *mark,
        },
    }
}

/// The first word among types and parents that names a marked type.
#[tactic(auto, using(pddl_parts::proofs::Firsts::first_onto))]
fn marked_fault(types: &Names, marks: &[bool], members: &[Form]) -> Result<Option<Fault>, NoMemory>
    ensures { IfOk result (λ fault. fault
        ≡ first (marked_faults types.now marks.now (trees_of members.now))) }
{
    let mut best = None;
    let mut rest = members;
    'members: loop {
        match head_of(rest) {
            Head::Missing => return Ok(best),
            Head::Word(word, more) => {
                let number = type_number(types, word.text.as_slice())?;
                if is_marked(marks, number) {
                    best = earlier(best, fault(Kind::Cycle, word.at));
                }
                rest = more;
            }
            Head::List { rest: more, .. } => rest = more,
        }
    }
}

/// The first word among types and parents that names a type that is its own ancestor. The parent of
/// each type is looked up once.
pub fn cycle_fault(
    alloc: Global,
    types: &Names,
    parents: &Table,
    members: &[Form],
) -> Result<Option<Fault>, NoMemory>
    requires { AreInside types.now parents.now }
    ensures { IfOk result (λ fault. fault
        ≡ first (cycle_faults types.now parents.now (trees_of members.now))) }
{
    let marks = cyclic_types(alloc, types, parents)?;
    marked_fault(types, marks.as_slice(), members)
}
