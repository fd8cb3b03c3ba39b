ghost use Rattle.std.specs.Prelude.{◌≡◌, ◌&&◌, ◌==◌, ℕ, List, true, map, if◌then◌else◌, string_bytes, IfOk, OnOk};
ghost use Rattle.std.specs.BTreeSet.{contains_text};
ghost use Rattle.std.specs.Str.{bytes_eq};
ghost use Rattle.grounder.specs.Sources.{source_of, atom_name as name_of_atom};
ghost use Rattle.grounder.specs.Objects.{numbers_where};
ghost use Rattle.grounder.specs.Rigid.{is_so as is_so_of};
ghost use Rattle.grounder.specs.Grounded.{is_dated, timed_item as item_at};

use crate::conditions::is_so;
use crate::objects::with_number;
use crate::sources::atom_name;
use crate::start::Start;
use pddl_problem::Dated;
use std::alloc::Global;
use std::collections::BTreeSet;
use tp_spec::{List, Name, NoMemory, TimedItem};

/// Whether a timed literal is of this tick and sign.
fn is_at(dated: &Dated, tick: u64, positive: bool) -> bool
    ensures { result ≡ (dated.now.tick == tick && is_so_of positive dated.now.positive) }
{
    dated.tick == tick && is_so(positive, dated.positive)
}

/// Puts a name into a set where it passes.
fn enter(names: &mut BTreeSet<String>, name: String, passes: bool) -> Result<(), NoMemory>
    ensures { OnOk result ((other : List ℕ) → contains_text names.new other
        ≡ (if passes && bytes_eq (string_bytes name) other then true
        else contains_text names.old other)) }
{
    if !passes {
        return Ok(());
    }
    match names.insert(name) {
        Ok(_) => {}
        Err(_) => return Err(NoMemory),
    }
    Ok(())
}

/// The names of the atoms of the timed literals of a tick and a sign.
fn dated_names(
    alloc: Global,
    start: &Start,
    tick: u64,
    positive: bool,
) -> Result<BTreeSet<String>, NoMemory>
    ensures { IfOk result (λ names. (name : List ℕ) → contains_text names name
        ≡ is_dated (source_of start.now.source) tick positive name) }
{
    let mut names = BTreeSet::new(alloc);
    for dated in start.source.task.timed.as_slice() {
        let name = atom_name(alloc, &start.source, &[], &dated.atom)?;
        enter(&mut names, name, is_at(dated, tick, positive))?;
    }
    Ok(names)
}

/// The numbers of the facts that the timed literals of a tick and a sign name, in order.
fn dated_facts(
    alloc: Global,
    start: &Start,
    facts: &[Name],
    tick: u64,
    positive: bool,
) -> Result<List<u32>, NoMemory>
    ensures { IfOk result (λ numbers. numbers
        ≡ numbers_where (is_dated (source_of start.now.source) tick positive) 0 facts.now) }
{
    let names = dated_names(alloc, start, tick, positive)?;
    let mut numbers = List::new(alloc);
    for (number, name) in facts.iter().enumerate() {
        numbers = with_number(numbers, names.contains(name.as_str()), number)?;
    }
    Ok(numbers)
}

/// All timed literals of one tick.
fn timed_item(
    alloc: Global,
    start: &Start,
    facts: &[Name],
    tick: u64,
) -> Result<TimedItem, NoMemory>
    ensures { IfOk result (λ item. item
        ≡ item_at (source_of start.now.source) facts.now tick) }
{
    let adds = dated_facts(alloc, start, facts, tick, true)?;
    let deletes = dated_facts(alloc, start, facts, tick, false)?;
    Ok(TimedItem {
        tick,
        adds,
        deletes,
    })
}

/// The timed items of a ground problem.
pub fn timed_items(
    alloc: Global,
    start: &Start,
    facts: &[Name],
    ticks: &[u64],
) -> Result<List<TimedItem>, NoMemory>
    ensures { IfOk result (λ items. items
        ≡ map (item_at (source_of start.now.source) facts.now) ticks.now) }
{
    let mut items = List::new(alloc);
    for tick in ticks {
        items.push(timed_item(alloc, start, facts, *tick)?)?;
    }
    Ok(items)
}
