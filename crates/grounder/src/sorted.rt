ghost use Rattle.std.specs.Prelude.{◌≡◌, [], map, IsTrue, IfOk};
ghost use Rattle.tp_spec.specs.Lists.{each_pair};
ghost use Rattle.tp_spec.specs.WellFormed.{name_before};
ghost use Rattle.grounder.specs.Naming.{sorted_names as sorted_names_of};
ghost use Rattle.grounder.specs.Grounded.{with_numbers};

use pddl_parts::Names;
use std::alloc::Global;
use std::collections::BTreeSet;
use tp_spec::{List, Name, NoMemory};

/// The set of some names.
fn names_set(alloc: Global, names: &[Name]) -> Result<BTreeSet<&str>, NoMemory>
    ensures { IfOk result (λ set. map (λ k. k.now) set.keys ≡ sorted_names_of names.now) }
{
    let mut set = BTreeSet::new(alloc);
    for name in names {
        match set.insert(name.as_str()) {
            Ok(_) => {}
            Err(_) => return Err(NoMemory),
        }
    }
    Ok(set)
}

/// The names of a set, in order.
fn listed_names(alloc: Global, mut set: BTreeSet<&str>) -> Result<List<Name>, NoMemory>
    ensures { IfOk result (λ names. names ≡ map (λ k. k.now) set.entry.keys) }
{
    let mut names = List::new(alloc);
    'names: loop {
        match set.pop_first() {
            None => return Ok(names),
            Some(name) => names.push(Name::of(alloc, name)?)?,
        }
    }
}

/// Names, each once, in the order of their bytes.
pub fn sorted_names(alloc: Global, names: &[Name]) -> Result<List<Name>, NoMemory>
    ensures { IfOk result (λ sorted. sorted ≡ sorted_names_of names.now) }
{
    let set = names_set(alloc, names)?;
    let sorted = listed_names(alloc, set)?;
    Ok(sorted)
}

/// The set of some numbers.
fn numbers_set(alloc: Global, numbers: &[u64]) -> Result<BTreeSet<u64>, NoMemory>
    ensures { IfOk result (λ set. set.keys ≡ with_numbers [] numbers.now) }
{
    let mut set = BTreeSet::new(alloc);
    for number in numbers {
        match set.insert(*number) {
            Ok(_) => {}
            Err(_) => return Err(NoMemory),
        }
    }
    Ok(set)
}

/// The numbers of a set, in order.
fn listed_numbers(alloc: Global, mut set: BTreeSet<u64>) -> Result<List<u64>, NoMemory>
    ensures { IfOk result (λ numbers. numbers ≡ set.keys) }
{
    let mut numbers = List::new(alloc);
    'numbers: loop {
        match set.pop_first() {
            None => return Ok(numbers),
            Some(number) => numbers.push(number)?,
        }
    }
}

/// Numbers, each once, rising.
pub fn sorted_numbers(alloc: Global, numbers: &[u64]) -> Result<List<u64>, NoMemory>
    ensures { IfOk result (λ sorted. sorted ≡ with_numbers [] numbers.now) }
{
    let set = numbers_set(alloc, numbers)?;
    let sorted = listed_numbers(alloc, set)?;
    Ok(sorted)
}

/// The numbering of names that are all different.
pub fn numbered(alloc: Global, names: &[Name]) -> Result<Names, NoMemory>
    requires { IsTrue (each_pair name_before names.now) }
    ensures { IfOk result (λ table. table ≡ names.now) }
{
    let mut table = Names::new(alloc);
    for name in names {
        table.enter(alloc, name.as_str().as_bytes())?;
    }
    Ok(table)
}
