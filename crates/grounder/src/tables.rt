ghost use Rattle.std.specs.Prelude.{◌≡◌, ℕ, List, map, length, slice_get, string_bytes, Some, if◌then◌else◌, IfOk, OnOk};
ghost use Rattle.std.specs.List.{range_with_len};
ghost use Rattle.std.specs.Str.{bytes_eq};
ghost use Rattle.std.specs.BTreeSet.{contains_text};
ghost use Rattle.std.specs.BTreeMap.{get_by_text};
ghost use Rattle.grounder.specs.Sources.{source_of};
ghost use Rattle.grounder.specs.Rigid.{is_static_predicate as no_effect_names, is_static_function as no_effect_writes};
ghost use Rattle.grounder.specs.Starts.{is_true, given};

use crate::objects::objects_by_type;
use crate::rigid;
use crate::sources::{Source, atom_name, call_name};
use crate::start::Start;
use pddl_domain::Domain;
use pddl_parts::in_32_bits;
use pddl_problem::{Given, Task};
use std::alloc::Global;
use std::collections::{BTreeMap, BTreeSet};
use tp_spec::{List, NoMemory};

/// For each predicate whether it is static.
fn static_predicates(alloc: Global, source: &Source) -> Result<List<bool>, NoMemory>
    ensures { IfOk result (λ are. are ≡ map (no_effect_names (source_of source.now))
        (range_with_len 0 (length source.now.domain.now.predicates))) }
{
    let mut are = List::new(alloc);
    for number in 0..source.domain.predicates.as_slice().len() {
        are.push(rigid::is_static_predicate(source, in_32_bits(number)?))?;
    }
    Ok(are)
}

/// For each function whether it is static.
fn static_functions(alloc: Global, source: &Source) -> Result<List<bool>, NoMemory>
    ensures { IfOk result (λ are. are ≡ map (no_effect_writes (source_of source.now))
        (range_with_len 0 (length source.now.domain.now.functions))) }
{
    let mut are = List::new(alloc);
    for number in 0..source.domain.functions.as_slice().len() {
        are.push(rigid::is_static_function(source, in_32_bits(number)?))?;
    }
    Ok(are)
}

/// The names of the atoms that are true at the start.
fn truths_of(alloc: Global, source: &Source) -> Result<BTreeSet<String>, NoMemory>
    ensures { IfOk result (λ names. (name : List ℕ) → contains_text names name
        ≡ is_true (source_of source.now) name) }
{
    let mut names = BTreeSet::new(alloc);
    for atom in source.task.init.as_slice() {
        let name = atom_name(alloc, source, &[], atom)?;
        match names.insert(name) {
            Ok(_) => {}
            Err(_) => return Err(NoMemory),
        }
    }
    Ok(names)
}

/// Puts a value under a name, in the place of an earlier one.
fn put_value(values: &mut BTreeMap<String, i64>, name: String, value: i64) -> Result<(), NoMemory>
    ensures { OnOk result ((other : List ℕ) → get_by_text values.new other
        ≡ (if bytes_eq (string_bytes name) other then Some value
        else get_by_text values.old other)) }
{
    match values.insert(name, value) {
        Ok(_) => {}
        Err(_) => return Err(NoMemory),
    }
    Ok(())
}

fn value_of(given: &Given) -> i64
    ensures { result ≡ given.now.value }
{
    given.value
}

/// The values at the start, by the names of function terms.
fn values_of(alloc: Global, source: &Source) -> Result<BTreeMap<String, i64>, NoMemory>
    ensures { IfOk result (λ values. (name : List ℕ) → get_by_text values name
        ≡ given (source_of source.now) name) }
{
    let mut values = BTreeMap::new(alloc);
    for given in source.task.values.as_slice() {
        let name = call_name(alloc, source, &[], &given.target)?;
        let value = value_of(given);
        put_value(&mut values, name, value)?;
    }
    Ok(values)
}

/// The tables of a domain and a problem over it.
pub fn start_of<'a>(
    alloc: Global,
    domain: &'a Domain,
    task: &'a Task,
) -> Result<Start<'a>, NoMemory>
    ensures { IfOk result (λ start. source_of start.source
        ≡ record { domain = domain.now; task = task.now }) }
{
    let source = Source { domain, task };
    let objects = objects_by_type(alloc, &source)?;
    let predicates = static_predicates(alloc, &source)?;
    let functions = static_functions(alloc, &source)?;
    let truths = truths_of(alloc, &source)?;
    let values = values_of(alloc, &source)?;
    Ok(Start {
        source,
        objects,
        predicates,
        functions,
        truths,
        values,
    })
}

/// A row of a table, none where it has fewer.
fn row(rows: &[bool], number: u32) -> Option<bool>
    ensures { result ≡ slice_get rows.now number }
{
    rows.get(number as usize).copied()
}

/// Whether no effect and no timed literal names a predicate.
pub fn is_static_predicate(start: &Start, predicate: u32) -> bool
    ensures { result ≡ no_effect_names (source_of start.now.source) predicate }
{
    match row(start.predicates.as_slice(), predicate) {
        Some(answer) => answer,
        None => rigid::is_static_predicate(&start.source, predicate),
    }
}

/// Whether no effect writes a function.
pub fn is_static_function(start: &Start, function: u32) -> bool
    ensures { result ≡ no_effect_writes (source_of start.now.source) function }
{
    match row(start.functions.as_slice(), function) {
        Some(answer) => answer,
        None => rigid::is_static_function(&start.source, function),
    }
}

/// Whether an atom is true at the start, by its name.
pub fn is_true(start: &Start, name: &str) -> bool
    ensures { result ≡ is_true (source_of start.now.source) name.now }
{
    start.truths.contains(name)
}

/// The value of a function term at the start, by its name.
pub fn given(start: &Start, name: &str) -> Option<i64>
    ensures { result ≡ given (source_of start.now.source) name.now }
{
    start.values.get(name).copied()
}
