ghost use Rattle.std.specs.Prelude.{◌≡◌, ◌++◌, map, get_or, string_bytes, IfOk};
ghost use Rattle.std.specs.List.{flat_map};
ghost use Rattle.grounder.specs.Sources.{source_of, object_of, object_name, head_name, named, atom_name, call_name};

use pddl_domain::{Domain, Head};
use pddl_meaning::{Atom, Term};
use pddl_problem::Task;
use std::alloc::Global;
use tp_spec::{List, NoMemory};

/// A domain, and a problem over it.
#[derive(Clone, Copy)]
pub struct Source<'a> {
    pub domain: &'a Domain,
    pub task: &'a Task,
}

/// The object that a term stands for under a substitution.
pub fn object_of(objects: &[u32], term: Term) -> u32
    ensures { result ≡ object_of objects.now term }
{
    match term {
        Term::Object(number) => number,
        Term::Parameter(number) => match objects.get(number as usize) {
            Some(object) => *object,
            None => 0,
        },
    }
}

/// The name of an object by its number; the empty text where there is none.
fn object_name<'a>(source: &Source<'a>, number: u32) -> &'a str
    ensures { result.now ≡ object_name (source_of source.now) number }
{
    match source.task.objects.as_slice().get(number as usize) {
        Some(object) => object.name.as_str(),
        None => "",
    }
}

/// The name of a predicate or a function by its number; the empty text where there is none.
fn head_name(heads: &[Head], number: u32) -> &str
    ensures { result.now ≡ head_name heads.now number }
{
    match heads.get(number as usize) {
        Some(head) => head.name.as_str(),
        None => "",
    }
}

/// A symbol and objects, joined by one space.
pub fn named(
    alloc: Global,
    source: &Source,
    symbol: &str,
    objects: &[u32],
) -> Result<String, NoMemory>
    ensures { IfOk result (λ name. string_bytes name
        ≡ named (source_of source.now) symbol.now objects.now) }
{
    let mut name = String::from_str(alloc, symbol)?;
    for object in objects {
        name.push_str(" ")?;
        name.push_str(object_name(source, *object))?;
    }
    Ok(name)
}

/// The objects that terms stand for under a substitution.
fn objects_at(alloc: Global, objects: &[u32], terms: &[Term]) -> Result<List<u32>, NoMemory>
    ensures { IfOk result (λ found. found ≡ map (object_of objects.now) terms.now) }
{
    let mut found = List::new(alloc);
    for term in terms {
        found.push(object_of(objects, *term))?;
    }
    Ok(found)
}

/// The name of an atom under a substitution.
pub fn atom_name(
    alloc: Global,
    source: &Source,
    objects: &[u32],
    atom: &Atom,
) -> Result<String, NoMemory>
    ensures { IfOk result (λ name. string_bytes name
        ≡ atom_name (source_of source.now) objects.now atom.now) }
{
    let found = objects_at(alloc, objects, atom.terms.as_slice())?;
    let symbol = head_name(source.domain.predicates.as_slice(), atom.head);
    named(alloc, source, symbol, found.as_slice())
}

/// The name of a function term under a substitution.
pub fn call_name(
    alloc: Global,
    source: &Source,
    objects: &[u32],
    atom: &Atom,
) -> Result<String, NoMemory>
    ensures { IfOk result (λ name. string_bytes name
        ≡ call_name (source_of source.now) objects.now atom.now) }
{
    let found = objects_at(alloc, objects, atom.terms.as_slice())?;
    let symbol = head_name(source.domain.functions.as_slice(), atom.head);
    named(alloc, source, symbol, found.as_slice())
}
