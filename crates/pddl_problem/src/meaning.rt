ghost use Rattle.std.specs.Prelude.{◌≡◌, ◌++◌, IfOk, Some, []};
ghost use Rattle.pddl_tokens.specs.Numbers.{IsScale};
ghost use Rattle.pddl_tokens.specs.Trees.{trees_of};
ghost use Rattle.pddl_meaning.specs.Conditions.{condition_of};
ghost use Rattle.pddl_meaning.specs.Terms.{behind_first};
ghost use Rattle.pddl_problem.specs.Elements.{first_number};
ghost use Rattle.pddl_problem.specs.Meaning.{with_head_names, symbols_of, without, objects_of, ground_atom, fact_of, facts_of, given_of, values_of, dated_of, timed_of, task_from, task_in, task_of};

use crate::elements::{
    atom_in, behind_at, behind_equal, first_list, first_number, is_positive, literal_in,
};
use crate::known::{OBJECTS, constant_names, types_of};
use crate::literals::is_fact;
use crate::passes::sections_of;
use crate::task::{Dated, Given, Task};
use pddl_domain::{Domain, Head as Declared};
use pddl_meaning::{
    Atom, Condition, Object, Symbols, atom_of, behind_first, name_of, objects_of as listed_objects,
    with_condition,
};
use pddl_parts::{Names, members_of, with_items};
use pddl_tokens::{Form, Head, head_of};
use std::alloc::Global;
use tp_spec::{List, NoMemory};

/// Enters the names of heads.
fn with_head_names(alloc: Global, mut names: Names, heads: &[Declared]) -> Result<Names, NoMemory>
    ensures { IfOk result (λ more. more ≡ with_head_names names heads.now) }
{
    for head in heads {
        names.enter(alloc, head.name.as_str().as_bytes())?;
    }
    Ok(names)
}

/// What `:init` and `:goal` name, numbered.
fn symbols_of(alloc: Global, domain: &Domain, members: &[Form]) -> Result<Symbols, NoMemory>
    ensures { IfOk result (λ symbols. symbols ≡ symbols_of domain.now (trees_of members.now)) }
{
    let constants = constant_names(alloc, domain)?;
    Ok(Symbols {
        objects: with_items(alloc, OBJECTS, constants, members)?,
        predicates: with_head_names(alloc, Names::new(alloc), domain.predicates.as_slice())?,
        functions: with_head_names(alloc, Names::new(alloc), domain.functions.as_slice())?,
    })
}

/// A copy of an object.
fn copy_of(alloc: Global, object: &Object) -> Result<Object, NoMemory>
    ensures { IfOk result (λ copy. copy ≡ object.now) }
{
    let name = name_of(alloc, object.name.as_str().as_bytes())?;
    Ok(Object {
        name,
        sort: object.sort,
    })
}

/// Copies of some objects.
#[tactic(auto, using(std::proofs::Common::append_assoc))]
fn copies_of(alloc: Global, objects: &[Object]) -> Result<List<Object>, NoMemory>
    ensures { IfOk result (λ copies. copies ≡ objects.now) }
{
    let mut copies = List::new(alloc);
    for object in objects {
        copies.push(copy_of(alloc, object)?)?;
    }
    Ok(copies)
}

/// Puts copies of objects behind others, but for those of these names.
#[tactic(auto, using(std::proofs::Common::append_assoc))]
fn with_others(
    alloc: Global,
    mut list: List<Object>,
    names: &Names,
    objects: &[Object],
) -> Result<List<Object>, NoMemory>
    ensures { IfOk result (λ more. more ≡ list ++ without names.now objects.now) }
{
    for object in objects {
        if !names.has(object.name.as_str().as_bytes()) {
            list.push(copy_of(alloc, object)?)?;
        }
    }
    Ok(list)
}

/// The domain's constants, and the members of `:objects` that are none of them.
fn objects_of(alloc: Global, domain: &Domain, members: &[Form]) -> Result<List<Object>, NoMemory>
    ensures { IfOk result (λ objects. objects ≡ objects_of domain.now (trees_of members.now)) }
{
    let names = constant_names(alloc, domain)?;
    let types = types_of(alloc, domain)?;
    let listed = listed_objects(alloc, OBJECTS, &types, members)?;
    let constants = copies_of(alloc, domain.constants.as_slice())?;
    with_others(alloc, constants, &names, listed.as_slice())
}

/// A predicate or a function of these names, with its arguments.
fn ground_atom(
    alloc: Global,
    symbols: &Symbols,
    names: &Names,
    parts: &[Form],
) -> Result<Atom, NoMemory>
    ensures { IfOk result (λ atom. atom ≡ ground_atom symbols.now names.now (trees_of parts.now)) }
{
    match head_of(parts) {
        Head::Missing | Head::List { .. } => Ok(Atom {
            head: 0,
            terms: List::new(alloc),
        }),
        Head::Word(head, rest) => {
            let variables = Names::new(alloc);
            atom_of(
                alloc,
                symbols,
                &variables,
                names,
                head.text.as_slice(),
                rest,
            )
        }
    }
}

/// Puts an element behind others where it is an atom.
fn with_fact(
    alloc: Global,
    mut facts: List<Atom>,
    symbols: &Symbols,
    parts: &[Form],
) -> Result<List<Atom>, NoMemory>
    ensures { IfOk result (λ more. more ≡ facts ++ fact_of symbols.now (trees_of parts.now)) }
{
    match head_of(parts) {
        Head::Missing | Head::List { .. } => Ok(facts),
        Head::Word(head, rest) => {
            if is_fact(head, rest) {
                facts.push(ground_atom(alloc, symbols, &symbols.predicates, parts)?)?;
            }
            Ok(facts)
        }
    }
}

/// The atoms that hold at first.
#[tactic(auto, using(std::proofs::Common::append_assoc))]
fn facts_of(alloc: Global, symbols: &Symbols, members: &[Form]) -> Result<List<Atom>, NoMemory>
    ensures { IfOk result (λ facts. facts ≡ facts_of symbols.now (trees_of members.now)) }
{
    let mut facts = List::new(alloc);
    let mut rest = members;
    'elements: loop {
        match head_of(rest) {
            Head::Missing => return Ok(facts),
            Head::Word(_, more) => rest = more,
            Head::List {
                parts,
                rest: more,
                ..
            } => {
                facts = with_fact(alloc, facts, symbols, parts)?;
                rest = more;
            }
        }
    }
}

/// Puts a function with its value behind others, by the members behind `=`.
fn with_given(
    alloc: Global,
    mut values: List<Given>,
    symbols: &Symbols,
    scale: u32,
    members: &[Form],
) -> Result<List<Given>, NoMemory>
    requires { IsScale scale }
    ensures { IfOk result (λ more. more ≡ values
        ++ given_of symbols.now (trees_of members.now)
        (first_number scale (behind_first (trees_of members.now)))) }
{
    match first_number(scale, behind_first(members)) {
        None => Ok(values),
        Some(value) => {
            let target = ground_atom(alloc, symbols, &symbols.functions, first_list(members))?;
            values.push(Given { target, value })?;
            Ok(values)
        }
    }
}

/// The values of functions at first.
#[tactic(auto, using(std::proofs::Common::append_assoc))]
fn values_of(
    alloc: Global,
    symbols: &Symbols,
    scale: u32,
    members: &[Form],
) -> Result<List<Given>, NoMemory>
    requires { IsScale scale }
    ensures { IfOk result (λ values. values ≡ values_of symbols.now scale (trees_of members.now)) }
{
    let mut values = List::new(alloc);
    let mut rest = members;
    'elements: loop {
        match head_of(rest) {
            Head::Missing => return Ok(values),
            Head::Word(_, more) => rest = more,
            Head::List {
                parts,
                rest: more,
                ..
            } => {
                values = with_given(alloc, values, symbols, scale, behind_equal(parts))?;
                rest = more;
            }
        }
    }
}

/// Puts a timed literal behind others, by the members behind `at`.
fn with_dated(
    alloc: Global,
    mut timed: List<Dated>,
    symbols: &Symbols,
    scale: u32,
    members: &[Form],
) -> Result<List<Dated>, NoMemory>
    requires { IsScale scale }
    ensures { IfOk result (λ more. more ≡ timed
        ++ dated_of symbols.now (trees_of members.now)
        (first_number scale (trees_of members.now))) }
{
    match first_number(scale, members) {
        None => Ok(timed),
        Some(time) => {
            let literal = literal_in(members);
            let atom = ground_atom(alloc, symbols, &symbols.predicates, atom_in(literal))?;
            timed.push(Dated {
                tick: time.unsigned_abs(),
                positive: is_positive(literal),
                atom,
            })?;
            Ok(timed)
        }
    }
}

/// The timed literals.
#[tactic(auto, using(std::proofs::Common::append_assoc))]
fn timed_of(
    alloc: Global,
    symbols: &Symbols,
    scale: u32,
    members: &[Form],
) -> Result<List<Dated>, NoMemory>
    requires { IsScale scale }
    ensures { IfOk result (λ timed. timed ≡ timed_of symbols.now scale (trees_of members.now)) }
{
    let mut timed = List::new(alloc);
    let mut rest = members;
    'elements: loop {
        match head_of(rest) {
            Head::Missing => return Ok(timed),
            Head::Word(_, more) => rest = more,
            Head::List {
                parts,
                rest: more,
                ..
            } => {
                timed = with_dated(alloc, timed, symbols, scale, behind_at(parts))?;
                rest = more;
            }
        }
    }
}

/// The goal's conjuncts, by the members of its list.
fn goal_of(
    alloc: Global,
    symbols: &Symbols,
    scale: u32,
    parts: &[Form],
) -> Result<List<Condition>, NoMemory>
    requires { IsScale scale }
    ensures { IfOk result (λ goal. goal ≡ condition_of symbols.now [] scale (trees_of parts.now)) }
{
    let variables = Names::new(alloc);
    with_condition(alloc, List::new(alloc), symbols, &variables, scale, parts)
}

/// A problem over these symbols, by the members of its `:objects`, of its `:init`, and of its
/// goal's list.
fn task_from(
    alloc: Global,
    domain: &Domain,
    symbols: &Symbols,
    scale: u32,
    listed: &[Form],
    init: &[Form],
    wanted: &[Form],
) -> Result<Task, NoMemory>
    requires { IsScale scale }
    ensures { IfOk result (λ task. task
        ≡ task_from domain.now symbols.now scale (trees_of listed.now) (trees_of init.now)
        (trees_of wanted.now)) }
{
    let objects = objects_of(alloc, domain, listed)?;
    let facts = facts_of(alloc, symbols, init)?;
    let values = values_of(alloc, symbols, scale, init)?;
    let timed = timed_of(alloc, symbols, scale, init)?;
    let goal = goal_of(alloc, symbols, scale, wanted)?;
    Ok(Task {
        objects,
        init: facts,
        values,
        timed,
        goal,
    })
}

/// A problem by its sections.
fn task_in(alloc: Global, domain: &Domain, scale: u32, sections: &[Form]) -> Result<Task, NoMemory>
    requires { IsScale scale }
    ensures { IfOk result (λ task. task ≡ task_in domain.now scale (trees_of sections.now)) }
{
    let listed = members_of(b":objects", sections);
    let init = members_of(b":init", sections);
    let wanted = first_list(members_of(b":goal", sections));
    let symbols = symbols_of(alloc, domain, listed)?;
    task_from(alloc, domain, &symbols, scale, listed, init, wanted)
}

/// The problem that a file without a fault says, over its domain; numbers and times are in units of
/// `scale`.
pub fn task_of(alloc: Global, domain: &Domain, scale: u32, forms: &[Form]) -> Result<Task, NoMemory>
    requires { IsScale scale }
    ensures { IfOk result (λ task. task ≡ task_of domain.now scale (trees_of forms.now)) }
{
    task_in(alloc, domain, scale, sections_of(forms))
}
