ghost use Rattle.std.specs.Prelude.{◌≡◌, IfOk, []};
ghost use Rattle.pddl_tokens.specs.Trees.{trees_of};
ghost use Rattle.pddl_problem.specs.Known.{with_sorts, with_constants, with_typed, with_heads, scope_of};

use pddl_domain::{Domain, Head, Sort};
use pddl_meaning::Object;
use pddl_parts::{Names, Rule, Scope, Table, in_32_bits, with_items};
use pddl_tokens::Form;
use std::alloc::Global;
use tp_spec::NoMemory;

/// Items that are names of declared types.
pub const OBJECTS: Rule = Rule {
    variables: false,
    any_type: false,
};

/// Enters the names of types.
fn with_sorts(alloc: Global, mut names: Names, sorts: &[Sort]) -> Result<Names, NoMemory>
    ensures { IfOk result (λ more. more ≡ with_sorts names sorts.now) }
{
    for sort in sorts {
        names.enter(alloc, sort.name.as_str().as_bytes())?;
    }
    Ok(names)
}

/// Enters the names of constants.
fn with_constants(alloc: Global, mut names: Names, constants: &[Object]) -> Result<Names, NoMemory>
    ensures { IfOk result (λ more. more ≡ with_constants names constants.now) }
{
    for constant in constants {
        names.enter(alloc, constant.name.as_str().as_bytes())?;
    }
    Ok(names)
}

/// Enters constants with the numbers of their types.
fn with_typed(alloc: Global, mut table: Table, constants: &[Object]) -> Result<Table, NoMemory>
    ensures { IfOk result (λ more. more ≡ with_typed table constants.now) }
{
    for constant in constants {
        table.enter(alloc, constant.name.as_str().as_bytes(), constant.sort)?;
    }
    Ok(table)
}

/// Enters heads with the numbers of their arguments.
fn with_heads(alloc: Global, mut table: Table, heads: &[Head]) -> Result<Table, NoMemory>
    ensures { IfOk result (λ more. more ≡ with_heads table heads.now) }
{
    for head in heads {
        let arity = in_32_bits(head.sorts.as_slice().len())?;
        table.enter(alloc, head.name.as_str().as_bytes(), arity)?;
    }
    Ok(table)
}

/// The names of a domain's types.
pub fn types_of(alloc: Global, domain: &Domain) -> Result<Names, NoMemory>
    ensures { IfOk result (λ names. names ≡ with_sorts [] domain.now.types) }
{
    with_sorts(alloc, Names::new(alloc), domain.types.as_slice())
}

/// The names of a domain's constants.
pub fn constant_names(alloc: Global, domain: &Domain) -> Result<Names, NoMemory>
    ensures { IfOk result (λ names. names ≡ with_constants [] domain.now.constants) }
{
    with_constants(alloc, Names::new(alloc), domain.constants.as_slice())
}

/// A domain's constants with the numbers of their types.
pub fn constants_of(alloc: Global, domain: &Domain) -> Result<Table, NoMemory>
    ensures { IfOk result (λ table. table ≡ with_typed [] domain.now.constants) }
{
    with_typed(alloc, Table::new(alloc), domain.constants.as_slice())
}

/// What `:init` and `:goal` may name, by the members of `:objects`.
pub fn scope_of(alloc: Global, domain: &Domain, members: &[Form]) -> Result<Scope, NoMemory>
    ensures { IfOk result (λ scope. scope ≡ scope_of domain.now (trees_of members.now)) }
{
    let constants = constant_names(alloc, domain)?;
    Ok(Scope {
        types: types_of(alloc, domain)?,
        objects: with_items(alloc, OBJECTS, constants, members)?,
        predicates: with_heads(alloc, Table::new(alloc), domain.predicates.as_slice())?,
        functions: with_heads(alloc, Table::new(alloc), domain.functions.as_slice())?,
        written: Names::new(alloc),
    })
}
