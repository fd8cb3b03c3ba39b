ghost use Rattle.std.specs.Prelude.{◌≡◌, IfOk};
ghost use Rattle.pddl_tokens.specs.Trees.{trees_of};
ghost use Rattle.domain_faults.specs.Scopes.{with_arity, with_arity_at, arities_of, scope_of};

use crate::heads::{HeadKind, behind_list, behind_word};
use crate::types::type_names;
use crate::written::written_of;
use pddl_parts::{Names, Part, Rule, Scope, Table, in_32_bits, is_thing, members_of, with_items};
use pddl_tokens::{Form, Head, head_of};
use std::alloc::Global;
use tp_spec::NoMemory;

/// Enters a head with the number of its variables.
fn with_arity(alloc: Global, mut table: Table, parts: &[Form]) -> Result<Table, NoMemory>
    ensures { IfOk result (λ more. more ≡ with_arity table (trees_of parts.now)) }
{
    match head_of(parts) {
        Head::Missing | Head::List { .. } => Ok(table),
        Head::Word(head, rest) => {
            if !is_thing(head) {
                return Ok(table);
            }
            let rule = Rule {
                variables: true,
                any_type: false,
            };
            let variables = with_items(alloc, rule, Names::new(alloc), rest)?;
            let arity = in_32_bits(variables.len())?;
            table.enter(alloc, head.text.as_slice(), arity)?;
            Ok(table)
        }
    }
}

fn with_arity_at(alloc: Global, table: Table, part: Part, parts: &[Form]) -> Result<Table, NoMemory>
    ensures { IfOk result (λ more. more ≡ with_arity_at table part (trees_of parts.now)) }
{
    match part {
        Part::Hyphen => Ok(table),
        Part::Start | Part::Items => with_arity(alloc, table, parts),
    }
}

/// The heads among the members of `:predicates`, or of `:functions`, each with the number of its
/// variables.
pub fn arities_of(alloc: Global, kind: HeadKind, members: &[Form]) -> Result<Table, NoMemory>
    ensures { IfOk result (λ table. table ≡ arities_of kind (trees_of members.now)) }
{
    let mut table = Table::new(alloc);
    let mut part = Part::Start;
    let mut rest = members;
    'heads: loop {
        match head_of(rest) {
            Head::Missing => return Ok(table),
            Head::Word(word, more) => {
                part = behind_word(part, word.text.as_slice());
                rest = more;
            }
            Head::List {
                parts,
                rest: more,
                ..
            } => {
                table = with_arity_at(alloc, table, part, parts)?;
                part = behind_list(kind, part);
                rest = more;
            }
        }
    }
}

/// What the sections of a domain declare.
pub fn scope_of(alloc: Global, sections: &[Form]) -> Result<Scope, NoMemory>
    ensures { IfOk result (λ scope. scope ≡ scope_of (trees_of sections.now)) }
{
    let rule = Rule {
        variables: false,
        any_type: false,
    };
    let constants = members_of(b":constants", sections);
    Ok(Scope {
        types: type_names(alloc, members_of(b":types", sections))?,
        objects: with_items(alloc, rule, Names::new(alloc), constants)?,
        predicates: arities_of(
            alloc,
            HeadKind::Predicates,
            members_of(b":predicates", sections),
        )?,
        functions: arities_of(
            alloc,
            HeadKind::Functions,
            members_of(b":functions", sections),
        )?,
        written: written_of(alloc, sections)?,
    })
}
