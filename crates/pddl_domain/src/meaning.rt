ghost use Rattle.std.specs.Prelude.{◌≡◌, ◌++◌, IfOk, [], get_or, codes};
ghost use Rattle.pddl_tokens.specs.Numbers.{IsScale};
ghost use Rattle.pddl_tokens.specs.Trees.{trees_of};
ghost use Rattle.pddl_parts.specs.Tables.{value_of};
ghost use Rattle.pddl_meaning.specs.Terms.{or_zero};
ghost use Rattle.pddl_meaning.specs.Groups.{sorts_from};
ghost use Rattle.domain_faults.specs.Heads.{parameters};
ghost use Rattle.domain_faults.specs.Parts.{part_of};
ghost use Rattle.pddl_domain.specs.Meaning.{head_names, symbols_of, each_sort, head_in, head_at, heads_from, instant_of, conditions_in, effects_in, bounds_in, durative_from, durative_of, schema_of, named_schema, section_schema, schemas_of, first_word, first_parts, domain_name, domain_from, domain_of};

use crate::bounds::duration_of;
use crate::domain::{Bound, Domain, Head, Schema, Sort};
use crate::labels::{timed_condition, timed_effect};
use domain_faults::{
    ActionKind, HeadKind, behind_list, behind_word, enter_listed, is_action, kind_of, parents_of,
    part_of, sections_of, type_names, variables_of,
};
use pddl_meaning::{
    Change, Condition, Symbols, behind_first, name_of, objects_of, sorts_of, with_condition,
    with_effect,
};
use pddl_parts::{Names, Part, Rule, Table, members_of, with_items};
use pddl_tokens::{Form, Head as Look, head_of};
use std::alloc::Global;
use tp_spec::{List, NoMemory};

/// Items that are variables of declared types.
const PARAMETERS: Rule = Rule {
    variables: true,
    any_type: false,
};

/// Items that are names of declared types.
const OBJECTS: Rule = Rule {
    variables: false,
    any_type: false,
};

/// The names of the heads among the members of `:predicates` or `:functions`.
fn head_names(alloc: Global, kind: HeadKind, members: &[Form]) -> Result<Names, NoMemory>
    ensures { IfOk result (λ names. names ≡ head_names kind (trees_of members.now)) }
{
    let mut names = Names::new(alloc);
    let mut part = Part::Start;
    let mut rest = members;
    'heads: loop {
        match head_of(rest) {
            Look::Missing => return Ok(names),
            Look::Word(word, more) => {
                part = behind_word(part, word.text.as_slice());
                rest = more;
            }
            Look::List {
                parts,
                rest: more,
                ..
            } => {
                enter_listed(alloc, &mut names, part, parts)?;
                part = behind_list(kind, part);
                rest = more;
            }
        }
    }
}

/// What the actions among sections may name, numbered.
fn symbols_of(alloc: Global, sections: &[Form]) -> Result<Symbols, NoMemory>
    ensures { IfOk result (λ symbols. symbols ≡ symbols_of (trees_of sections.now)) }
{
    let constants = members_of(b":constants", sections);
    Ok(Symbols {
        objects: with_items(alloc, OBJECTS, Names::new(alloc), constants)?,
        predicates: head_names(
            alloc,
            HeadKind::Predicates,
            members_of(b":predicates", sections),
        )?,
        functions: head_names(
            alloc,
            HeadKind::Functions,
            members_of(b":functions", sections),
        )?,
    })
}

/// A type by its number, with its parent.
fn sort_at(alloc: Global, types: &Names, parents: &Table, number: usize) -> Result<Sort, NoMemory>
    ensures { IfOk result (λ sort. sort
        ≡ record {
          name = get_or types.now number [];
          parent = or_zero
              (value_of parents.now (get_or types.now number []));
        }) }
{
    let text = types.name_at(number);
    let parent = match parents.value(text) {
        None => 0,
        Some(parent) => parent,
    };
    Ok(Sort {
        name: name_of(alloc, text)?,
        parent,
    })
}

/// The types with their parents.
#[tactic(auto, using(crate::proofs::Sorts::one_sort))]
fn each_sort(alloc: Global, types: &Names, parents: &Table) -> Result<List<Sort>, NoMemory>
    ensures { IfOk result (λ sorts. sorts ≡ each_sort parents.now types.now) }
{
    let mut sorts = List::new(alloc);
    for number in 0..types.len() {
        sorts.push(sort_at(alloc, types, parents, number)?)?;
    }
    Ok(sorts)
}

/// Puts a head with the types of its variables behind others.
fn with_head(
    alloc: Global,
    mut heads: List<Head>,
    types: &Names,
    parts: &[Form],
) -> Result<List<Head>, NoMemory>
    ensures { IfOk result (λ more. more ≡ heads ++ head_in types.now (trees_of parts.now)) }
{
    match head_of(parts) {
        Look::Missing | Look::List { .. } => Ok(heads),
        Look::Word(head, rest) => {
            let name = name_of(alloc, head.text.as_slice())?;
            let sorts = sorts_of(alloc, PARAMETERS, types, rest)?;
            heads.push(Head { name, sorts })?;
            Ok(heads)
        }
    }
}

fn with_head_at(
    alloc: Global,
    heads: List<Head>,
    types: &Names,
    part: Part,
    parts: &[Form],
) -> Result<List<Head>, NoMemory>
    ensures { IfOk result (λ more. more ≡ heads ++ head_at types.now part (trees_of parts.now)) }
{
    match part {
        Part::Hyphen => Ok(heads),
        Part::Start | Part::Items => with_head(alloc, heads, types, parts),
    }
}

/// The heads among the members of `:predicates` or `:functions`.
#[tactic(auto, using(std::proofs::Common::append_assoc))]
fn heads_of(
    alloc: Global,
    kind: HeadKind,
    types: &Names,
    members: &[Form],
) -> Result<List<Head>, NoMemory>
    ensures { IfOk result (λ heads. heads
        ≡ heads_from kind types.now Part.Start (trees_of members.now)) }
{
    let mut heads = List::new(alloc);
    let mut part = Part::Start;
    let mut rest = members;
    'heads: loop {
        match head_of(rest) {
            Look::Missing => return Ok(heads),
            Look::Word(word, more) => {
                part = behind_word(part, word.text.as_slice());
                rest = more;
            }
            Look::List {
                parts,
                rest: more,
                ..
            } => {
                heads = with_head_at(alloc, heads, types, part, parts)?;
                part = behind_list(kind, part);
                rest = more;
            }
        }
    }
}

/// An instant action.
fn instant_of(
    alloc: Global,
    types: &Names,
    symbols: &Symbols,
    scale: u32,
    name: &[u8],
    members: &[Form],
) -> Result<Schema, NoMemory>
    requires { IsScale scale }
    ensures { IfOk result (λ schema. schema
        ≡ instant_of types.now symbols.now scale name.now (trees_of members.now)) }
{
    let variables = variables_of(alloc, ActionKind::Instant, members)?;
    let name = name_of(alloc, name)?;
    let sorts = sorts_in(alloc, ActionKind::Instant, types, members)?;
    let condition = part_of(ActionKind::Instant, b":precondition", members);
    let conditions = with_condition(
        alloc,
        List::new(alloc),
        symbols,
        &variables,
        scale,
        condition,
    )?;
    let effect = part_of(ActionKind::Instant, b":effect", members);
    let effects = with_effect(alloc, List::new(alloc), symbols, &variables, scale, effect)?;
    Ok(Schema {
        name,
        sorts,
        bounds: None,
        start_conds: conditions,
        all_conds: List::new(alloc),
        end_conds: List::new(alloc),
        start_effects: effects,
        end_effects: List::new(alloc),
    })
}

fn conditions_in(
    alloc: Global,
    symbols: &Symbols,
    variables: &Names,
    scale: u32,
    label: &[u8],
    members: &[Form],
) -> Result<List<Condition>, NoMemory>
    requires { IsScale scale }
    ensures { IfOk result (λ listed. listed
        ≡ conditions_in symbols.now variables.now scale label.now (trees_of members.now)) }
{
    timed_condition(
        alloc,
        symbols,
        variables,
        scale,
        label,
        part_of(ActionKind::Durative, b":condition", members),
    )
}

fn effects_in(
    alloc: Global,
    symbols: &Symbols,
    variables: &Names,
    scale: u32,
    label: &[u8],
    members: &[Form],
) -> Result<List<Change>, NoMemory>
    requires { IsScale scale }
    ensures { IfOk result (λ listed. listed
        ≡ effects_in symbols.now variables.now scale label.now (trees_of members.now)) }
{
    timed_effect(
        alloc,
        symbols,
        variables,
        scale,
        label,
        part_of(ActionKind::Durative, b":effect", members),
    )
}

fn bounds_in(
    alloc: Global,
    symbols: &Symbols,
    variables: &Names,
    scale: u32,
    members: &[Form],
) -> Result<List<Bound>, NoMemory>
    requires { IsScale scale }
    ensures { IfOk result (λ listed. listed
        ≡ bounds_in symbols.now variables.now scale (trees_of members.now)) }
{
    duration_of(
        alloc,
        symbols,
        variables,
        scale,
        part_of(ActionKind::Durative, b":duration", members),
    )
}

/// The types of an action's parameters.
fn sorts_in(
    alloc: Global,
    kind: ActionKind,
    types: &Names,
    members: &[Form],
) -> Result<List<u32>, NoMemory>
    ensures { IfOk result (λ sorts. sorts
        ≡ sorts_from parameters types.now Part.Start
        (part_of kind (codes ":parameters") (trees_of members.now))) }
{
    sorts_of(
        alloc,
        PARAMETERS,
        types,
        part_of(kind, b":parameters", members),
    )
}

/// A durative action over these variables.
fn durative_from(
    alloc: Global,
    types: &Names,
    symbols: &Symbols,
    variables: &Names,
    scale: u32,
    name: &[u8],
    members: &[Form],
) -> Result<Schema, NoMemory>
    requires { IsScale scale }
    ensures { IfOk result (λ schema. schema
        ≡ durative_from types.now symbols.now variables.now scale name.now (trees_of members.now)) }
{
    let name = name_of(alloc, name)?;
    let sorts = sorts_in(alloc, ActionKind::Durative, types, members)?;
    let bounds = bounds_in(alloc, symbols, variables, scale, members)?;
    let start_conds = conditions_in(alloc, symbols, variables, scale, b"start", members)?;
    let all_conds = conditions_in(alloc, symbols, variables, scale, b"all", members)?;
    let end_conds = conditions_in(alloc, symbols, variables, scale, b"end", members)?;
    let start_effects = effects_in(alloc, symbols, variables, scale, b"start", members)?;
    let end_effects = effects_in(alloc, symbols, variables, scale, b"end", members)?;
    Ok(Schema {
        name,
        sorts,
        bounds: Some(bounds),
        start_conds,
        all_conds,
        end_conds,
        start_effects,
        end_effects,
    })
}

/// A durative action.
fn durative_of(
    alloc: Global,
    types: &Names,
    symbols: &Symbols,
    scale: u32,
    name: &[u8],
    members: &[Form],
) -> Result<Schema, NoMemory>
    requires { IsScale scale }
    ensures { IfOk result (λ schema. schema
        ≡ durative_of types.now symbols.now scale name.now (trees_of members.now)) }
{
    let variables = variables_of(alloc, ActionKind::Durative, members)?;
    durative_from(alloc, types, symbols, &variables, scale, name, members)
}

fn schema_of(
    alloc: Global,
    kind: ActionKind,
    types: &Names,
    symbols: &Symbols,
    scale: u32,
    name: &[u8],
    members: &[Form],
) -> Result<Schema, NoMemory>
    requires { IsScale scale }
    ensures { IfOk result (λ schema. schema
        ≡ schema_of kind types.now symbols.now scale name.now (trees_of members.now)) }
{
    match kind {
        ActionKind::Instant => instant_of(alloc, types, symbols, scale, name, members),
        ActionKind::Durative => durative_of(alloc, types, symbols, scale, name, members),
    }
}

/// Puts an action behind others.
fn with_named(
    alloc: Global,
    mut schemas: List<Schema>,
    kind: ActionKind,
    types: &Names,
    symbols: &Symbols,
    scale: u32,
    members: &[Form],
) -> Result<List<Schema>, NoMemory>
    requires { IsScale scale }
    ensures { IfOk result (λ more. more ≡ schemas
        ++ named_schema kind types.now symbols.now scale (trees_of members.now)) }
{
    match head_of(members) {
        Look::Missing | Look::List { .. } => Ok(schemas),
        Look::Word(name, rest) => {
            let text = name.text.as_slice();
            schemas.push(schema_of(alloc, kind, types, symbols, scale, text, rest)?)?;
            Ok(schemas)
        }
    }
}

/// Puts a section behind others where it is an action.
fn with_section(
    alloc: Global,
    schemas: List<Schema>,
    types: &Names,
    symbols: &Symbols,
    scale: u32,
    parts: &[Form],
) -> Result<List<Schema>, NoMemory>
    requires { IsScale scale }
    ensures { IfOk result (λ more. more ≡ schemas
        ++ section_schema types.now symbols.now scale (trees_of parts.now)) }
{
    match head_of(parts) {
        Look::Missing | Look::List { .. } => Ok(schemas),
        Look::Word(head, members) => {
            let text = head.text.as_slice();
            if is_action(text) {
                with_named(
                    alloc,
                    schemas,
                    kind_of(text),
                    types,
                    symbols,
                    scale,
                    members,
                )
            } else {
                Ok(schemas)
            }
        }
    }
}

/// The actions among sections.
#[tactic(auto, using(std::proofs::Common::append_assoc))]
fn schemas_of(
    alloc: Global,
    types: &Names,
    symbols: &Symbols,
    scale: u32,
    sections: &[Form],
) -> Result<List<Schema>, NoMemory>
    requires { IsScale scale }
    ensures { IfOk result (λ schemas. schemas
        ≡ schemas_of types.now symbols.now scale (trees_of sections.now)) }
{
    let mut schemas = List::new(alloc);
    let mut rest = sections;
    'sections: loop {
        match head_of(rest) {
            Look::Missing => return Ok(schemas),
            Look::Word(_, more) => rest = more,
            Look::List {
                parts,
                rest: more,
                ..
            } => {
                schemas = with_section(alloc, schemas, types, symbols, scale, parts)?;
                rest = more;
            }
        }
    }
}

fn first_word(forms: &[Form]) -> &[u8]
    ensures { result.now ≡ first_word (trees_of forms.now) }
{
    match head_of(forms) {
        Look::Missing | Look::List { .. } => &[],
        Look::Word(word, _) => word.text.as_slice(),
    }
}

fn first_parts(forms: &[Form]) -> &[Form]
    ensures { trees_of result.now ≡ first_parts (trees_of forms.now) }
{
    match head_of(forms) {
        Look::Missing => forms,
        Look::Word(..) => &[],
        Look::List { parts, .. } => parts,
    }
}

fn domain_name(forms: &[Form]) -> &[u8]
    ensures { result.now ≡ domain_name (trees_of forms.now) }
{
    first_word(behind_first(first_parts(behind_first(first_parts(forms)))))
}

/// A domain of these types and symbols, by its sections.
fn domain_from(
    alloc: Global,
    name: &[u8],
    types: &Names,
    symbols: &Symbols,
    scale: u32,
    sections: &[Form],
) -> Result<Domain, NoMemory>
    requires { IsScale scale }
    ensures { IfOk result (λ domain. domain
        ≡ domain_from name.now types.now symbols.now scale (trees_of sections.now)) }
{
    let (parents, _) = parents_of(alloc, types, members_of(b":types", sections))?;
    Ok(Domain {
        name: name_of(alloc, name)?,
        types: each_sort(alloc, types, &parents)?,
        constants: objects_of(alloc, OBJECTS, types, members_of(b":constants", sections))?,
        predicates: heads_of(
            alloc,
            HeadKind::Predicates,
            types,
            members_of(b":predicates", sections),
        )?,
        functions: heads_of(
            alloc,
            HeadKind::Functions,
            types,
            members_of(b":functions", sections),
        )?,
        actions: schemas_of(alloc, types, symbols, scale, sections)?,
    })
}

/// The domain that a file without a fault says; numbers are in units of `scale`.
pub fn domain_of(alloc: Global, scale: u32, forms: &[Form]) -> Result<Domain, NoMemory>
    requires { IsScale scale }
    ensures { IfOk result (λ domain. domain ≡ domain_of scale (trees_of forms.now)) }
{
    let sections = sections_of(forms);
    let types = type_names(alloc, members_of(b":types", sections))?;
    let symbols = symbols_of(alloc, sections)?;
    domain_from(alloc, domain_name(forms), &types, &symbols, scale, sections)
}
