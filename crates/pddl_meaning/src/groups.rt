ghost use Rattle.std.specs.Prelude.{◌≡◌, IfOk, IfSome, position};
ghost use Rattle.std.specs.Str.{bytes_eq};
ghost use Rattle.pddl_tokens.specs.Trees.{trees_of};
ghost use Rattle.pddl_meaning.specs.Groups.{named_parent, parent_behind, sorts_from, objects_from};
ghost use Rattle.pddl_meaning.specs.Terms.{or_zero};

use pddl_parts::{Names, Part, Rule, in_32_bits, is_dash, is_item, is_thing, next, next_of_list};
use pddl_tokens::{Form, Head, head_of};
use std::alloc::Global;
use tp_spec::{List, Name, NoMemory};

/// An object with its type, by the type's number.
#[derive(Drop)]
pub struct Object {
    pub name: Name,
    pub sort: u32,
}

/// The number of a type's name.
pub fn type_number(types: &Names, text: &[u8]) -> Result<Option<u32>, NoMemory>
    ensures { IfOk result (λ number. number ≡ position (bytes_eq text.now) types.now) }
{
    match types.find(text) {
        None => Ok(None),
        Some(number) => Ok(Some(in_32_bits(number)?)),
    }
}

/// The number of the type that is named behind a hyphen; none where no name stands there.
fn named_parent(types: &Names, forms: &[Form]) -> Result<Option<u32>, NoMemory>
    ensures { IfOk result (λ parent. parent ≡ named_parent types.now (trees_of forms.now)) }
{
    match head_of(forms) {
        Head::Missing | Head::List { .. } => Ok(None),
        Head::Word(word, _) => {
            if is_thing(word) {
                type_number(types, word.text.as_slice())
            } else {
                Ok(None)
            }
        }
    }
}

/// The type of the group in whose midst these members stand.
fn parent_behind(types: &Names, forms: &[Form]) -> Result<Option<u32>, NoMemory>
    ensures { IfOk result (λ parent. parent ≡ parent_behind types.now (trees_of forms.now)) }
{
    let mut rest = forms;
    'members: loop {
        match head_of(rest) {
            Head::Missing => return Ok(Some(0)),
            Head::Word(word, more) => {
                if is_dash(word.text.as_slice()) {
                    return named_parent(types, more);
                }
                rest = more;
            }
            Head::List { rest: more, .. } => rest = more,
        }
    }
}

/// The type of the group, where it is known already, or else by looking ahead.
pub fn group_parent(
    types: &Names,
    known: Option<Option<u32>>,
    forms: &[Form],
) -> Result<Option<u32>, NoMemory>
    requires { IfSome known (λ parent. parent ≡ parent_behind types.now (trees_of forms.now)) }
    ensures { IfOk result (λ parent. parent ≡ parent_behind types.now (trees_of forms.now)) }
{
    match known {
        Some(parent) => Ok(parent),
        None => parent_behind(types, forms),
    }
}

/// The name that a word spells. A name has ASCII characters alone; other bytes count as no memory.
pub fn name_of(alloc: Global, text: &[u8]) -> Result<Name, NoMemory>
    ensures { IfOk result (λ name. name ≡ text.now) }
{
    match str::from_utf8(text) {
        Ok(text) => Name::of(alloc, text),
        Err(_) => Err(NoMemory),
    }
}

fn or_object(parent: Option<u32>) -> u32
    ensures { result ≡ or_zero parent }
{
    match parent {
        None => 0,
        Some(parent) => parent,
    }
}

/// The types of the items of a typed list, by their numbers. The type of a group is looked up once.
#[tactic(auto, using(std::proofs::Common::append_assoc))]
pub fn sorts_of(
    alloc: Global,
    rule: Rule,
    types: &Names,
    forms: &[Form],
) -> Result<List<u32>, NoMemory>
    ensures { IfOk result (λ sorts. sorts
        ≡ sorts_from rule types.now Part.Start (trees_of forms.now)) }
{
    let mut sorts = List::new(alloc);
    let mut known = None;
    let mut part = Part::Start;
    let mut rest = forms;
    'members: loop {
        match head_of(rest) {
            Head::Missing => return Ok(sorts),
            Head::Word(word, more) => {
                if is_dash(word.text.as_slice()) {
                    known = None;
                }
                if is_item(rule, part, word) {
                    let parent = group_parent(types, known, more)?;
                    sorts.push(or_object(parent))?;
                    known = Some(parent);
                }
                part = next(part, word.text.as_slice());
                rest = more;
            }
            Head::List { rest: more, .. } => {
                part = next_of_list(part);
                rest = more;
            }
        }
    }
}

/// The items of a typed list with their types. The type of a group is looked up once.
#[tactic(auto, using(std::proofs::Common::append_assoc))]
pub fn objects_of(
    alloc: Global,
    rule: Rule,
    types: &Names,
    forms: &[Form],
) -> Result<List<Object>, NoMemory>
    ensures { IfOk result (λ objects. objects
        ≡ objects_from rule types.now Part.Start (trees_of forms.now)) }
{
    let mut objects = List::new(alloc);
    let mut known = None;
    let mut part = Part::Start;
    let mut rest = forms;
    'members: loop {
        match head_of(rest) {
            Head::Missing => return Ok(objects),
            Head::Word(word, more) => {
                if is_dash(word.text.as_slice()) {
                    known = None;
                }
                if is_item(rule, part, word) {
                    let parent = group_parent(types, known, more)?;
                    let name = name_of(alloc, word.text.as_slice())?;
                    objects.push(Object {
                        name,
                        sort: or_object(parent),
                    })?;
                    known = Some(parent);
                }
                part = next(part, word.text.as_slice());
                rest = more;
            }
            Head::List { rest: more, .. } => {
                part = next_of_list(part);
                rest = more;
            }
        }
    }
}
