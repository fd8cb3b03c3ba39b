ghost use Rattle.std.specs.Prelude.{◌≡◌};
ghost use Rattle.pddl_tokens.specs.Trees.{trees_of};
ghost use Rattle.pddl_parts.specs.First.{first};
ghost use Rattle.pddl_parts.specs.Settings.{setting_of};
ghost use Rattle.pddl_parts.specs.Atoms.{known_faults, term_faults, terms_faults, count_of, arity_faults, atom_faults, predicate_faults};

use crate::faults::{Fault, Kind};
use crate::first::{earlier, fault};
use crate::literals::{is_left_out_at, name_fault, unfit_list};
use crate::scope::Context;
use crate::table::Table;
use crate::words::{is_name, is_variable};
use pddl_tokens::{Form, Head, Word, head_of};

/// What is wrong with a name where only a known one may stand.
pub fn known_fault(known: bool, at: u32) -> Option<Fault>
    ensures { result ≡ first (known_faults known at) }
{
    if known {
        None
    } else {
        fault(Kind::Unknown, at)
    }
}

/// What is wrong with a word where a variable or an object is to stand.
pub fn term_fault(context: &Context<'_>, word: &Word) -> Option<Fault>
    ensures { result ≡ first (term_faults (setting_of context.now) word.now.at word.now.text) }
{
    let text = word.text.as_slice();
    if is_left_out_at(context.place, text) {
        fault(Kind::LeftOut, word.at)
    } else if is_variable(word) {
        known_fault(context.variables.has(text), word.at)
    } else if is_name(word) {
        known_fault(context.scope.objects.has(text), word.at)
    } else {
        fault(Kind::Shape, word.at)
    }
}

/// The first fault of some terms.
#[tactic(auto, using(crate::proofs::Firsts::first_onto))]
fn terms_fault(context: &Context<'_>, forms: &[Form]) -> Option<Fault>
    ensures { result ≡ first (terms_faults (setting_of context.now) (trees_of forms.now)) }
{
    let mut best = None;
    let mut rest = forms;
    'terms: loop {
        match head_of(rest) {
            Head::Missing => return best,
            Head::Word(word, more) => {
                best = earlier(best, term_fault(context, word));
                rest = more;
            }
            Head::List {
                at,
                parts,
                rest: more,
                ..
            } => {
                best = earlier(best, unfit_list(context.place, at, parts));
                rest = more;
            }
        }
    }
}

/// How many forms there are.
#[tactic(auto, using(crate::proofs::Counts::count_is))]
pub fn count_of(forms: &[Form]) -> usize
    ensures { result ≡ count_of (trees_of forms.now) }
{
    forms.len()
}

/// What is wrong with a head by its declared number of arguments, where it is declared. The list
/// stands at `at`.
pub fn arity_fault(arity: Option<u32>, head: u32, at: u32, arguments: &[Form]) -> Option<Fault>
    ensures { result ≡ first (arity_faults arity head at (trees_of arguments.now)) }
{
    match arity {
        None => fault(Kind::Unknown, head),
        Some(n) => {
            if count_of(arguments) == n as usize {
                None
            } else {
                fault(Kind::Arity, at)
            }
        }
    }
}

/// The first fault of a list of a name of this table and its arguments.
#[tactic(auto, using(crate::proofs::Firsts::first_append))]
pub fn atom_fault(
    context: &Context<'_>,
    table: &Table,
    at: u32,
    head: &Word,
    arguments: &[Form],
) -> Option<Fault>
    ensures { result ≡ first (atom_faults (setting_of context.now) table.now at head.now.at
        head.now.text (trees_of arguments.now)) }
{
    let arity = arity_fault(table.value(head.text.as_slice()), head.at, at, arguments);
    let terms = terms_fault(context, arguments);
    earlier(name_fault(head), earlier(arity, terms))
}

/// The first fault of a list of a predicate and its arguments.
pub fn predicate_fault(
    context: &Context<'_>,
    at: u32,
    head: &Word,
    arguments: &[Form],
) -> Option<Fault>
    ensures { result ≡ first (predicate_faults (setting_of context.now) at head.now.at head.now.text
        (trees_of arguments.now)) }
{
    atom_fault(context, &context.scope.predicates, at, head, arguments)
}
