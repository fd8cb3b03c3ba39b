ghost use Rattle.std.specs.Prelude.{◌≡◌, IfOk};
ghost use Rattle.pddl_tokens.specs.Trees.{trees_of};
ghost use Rattle.pddl_meaning.specs.Terms.{place_of, term_of, terms_of, atom_of, first_term, behind_first};

use pddl_parts::{Names, in_32_bits, is_variable};
use pddl_tokens::{Form, Head, Word, head_of};
use std::alloc::Global;
use tp_spec::{List, NoMemory};

/// What stands for an object: a parameter of the action, or an object, each by its number from 0.
#[derive(Clone, Copy, Debug, PartialEq, Eq)]
pub enum Term {
    Parameter(u32),
    Object(u32),
}

/// A predicate or a function, by its number from 0, with its arguments.
#[derive(Drop)]
pub struct Atom {
    pub head: u32,
    pub terms: List<Term>,
}

/// The names of what is declared, each numbered from 0.
#[derive(Drop)]
pub struct Symbols {
    pub objects: Names,
    pub predicates: Names,
    pub functions: Names,
}

/// The number of a name; 0 where it is not there.
pub fn place_of(names: &Names, text: &[u8]) -> Result<u32, NoMemory>
    ensures { IfOk result (λ place. place ≡ place_of names.now text.now) }
{
    match names.find(text) {
        None => Ok(0),
        Some(place) => in_32_bits(place),
    }
}

/// The term that a word is.
pub fn term_of(symbols: &Symbols, variables: &Names, word: &Word) -> Result<Term, NoMemory>
    ensures { IfOk result (λ term. term ≡ term_of symbols.now variables.now word.now.text) }
{
    let text = word.text.as_slice();
    if is_variable(word) {
        Ok(Term::Parameter(place_of(variables, text)?))
    } else {
        Ok(Term::Object(place_of(&symbols.objects, text)?))
    }
}

/// The terms that some words are.
#[tactic(auto, using(std::proofs::Common::append_assoc))]
pub fn terms_of(
    alloc: Global,
    symbols: &Symbols,
    variables: &Names,
    forms: &[Form],
) -> Result<List<Term>, NoMemory>
    ensures { IfOk result (λ terms. terms
        ≡ terms_of symbols.now variables.now (trees_of forms.now)) }
{
    let mut terms = List::new(alloc);
    let mut rest = forms;
    'terms: loop {
        match head_of(rest) {
            Head::Missing => return Ok(terms),
            Head::Word(word, more) => {
                terms.push(term_of(symbols, variables, word)?)?;
                rest = more;
            }
            Head::List { rest: more, .. } => rest = more,
        }
    }
}

/// A predicate or a function of this table, with its arguments.
pub fn atom_of(
    alloc: Global,
    symbols: &Symbols,
    variables: &Names,
    table: &Names,
    text: &[u8],
    arguments: &[Form],
) -> Result<Atom, NoMemory>
    ensures { IfOk result (λ atom. atom
        ≡ atom_of symbols.now variables.now table.now text.now (trees_of arguments.now)) }
{
    let head = place_of(table, text)?;
    let terms = terms_of(alloc, symbols, variables, arguments)?;
    Ok(Atom { head, terms })
}

/// The first member as a term.
pub fn first_term(symbols: &Symbols, variables: &Names, forms: &[Form]) -> Result<Term, NoMemory>
    ensures { IfOk result (λ term. term
        ≡ first_term symbols.now variables.now (trees_of forms.now)) }
{
    match head_of(forms) {
        Head::Missing | Head::List { .. } => Ok(Term::Object(0)),
        Head::Word(word, _) => term_of(symbols, variables, word),
    }
}

/// What stands behind the first member.
pub fn behind_first(forms: &[Form]) -> &[Form]
    ensures { trees_of result.now ≡ behind_first (trees_of forms.now) }
{
    match head_of(forms) {
        Head::Missing => forms,
        Head::Word(_, rest) => rest,
        Head::List { rest, .. } => rest,
    }
}
