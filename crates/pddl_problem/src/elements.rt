ghost use Rattle.std.specs.Prelude.{◌≡◌, ◌<◌, ◌^◌, ◌++◌, IfOk, true, unsigned_abs, ℕ, ℤ, List as Bytes};
ghost use Rattle.std.specs.Result.{result_ok};
ghost use Rattle.pddl_tokens.specs.Numbers.{IsScale};
ghost use Rattle.pddl_tokens.specs.Trees.{Trees, trees_of, have_letters};
ghost use Rattle.pddl_problem.specs.Elements.{are_words, joined_words, first_list, first_number, behind_equal, value_in, behind_at, is_positive, atom_in, literal_in, first_time, time_in, dated_words, texts_of};

use crate::literals::{is_below_zero, is_dated};
use pddl_meaning::behind_first;
use pddl_tokens::{Form, Head, head_of, number};
use std::alloc::Global;
use tp_spec::NoMemory;

fn are_words(forms: &[Form]) -> bool
    ensures { result ≡ are_words (trees_of forms.now) }
{
    let mut rest = forms;
    'members: loop {
        match head_of(rest) {
            Head::Missing => return true,
            Head::Word(_, more) => rest = more,
            Head::List { .. } => return false,
        }
    }
}

/// Puts bytes behind others.
fn with_bytes(mut text: Vec<u8>, bytes: &[u8]) -> Result<Vec<u8>, NoMemory>
    ensures { IfOk result (λ more. more.items ≡ text.items ++ bytes.now) }
{
    match text.extend_from_slice(bytes) {
        Ok(()) => Ok(text),
        Err(_) => Err(NoMemory),
    }
}

/// Words as one text, each with a blank behind it. Lists among them are passed over.
#[tactic(auto, using(std::proofs::Common::append_assoc))]
pub fn joined_words(alloc: Global, forms: &[Form]) -> Result<Vec<u8>, NoMemory>
    ensures { IfOk result (λ text. text.items ≡ joined_words (trees_of forms.now)) }
{
    let mut text = Vec::new(alloc);
    let mut rest = forms;
    'words: loop {
        match head_of(rest) {
            Head::Missing => return Ok(text),
            Head::Word(word, more) => {
                text = with_bytes(with_bytes(text, word.text.as_slice())?, b" ")?;
                rest = more;
            }
            Head::List { rest: more, .. } => rest = more,
        }
    }
}

/// The members of a list that comes first; none where no list does.
pub fn first_list(forms: &[Form]) -> &[Form]
    ensures { trees_of result.now ≡ first_list (trees_of forms.now) }
{
    match head_of(forms) {
        Head::Missing => forms,
        Head::Word(..) => &[],
        Head::List { parts, .. } => parts,
    }
}

/// The number that a numeral says in units of `scale`, where one comes first.
pub fn first_number(scale: u32, forms: &[Form]) -> Option<i64>
    requires { IsScale scale }
    ensures { result ≡ first_number scale (trees_of forms.now) }
{
    match head_of(forms) {
        Head::Missing | Head::List { .. } => None,
        Head::Word(word, _) => {
            match number(word, scale) {
                Ok(number) => Some(number),
                Err(_) => None,
            }
        }
    }
}

/// What stands behind `=` in an element that gives a value; nothing in another one.
pub fn behind_equal(parts: &[Form]) -> &[Form]
    ensures { trees_of result.now ≡ behind_equal (trees_of parts.now) }
{
    match head_of(parts) {
        Head::Missing => parts,
        Head::List { .. } => &[],
        Head::Word(head, rest) => {
            if head.text.as_slice() == b"=".as_slice() {
                rest
            } else {
                &[]
            }
        }
    }
}

/// The value that an element gives, by its members behind `=`.
pub fn value_in(scale: u32, members: &[Form]) -> Option<i64>
    requires { IsScale scale }
    ensures { result ≡ value_in scale (trees_of members.now) }
{
    if are_words(first_list(members)) {
        first_number(scale, behind_first(members))
    } else {
        None
    }
}

/// What stands behind `at` in a timed literal; nothing in another element.
pub fn behind_at(parts: &[Form]) -> &[Form]
    ensures { trees_of result.now ≡ behind_at (trees_of parts.now) }
{
    match head_of(parts) {
        Head::Missing => parts,
        Head::List { .. } => &[],
        Head::Word(head, rest) => {
            if head.text.as_slice() == b"at".as_slice() && is_dated(rest) {
                rest
            } else {
                &[]
            }
        }
    }
}

/// The sign of a literal.
pub fn is_positive(literal: &[Form]) -> bool
    ensures { result ≡ is_positive (trees_of literal.now) }
{
    match head_of(literal) {
        Head::Missing | Head::List { .. } => true,
        Head::Word(head, _) => {
            if head.text.as_slice() == b"not".as_slice() {
                false
            } else {
                true
            }
        }
    }
}

/// The atom of a literal: its head and arguments.
pub fn atom_in(literal: &[Form]) -> &[Form]
    ensures { trees_of result.now ≡ atom_in (trees_of literal.now) }
{
    match head_of(literal) {
        Head::Missing => literal,
        Head::List { .. } => &[],
        Head::Word(head, rest) => {
            if head.text.as_slice() == b"not".as_slice() {
                first_list(rest)
            } else {
                literal
            }
        }
    }
}

/// The literal of a timed literal, by its members behind `at`.
pub fn literal_in(members: &[Form]) -> &[Form]
    ensures { trees_of result.now ≡ literal_in (trees_of members.now) }
{
    first_list(behind_first(members))
}

/// The time that a numeral says in units of `scale`, where one comes first that is not below 0.
fn first_time(scale: u32, forms: &[Form]) -> Option<i64>
    requires { IsScale scale }
    ensures { result ≡ first_time scale (trees_of forms.now) }
{
    match head_of(forms) {
        Head::Missing | Head::List { .. } => None,
        Head::Word(word, _) => {
            if is_below_zero(word.text.as_slice()) {
                return None;
            }
            match number(word, scale) {
                Ok(number) => Some(number),
                Err(_) => None,
            }
        }
    }
}

/// The time of a timed literal over words, by its members behind `at`.
pub fn time_in(scale: u32, members: &[Form]) -> Option<i64>
    requires { IsScale scale }
    ensures { result ≡ time_in scale (trees_of members.now) }
{
    if are_words(atom_in(literal_in(members))) {
        first_time(scale, members)
    } else {
        None
    }
}

/// A time and an atom's text as one text.
pub fn dated_words(alloc: Global, time: i64, words: &[u8]) -> Result<Vec<u8>, NoMemory>
    ensures { IfOk result (λ text. text.items ≡ dated_words time words.now) }
{
    let tick = time.unsigned_abs().to_be_bytes();
    with_bytes(with_bytes(Vec::new(alloc), &tick)?, words)
}

/// Words of letters alone have one text only if they are the same words, and a time and an atom's
/// text have one text only if the tick is the same and the atom's text: so what comes again under a
/// text comes again under what it stands for.
#[tactic(auto, using(crate::proofs::Texts::same_date))]
pub fn texts_are_apart()
    ensures words { (ts us : Trees) → have_letters ts ≡ true → have_letters us ≡ true
        → joined_words ts ≡ joined_words us → texts_of ts ≡ texts_of us }
    ensures dated { (s t : ℤ) (a b : Bytes ℕ) → unsigned_abs s < 2 ^ 64 → unsigned_abs t < 2 ^ 64
        → dated_words s a ≡ dated_words t b → (unsigned_abs s ≡ unsigned_abs t) × (a ≡ b) }
{}
