ghost use Rattle.std.specs.Prelude.{◌≡◌};
ghost use Rattle.pddl_tokens.specs.Trees.{trees_of};
ghost use Rattle.pddl_parts.specs.First.{first};
ghost use Rattle.pddl_parts.specs.Literals.{may_be_term, may_be_equality, is_operator, is_literal, is_literal_list, is_wrong_not, is_left_out_at, begins_left_out, unfit_word, unfit_list, unfit_section, misfit_word, misfit_list, name_faults, variable_faults};

use crate::faults::{Fault, Kind};
use crate::first::fault;
use crate::scope::Place;
use crate::words::{is_atom_word, is_left_out, is_order, is_thing, is_update, is_variable};
use pddl_tokens::{Form, Head, Word, head_of, is_numeral};

/// Whether the first member may be a term, where one is there.
pub fn may_be_term(members: &[Form]) -> bool
    ensures { result ≡ may_be_term (trees_of members.now) }
{
    match head_of(members) {
        Head::Missing => true,
        Head::Word(word, _) => !is_numeral(word),
        Head::List { .. } => false,
    }
}

/// Whether members behind `=` are of an object equality, as far as they go.
pub fn may_be_equality(members: &[Form]) -> bool
    ensures { result ≡ may_be_equality (trees_of members.now) }
{
    match head_of(members) {
        Head::Missing => true,
        Head::Word(word, rest) => !is_numeral(word) && may_be_term(rest),
        Head::List { .. } => false,
    }
}

fn is_operator(text: &[u8]) -> bool
    ensures { result ≡ is_operator text.now }
{
    text == b"and".as_slice() || text == b"not".as_slice() || is_order(text) || is_update(text)
}

/// Whether a list of a first word and members is an atom or an object equality by its form. Of such
/// a list alone, `not` makes no part of PDDL that is left out.
pub fn is_literal(head: &Word, rest: &[Form]) -> bool
    ensures { result ≡ is_literal head.now.text (trees_of rest.now) }
{
    let text = head.text.as_slice();
    if text == b"=".as_slice() {
        may_be_equality(rest)
    } else {
        is_atom_word(head) && !is_operator(text)
    }
}

fn is_literal_list(parts: &[Form]) -> bool
    ensures { result ≡ is_literal_list (trees_of parts.now) }
{
    match head_of(parts) {
        Head::Missing | Head::List { .. } => false,
        Head::Word(head, rest) => is_literal(head, rest),
    }
}

/// Whether `not` is left out before some members.
fn is_wrong_not(members: &[Form]) -> bool
    ensures { result ≡ is_wrong_not (trees_of members.now) }
{
    match head_of(members) {
        Head::Missing => false,
        Head::Word(..) => true,
        Head::List { parts, .. } => !is_literal_list(parts),
    }
}

/// Whether a word is of PDDL's parts that are left out; in a duration `?duration` is not.
pub fn is_left_out_at(place: Place, text: &[u8]) -> bool
    ensures { result ≡ is_left_out_at place text.now }
{
    match place {
        Place::Duration => is_left_out(text) && !(text == b"?duration".as_slice()),
        Place::Elsewhere => is_left_out(text),
    }
}

fn begins_left_out(place: Place, text: &[u8], rest: &[Form]) -> bool
    ensures { result ≡ begins_left_out place text.now (trees_of rest.now) }
{
    is_left_out_at(place, text) || (text == b"not".as_slice() && is_wrong_not(rest))
}

/// What is wrong with a word that does not fit.
pub fn unfit_word(place: Place, word: &Word) -> Option<Fault>
    ensures { result ≡ first (unfit_word place word.now.at word.now.text) }
{
    if is_left_out_at(place, word.text.as_slice()) {
        fault(Kind::LeftOut, word.at)
    } else {
        fault(Kind::Shape, word.at)
    }
}

/// What is wrong with a list that does not fit.
pub fn unfit_list(place: Place, at: u32, parts: &[Form]) -> Option<Fault>
    ensures { result ≡ first (unfit_list place at (trees_of parts.now)) }
{
    match head_of(parts) {
        Head::Missing | Head::List { .. } => fault(Kind::Shape, at),
        Head::Word(head, rest) => {
            if begins_left_out(place, head.text.as_slice(), rest) {
                fault(Kind::LeftOut, head.at)
            } else {
                fault(Kind::Shape, at)
            }
        }
    }
}

/// What is wrong with a section of this head, which does not fit.
pub fn unfit_section(head: &Word, members: &[Form]) -> Option<Fault>
    ensures { result ≡ first (unfit_section head.now.at head.now.text (trees_of members.now)) }
{
    if begins_left_out(Place::Elsewhere, head.text.as_slice(), members) {
        fault(Kind::LeftOut, head.at)
    } else {
        fault(Kind::Shape, head.at)
    }
}

/// What is wrong with a word that does not fit, outside durations.
pub fn misfit_word(word: &Word) -> Option<Fault>
    ensures { result ≡ first (misfit_word word.now.at word.now.text) }
{
    unfit_word(Place::Elsewhere, word)
}

/// What is wrong with a list that does not fit, outside durations.
pub fn misfit_list(at: u32, parts: &[Form]) -> Option<Fault>
    ensures { result ≡ first (misfit_list at (trees_of parts.now)) }
{
    unfit_list(Place::Elsewhere, at, parts)
}

/// What is wrong with a word where a name is to stand.
pub fn name_fault(word: &Word) -> Option<Fault>
    ensures { result ≡ first (name_faults word.now.at word.now.text) }
{
    if is_thing(word) {
        None
    } else {
        misfit_word(word)
    }
}

/// What is wrong with a word where a variable is to stand.
pub fn variable_fault(word: &Word) -> Option<Fault>
    ensures { result ≡ first (variable_faults word.now.at word.now.text) }
{
    if is_variable(word) && !is_left_out(word.text.as_slice()) {
        None
    } else {
        misfit_word(word)
    }
}
