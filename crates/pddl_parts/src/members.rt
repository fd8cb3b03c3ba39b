ghost use Rattle.std.specs.Prelude.{◌≡◌};
ghost use Rattle.pddl_tokens.specs.Trees.{trees_of};
ghost use Rattle.pddl_parts.specs.First.{first};
ghost use Rattle.pddl_parts.specs.Members.{others_faults, surplus_faults, extra_faults, one_name_faults, named_faults, members_of, requirements_faults};

use crate::faults::{Fault, Kind};
use crate::first::{earlier, fault};
use crate::literals::{misfit_list, name_fault, unfit_list, unfit_word};
use crate::scope::Place;
use crate::words::begins_with;
use pddl_tokens::{Form, Head, head_of};

/// The first of the forms behind the file's first one.
#[tactic(auto, using(crate::proofs::Firsts::first_onto))]
pub fn others_fault(forms: &[Form]) -> Option<Fault>
    ensures { result ≡ first (others_faults (trees_of forms.now)) }
{
    let mut best = None;
    let mut rest = forms;
    'forms: loop {
        match head_of(rest) {
            Head::Missing => return best,
            Head::Word(word, more) => {
                best = earlier(best, fault(Kind::Shape, word.at));
                rest = more;
            }
            Head::List { at, rest: more, .. } => {
                best = earlier(best, fault(Kind::Shape, at));
                rest = more;
            }
        }
    }
}

/// The first fault of members that stand where none may.
#[tactic(auto, using(crate::proofs::Firsts::first_onto))]
pub fn extra_fault(place: Place, forms: &[Form]) -> Option<Fault>
    ensures { result ≡ first (extra_faults place (trees_of forms.now)) }
{
    let mut best = None;
    let mut rest = forms;
    'members: loop {
        match head_of(rest) {
            Head::Missing => return best,
            Head::Word(word, more) => {
                best = earlier(best, unfit_word(place, word));
                rest = more;
            }
            Head::List {
                at,
                parts,
                rest: more,
                ..
            } => {
                best = earlier(best, unfit_list(place, at, parts));
                rest = more;
            }
        }
    }
}

/// The first fault of members that stand where none may, outside durations.
pub fn surplus_fault(forms: &[Form]) -> Option<Fault>
    ensures { result ≡ first (surplus_faults (trees_of forms.now)) }
{
    extra_fault(Place::Elsewhere, forms)
}

/// The first fault where one name is to stand before the closing parenthesis.
#[tactic(auto, using(crate::proofs::Firsts::first_append))]
pub fn one_name_fault(close: u32, forms: &[Form]) -> Option<Fault>
    ensures { result ≡ first (one_name_faults close (trees_of forms.now)) }
{
    match head_of(forms) {
        Head::Missing => fault(Kind::Shape, close),
        Head::Word(word, rest) => earlier(name_fault(word), surplus_fault(rest)),
        Head::List {
            at,
            parts,
            rest,
            ..
        } => earlier(misfit_list(at, parts), surplus_fault(rest)),
    }
}

/// The first fault of a list that is to be `(KEY NAME)`.
pub fn named_fault(key: &[u8], at: u32, close: u32, parts: &[Form]) -> Option<Fault>
    ensures { result ≡ first (named_faults key.now at close (trees_of parts.now)) }
{
    match head_of(parts) {
        Head::Missing | Head::List { .. } => misfit_list(at, parts),
        Head::Word(head, rest) => {
            if head.text.as_slice() == key {
                one_name_fault(close, rest)
            } else {
                misfit_list(at, parts)
            }
        }
    }
}

/// The members of the first section with a head.
pub fn members_of<'a>(head: &[u8], sections: &'a [Form]) -> &'a [Form]
    ensures { trees_of result.now ≡ members_of head.now (trees_of sections.now) }
{
    let mut rest = sections;
    'sections: loop {
        match head_of(rest) {
            Head::Missing => return rest,
            Head::Word(_, more) => rest = more,
            Head::List {
                parts,
                rest: more,
                ..
            } => {
                match head_of(parts) {
                    Head::Missing | Head::List { .. } => {}
                    Head::Word(word, members) => {
                        if word.text.as_slice() == head {
                            return members;
                        }
                    }
                }
                rest = more;
            }
        }
    }
}

/// The first fault of the members of `:requirements`.
#[tactic(auto, using(crate::proofs::Firsts::first_onto))]
pub fn requirements_fault(members: &[Form]) -> Option<Fault>
    ensures { result ≡ first (requirements_faults (trees_of members.now)) }
{
    let mut best = None;
    let mut rest = members;
    'members: loop {
        match head_of(rest) {
            Head::Missing => return best,
            Head::Word(word, more) => {
                if !begins_with(b':', word.text.as_slice()) {
                    best = earlier(best, fault(Kind::Shape, word.at));
                }
                rest = more;
            }
            Head::List { at, rest: more, .. } => {
                best = earlier(best, fault(Kind::Shape, at));
                rest = more;
            }
        }
    }
}
