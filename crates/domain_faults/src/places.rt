ghost use Rattle.std.specs.Prelude.{◌≡◌, ◌++◌, IfOk, []};
ghost use Rattle.pddl_tokens.specs.Trees.{trees_of};
ghost use Rattle.pddl_parts.specs.First.{first};
ghost use Rattle.domain_faults.specs.Places.{effect_places, effects_places, labelled_places, at_places, timed_places, all_timed_places, past_faults};

use pddl_parts::{Fault, Kind, fault};
use pddl_tokens::{Form, Head, head_of};
use std::alloc::Global;
use tp_spec::{List, NoMemory};

/// How many effects one start or one end may have.
const MOST_EFFECTS: usize = 4096;

/// Puts the places of the effects in a list that is an effect behind others.
#[cycle(places)]
#[tactic(auto, using(std::proofs::Common::append_assoc))]
fn with_effect(mut places: List<u32>, at: u32, parts: &[Form]) -> Result<List<u32>, NoMemory>
    ensures { IfOk result (λ more. more ≡ places ++ effect_places at (trees_of parts.now)) }
{
    match head_of(parts) {
        Head::Missing => Ok(places),
        Head::List { .. } => {
            places.push(at)?;
            Ok(places)
        }
        Head::Word(head, rest) => {
            if head.text.as_slice() == b"and".as_slice() {
                return with_effects(places, rest);
            }
            places.push(at)?;
            Ok(places)
        }
    }
}

#[cycle(places)]
#[tactic(auto, using(std::proofs::Common::append_assoc))]
fn with_effects(mut places: List<u32>, forms: &[Form]) -> Result<List<u32>, NoMemory>
    ensures { IfOk result (λ more. more ≡ places ++ effects_places (trees_of forms.now)) }
{
    let mut rest = forms;
    'effects: loop {
        match head_of(rest) {
            Head::Missing => return Ok(places),
            Head::Word(_, more) => rest = more,
            Head::List {
                at,
                parts,
                rest: more,
                ..
            } => {
                places = with_effect(places, at, parts)?;
                rest = more;
            }
        }
    }
}

fn with_labelled(places: List<u32>, members: &[Form]) -> Result<List<u32>, NoMemory>
    ensures { IfOk result (λ more. more ≡ places ++ labelled_places (trees_of members.now)) }
{
    match head_of(members) {
        Head::Missing | Head::Word(..) => Ok(places),
        Head::List { at, parts, .. } => with_effect(places, at, parts),
    }
}

fn with_at(places: List<u32>, label: &[u8], members: &[Form]) -> Result<List<u32>, NoMemory>
    ensures { IfOk result (λ more. more ≡ places ++ at_places label.now (trees_of members.now)) }
{
    match head_of(members) {
        Head::Missing | Head::List { .. } => Ok(places),
        Head::Word(word, rest) => {
            if word.text.as_slice() == label {
                with_labelled(places, rest)
            } else {
                Ok(places)
            }
        }
    }
}

/// Puts the places of the effects with this label in a list that is a timed effect behind others.
#[cycle(timed)]
#[tactic(auto, using(std::proofs::Common::append_assoc))]
fn with_timed(places: List<u32>, label: &[u8], parts: &[Form]) -> Result<List<u32>, NoMemory>
    ensures { IfOk result (λ more. more ≡ places ++ timed_places label.now (trees_of parts.now)) }
{
    match head_of(parts) {
        Head::Missing | Head::List { .. } => Ok(places),
        Head::Word(head, rest) => {
            let text = head.text.as_slice();
            if text == b"and".as_slice() {
                with_all_timed(places, label, rest)
            } else if text == b"at".as_slice() {
                with_at(places, label, rest)
            } else {
                Ok(places)
            }
        }
    }
}

#[cycle(timed)]
#[tactic(auto, using(std::proofs::Common::append_assoc))]
fn with_all_timed(
    mut places: List<u32>,
    label: &[u8],
    forms: &[Form],
) -> Result<List<u32>, NoMemory>
    ensures { IfOk result (λ more. more
        ≡ places ++ all_timed_places label.now (trees_of forms.now)) }
{
    let mut rest = forms;
    'members: loop {
        match head_of(rest) {
            Head::Missing => return Ok(places),
            Head::Word(_, more) => rest = more,
            Head::List {
                parts,
                rest: more,
                ..
            } => {
                places = with_timed(places, label, parts)?;
                rest = more;
            }
        }
    }
}

/// What is wrong where effects stand at more places than one start or one end may have.
fn past_fault(places: &[u32]) -> Option<Fault>
    ensures { result ≡ first (past_faults places.now) }
{
    if places.len() > MOST_EFFECTS {
        fault(Kind::Shape, places[MOST_EFFECTS])
    } else {
        None
    }
}

/// The first effect of an instant action past the 4,096th.
pub fn past_effect_fault(alloc: Global, at: u32, parts: &[Form]) -> Result<Option<Fault>, NoMemory>
    ensures { IfOk result (λ fault. fault
        ≡ first (past_faults (effect_places at (trees_of parts.now)))) }
{
    let places = with_effect(List::new(alloc), at, parts)?;
    Ok(past_fault(places.as_slice()))
}

/// The first effect with a label, of a durative action, past the 4,096th.
pub fn past_timed_fault(
    alloc: Global,
    label: &[u8],
    parts: &[Form],
) -> Result<Option<Fault>, NoMemory>
    ensures { IfOk result (λ fault. fault
        ≡ first (past_faults (timed_places label.now (trees_of parts.now)))) }
{
    let places = with_timed(List::new(alloc), label, parts)?;
    Ok(past_fault(places.as_slice()))
}
