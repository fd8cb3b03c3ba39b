ghost use Rattle.std.specs.Prelude.{◌≡◌, Some, None, List, []};
ghost use Rattle.pddl_parts.specs.declared.faults.Fault.{Fault as Found};
ghost use Rattle.pddl_parts.specs.First.{goes_before, earlier, first, rank, fault, IsLeast};

use crate::faults::{Fault, Kind};

/// The place of a kind among the kinds.
fn rank(kind: Kind) -> u8
    ensures { result ≡ rank kind }
{
    match kind {
        Kind::Shape => 0,
        Kind::LeftOut => 1,
        Kind::Unknown => 2,
        Kind::Arity => 3,
        Kind::Twice => 4,
        Kind::Cycle => 5,
        Kind::NotWhole => 6,
        Kind::TooLarge => 7,
        Kind::ClashingTimed => 8,
        Kind::OtherDomain => 9,
    }
}

/// Whether a fault comes before another one.
fn goes_before(a: Fault, b: Fault) -> bool
    ensures { result ≡ goes_before a b }
{
    a.at < b.at || a.at == b.at && rank(a.kind) < rank(b.kind)
}

/// The first of two faults: the one at the lower byte, at one byte the one whose kind is listed
/// first.
pub fn earlier(a: Option<Fault>, b: Option<Fault>) -> Option<Fault>
    ensures { result ≡ earlier a b }
{
    match (a, b) {
        (None, b) => b,
        (Some(a), None) => Some(a),
        (Some(a), Some(b)) => { if goes_before(b, a) { Some(b) } else { Some(a) } }
    }
}

/// A fault of a kind at a byte.
pub fn fault(kind: Kind, at: u32) -> Option<Fault>
    ensures { result ≡ Some (fault kind at) }
{
    Some(Fault { at, kind })
}

/// The first of some faults is one of them, and none of them goes before it; without a first one
/// there is none.
#[tactic(auto, using(crate::proofs::Least::first_least, crate::proofs::Least::first_none))]
pub fn first_is_least()
    ensures some { (fs : List Found) (f : Found) → first fs ≡ Some f → IsLeast f fs }
    ensures none { (fs : List Found) → first fs ≡ None → fs ≡ [] }
{}
