ghost use Rattle.std.specs.Prelude.{◌≡◌};
ghost use Rattle.grounder.specs.declared.fault.GroundFault.TheVariants.{NoMemory as out_of_memory};

use std::alloc::AllocError;
use thiserror::Error;
use tp_spec::NoMemory;

/// What is counted of a ground problem, in the order in which the limits are judged.
#[derive(Clone, Copy, Debug, PartialEq, Eq)]
pub enum CountKind {
    /// The typed substitutions of all actions, at most 16,777,216.
    Substitutions,
    /// The ground actions, at most 4,096.
    Actions,
    /// The facts, at most 4,096.
    Facts,
    /// The fluents, at most 256.
    Fluents,
    /// The ticks of timed literals, at most 256.
    Timed,
}

/// Why a domain and a problem of it have no ground problem.
#[derive(Clone, Copy, Debug, PartialEq, Eq, Error)]
pub enum GroundFault {
    /// The first kind whose number passes its limit, with the number, or 2^128 - 1 where it is
    /// greater.
    #[error("{number} of a kind are too many")]
    TooMany { kind: CountKind, number: u128 },
    /// Memory was refused; it says nothing of the problem.
    #[error("memory was refused")]
    NoMemory,
}

impl From<AllocError> for GroundFault {
    ghost from_gives = { λ _ e. e ≡ out_of_memory };

    fn from(_refused: AllocError) -> GroundFault {
        GroundFault::NoMemory
    }
}

impl From<NoMemory> for GroundFault {
    ghost from_gives = { λ _ e. e ≡ out_of_memory };

    fn from(_refused: NoMemory) -> GroundFault {
        GroundFault::NoMemory
    }
}
