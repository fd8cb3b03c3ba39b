ghost use Rattle.std.specs.Prelude.{◌≡◌};
ghost use Rattle.tp_spec.specs.declared.fault.LineFault.TheVariants.{NoMemory as out_of_memory};

use crate::list::NoMemory;
use std::alloc::AllocError;
use thiserror::Error;

/// Why a text of lines, such as a ground text or a trace, is not read: its first faulty line, from
/// 1 (one past the last line where the text breaks off), or want of memory.
#[derive(Clone, Copy, Debug, PartialEq, Eq, Error)]
pub enum LineFault {
    /// No text of the format begins with the lines up to this one.
    #[error("line {number} does not fit")]
    Line { number: u32 },
    /// Memory was refused; it says nothing of the text.
    #[error("memory was refused")]
    NoMemory,
}

impl From<AllocError> for LineFault {
    ghost from_gives = { λ _ e. e ≡ out_of_memory };

    fn from(_refused: AllocError) -> LineFault {
        LineFault::NoMemory
    }
}

impl From<NoMemory> for LineFault {
    ghost from_gives = { λ _ e. e ≡ out_of_memory };

    fn from(_refused: NoMemory) -> LineFault {
        LineFault::NoMemory
    }
}
