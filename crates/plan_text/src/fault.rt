ghost use Rattle.std.specs.Prelude.{◌≡◌};
ghost use Rattle.plan_text.specs.Files.{at_line, sooner};

use thiserror::Error;
use tp_spec::NoMemory;

/// Why a text is no plan of a problem: the first line, from 1, that has a fault, and its first one
/// in this order. Or memory was refused.
#[derive(Clone, Copy, Debug, PartialEq, Eq, Error)]
pub enum PlanFault {
    /// The line is neither an act nor a `plan` or an `end` in its place, or it is not UTF-8.
    #[error("line {line} is no line of a plan")]
    Shape { line: u32 },
    /// The problem has no action of that name.
    #[error("line {line} names no action of the problem")]
    UnknownAction { line: u32 },
    /// A number is not whole at the problem's scale.
    #[error("a number in line {line} is no whole number of ticks")]
    NotWhole { line: u32 },
    /// A number, or a start and a length together, is above 2^63 - 1 ticks.
    #[error("a time in line {line} is too large")]
    TooLarge { line: u32 },
    /// Memory was refused; it says nothing of the text.
    #[error("memory was refused")]
    NoMemory,
}

impl PlanFault {
    /// Of this fault and of `Shape` at a line, by its number, the one whose line comes first.
    pub(crate) fn sooner(self, number: u32) -> PlanFault
        ensures { result ≡ sooner number self }
    {
        match self {
            PlanFault::NoMemory => PlanFault::NoMemory,
            PlanFault::Shape { line }
            | PlanFault::UnknownAction { line }
            | PlanFault::NotWhole { line }
            | PlanFault::TooLarge { line } => {
                if line < number {
                    self
                } else {
                    PlanFault::Shape { line: number }
                }
            }
        }
    }
}

/// What is wrong with a line.
#[derive(Clone, Copy, Debug, PartialEq, Eq)]
pub enum Fault {
    Shape,
    UnknownAction,
    NotWhole,
    TooLarge,
    NoMemory,
}

impl Fault {
    /// The fault as that of a line, by its number.
    pub fn at_line(self, line: u32) -> PlanFault
        ensures { result ≡ at_line line self }
    {
        match self {
            Fault::Shape => PlanFault::Shape { line },
            Fault::UnknownAction => PlanFault::UnknownAction { line },
            Fault::NotWhole => PlanFault::NotWhole { line },
            Fault::TooLarge => PlanFault::TooLarge { line },
            Fault::NoMemory => PlanFault::NoMemory,
        }
    }
}

impl From<NoMemory> for Fault {
    ghost use Rattle.std.specs.Prelude.{◌≡◌};
    ghost use Rattle.plan_text.specs.declared.fault.Fault.TheVariants.{NoMemory as out_of_memory};

    ghost from_gives = { λ _ fault. fault ≡ out_of_memory };

    fn from(_refused: NoMemory) -> Fault {
        Fault::NoMemory
    }
}

impl From<NoMemory> for PlanFault {
    ghost use Rattle.std.specs.Prelude.{◌≡◌};
    ghost use Rattle.plan_text.specs.declared.fault.PlanFault.TheVariants.{NoMemory as out_of_memory};

    ghost from_gives = { λ _ fault. fault ≡ out_of_memory };

    fn from(_refused: NoMemory) -> PlanFault {
        PlanFault::NoMemory
    }
}
