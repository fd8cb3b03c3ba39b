ghost use Rattle.std.specs.Prelude.{◌≡◌};
ghost use Rattle.pddl_parts.specs.Reported.{reported};

use thiserror::Error;

/// Why a PDDL text is no domain or no problem. `at` is the offset of the byte, from 0.
#[derive(Clone, Copy, Debug, PartialEq, Eq, Error)]
pub enum PddlFault {
    /// A word or list does not fit here, or something is missing before it.
    #[error("at byte {at}: this does not fit here, or something is missing before it")]
    Shape { at: u32 },
    /// A part of PDDL that is left out.
    #[error("at byte {at}: this part of PDDL is left out")]
    LeftOut { at: u32 },
    /// A name that is not declared.
    #[error("at byte {at}: this name is not declared")]
    Unknown { at: u32 },
    /// The number of arguments differs from the declaration.
    #[error("at byte {at}: the number of arguments differs from the declaration")]
    Arity { at: u32 },
    /// A name, or a section, that came before.
    #[error("at byte {at}: this was declared before")]
    Twice { at: u32 },
    /// A type that is its own ancestor.
    #[error("at byte {at}: this type is its own ancestor")]
    Cycle { at: u32 },
    /// A number that is not whole at the scale.
    #[error("at byte {at}: the number is not whole at the scale")]
    NotWhole { at: u32 },
    /// A number beyond the range.
    #[error("at byte {at}: the number is too large")]
    TooLarge { at: u32 },
    /// A timed literal, where another one of the same tick says the contrary.
    #[error("at byte {at}: another timed literal of the same tick says the contrary")]
    ClashingTimed { at: u32 },
    /// The domain that a problem names is another one.
    #[error("at byte {at}: the problem is of another domain")]
    OtherDomain { at: u32 },
    /// Memory was refused; it says nothing of the text.
    #[error("memory was refused")]
    NoMemory,
}

/// The kinds of faults, in the order in which they count at one place.
#[derive(Clone, Copy, Debug, PartialEq, Eq)]
pub enum Kind {
    /// A word or list does not fit here, or something is missing before it.
    Shape,
    /// A part of PDDL that is left out.
    LeftOut,
    /// A name that is not declared.
    Unknown,
    /// The number of arguments differs from the declaration.
    Arity,
    /// A name, or a section, that came before.
    Twice,
    /// A type that is its own ancestor.
    Cycle,
    /// A number that is not whole at the scale.
    NotWhole,
    /// A number beyond the range.
    TooLarge,
    /// A timed literal, where another one of the same tick says the contrary.
    ClashingTimed,
    /// The domain that a problem names is another one.
    OtherDomain,
}

/// What is wrong with a text, and where.
#[derive(Clone, Copy, Debug, PartialEq, Eq)]
pub struct Fault {
    /// The offset of the byte in the text, from 0.
    pub at: u32,
    /// What is wrong there.
    pub kind: Kind,
}

impl Fault {
    /// The fault as the readers of PDDL files report it.
    pub fn reported(self) -> PddlFault
        ensures { result ≡ reported self }
    {
        let at = self.at;
        match self.kind {
            Kind::Shape => PddlFault::Shape { at },
            Kind::LeftOut => PddlFault::LeftOut { at },
            Kind::Unknown => PddlFault::Unknown { at },
            Kind::Arity => PddlFault::Arity { at },
            Kind::Twice => PddlFault::Twice { at },
            Kind::Cycle => PddlFault::Cycle { at },
            Kind::NotWhole => PddlFault::NotWhole { at },
            Kind::TooLarge => PddlFault::TooLarge { at },
            Kind::ClashingTimed => PddlFault::ClashingTimed { at },
            Kind::OtherDomain => PddlFault::OtherDomain { at },
        }
    }
}
