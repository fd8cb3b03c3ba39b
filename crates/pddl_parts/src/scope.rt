ghost use Rattle.std.specs.Prelude.{◌≡◌};
ghost use Rattle.pddl_parts.specs.Settings.{setting_of, in_duration};

use crate::names::Names;
use crate::table::Table;

/// Where a word stands: in a durative action's duration, where `?duration` is not left out, or not.
#[derive(Clone, Copy, Debug, PartialEq, Eq)]
pub enum Place {
    Duration,
    Elsewhere,
}

/// What the parts of an action may name, besides its variables.
#[derive(Drop)]
pub struct Scope {
    pub types: Names,
    /// The constants, or a problem's objects too.
    pub objects: Names,
    /// The predicates, each with its number of arguments.
    pub predicates: Table,
    /// The functions, each with its number of arguments.
    pub functions: Table,
    /// The functions that an effect of an action writes.
    pub written: Names,
}

/// What the parts of an action, or of a problem, are judged by.
#[derive(Clone, Copy)]
pub struct Context<'a> {
    pub scope: &'a Scope,
    /// The parameters of the action; a problem has none.
    pub variables: &'a Names,
    /// How many ticks are in a unit of time: 1, 10, 100 or 1000.
    pub scale: u32,
    pub place: Place,
}

impl<'a> Context<'a> {
    /// The same in a duration.
    pub fn in_duration(&self) -> Context<'a>
        ensures setting { setting_of result ≡ in_duration (setting_of self.now) }
        ensures scale { result.scale ≡ self.now.scale }
    {
        Context {
            scope: self.scope,
            variables: self.variables,
            scale: self.scale,
            place: Place::Duration,
        }
    }
}
