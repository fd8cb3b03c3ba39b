ghost use Rattle.std.specs.Prelude.{◌≡◌};
ghost use Rattle.tp_spec.specs.WellFormed.{IsWellFormed};
ghost use Rattle.problem_rules.specs.Parts.{ground_of};

use tp_spec::{Action, Cond, List, Name, Problem, TimedItem};

/// What a problem is made of, field by field; nothing is known of it yet.
#[derive(Drop)]
pub struct Parts {
    pub scale: u32,
    pub facts: List<Name>,
    pub fluents: List<Name>,
    pub actions: List<Action>,
    pub timed: List<TimedItem>,
    pub init: List<u32>,
    pub values: List<Option<i64>>,
    pub goal: List<Cond>,
}

impl Parts {
    /// The problem of parts that keep its rules.
    pub fn into_problem(self) -> Problem
        requires { IsWellFormed (ground_of self) }
        ensures { result ≡ ground_of self }
    {
        let Parts {
            scale,
            facts,
            fluents,
            actions,
            timed,
            init,
            values,
            goal,
        } = self;
        Problem {
            scale,
            facts,
            fluents,
            actions,
            timed,
            init,
            values,
            goal,
        }
    }
}
