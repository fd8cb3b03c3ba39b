ghost use Rattle.std.specs.Prelude.{◌≡◌, ◌++◌, ◌∷◌, ◌≤◌, [], length, take, IsTrue, OnOk, OnErr};
ghost use Rattle.commit_book.specs.Commits.{IsLater};

use std::alloc::Global;
use std::marker::Model;
use tp_spec::{NoMemory, Timed};

/// The acts that a run committed, in order of dispatch. Those of one action start one after
/// another.
#[derive(Drop)]
pub struct Commits {
    acts: Vec<Timed>,
}

impl Model for Commits {
    ghost use Rattle.std.specs.Prelude.{List};
    ghost use Rattle.tp_spec.specs.declared.plan.Timed.{Timed as Act};
    ghost use Rattle.tp_laws.specs.Plans.{AreInTurn};

    ghost Value = { List Act };

    ghost view = { λ c. c.acts.items };

    ghost invariant = { λ c. AreInTurn c.acts.items };
}

impl Commits {
    /// No commitments.
    pub fn new(alloc: Global) -> Commits
        ensures { result ≡ [] }
    {
        Commits {
            acts: Vec::new(alloc),
        }
    }

    /// The commitments, in order of dispatch.
    pub fn acts(&self) -> &[Timed]
        ensures { result.now ≡ self.now }
    {
        &self.acts
    }

    /// One act more, which starts later than each kept one of its action. A refused one changes
    /// nothing.
    pub fn add(&mut self, act: Timed) -> Result<(), NoMemory>
        requires { IsLater self.old act }
        ensures ok { OnOk result (self.new ≡ self.old ++ act ∷ []) }
        ensures err { OnErr result (self.new ≡ self.old) }
    {
        match self.acts.push(act) {
            Ok(()) => Ok(()),
            Err(_) => Err(NoMemory),
        }
    }

    /// Only the first commitments stay, so many.
    pub fn cut_back(&mut self, count: usize)
        ensures { self.new ≡ take count self.old }
    {
        self.acts.truncate(count);
    }
}
