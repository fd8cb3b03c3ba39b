ghost use Rattle.std.specs.Prelude.{◌≡◌, ◌<◌, ◌-◌, ◌^◌, ◌||◌, false, IfOk, OnOk, IsTrue, MatchOption};
ghost use Rattle.tp_spec.specs.Words.{closes, may_join, with_item};
ghost use Rattle.tp_spec.specs.Lists.{is_empty};
ghost use Rattle.world_state.specs.Rows.{is_in_row};
ghost use Rattle.world_state.specs.View.{meaning};
ghost use Rattle.node_state.specs.Candidates.{AreWants};
ghost use Rattle.node_state.specs.Readings.{keep_all, progress_of, IsClosed, IsCopyOf, IsReadingOf, IsStartOf};

use crate::asked::keep_invariants;
use crate::running::run_on;
use crate::wants::{Wants, candidates};
use std::alloc::Global;
use tp_spec::{Item, NoMemory, Problem};
use world_state::{BitRow, State, apply, initial};

/// How far a word was read: the state before its last group, that group, how many timed items came
/// up to its end, which actions run before it, and which could start there by their first wanted
/// facts.
#[derive(Drop)]
pub(crate) struct Reading {
    pub(crate) before: State,
    pub(crate) group: Vec<Item>,
    pub(crate) timed: u32,
    pub(crate) running: BitRow,
    pub(crate) candidates: BitRow,
}

impl Reading {
    /// The empty word.
    pub(crate) fn at_start(alloc: Global, problem: &Problem) -> Result<Reading, NoMemory>
        ensures { IfOk result (λ r. IsStartOf problem.now r) }
    {
        let before = initial(alloc, problem)?;
        let running = BitRow::empty(alloc, problem.actions.as_slice().len())?;
        let candidates = candidates(alloc, problem, &before)?;
        Ok(Reading {
            before,
            group: Vec::new(alloc),
            timed: 0,
            running,
            candidates,
        })
    }

    /// The same, with no items in the last group.
    pub(crate) fn copy(&self, alloc: Global) -> Result<Reading, NoMemory>
        ensures { IfOk result (λ r. IsCopyOf self.now r) }
    {
        Ok(Reading {
            before: self.before.copy(alloc)?,
            group: Vec::new(alloc),
            timed: self.timed,
            running: self.running.copy(alloc)?,
            candidates: self.candidates.copy(alloc)?,
        })
    }

    /// Puts an item that may join into the last group.
    pub(crate) fn include(&mut self, problem: &Problem, item: Item) -> Result<(), NoMemory>
        requires reading { IsReadingOf problem.now self.old }
        requires joins { IsTrue (may_join problem.now (progress_of self.old) item) }
        ensures progress { OnOk result (progress_of self.new
            ≡ with_item (progress_of self.old) item) }
        ensures reading { OnOk result (IsReadingOf problem.now self.new) }
    {
        problem.keeps_the_rules();
        self.push(item)?;
        Ok(())
    }

    /// Puts an item into the last group.
    fn push(&mut self, item: Item) -> Result<(), NoMemory>
        requires { self.old.timed < 2 ^ 32 - 1 }
        ensures progress { OnOk result (progress_of self.new
            ≡ with_item (progress_of self.old) item) }
        ensures before { self.new.before ≡ self.old.before }
        ensures running { self.new.running ≡ self.old.running }
        ensures candidates { self.new.candidates ≡ self.old.candidates }
    {
        if self.group.push(item).is_err() {
            return Err(NoMemory);
        }
        match item {
            Item::TimedAt(_) => self.timed += 1,
            Item::End(_) => {}
            Item::Start(_) => {}
        }
        Ok(())
    }

    /// The word with its last group closed, none exactly where this may not be closed.
    pub(crate) fn closed(
        &self,
        alloc: Global,
        problem: &Problem,
        wants: &Wants,
    ) -> Result<Option<Reading>, NoMemory>
        requires wants { AreWants problem.now wants.now }
        requires reading { IsReadingOf problem.now self.now }
        ensures { IfOk result (λ r. MatchOption r
            (closes problem.now (progress_of self.now) ≡ false)
            (λ n. IsClosed problem.now (progress_of self.now) n)) }
    {
        let Some(after) = apply(alloc, problem, &self.before, &self.group)? else {
            return Ok(None);
        };
        let mut running = self.running.copy(alloc)?;
        run_on(&mut running, problem, &self.group);
        if !may_close(problem, &self.group, &running, &after) {
            return Ok(None);
        }
        let mut candidates = self.candidates.copy(alloc)?;
        wants.settle(problem, &mut candidates, &self.before, &after);
        Ok(Some(Reading {
            before: after,
            group: Vec::new(alloc),
            timed: self.timed,
            running,
            candidates,
        }))
    }
}

/// Whether a group may be closed behind which this runs and there is this state: it is empty, or
/// the invariants of what runs hold.
fn may_close(problem: &Problem, group: &[Item], running: &BitRow, after: &State) -> bool
    ensures { result ≡ (is_empty group.now
        || keep_all problem.now (is_in_row running.now) (meaning after.now)) }
{
    group.is_empty() || keep_invariants(problem, running, after)
}
