ghost use Rattle.std.specs.Prelude.{◌≡◌, ◌≤◌, ◌<◌, ◌+◌, [], length, false, Some, IsSome, IfOk, OnOk, OnErr, vec_len, vec_capacity};
ghost use Rattle.machine_run.specs.Deeds.{SameTask, IsRested, Begins};
ghost use Rattle.machine_run.specs.Kept.{Writes};
ghost use Rattle.machine_run.specs.Settling.{SettlesOn, StepsOn, LeastIs, IsDead, unsettled};
ghost use Rattle.machine_run.specs.Turns.{Grows, has_outcome};
ghost use Rattle.machine_run.specs.Views.{state};
ghost use Rattle.tp_spec.specs.declared.event.Event.{Event as AnEvent};
ghost use Rattle.tp_spec.specs.Machine.{IsSettled};
ghost use Rattle.word_frontier.specs.Nodes.{GivesLeast};

use crate::run::MachineRun;
use tp_spec::{Event, NoMemory};
use word_frontier::Standing;

/// Makes room for one event, and for a halt behind it.
pub(crate) fn reserve_event(history: &mut Vec<Event>) -> Result<(), NoMemory>
    ensures items { history.new.items ≡ history.old.items }
    ensures room { OnOk result (vec_len history.new + 2 ≤ vec_capacity history.new) }
    ensures kept { vec_len history.old < vec_capacity history.old
        → vec_len history.new < vec_capacity history.new }
{
    history.reserve(2)?;
    Ok(())
}

impl<'p> MachineRun<'p> {
    /// A turn of an actor begins with a reading of the clock, in ticks; then it settles: the best
    /// node is dropped while it is dead, what is due of it is committed, and where no node is left
    /// the search is exhausted. Where memory is refused the events so far stand.
    pub fn begin(&mut self, actor: u32, reading: u64) -> Result<(), NoMemory>
        requires rested { IsRested self.old }
        ensures task { SameTask self.old self.new }
        ensures begun { OnOk result (Begins self.old self.new actor reading) }
        ensures err { OnErr result (has_outcome self.new.history ≡ false) }
        ensures more { Grows self.old.history self.new.history }
    {
        self.tick(actor, reading)?;
        self.settle()
    }

    /// Writes a Tick. The clock never goes back, and stops one tick behind the horizon.
    fn tick(&mut self, actor: u32, reading: u64) -> Result<(), NoMemory>
        requires rested { IsRested self.old }
        ensures ok { OnOk result (Writes self.old self.new (AnEvent.Tick actor reading)) }
        ensures err { OnErr result (self.new ≡ self.old) }
    {
        reserve_event(&mut self.history)?;
        self.history.push_reserved(Event::Tick { actor, reading });
        let last = self.limits.horizon.saturating_add(1);
        self.clock = self.clock.max(reading.min(last));
        Ok(())
    }

    /// Writes that the search is exhausted: no node is left.
    fn exhaust(&mut self) -> Result<(), NoMemory>
        requires standing { has_outcome self.old.history ≡ false }
        requires turn { IsSome (state self.old).turn }
        requires none { self.old.frontier.nodes ≡ [] }
        ensures ok { OnOk result (Writes self.old self.new AnEvent.Exhaust) }
        ensures err { OnErr result (self.new ≡ self.old) }
    {
        reserve_event(&mut self.history)?;
        self.history.push_reserved(Event::Exhaust);
        self.over = true;
        Ok(())
    }

    /// Drops the best node, whose word is dead.
    fn drop_best(&mut self, id: u32) -> Result<(), NoMemory>
        requires standing { has_outcome self.old.history ≡ false }
        requires turn { IsSome (state self.old).turn }
        requires best { LeastIs self.old.frontier.nodes id }
        requires dead { IsDead self.old id }
        ensures ok { OnOk result (Writes self.old self.new (AnEvent.Drop id)) }
        ensures fewer { OnOk result (unsettled self.new < unsettled self.old) }
        ensures err { OnErr result (self.new ≡ self.old) }
    {
        reserve_event(&mut self.history)?;
        self.history.push_reserved(Event::Drop { id });
        self.frontier.drop_best();
        Ok(())
    }

    /// One step of settling. Gives whether there may be more.
    fn settle_once(&mut self) -> Result<bool, NoMemory>
        requires standing { has_outcome self.old.history ≡ false }
        requires turn { IsSome (state self.old).turn }
        ensures settles { SettlesOn self.old self.new }
        ensures ok { IfOk result (StepsOn self.old self.new) }
        ensures err { OnErr result (has_outcome self.new.history ≡ false) }
    {
        match self.frontier.best() {
            None => {
                self.exhaust()?;
                Ok(false)
            }
            Some(best) => self.settle_best(best),
        }
    }

    /// The best node is dropped while it is dead; else the act that is due of it is committed.
    fn settle_best(&mut self, best: Standing) -> Result<bool, NoMemory>
        requires standing { has_outcome self.old.history ≡ false }
        requires turn { IsSome (state self.old).turn }
        requires best { GivesLeast self.old.frontier.nodes (Some best) }
        ensures settles { SettlesOn self.old self.new }
        ensures ok { IfOk result (StepsOn self.old self.new) }
        ensures err { OnErr result (has_outcome self.new.history ≡ false) }
    {
        let Some(deadline) = self.live_deadline(best)? else {
            self.drop_best(best.id)?;
            return Ok(true);
        };
        match self.due_act(best.id, deadline)? {
            None => Ok(false),
            Some(act) => {
                self.dispatch(act)?;
                Ok(true)
            }
        }
    }

    /// Settles: the best node is dropped while it is dead, what is due of it is committed, and
    /// where no node is left the search is exhausted.
    pub(crate) fn settle(&mut self) -> Result<(), NoMemory>
        requires standing { has_outcome self.old.history ≡ false }
        requires turn { IsSome (state self.old).turn }
        ensures settles { SettlesOn self.old self.new }
        ensures ok { OnOk result (IsSettled self.new.problem self.new.limits (state self.new)) }
        ensures err { OnErr result (has_outcome self.new.history ≡ false) }
    {
        loop {
            if !self.settle_once()? {
                return Ok(());
            }
        }
    }
}
