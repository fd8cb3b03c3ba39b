ghost use Rattle.std.specs.Prelude.{◌≡◌, OnOk, OnErr};
ghost use Rattle.machine_run.specs.Children.{marks_of};
ghost use Rattle.situated_machine.specs.Judged.{Steps, AreChildrenOf};
ghost use Rattle.situated_machine.specs.Rules.{KeepsAll};
ghost use Rattle.tp_spec.specs.declared.event.Event.{Event as AnEvent};
ghost use Rattle.tp_spec.specs.declared.plan.Plan.{Plan as APlan};
ghost use Rattle.tp_spec.specs.Machine.{word_of};

use crate::keeping::Replayer;
use tp_spec::{Cause, NoMemory, Timed};
use word_frontier::Child;

// The step that each event makes, where it breaks no rule.
impl<'p> Replayer<'p> {
    /// A turn begins. The clock never goes back, and stops one tick behind the horizon.
    pub(crate) fn tick(&mut self, actor: u32, reading: u64)
        requires kept { KeepsAll self.old.problem self.old.limits self.old.machine
            (AnEvent.Tick actor reading) }
        ensures { Steps self.old self.new (AnEvent.Tick actor reading) }
    {
        let last = self.limits.horizon.saturating_add(1);
        self.clock = self.clock.max(reading.min(last));
        self.actor = Some(actor);
        self.acted = false;
    }

    /// The node of an id leaves.
    pub(crate) fn drop_node(&mut self, id: u32)
        requires kept { KeepsAll self.old.problem self.old.limits self.old.machine
            (AnEvent.Drop id) }
        ensures { Steps self.old self.new (AnEvent.Drop id) }
    {
        self.frontier.leave(id);
    }

    /// An act is committed.
    pub(crate) fn commit(&mut self, act: Timed) -> Result<(), NoMemory>
        requires kept { KeepsAll self.old.problem self.old.limits self.old.machine
            (AnEvent.Dispatch act) }
        ensures ok { OnOk result (Steps self.old self.new (AnEvent.Dispatch act)) }
        ensures err { OnErr result (self.new ≡ self.old) }
    {
        self.commits.add(act)
    }

    /// An actor takes the least open node.
    pub(crate) fn take(&mut self, actor: u32, id: u32)
        requires kept { KeepsAll self.old.problem self.old.limits self.old.machine
            (AnEvent.Take actor id) }
        ensures { Steps self.old self.new (AnEvent.Take actor id) }
    {
        let _ = id;
        self.frontier.take_least(actor);
        self.acted = true;
    }

    /// The children of a node that an actor took come in its place.
    pub(crate) fn expand(&mut self, actor: u32, id: u32, children: &[Child]) -> Result<(), NoMemory>
        requires children { AreChildrenOf self.old (word_of id self.old.machine.nodes)
            children.now }
        requires kept { KeepsAll self.old.problem self.old.limits self.old.machine
            (AnEvent.Expand actor id (marks_of children.now)) }
        ensures ok { OnOk result (Steps self.old self.new
            (AnEvent.Expand actor id (marks_of children.now))) }
        ensures err { OnErr result (self.new ≡ self.old) }
    {
        let known = self.commits.acts().len() as u8;
        self.frontier.reserve(children.len())?;
        self.frontier.expand(id, actor, children, self.clock, known);
        self.acted = true;
        Ok(())
    }

    /// A plan is published.
    pub(crate) fn publish(&mut self, actor: u32, id: u32)
        ensures { (plan : APlan) → Steps self.old self.new (AnEvent.Publish actor id plan) }
    {
        let _ = (actor, id);
        self.acted = true;
        self.over = true;
    }

    /// The search stops, for want of ids.
    pub(crate) fn limit(&mut self, actor: u32, id: u32, made: u32, marks: u32)
        ensures { Steps self.old self.new (AnEvent.Limit actor id made marks) }
    {
        let _ = (actor, id, made, marks);
        self.acted = true;
        self.over = true;
    }

    /// The search is exhausted.
    pub(crate) fn exhaust(&mut self)
        ensures { Steps self.old self.new AnEvent.Exhaust }
    {
        self.over = true;
    }

    /// The run stops.
    pub(crate) fn halt(&mut self, cause: Cause)
        ensures { Steps self.old self.new (AnEvent.Halt cause) }
    {
        let _ = cause;
        self.over = true;
    }
}
