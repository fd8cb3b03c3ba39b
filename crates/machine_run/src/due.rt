ghost use Rattle.std.specs.Prelude.{◌≡◌, ◌≤◌, ◌<◌, length, false, IsTrue, IsSome, IfOk, IfSome, IfNone, OnOk, OnErr};
ghost use Rattle.machine_run.specs.Deeds.{SameTask};
ghost use Rattle.machine_run.specs.Kept.{Writes};
ghost use Rattle.machine_run.specs.Settling.{IsToldOf, Renews, LeastIs, IsDead, IsDeadlineIn, KeepsDeadline, IsLiveUntil, unsettled};
ghost use Rattle.machine_run.specs.Turns.{has_outcome};
ghost use Rattle.machine_run.specs.Views.{state};
ghost use Rattle.tp_spec.specs.declared.event.Event.{Event as AnEvent};
ghost use Rattle.tp_spec.specs.Machine.{IsDue, IsSettled};
ghost use Rattle.word_frontier.specs.Nodes.{has_id};

use crate::run::MachineRun;
use crate::settle::reserve_event;
use commit_book::urgent;
use run_laws::deadlines_and_dispatches;
use tp_spec::{Event, NoMemory, Timed};
use word_frontier::Standing;
use word_network::{deadline, latest_schedule};

impl<'p> MachineRun<'p> {
    /// How many commitments there are.
    pub(crate) fn known(&self) -> u8
        ensures { result ≡ length (state self.now).commits }
    {
        self.commits.acts().len() as u8
    }

    /// The deadline of a node that stands, in ticks and under all commitments, where it has not
    /// passed. None exactly where the node's word is dead at the machine's clock. A deadline that
    /// was found under fewer commitments is found anew, and kept.
    pub(crate) fn live_deadline(&mut self, node: Standing) -> Result<Option<u64>, NoMemory>
        requires standing { has_outcome self.old.history ≡ false }
        requires told { IsToldOf self.old node }
        ensures renews { Renews self.old self.new }
        ensures some { IfOk result (λ r. IfSome r (IsLiveUntil self.new node.id)) }
        ensures none { IfOk result (λ r. IfNone r (IsDead self.new node.id)) }
    {
        let Some(deadline) = self.renewed_deadline(node)? else {
            return Ok(None);
        };
        if deadline < self.clock {
            return Ok(None);
        }
        Ok(Some(deadline))
    }

    /// The deadline of a node that stands under all commitments, which is kept with it; none where
    /// its word is live at no clock.
    fn renewed_deadline(&mut self, node: Standing) -> Result<Option<u64>, NoMemory>
        requires standing { has_outcome self.old.history ≡ false }
        requires told { IsToldOf self.old node }
        ensures renews { Renews self.old self.new }
        ensures some { IfOk result (λ r. IfSome r (KeepsDeadline self.new node.id)) }
        ensures none { IfOk result (λ r. IfNone r (IsDead self.new node.id)) }
    {
        let known = self.known();
        if node.known == known {
            return Ok(Some(node.deadline));
        }
        match self.found_deadline(node.id)? {
            None => Ok(None),
            Some(deadline) => {
                self.frontier.renew(node.id, deadline, known);
                Ok(Some(deadline))
            }
        }
    }

    /// The deadline of the word of a node that stands, under all commitments; none where the word
    /// is live at no clock.
    fn found_deadline(&self, id: u32) -> Result<Option<u64>, NoMemory>
        requires standing { has_outcome self.now.history ≡ false }
        requires there { IsTrue (has_id id self.now.frontier.nodes) }
        ensures some { IfOk result (λ r. IfSome r (IsDeadlineIn self.now id)) }
        ensures none { IfOk result (λ r. IfNone r (IsDead self.now id)) }
    {
        let node = self.frontier.copy_of(self.alloc, id)?;
        deadline(
            self.alloc,
            self.problem,
            &self.limits,
            node.word(),
            self.commits.acts(),
        )
    }

    /// The act that is due of the best node, whose deadline has not passed: the first start of its
    /// word that is no commitment, where the greatest schedule has it at most the lead ahead of the
    /// clock. This start stands at the deadline, so most nodes need no schedule. Where none is due
    /// the run is settled.
    pub(crate) fn due_act(&self, id: u32, deadline: u64) -> Result<Option<Timed>, NoMemory>
        requires standing { has_outcome self.now.history ≡ false }
        requires best { LeastIs self.now.frontier.nodes id }
        requires live { IsLiveUntil self.now id deadline }
        ensures some { IfOk result (λ r. IfSome r (IsDue self.now.problem self.now.limits
            (state self.now))) }
        ensures none { IfOk result (λ r. IfNone r (IsSettled self.now.problem self.now.limits
            (state self.now))) }
    {
        deadlines_and_dispatches();
        if deadline > self.limits.horizon || deadline > self.clock + self.limits.lead {
            return Ok(None);
        }
        let node = self.frontier.copy_of(self.alloc, id)?;
        let word = node.word();
        let acts = self.commits.acts();
        match latest_schedule(
            self.alloc,
            self.problem,
            &self.limits,
            word,
            acts,
            self.clock,
        )? {
            None => Ok(None),
            Some(latest) => Ok(urgent(self.problem, &self.limits, word, acts, &latest, self.clock)),
        }
    }

    /// Commits the act that is due.
    pub(crate) fn dispatch(&mut self, act: Timed) -> Result<(), NoMemory>
        requires standing { has_outcome self.old.history ≡ false }
        requires turn { IsSome (state self.old).turn }
        requires due { IsDue self.old.problem self.old.limits (state self.old) act }
        ensures ok { OnOk result (Writes self.old self.new (AnEvent.Dispatch act)) }
        ensures fewer { OnOk result (unsettled self.new < unsettled self.old) }
        ensures err { OnErr result (self.new ≡ self.old) }
    {
        reserve_event(&mut self.history)?;
        self.commits.add(act)?;
        self.history.push_reserved(Event::Dispatch { act });
        Ok(())
    }
}
