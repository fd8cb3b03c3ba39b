ghost use Rattle.std.specs.Prelude.{◌≡◌, length, false, IsTrue, IfOk, IfSome, IfNone};
ghost use Rattle.situated_machine.specs.Deadlines.{FindsBest, IsDeadlineIn, IsLiveIn, IsLiveUntil, IsToldOf};
ghost use Rattle.situated_machine.specs.Judged.{IsNext};
ghost use Rattle.situated_machine.specs.Laws.{IsOrderly};
ghost use Rattle.situated_machine.specs.Rules.{IsOfBest, has_id};
ghost use Rattle.tp_spec.specs.Machine.{IsDue, IsQuiet, IsSettled, open_nodes, word_of};
ghost use Rattle.tp_spec.specs.Schedules.{Live};

use crate::keeping::Replayer;
use commit_book::urgent;
use run_laws::deadlines_and_dispatches;
use tp_spec::{NoMemory, Timed};
use word_frontier::Standing;
use word_network::{deadline, latest_schedule};

/// What the machine needs next: the best node is dead, or there is none; an act is due; or nothing
/// at once.
#[derive(Clone, Copy, Debug, PartialEq, Eq)]
pub(crate) enum Next {
    Dead,
    Due(Timed),
    Nothing,
}

impl<'p> Replayer<'p> {
    /// What the machine needs next.
    pub(crate) fn next(&mut self) -> Result<Next, NoMemory>
        ensures same { self.new ≡ self.old }
        ensures next { IfOk result (IsNext self.old) }
    {
        self.keeps_order();
        let Some(best) = self.best() else {
            return Ok(Next::Dead);
        };
        let Some(deadline) = self.live_deadline(best)? else {
            return Ok(Next::Dead);
        };
        match self.due_act(best.id, deadline)? {
            Some(act) => Ok(Next::Due(act)),
            None => Ok(Next::Nothing),
        }
    }

    /// Whether the machine is settled, where no outcome stands.
    pub(crate) fn is_settled(&mut self) -> Result<bool, NoMemory>
        requires { self.old.machine.over ≡ false }
        ensures same { self.new ≡ self.old }
        ensures yes { IfOk result (λ b. IsTrue b
            → IsSettled self.old.problem self.old.limits self.old.machine) }
        ensures no { IfOk result (λ b. b ≡ false
            → ¬ (IsSettled self.old.problem self.old.limits self.old.machine)) }
    {
        match self.next()? {
            Next::Dead => Ok(false),
            Next::Due(_) => Ok(false),
            Next::Nothing => Ok(true),
        }
    }

    /// Whether this act is due.
    pub(crate) fn is_due(&mut self, act: Timed) -> Result<bool, NoMemory>
        ensures same { self.new ≡ self.old }
        ensures yes { IfOk result (λ b. IsTrue b
            → IsDue self.old.problem self.old.limits self.old.machine act) }
        ensures no { IfOk result (λ b. b ≡ false
            → ¬ (IsDue self.old.problem self.old.limits self.old.machine act)) }
    {
        self.keeps_order();
        match self.next()? {
            Next::Dead => Ok(false),
            Next::Due(found) => Ok(found == act),
            Next::Nothing => Ok(false),
        }
    }

    /// Whether the least open node, which has this id, is live.
    pub(crate) fn is_live(&mut self, id: u32) -> Result<bool, NoMemory>
        requires least { IsOfBest self.old.problem (open_nodes self.old.machine.nodes) id }
        ensures same { self.new ≡ self.old }
        ensures yes { IfOk result (λ b. IsTrue b → Live self.old.problem self.old.limits
            self.old.machine.now self.old.machine.commits (word_of id self.old.machine.nodes)) }
        ensures no { IfOk result (λ b. b ≡ false → ¬ (Live self.old.problem self.old.limits
            self.old.machine.now self.old.machine.commits (word_of id self.old.machine.nodes))) }
    {
        let _ = id;
        self.keeps_order();
        let Some(least) = self.least_open() else {
            return Ok(false);
        };
        match self.live_deadline(least)? {
            Some(_) => Ok(true),
            None => Ok(false),
        }
    }

    /// What a state keeps to which a history leads that breaks no rule.
    fn keeps_order(&self)
        ensures { IsOrderly self.now.problem self.now.limits self.now.machine }
    {
        // reading a field opens the invariant, which says it
        let _over = self.over;
    }

    /// The node of the least rank and id, open or taken, if any stands.
    fn best(&self) -> Option<Standing>
        ensures { FindsBest self.now self.now.machine.nodes result }
    {
        self.frontier.best()
    }

    /// The open node of the least rank and id, if any is open.
    fn least_open(&self) -> Option<Standing>
        ensures { FindsBest self.now (open_nodes self.now.machine.nodes) result }
    {
        self.frontier.least_open()
    }

    /// How many commitments there are.
    fn known(&self) -> u8
        ensures { result ≡ length self.now.machine.commits }
    {
        self.commits.acts().len() as u8
    }

    /// The deadline of a node that stands, in ticks and under all commitments, where it has not
    /// passed. None exactly where the node's word is dead at the machine's clock. A deadline that
    /// was found under fewer commitments is found anew, and kept.
    fn live_deadline(&mut self, node: Standing) -> Result<Option<u64>, NoMemory>
        requires told { IsToldOf self.old node }
        ensures same { self.new ≡ self.old }
        ensures some { IfOk result (λ r. IfSome r (IsLiveUntil self.old node.id)) }
        ensures none { IfOk result (λ r. IfNone r (¬ (IsLiveIn self.old node.id))) }
    {
        let Some(deadline) = self.renewed_deadline(node)? else {
            return Ok(None);
        };
        if deadline < self.clock {
            return Ok(None);
        }
        Ok(Some(deadline))
    }

    /// The deadline of a node that stands under all commitments, which is kept with it; none where
    /// its word is live at no clock.
    fn renewed_deadline(&mut self, node: Standing) -> Result<Option<u64>, NoMemory>
        requires told { IsToldOf self.old node }
        ensures same { self.new ≡ self.old }
        ensures some { IfOk result (λ r. IfSome r (IsDeadlineIn self.old node.id)) }
        ensures none { IfOk result (λ r. IfNone r (¬ (IsLiveIn self.old node.id))) }
    {
        let known = self.known();
        if node.known == known {
            return Ok(Some(node.deadline));
        }
        match self.found_deadline(node.id)? {
            None => Ok(None),
            Some(deadline) => {
                self.frontier.renew(node.id, deadline, known);
                Ok(Some(deadline))
            }
        }
    }

    /// The deadline of the word of a node that stands, under all commitments; none where the word
    /// is live at no clock.
    fn found_deadline(&self, id: u32) -> Result<Option<u64>, NoMemory>
        requires there { IsTrue (has_id id self.now.machine.nodes) }
        ensures some { IfOk result (λ r. IfSome r (IsDeadlineIn self.now id)) }
        ensures none { IfOk result (λ r. IfNone r (¬ (IsLiveIn self.now id))) }
    {
        let node = self.frontier.copy_of(self.alloc, id)?;
        deadline(
            self.alloc,
            self.problem,
            &self.limits,
            node.word(),
            self.commits.acts(),
        )
    }

    /// The act that is due of the best node, whose deadline has not passed: the first start of its
    /// word that is no commitment, where the greatest schedule has it at most the lead ahead of the
    /// clock. This start stands at the deadline, so most nodes need no schedule. None exactly where
    /// the machine needs nothing at once.
    fn due_act(&self, id: u32, deadline: u64) -> Result<Option<Timed>, NoMemory>
        requires best { IsOfBest self.now.problem self.now.machine.nodes id }
        requires live { IsLiveUntil self.now id deadline }
        ensures some { IfOk result (λ r. IfSome r (IsDue self.now.problem self.now.limits
            self.now.machine)) }
        ensures none { IfOk result (λ r. IfNone r (IsQuiet self.now.problem self.now.limits
            self.now.machine)) }
    {
        deadlines_and_dispatches();
        if deadline > self.limits.horizon || deadline > self.clock + self.limits.lead {
            return Ok(None);
        }
        let node = self.frontier.copy_of(self.alloc, id)?;
        let word = node.word();
        let acts = self.commits.acts();
        match latest_schedule(
            self.alloc,
            self.problem,
            &self.limits,
            word,
            acts,
            self.clock,
        )? {
            None => Ok(None),
            Some(latest) => Ok(urgent(self.problem, &self.limits, word, acts, &latest, self.clock)),
        }
    }
}
