ghost use Rattle.std.specs.Prelude.{◌≡◌, ◌<◌, ◌+◌, ◌^◌, false, nat_lt, IfOk, IfNone, IfSome, IsTrue, length};
ghost use Rattle.machine_run.specs.Children.{marks_of};
ghost use Rattle.situated_machine.specs.Judged.{BreaksWork, IsJudged, MayWorkOn};
ghost use Rattle.situated_machine.specs.Replays.{IsReplay};
ghost use Rattle.tp_spec.specs.declared.event.Event.{Event as AnEvent};
ghost use Rattle.tp_spec.specs.WellFormed.{IsWellFormed};
ghost use Rattle.word_network.specs.Conditions.{AreLimits};

use crate::keeping::Replayer;
use crate::replayed::{Replayed, Rule};
use std::alloc::Global;
use tp_spec::{Cause, Event, Limits, Mark, NoMemory, Plan, Problem, Timed};
use word_frontier::Child;

/// Judges a history by the rules of the situated machine that can be judged event by event: the
/// first event that breaks one and the first rule that it breaks, or how many events there are. It
/// keeps the state to which the events so far lead, so that its time is about linear in the events,
/// with the work of one expansion for each Expand. Of a Drop it judges only that the node stands,
/// of an Exhaust only that none does. Its only error is want of memory.
pub fn replay(
    alloc: Global,
    problem: &Problem,
    limits: &Limits,
    history: &[Event],
) -> Result<Replayed, NoMemory>
    requires formed { IsWellFormed problem.now }
    requires limited { AreLimits limits.now }
    requires few { length history.now < 2 ^ 31 }
    ensures { IfOk result (IsReplay problem.now limits.now history.now) }
{
    let mut machine = Replayer::new(alloc, problem, *limits)?;
    for i in 0..history.len() {
        if let Some(rule) = machine.judge(&history[i])? {
            return Ok(Replayed::Broken {
                event: i as u32,
                rule,
            });
        }
    }
    Ok(Replayed::Run {
        events: history.len() as u32,
    })
}

impl<'p> Replayer<'p> {
    /// Judges an event and takes its step, where it breaks no rule; else gives the first one that
    /// it breaks.
    fn judge(&mut self, event: &Event) -> Result<Option<Rule>, NoMemory>
        ensures { IfOk result (IsJudged self.old self.new event.now) }
    {
        match event {
            Event::Tick { actor, reading } => self.judge_tick(*actor, *reading),
            Event::Drop { id } => Ok(self.judge_drop(*id)),
            Event::Dispatch { act } => self.judge_dispatch(*act),
            Event::Take { actor, id } => self.judge_take(*actor, *id),
            Event::Expand { actor, id, marks } => self.judge_expand(*actor, *id, marks.as_slice()),
            Event::Publish { actor, id, plan } => self.judge_publish(*actor, *id, plan),
            Event::Limit {
                actor,
                id,
                made,
                marks,
            } => self.judge_limit(*actor, *id, *made, *marks),
            Event::Exhaust => Ok(self.judge_exhaust()),
            Event::Halt { cause } => self.judge_halt(*cause),
        }
    }

    fn judge_tick(&mut self, actor: u32, reading: u64) -> Result<Option<Rule>, NoMemory>
        ensures { IfOk result (IsJudged self.old self.new (AnEvent.Tick actor reading)) }
    {
        if self.is_over() {
            return Ok(Some(Rule::Outcome));
        }
        if !self.is_settled()? {
            return Ok(Some(Rule::Early));
        }
        self.tick(actor, reading);
        Ok(None)
    }

    fn judge_drop(&mut self, id: u32) -> Option<Rule>
        ensures { IsJudged self.old self.new (AnEvent.Drop id) result }
    {
        if self.is_over() {
            return Some(Rule::Outcome);
        }
        if !self.has_turn() {
            return Some(Rule::Turn);
        }
        if !self.has(id) {
            return Some(Rule::Id);
        }
        self.drop_node(id);
        None
    }

    fn judge_dispatch(&mut self, act: Timed) -> Result<Option<Rule>, NoMemory>
        ensures { IfOk result (IsJudged self.old self.new (AnEvent.Dispatch act)) }
    {
        if self.is_over() {
            return Ok(Some(Rule::Outcome));
        }
        if !self.has_turn() {
            return Ok(Some(Rule::Turn));
        }
        if !self.is_due(act)? {
            return Ok(Some(Rule::Commit));
        }
        self.commit(act)?;
        Ok(None)
    }

    /// The first rule that a deed on a node that its actor took breaks, of those of outcomes, turns
    /// and ids.
    fn judge_deed(&self, actor: u32, id: u32) -> Option<Rule>
        ensures none { IfNone result (MayWorkOn self.now.machine actor id) }
        ensures some { IfSome result (BreaksWork self.now.problem self.now.limits self.now.machine
            actor id) }
    {
        if self.is_over() {
            return Some(Rule::Outcome);
        }
        if !self.may_make_deed(actor) {
            return Some(Rule::Turn);
        }
        if !self.is_taken(id, actor) {
            return Some(Rule::Id);
        }
        None
    }

    fn judge_take(&mut self, actor: u32, id: u32) -> Result<Option<Rule>, NoMemory>
        ensures { IfOk result (IsJudged self.old self.new (AnEvent.Take actor id)) }
    {
        if self.is_over() {
            return Ok(Some(Rule::Outcome));
        }
        if !self.may_make_deed(actor) {
            return Ok(Some(Rule::Turn));
        }
        if !self.is_open(id) {
            return Ok(Some(Rule::Id));
        }
        if !self.is_least_open(id) {
            return Ok(Some(Rule::Least));
        }
        if !self.is_live(id)? {
            return Ok(Some(Rule::Live));
        }
        if !self.is_settled()? {
            return Ok(Some(Rule::Early));
        }
        self.take(actor, id);
        Ok(None)
    }

    fn judge_expand(
        &mut self,
        actor: u32,
        id: u32,
        marks: &[Mark],
    ) -> Result<Option<Rule>, NoMemory>
        ensures { IfOk result (IsJudged self.old self.new (AnEvent.Expand actor id marks.now)) }
    {
        if let Some(rule) = self.judge_deed(actor, id) {
            return Ok(Some(rule));
        }
        let Some(children) = self.children(id)? else {
            return Ok(Some(Rule::Marks));
        };
        if !have_marks(children.as_slice(), marks) {
            return Ok(Some(Rule::Marks));
        }
        if self.is_full(marks.len()) {
            return Ok(Some(Rule::Number));
        }
        if !self.is_settled()? {
            return Ok(Some(Rule::Early));
        }
        self.expand(actor, id, children.as_slice())?;
        Ok(None)
    }

    fn judge_publish(&mut self, actor: u32, id: u32, plan: &Plan) -> Result<Option<Rule>, NoMemory>
        ensures { IfOk result (IsJudged self.old self.new (AnEvent.Publish actor id plan.now)) }
    {
        if let Some(rule) = self.judge_deed(actor, id) {
            return Ok(Some(rule));
        }
        if !self.is_plan(id, plan)? {
            return Ok(Some(Rule::Plan));
        }
        if !self.is_settled()? {
            return Ok(Some(Rule::Early));
        }
        self.publish(actor, id);
        Ok(None)
    }

    fn judge_limit(
        &mut self,
        actor: u32,
        id: u32,
        made: u32,
        marks: u32,
    ) -> Result<Option<Rule>, NoMemory>
        ensures { IfOk result (IsJudged self.old self.new (AnEvent.Limit actor id made marks)) }
    {
        if let Some(rule) = self.judge_deed(actor, id) {
            return Ok(Some(rule));
        }
        let Some(children) = self.children(id)? else {
            return Ok(Some(Rule::Marks));
        };
        let found = children.as_slice().len();
        if made != self.made() || marks as usize != found || !self.is_full(found) {
            return Ok(Some(Rule::Number));
        }
        if !self.is_settled()? {
            return Ok(Some(Rule::Early));
        }
        self.limit(actor, id, made, marks);
        Ok(None)
    }

    fn judge_exhaust(&mut self) -> Option<Rule>
        ensures { IsJudged self.old self.new AnEvent.Exhaust result }
    {
        if self.is_over() {
            return Some(Rule::Outcome);
        }
        if !self.has_turn() {
            return Some(Rule::Turn);
        }
        if !self.is_empty() {
            return Some(Rule::Early);
        }
        self.exhaust();
        None
    }

    fn judge_halt(&mut self, cause: Cause) -> Result<Option<Rule>, NoMemory>
        ensures { IfOk result (IsJudged self.old self.new (AnEvent.Halt cause)) }
    {
        if self.is_over() {
            return Ok(Some(Rule::Outcome));
        }
        if !self.is_settled()? {
            return Ok(Some(Rule::Early));
        }
        self.halt(cause);
        Ok(None)
    }

    /// Whether with so many marks more there would be more ids than there may be.
    fn is_full(&self, marks: usize) -> bool
        ensures { result ≡ nat_lt self.now.limits.nodes (self.now.machine.made + marks) }
    {
        (self.made() as usize).saturating_add(marks) > self.most_ids() as usize
    }
}

/// Whether children have just these marks, in order.
fn have_marks(children: &[Child], marks: &[Mark]) -> bool
    ensures yes { IsTrue result → marks_of children.now ≡ marks.now }
    ensures no { result ≡ false → ¬ (marks_of children.now ≡ marks.now) }
{
    if children.len() != marks.len() {
        return false;
    }
    for i in 0..marks.len() {
        if children[i].mark != marks[i] {
            return false;
        }
    }
    true
}
