ghost use Rattle.std.specs.Prelude.{◌≡◌, ◌≤◌, ◌<◌, ◌+◌, ◌++◌, ◌∷◌, [], length, true, false, Some, IfOk, OnOk, OnErr};
ghost use Rattle.machine_run.specs.Children.{marks_of};
ghost use Rattle.machine_run.specs.Deeds.{SameTask, IsRested, Holds, AreOffspring, GivesTake, TookNode, Expands};
ghost use Rattle.machine_run.specs.Kept.{Writes};
ghost use Rattle.machine_run.specs.Settling.{SettlesOn, FindsOpen, LeastIs, IsDead};
ghost use Rattle.machine_run.specs.Turns.{Grows, has_outcome};
ghost use Rattle.machine_run.specs.Views.{state, word_in};
ghost use Rattle.tp_laws.specs.Plans.{is_whole};
ghost use Rattle.tp_spec.specs.declared.event.Event.{Event as AnEvent};
ghost use Rattle.tp_spec.specs.Machine.{MayAct};
ghost use Rattle.tp_spec.specs.Schedules.{awaited};
ghost use Rattle.tp_spec.specs.Words.{acts_of};
ghost use Rattle.word_frontier.specs.Nodes.{live_at, open_nodes};
ghost use Rattle.word_network.specs.Schedules.{IsEarliest};

use crate::run::MachineRun;
use crate::settle::reserve_event;
use std::alloc::Global;
use tp_spec::{Event, List, Mark, NoMemory, Plan};
use word_frontier::{Child, Node};

impl<'p> MachineRun<'p> {
    /// The actor whose turn it is takes the least open node that is live, if there is one; dead
    /// ones that come before it are dropped. Gives the node's id and a copy of it.
    pub fn take(&mut self, actor: u32) -> Result<Option<(u32, Node)>, NoMemory>
        requires standing { has_outcome self.old.history ≡ false }
        requires may { MayAct self.old.problem self.old.limits (state self.old) actor }
        ensures task { SameTask self.old self.new }
        ensures taken { IfOk result (GivesTake self.old self.new actor) }
        ensures err { OnErr result (has_outcome self.new.history ≡ false) }
        ensures more { Grows self.old.history self.new.history }
    {
        match self.drop_dead(actor)? {
            None => Ok(None),
            Some(id) => {
                let node = self.take_open(actor, id)?;
                Ok(Some((id, node)))
            }
        }
    }

    /// Drops the open nodes that are dead and come before the least live one, and finds that one's
    /// id, if there is one.
    fn drop_dead(&mut self, actor: u32) -> Result<Option<u32>, NoMemory>
        requires standing { has_outcome self.old.history ≡ false }
        requires may { MayAct self.old.problem self.old.limits (state self.old) actor }
        ensures settles { SettlesOn self.old self.new }
        ensures standing { has_outcome self.new.history ≡ false }
        ensures may { MayAct self.new.problem self.new.limits (state self.new) actor }
        ensures ok { IfOk result (FindsOpen self.new) }
    {
        loop {
            let Some(least) = self.frontier.least_open() else {
                return Ok(None);
            };
            match self.live_deadline(least)? {
                Some(_) => return Ok(Some(least.id)),
                None => self.drop_open(actor, least.id)?,
            }
        }
    }

    /// Drops the least open node, whose word is dead. The best node stays the best.
    fn drop_open(&mut self, actor: u32, id: u32) -> Result<(), NoMemory>
        requires standing { has_outcome self.old.history ≡ false }
        requires may { MayAct self.old.problem self.old.limits (state self.old) actor }
        requires least { LeastIs (open_nodes self.old.frontier.nodes) id }
        requires dead { IsDead self.old id }
        ensures ok { OnOk result (Writes self.old self.new (AnEvent.Drop id)) }
        ensures may { OnOk result (MayAct self.new.problem self.new.limits (state self.new)
            actor) }
        ensures fewer { OnOk result
            (length self.new.frontier.nodes < length self.old.frontier.nodes) }
        ensures err { OnErr result (self.new ≡ self.old) }
    {
        reserve_event(&mut self.history)?;
        self.history.push_reserved(Event::Drop { id });
        self.frontier.drop_least_open();
        Ok(())
    }

    /// Takes the least open node, whose deadline has not passed.
    fn take_open(&mut self, actor: u32, id: u32) -> Result<Node, NoMemory>
        requires standing { has_outcome self.old.history ≡ false }
        requires may { MayAct self.old.problem self.old.limits (state self.old) actor }
        requires found { FindsOpen self.old (Some id) }
        ensures ok { OnOk result (Writes self.old self.new (AnEvent.Take actor id)) }
        ensures node { IfOk result (TookNode self.new actor id) }
        ensures rested { OnOk result (IsRested self.new) }
        ensures err { OnErr result (self.new ≡ self.old) }
    {
        let node = self.frontier.copy_of(self.alloc, id)?;
        reserve_event(&mut self.history)?;
        self.history.push_reserved(Event::Take { actor, id });
        self.frontier.take_least(actor);
        Ok(node)
    }

    /// The actor whose turn it is publishes the plan of the least schedule of the word of a node
    /// that it took, which may be a whole plan's and has each commitment.
    pub fn publish(&mut self, actor: u32, id: u32, plan: Plan) -> Result<(), NoMemory>
        requires held { Holds self.old actor id }
        requires whole { is_whole self.old.problem (word_in self.old id) ≡ true }
        requires all { awaited (acts_of self.old.problem (word_in self.old id))
            (state self.old).commits ≡ [] }
        requires earliest { IsEarliest self.old.problem self.old.limits (state self.old).now
            (state self.old).commits (word_in self.old id) plan }
        ensures task { SameTask self.old self.new }
        ensures deed { OnOk result (self.new.history ≡ self.old.history
            ++ AnEvent.Publish actor id plan ∷ []) }
        ensures err { OnErr result (self.new.history ≡ self.old.history) }
    {
        reserve_event(&mut self.history)?;
        self.history
            .push_reserved(Event::Publish { actor, id, plan });
        self.over = true;
        Ok(())
    }

    /// The actor whose turn it is stops the search at a node that it took: with its live children
    /// there would be more ids than there may be.
    pub fn limit(&mut self, actor: u32, id: u32, children: &[Child]) -> Result<(), NoMemory>
        requires held { Holds self.old actor id }
        requires offspring { AreOffspring self.old id children.now }
        requires full { self.old.limits.nodes < self.old.frontier.made
            + length (live_at (state self.old).now children.now) }
        ensures task { SameTask self.old self.new }
        ensures deed { OnOk result (self.new.history ≡ self.old.history
            ++ AnEvent.Limit actor id self.old.frontier.made
            (length (live_at (state self.old).now children.now)) ∷ []) }
        ensures err { OnErr result (self.new.history ≡ self.old.history) }
    {
        let made = self.frontier.made();
        let marks = count_live(children, self.clock) as u32;
        reserve_event(&mut self.history)?;
        self.history.push_reserved(Event::Limit {
            actor,
            id,
            made,
            marks,
        });
        self.over = true;
        Ok(())
    }

    /// The actor whose turn it is puts the live children of a node that it took in its place; then
    /// the turn settles.
    pub fn expand(&mut self, actor: u32, id: u32, children: &[Child]) -> Result<(), NoMemory>
        requires held { Holds self.old actor id }
        requires offspring { AreOffspring self.old id children.now }
        requires room { self.old.frontier.made
            + length (live_at (state self.old).now children.now) ≤ self.old.limits.nodes }
        ensures task { SameTask self.old self.new }
        ensures deed { OnOk result (Expands self.old self.new actor id children.now) }
        ensures err { OnErr result (has_outcome self.new.history ≡ false) }
        ensures more { Grows self.old.history self.new.history }
    {
        self.replace(actor, id, children)?;
        self.settle()
    }

    /// Puts the live children of a node in its place.
    fn replace(&mut self, actor: u32, id: u32, children: &[Child]) -> Result<(), NoMemory>
        requires held { Holds self.old actor id }
        requires offspring { AreOffspring self.old id children.now }
        requires room { self.old.frontier.made
            + length (live_at (state self.old).now children.now) ≤ self.old.limits.nodes }
        ensures ok { OnOk result (Writes self.old self.new
            (AnEvent.Expand actor id (marks_of (live_at (state self.old).now children.now)))) }
        ensures same { OnErr result (self.new.history ≡ self.old.history) }
        ensures task { SameTask self.old self.new }
    {
        let known = self.known();
        let marks = live_marks(self.alloc, children, self.clock)?;
        reserve_event(&mut self.history)?;
        self.frontier.reserve(marks.as_slice().len())?;
        self.frontier.expand(id, actor, children, self.clock, known);
        self.history
            .push_reserved(Event::Expand { actor, id, marks });
        Ok(())
    }
}

/// How many children are live at a clock.
fn count_live(children: &[Child], now: u64) -> usize
    ensures { result ≡ length (live_at now children.now) }
{
    children
        .iter()
        .filter(|child| now <= child.deadline)
        .count()
}

/// The marks of the children that are live at a clock.
fn live_marks(alloc: Global, children: &[Child], now: u64) -> Result<List<Mark>, NoMemory>
    ensures { IfOk result (λ marks. marks ≡ marks_of (live_at now children.now)) }
{
    let mut marks = Vec::new(alloc);
    marks.reserve_exact(count_live(children, now))?;
    for child in children {
        if now <= child.deadline {
            match marks.push(child.mark) {
                Ok(()) => {}
                Err(_) => return Err(NoMemory),
            }
        }
    }
    Ok(List::of(marks))
}
