ghost use Rattle.std.specs.Prelude.{◌≡◌, ◌++◌, ◌∷◌, [], false, map, length, IsTrue, IfOk, OnOk, IfSome, IfNone};
ghost use Rattle.node_state.specs.Growths.{IsGrowthOf, next_marks, rank_with};
ghost use Rattle.situated_machine.specs.Judged.{AreChildrenOf};
ghost use Rattle.situated_machine.specs.Marked.{AreLiveAmong, HasNoPlan, IsDeadlineAfter, IsInSight, IsLiveAfter, sight_of};
ghost use Rattle.situated_machine.specs.Rules.{IsPlanOf, has_id};
ghost use Rattle.tp_laws.specs.Plans.{is_whole};
ghost use Rattle.tp_spec.specs.Machine.{SpellsNone, word_of};
ghost use Rattle.tp_spec.specs.Words.{Sound};

use crate::keeping::Replayer;
use commit_book::are_held;
use node_state::Growth;
use tp_spec::{List, Mark, NoMemory, Plan};
use word_frontier::Child;
use word_network::{deadline, earliest_plan};

impl<'p> Replayer<'p> {
    /// The children of a node that stands: the marks that make its word a live word, with the ranks
    /// and the deadlines of the longer words. None exactly where a possible plan spells the word.
    pub(crate) fn children(&mut self, id: u32) -> Result<Option<List<Child>>, NoMemory>
        requires there { IsTrue (has_id id self.old.machine.nodes) }
        ensures same { self.new ≡ self.old }
        ensures some { IfOk result (λ r. IfSome r
            (AreChildrenOf self.old (word_of id self.old.machine.nodes))) }
        ensures none { IfOk result (λ r. IfNone r (¬ (SpellsNone self.old.problem self.old.limits
            self.old.machine (word_of id self.old.machine.nodes)))) }
    {
        let mut word = self.word(id)?;
        let growth = self.growth(word.as_slice())?;
        if self.plan_of(word.as_slice(), growth.whole)?.is_some() {
            return Ok(None);
        }
        let children = self.live_among(
            &mut word,
            growth.marks.as_slice(),
            growth.ranks.as_slice(),
        )?;
        Ok(Some(children))
    }

    /// Whether this is the plan of a node that stands: a possible one that has its word and the
    /// times of its least schedule.
    pub(crate) fn is_plan(&mut self, id: u32, plan: &Plan) -> Result<bool, NoMemory>
        requires there { IsTrue (has_id id self.old.machine.nodes) }
        ensures same { self.new ≡ self.old }
        ensures yes { IfOk result (λ b. IsTrue b → IsPlanOf self.old.problem self.old.limits
            self.old.machine (word_of id self.old.machine.nodes) plan.now) }
        ensures no { IfOk result (λ b. b ≡ false → ¬ (IsPlanOf self.old.problem self.old.limits
            self.old.machine (word_of id self.old.machine.nodes) plan.now)) }
    {
        let word = self.word(id)?;
        let growth = self.growth(word.as_slice())?;
        match self.plan_of(word.as_slice(), growth.whole)? {
            Some(own) => Ok(own.end == plan.end && own.acts.as_slice() == plan.acts.as_slice()),
            None => Ok(false),
        }
    }

    /// A copy of the word of a node that stands.
    fn word(&self, id: u32) -> Result<Vec<Mark>, NoMemory>
        requires there { IsTrue (has_id id self.now.machine.nodes) }
        ensures word { IfOk result (λ w. w.items ≡ word_of id self.now.machine.nodes) }
        ensures known { IfOk result (λ w. IsInSight (sight_of self.now w.items)) }
    {
        let node = self.frontier.copy_of(self.alloc, id)?;
        match Vec::from_slice(self.alloc, node.word()) {
            Ok(word) => Ok(word),
            Err(_) => Err(NoMemory),
        }
    }

    /// What may come behind a sound word.
    fn growth(&mut self, word: &[Mark]) -> Result<Growth, NoMemory>
        requires sound { Sound self.old.problem word.now }
        ensures same { self.new ≡ self.old }
        ensures growth { IfOk result (IsGrowthOf self.old.problem word.now) }
    {
        self.walker.growth(word)
    }

    /// The plan of a word, which may be a whole plan's where this is told. None exactly where no
    /// possible plan spells it.
    fn plan_of(&self, word: &[Mark], whole: bool) -> Result<Option<Plan>, NoMemory>
        requires known { IsInSight (sight_of self.now word.now) }
        requires whole { whole ≡ is_whole self.now.problem word.now }
        ensures some { IfOk result (λ r. IfSome r
            (IsPlanOf self.now.problem self.now.limits self.now.machine word.now)) }
        ensures none { IfOk result (λ r. IfNone r (HasNoPlan (sight_of self.now word.now))) }
    {
        let commits = self.commits.acts();
        if !whole || !are_held(self.problem, word, commits) {
            return Ok(None);
        }
        earliest_plan(
            self.alloc,
            self.problem,
            &self.limits,
            word,
            commits,
            self.clock,
        )
    }

    /// The children of a word among marks that may follow it, with the ranks of the longer words.
    fn live_among(
        &self,
        word: &mut Vec<Mark>,
        marks: &[Mark],
        ranks: &[u32],
    ) -> Result<List<Child>, NoMemory>
        requires known { IsInSight (sight_of self.now word.old.items) }
        requires follow { marks.now ≡ next_marks self.now.problem word.old.items }
        requires ranked { ranks.now ≡ map (rank_with self.now.problem word.old.items) marks.now }
        ensures { IfOk result (AreLiveAmong (sight_of self.now word.old.items) marks.now) }
    {
        let mut children = List::new(self.alloc);
        for index in 0..marks.len() {
            let mark = marks[index];
            match self.live_until(word, mark)? {
                Some(deadline) => children.push(Child {
                    mark,
                    rank: ranks[index],
                    deadline,
                })?,
                None => {}
            }
        }
        Ok(children)
    }

    /// The deadline of a word with a mark behind it, which may follow; the word is then as it was.
    /// None exactly where the longer word is not live.
    fn live_until(&self, word: &mut Vec<Mark>, mark: Mark) -> Result<Option<u64>, NoMemory>
        requires known { IsInSight (sight_of self.now word.old.items) }
        requires sound { Sound self.now.problem (word.old.items ++ mark ∷ []) }
        ensures same { OnOk result (word.new.items ≡ word.old.items) }
        ensures timely { IfOk result (λ r. IfSome r
            (IsDeadlineAfter (sight_of self.now word.old.items) mark)) }
        ensures live { IfOk result (λ r. IfSome r
            (λ _. IsLiveAfter (sight_of self.now word.old.items) mark)) }
        ensures none { IfOk result (λ r. IfNone r
            (¬ (IsLiveAfter (sight_of self.now word.old.items) mark))) }
    {
        if word.push(mark).is_err() {
            return Err(NoMemory);
        }
        let commits = self.commits.acts();
        let found = deadline(
            self.alloc,
            self.problem,
            &self.limits,
            word.as_slice(),
            commits,
        )?;
        let _ = word.pop();
        match found {
            Some(deadline) => {
                if deadline >= self.clock {
                    Ok(Some(deadline))
                } else {
                    Ok(None)
                }
            }
            None => Ok(None),
        }
    }
}
