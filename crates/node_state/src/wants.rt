ghost use Rattle.std.specs.Prelude.{◌≡◌, ◌<◌, ◌≤◌, ◌+◌, ◌*◌, not, ◌&&◌, ◌||◌, ℕ, Bool, length, if◌then◌else◌, IfOk};
ghost use Rattle.world_state.specs.Rows.{is_in_row, has_place, width};
ghost use Rattle.world_state.specs.View.{meaning};
ghost use Rattle.node_state.specs.Candidates.{first_wanted, granted, mixed, wanted_by, with_fact, AreWants, AreWantsBelow, IsCandidateRow, IsCandidateRowBelow};
ghost use Rattle.node_state.specs.Candidates.{want_of as first_want};

use crate::ones::next_one;
use std::alloc::Global;
use tp_spec::{Cond, Item, NoMemory, Problem};
use world_state::{BitRow, State};

/// For each fact the actions of which it is the first wanted one: the first fact that has to hold
/// before their start. An action whose first wanted fact does not hold cannot start.
#[derive(Drop)]
pub(crate) struct Wants {
    rows: Vec<BitRow>,
}

/// The fact of the first of these conditions that wants one to hold; a fact of a number from
/// `facts` on is passed over.
fn first_fact(facts: usize, conds: &[Cond]) -> Option<u32>
    ensures { result ≡ first_wanted facts conds.now }
{
    let mut rest = conds;
    while let [cond, tail @ ..] = rest {
        if let Some(fact) = wanted_fact(facts, cond) {
            return Some(fact);
        }
        rest = tail;
    }
    None
}

/// The fact that a condition wants to hold, if its number is below `facts`.
fn wanted_fact(facts: usize, cond: &Cond) -> Option<u32>
    ensures { result ≡ wanted_by facts cond.now }
{
    match cond {
        Cond::Lit { fact, positive } => {
            if *positive && (*fact as usize) < facts {
                Some(*fact)
            } else {
                None
            }
        }
        Cond::Compare { .. } => None,
    }
}

/// The first fact that the start of an action wants.
fn want_of(problem: &Problem, action: u32) -> Option<u32>
    ensures { result ≡ first_want problem.now action }
{
    first_fact(
        problem.facts.as_slice().len(),
        problem.conditions(Item::Start(action)),
    )
}

/// Whether a state has a wanted fact, if there is one.
fn is_granted(state: &State, want: Option<u32>) -> bool
    ensures { result ≡ granted (meaning state.now).fact want }
{
    match want {
        None => true,
        Some(fact) => state.has(fact),
    }
}

/// The row of the actions whose first wanted fact holds in a state, or that want none.
pub(crate) fn candidates(
    alloc: Global,
    problem: &Problem,
    state: &State,
) -> Result<BitRow, NoMemory>
    ensures { IfOk result (λ r. IsCandidateRow problem.now (meaning state.now).fact r) }
{
    problem.keeps_the_rules();
    let count = problem.actions.as_slice().len();
    let mut row = BitRow::empty(alloc, count)?;
    for index in 0..count {
        consider(&mut row, problem, state, index as u32);
    }
    Ok(row)
}

/// Puts an action into the row of candidates, if it is one.
fn consider(row: &mut BitRow, problem: &Problem, state: &State, action: u32)
    requires inside { action < length problem.now.actions }
    requires below { IsCandidateRowBelow problem.now (meaning state.now).fact action row.old }
    ensures { IsCandidateRowBelow problem.now (meaning state.now).fact (action + 1) row.new }
{
    if is_granted(state, want_of(problem, action)) {
        row.insert(action);
        return;
    }
}

impl Wants {
    /// The rows of a problem.
    pub(crate) fn of(alloc: Global, problem: &Problem) -> Result<Wants, NoMemory>
        ensures { IfOk result (λ w. AreWants problem.now w) }
    {
        problem.keeps_the_rules();
        let mut rows = empty_rows(alloc, problem)?;
        for index in 0..problem.actions.as_slice().len() {
            enter(&mut rows, problem, index as u32);
        }
        Ok(Wants { rows })
    }

    /// Makes of the row of the candidates of one state that of another one.
    pub(crate) fn settle(&self, problem: &Problem, row: &mut BitRow, old: &State, new: &State)
        requires wants { AreWants problem.now self.now }
        requires candidates { IsCandidateRow problem.now (meaning old.now).fact row.old }
        ensures { IsCandidateRow problem.now (meaning new.now).fact row.new }
    {
        problem.keeps_the_rules();
        for block in 0..problem.facts.as_slice().len().div_ceil(64) {
            self.settle_block(problem, row, old, new, block);
        }
    }

    /// The same for a block of 64 facts.
    fn settle_block(
        &self,
        problem: &Problem,
        row: &mut BitRow,
        old: &State,
        new: &State,
        block: usize,
    )
        requires small { block < 1048576 }
        requires wants { AreWants problem.now self.now }
        requires candidates { IsCandidateRow problem.now
            (mixed (64 * block) (meaning new.now).fact (meaning old.now).fact) row.old }
        ensures { IsCandidateRow problem.now
            (mixed (64 * (block + 1)) (meaning new.now).fact (meaning old.now).fact) row.new }
    {
        let changed = old.fact_word(block) ^ new.fact_word(block);
        let mut bit = next_one(changed, 0);
        while bit < 64 {
            self.settle_at(problem, row, old, new, 64 * block as u32 + bit);
            bit = next_one(changed, bit + 1);
        }
    }

    /// The same for one fact.
    fn settle_at(&self, problem: &Problem, row: &mut BitRow, old: &State, new: &State, fact: u32)
        requires wants { AreWants problem.now self.now }
        requires candidates { IsCandidateRow problem.now
            (mixed fact (meaning new.now).fact (meaning old.now).fact) row.old }
        ensures { IsCandidateRow problem.now
            (mixed (fact + 1) (meaning new.now).fact (meaning old.now).fact) row.new }
    {
        let holds = new.has(fact);
        if old.has(fact) == holds {
            return;
        }
        self.settle_fact(problem, row, fact, holds);
    }

    /// Makes of the row of the candidates of some facts that of these with one set anew.
    fn settle_fact(&self, problem: &Problem, row: &mut BitRow, fact: u32, holds: bool)
        requires wants { AreWants problem.now self.now }
        ensures { (facts : ℕ → Bool) → IsCandidateRow problem.now facts row.old
            → IsCandidateRow problem.now (with_fact facts fact holds) row.new }
    {
        match self.rows.get(fact as usize) {
            None => {}
            Some(wanting) => change(row, wanting, holds),
        }
    }
}

/// Takes in another row, or loses it.
fn change(row: &mut BitRow, other: &BitRow, holds: bool)
    ensures wide { width row.new ≡ width row.old }
    ensures has { (a : ℕ) → is_in_row row.new a
        ≡ (if holds
        then is_in_row row.old a || (has_place (width row.old) a && is_in_row other.now a)
        else is_in_row row.old a && not (is_in_row other.now a)) }
{
    if holds {
        row.add_all(other);
    } else {
        row.remove_all(other);
    }
}

/// An empty row for each fact.
fn empty_rows(alloc: Global, problem: &Problem) -> Result<Vec<BitRow>, NoMemory>
    ensures { IfOk result (λ v. AreWantsBelow problem.now 0 v.items) }
{
    problem.keeps_the_rules();
    let actions = problem.actions.as_slice().len();
    let mut rows = Vec::new(alloc);
    for _fact in problem.facts.as_slice() {
        let row = BitRow::empty(alloc, actions)?;
        if rows.push(row).is_err() {
            return Err(NoMemory);
        }
    }
    Ok(rows)
}

/// Puts an action into the row of its first wanted fact.
fn enter(rows: &mut Vec<BitRow>, problem: &Problem, action: u32)
    requires inside { action < length problem.now.actions }
    requires below { AreWantsBelow problem.now action rows.old.items }
    ensures { AreWantsBelow problem.now (action + 1) rows.new.items }
{
    if let Some(fact) = want_of(problem, action) {
        let index = fact as usize;
        if index < rows.len() {
            rows[index].insert(action);
        }
    }
}
