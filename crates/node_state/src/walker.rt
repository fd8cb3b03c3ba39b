ghost use Rattle.std.specs.Prelude.{◌≡◌, [], IfOk};
ghost use Rattle.node_state.specs.Growths.{IsGrowthOf};
ghost use Rattle.node_state.specs.Levels.{AreLevels};
ghost use Rattle.tp_spec.specs.Machine.{rank};
ghost use Rattle.tp_spec.specs.Words.{Sound};

use crate::asked::unmet_in;
use crate::growth::Growth;
use crate::judge::Judge;
use crate::levels::{Level, keep, move_to};
use std::alloc::Global;
use std::marker::Model;
use tp_spec::{Mark, NoMemory, Problem};
use world_state::initial;

/// Walks over the words of a problem, and tells what may come behind each. It keeps the states
/// along the last word, so that a word with the same front is read only from there on.
#[derive(Drop)]
pub struct Walker<'p> {
    alloc: Global,
    problem: &'p Problem,
    judge: Judge<'p>,
    levels: Vec<Level>,
    word: Vec<Mark>,
}

impl<'p> Model for Walker<'p> {
    ghost use Rattle.node_state.specs.Levels.{IsWalkerOf};
    ghost use Rattle.tp_spec.specs.declared.problem.Problem.{Problem as Ground};
    ghost use Rattle.tp_spec.specs.contracts.expr.Expr as expr;
    ghost use Rattle.std.specs.Coded.{codes};

    ghost Value = { Ground };

    ghost coded = { Prim.hlevel (codes, expr.the_row.coded) };

    ghost view = { λ w. w.problem.now };

    ghost invariant = { λ w. IsWalkerOf w.problem.now w.judge w.word.items w.levels.items };
}

impl<'p> Walker<'p> {
    /// A walker of a problem.
    pub fn new(alloc: Global, problem: &'p Problem) -> Result<Walker<'p>, NoMemory>
        ensures { IfOk result (λ w. w ≡ problem.now) }
    {
        let judge = Judge::new(alloc, problem)?;
        Ok(Walker {
            alloc,
            problem,
            judge,
            levels: Vec::new(alloc),
            word: Vec::new(alloc),
        })
    }

    /// What may come behind a sound word: exactly the marks that make it a longer sound word, in
    /// order, the ranks of these words, and whether the word itself may be a whole plan's.
    pub fn growth(&mut self, word: &[Mark]) -> Result<Growth, NoMemory>
        requires sound { Sound self.old word.now }
        ensures problem { self.new ≡ self.old }
        ensures growth { IfOk result (IsGrowthOf self.old word.now) }
    {
        growth_along(
            self.alloc,
            &self.judge,
            &mut self.levels,
            &mut self.word,
            word,
        )
    }

    /// The rank of the empty word: how many goal parts do not hold at the start.
    pub fn root_rank(&self) -> Result<u32, NoMemory>
        ensures { IfOk result (λ r. r ≡ rank self.now []) }
    {
        root_rank(self.alloc, self.problem)
    }
}

/// What may come behind a word, by the levels of the last one, and the levels of this one.
fn growth_along(
    alloc: Global,
    judge: &Judge,
    levels: &mut Vec<Level>,
    kept: &mut Vec<Mark>,
    word: &[Mark],
) -> Result<Growth, NoMemory>
    requires levels { AreLevels judge.now kept.old.items levels.old.items }
    requires sound { Sound judge.now word.now }
    ensures levels { AreLevels judge.now kept.new.items levels.new.items }
    ensures growth { IfOk result (IsGrowthOf judge.now word.now) }
{
    if word.is_empty() {
        return judge.first_growth(word);
    }
    move_to(alloc, levels, kept, word)?;
    let top = judge.top(levels, word)?;
    let top = judge.descend(levels, top, word)?;
    let (growth, next) = judge.growth(&top.reading, word)?;
    keep(levels, top, next, word)?;
    Ok(growth)
}

/// The rank of the empty word of a problem: how many goal parts do not hold at the start.
pub fn root_rank(alloc: Global, problem: &Problem) -> Result<u32, NoMemory>
    ensures { IfOk result (λ r. r ≡ rank problem.now []) }
{
    let start = initial(alloc, problem)?;
    Ok(unmet_in(problem, &start))
}
