ghost use Rattle.std.specs.Prelude.{◌≡◌, false, IfOk, IsTrue, is_some};
ghost use Rattle.situated_machine.specs.Rules.{IsOfBest, MayMakeDeed, has_id, taken_nodes};
ghost use Rattle.tp_spec.specs.Lists.{is_empty};
ghost use Rattle.tp_spec.specs.Machine.{first, open_nodes};
ghost use Rattle.tp_spec.specs.WellFormed.{IsWellFormed};
ghost use Rattle.word_network.specs.Conditions.{AreLimits};

use commit_book::Commits;
use node_state::Walker;
use std::alloc::Global;
use std::marker::Model;
use tp_spec::{Limits, NoMemory, Problem};
use word_frontier::Frontier;

/// The machine that a replay keeps as it goes: the state to which the events so far lead.
#[derive(Drop)]
pub(crate) struct Replayer<'p> {
    pub(crate) alloc: Global,
    pub(crate) problem: &'p Problem,
    pub(crate) limits: Limits,
    pub(crate) walker: Walker<'p>,
    pub(crate) frontier: Frontier,
    pub(crate) commits: Commits,
    pub(crate) clock: u64,
    pub(crate) actor: Option<u32>,
    pub(crate) acted: bool,
    pub(crate) over: bool,
}

impl<'p> Model for Replayer<'p> {
    ghost use Rattle.situated_machine.specs.Keeping.{ReplayView, IsKept, view_of};
    ghost use Rattle.tp_spec.specs.contracts.expr.Expr as expr;
    ghost use Rattle.std.specs.Coded.{codes};

    ghost Value = { ReplayView };

    ghost coded = { Prim.hlevel (codes, expr.the_row.coded) };

    ghost view = { λ r. view_of (record {
      problem = r.problem.now;
      walked = r.walker;
      limits = r.limits;
      frontier = r.frontier;
      commits = r.commits;
      clock = r.clock;
      actor = r.actor;
      acted = r.acted;
      over = r.over;
    }) };

    ghost invariant = { λ r. IsKept (record {
      problem = r.problem.now;
      walked = r.walker;
      limits = r.limits;
      frontier = r.frontier;
      commits = r.commits;
      clock = r.clock;
      actor = r.actor;
      acted = r.acted;
      over = r.over;
    }) };
}

impl<'p> Replayer<'p> {
    /// The machine before the first event: the root alone, which is open.
    pub(crate) fn new(
        alloc: Global,
        problem: &'p Problem,
        limits: Limits,
    ) -> Result<Replayer<'p>, NoMemory>
        requires formed { IsWellFormed problem.now }
        requires limited { AreLimits limits }
        ensures problem { IfOk result (λ r. r.problem ≡ problem.now) }
        ensures limits { IfOk result (λ r. r.limits ≡ limits) }
        ensures machine { IfOk result (λ r. r.machine ≡ first) }
    {
        let walker = Walker::new(alloc, problem)?;
        let rank = walker.root_rank()?;
        let ranks = problem.goal.as_slice().len() + 1;
        let frontier = Frontier::root(alloc, ranks, rank, limits.horizon + 1)?;
        Ok(Replayer {
            alloc,
            problem,
            limits,
            walker,
            frontier,
            commits: Commits::new(alloc),
            clock: 0,
            actor: None,
            acted: false,
            over: false,
        })
    }

    /// Whether an outcome stands.
    pub(crate) fn is_over(&self) -> bool
        ensures { result ≡ self.now.machine.over }
    {
        self.over
    }

    /// Whether there is a turn.
    pub(crate) fn has_turn(&self) -> bool
        ensures { result ≡ is_some self.now.machine.turn }
    {
        self.actor.is_some()
    }

    /// Whether it is an actor's turn, in which no deed was made.
    pub(crate) fn may_make_deed(&self, actor: u32) -> bool
        ensures yes { IsTrue result → MayMakeDeed self.now.machine actor }
        ensures no { result ≡ false → ¬ (MayMakeDeed self.now.machine actor) }
    {
        match self.actor {
            Some(own) => own == actor && !self.acted,
            None => false,
        }
    }

    /// Whether the node of an id stands.
    pub(crate) fn has(&self, id: u32) -> bool
        ensures { result ≡ has_id id self.now.machine.nodes }
    {
        self.frontier.has(id)
    }

    /// Whether it is open.
    pub(crate) fn is_open(&self, id: u32) -> bool
        ensures { result ≡ has_id id (open_nodes self.now.machine.nodes) }
    {
        self.frontier.is_open(id)
    }

    /// Whether this actor took it.
    pub(crate) fn is_taken(&self, id: u32, actor: u32) -> bool
        ensures { result ≡ has_id id (taken_nodes actor self.now.machine.nodes) }
    {
        self.frontier.is_taken(id, actor)
    }

    /// Whether it is the least open one, by rank and then by id.
    pub(crate) fn is_least_open(&self, id: u32) -> bool
        ensures yes { IsTrue result
            → IsOfBest self.now.problem (open_nodes self.now.machine.nodes) id }
        ensures no { result ≡ false
            → ¬ (IsOfBest self.now.problem (open_nodes self.now.machine.nodes) id) }
    {
        match self.frontier.least_open() {
            Some(least) => least.id == id,
            None => false,
        }
    }

    /// Whether no node stands.
    pub(crate) fn is_empty(&self) -> bool
        ensures { result ≡ is_empty self.now.machine.nodes }
    {
        self.frontier.is_empty()
    }

    /// How many ids were given.
    pub(crate) fn made(&self) -> u32
        ensures { result ≡ self.now.machine.made }
    {
        self.frontier.made()
    }

    /// The most ids that may be given.
    pub(crate) fn most_ids(&self) -> u32
        ensures { result ≡ self.now.limits.nodes }
    {
        self.limits.nodes
    }
}
