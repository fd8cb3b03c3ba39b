ghost use Rattle.std.specs.Prelude.{◌≡◌};
ghost use Rattle.open_tree.specs.Jobs.{AreSprouts};

use std::marker::Model;
use tp_spec::{Limits, List, Problem, Timed};
use word_frontier::{Child, Node};

/// A node that an actor took, and the view under which it did: the clock, the commitments, the
/// limits and the problem.
#[derive(Drop)]
pub struct Job<'p> {
    problem: &'p Problem,
    limits: Limits,
    id: u32,
    node: Node,
    clock: u64,
    commits: List<Timed>,
}

impl<'p> Model for Job<'p> {
    ghost use Rattle.open_tree.specs.Views.{JobView};
    ghost use Rattle.tp_spec.specs.contracts.expr.Expr as expr;
    ghost use Rattle.std.specs.Coded.{codes};

    ghost Value = { JobView };

    ghost coded = { Prim.hlevel (codes, expr.the_row.coded) };

    ghost view = { λ j. record {
      problem = j.problem.now;
      limits = j.limits;
      id = j.id;
      node = j.node;
      clock = j.clock;
      commits = j.commits;
    } };
}

impl<'p> Job<'p> {
    /// A job of a node under a view. Only a take makes one.
    pub(crate) fn new(
        problem: &'p Problem,
        limits: Limits,
        id: u32,
        node: Node,
        now: u64,
        commits: List<Timed>,
    ) -> Job<'p>
        ensures problem { result.problem ≡ problem.now }
        ensures limits { result.limits ≡ limits }
        ensures id { result.id ≡ id }
        ensures node { result.node ≡ node }
        ensures clock { result.clock ≡ now }
        ensures commits { result.commits ≡ commits }
    {
        Job {
            problem,
            limits,
            id,
            node,
            clock: now,
            commits,
        }
    }

    /// The node's id.
    pub fn id(&self) -> u32
        ensures { result ≡ self.now.id }
    {
        self.id
    }

    /// The node.
    pub fn node(&self) -> &Node
        ensures { result.now ≡ self.now.node }
    {
        &self.node
    }

    /// The clock of the view, in ticks.
    pub fn now(&self) -> u64
        ensures { result ≡ self.now.clock }
    {
        self.clock
    }

    /// The commitments of the view.
    pub fn commits(&self) -> &[Timed]
        ensures { result.now ≡ self.now.commits }
    {
        self.commits.as_slice()
    }

    /// The limits of the view.
    pub fn limits(&self) -> &Limits
        ensures { result.now ≡ self.now.limits }
    {
        &self.limits
    }

    /// The problem of the view.
    pub fn problem(&self) -> &'p Problem
        ensures { result.now ≡ self.now.problem }
    {
        self.problem
    }
}

/// A job with what may come behind its word: its children under the job's view, and whether the
/// word itself may be a whole plan's.
#[derive(Drop)]
pub struct Sprouts<'p> {
    job: Job<'p>,
    children: List<Child>,
    whole: bool,
}

impl<'p> Model for Sprouts<'p> {
    ghost use Rattle.open_tree.specs.Views.{SproutsView};
    ghost use Rattle.open_tree.specs.Jobs.{AreSprouts};
    ghost use Rattle.tp_spec.specs.contracts.expr.Expr as expr;
    ghost use Rattle.std.specs.Coded.{codes};

    ghost Value = { SproutsView };

    ghost coded = { Prim.hlevel (codes, expr.the_row.coded) };

    ghost view = { λ s. record { job = s.job; children = s.children; whole = s.whole } };

    ghost invariant = { λ s. AreSprouts (record {
      job = s.job;
      children = s.children;
      whole = s.whole;
    }) };
}

impl<'p> Sprouts<'p> {
    /// The sprouts of a job: exactly the marks that make its word a live word, in order, each with
    /// the rank and the deadline of the longer word; and whether the word may be a whole plan's. It
    /// takes no memory.
    pub fn new(job: Job<'p>, children: List<Child>, whole: bool) -> Sprouts<'p>
        requires { AreSprouts (record { job = job; children = children; whole = whole }) }
        ensures job { result.job ≡ job.entry }
        ensures children { result.children ≡ children }
        ensures whole { result.whole ≡ whole }
    {
        Sprouts {
            job,
            children,
            whole,
        }
    }

    /// The job.
    pub fn job(&self) -> &Job<'p>
        ensures { result.now ≡ self.now.job }
    {
        &self.job
    }

    /// The children of the job's word: exactly the marks that make it a live word under the job's
    /// view, in order, with the ranks and the deadlines of the longer words.
    pub fn children(&self) -> &[Child]
        ensures children { result.now ≡ self.now.children }
        ensures exact { AreSprouts self.now }
    {
        self.children.as_slice()
    }

    /// Whether the word may be a whole plan's.
    pub fn is_whole(&self) -> bool
        ensures { result ≡ self.now.whole }
    {
        self.whole
    }
}

/// What a take gives: a job; nothing, where no node is open; or that an outcome stands.
#[derive(Drop)]
pub enum Taken<'p> {
    Job(Job<'p>),
    Nothing,
    Over,
}

/// What a look gives: the commitments that the looker does not know yet, in order of dispatch, and
/// whether an outcome stands.
#[derive(Drop)]
pub struct Look {
    pub acts: List<Timed>,
    pub over: bool,
}

/// What a merge gives: the node was expanded; it had left the frontier before a deed; or an outcome
/// stands.
#[derive(Clone, Copy, Debug, PartialEq, Eq)]
pub enum Merged {
    Done,
    Stale,
    Over,
}
