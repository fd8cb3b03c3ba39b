ghost use Rattle.std.specs.Prelude.{◌≡◌, ◌≤◌, ◌<◌, ◌+◌, ◌^◌, ◌++◌, ◌∷◌, [], length, true, false, IfOk, OnOk, OnErr, vec_len, vec_capacity};
ghost use Rattle.std.specs.Prelude.{List as Items};
ghost use Rattle.machine_run.specs.Deeds.{SameTask, IsRested, HasStart};
ghost use Rattle.machine_run.specs.Frontiers.{CoversAll, Stands};
ghost use Rattle.machine_run.specs.Kept.{IsRoot};
ghost use Rattle.machine_run.specs.Turns.{has_outcome};
ghost use Rattle.machine_run.specs.Views.{state};
ghost use Rattle.tp_spec.specs.declared.event.Event.{Event as AnEvent};
ghost use Rattle.word_frontier.specs.Nodes.{is_taken};
ghost use Rattle.word_network.specs.Conditions.{AreLimits, AreCommits};

use commit_book::Commits;
use node_state::root_rank;
use run_laws::commitments_of_runs;
use std::alloc::Global;
use std::marker::Model;
use tp_spec::{Cause, Event, Limits, NoMemory, Problem, Timed};
use word_frontier::Frontier;

/// A run of the situated machine: its history, and the commitments and the frontier of the state to
/// which that leads.
#[derive(Drop)]
pub struct MachineRun<'p> {
    pub(crate) alloc: Global,
    pub(crate) problem: &'p Problem,
    pub(crate) limits: Limits,
    pub(crate) frontier: Frontier,
    pub(crate) history: Vec<Event>,
    pub(crate) commits: Commits,
    pub(crate) clock: u64,
    pub(crate) over: bool,
}

impl<'p> Model for MachineRun<'p> {
    ghost use Rattle.std.specs.Prelude.{◌≡◌, vec_len, vec_capacity};
    ghost use Rattle.machine_run.specs.Views.{RunView};
    ghost use Rattle.machine_run.specs.Kept.{IsKept};
    ghost use Rattle.tp_spec.specs.contracts.expr.Expr as expr;
    ghost use Rattle.std.specs.Coded.{codes};

    ghost Value = { RunView };

    ghost coded = { Prim.hlevel (codes, expr.the_row.coded) };

    ghost view = { λ r. record {
      problem = r.problem.now;
      limits = r.limits;
      history = r.history.items;
      frontier = r.frontier;
    } };

    ghost invariant = { λ r. IsKept (record {
      run = record {
        problem = r.problem.now;
        limits = r.limits;
        history = r.history.items;
        frontier = r.frontier;
      };
      commits = r.commits;
      len = vec_len r.history;
      capacity = vec_capacity r.history;
      clock = r.clock;
      over = r.over;
    }) };
}

impl<'p> MachineRun<'p> {
    /// The run of no event: the root alone, which is open.
    pub fn new(
        alloc: Global,
        problem: &'p Problem,
        limits: Limits,
    ) -> Result<MachineRun<'p>, NoMemory>
        requires limits { AreLimits limits }
        ensures problem { IfOk result (λ r. r.problem ≡ problem.now) }
        ensures limits { IfOk result (λ r. r.limits ≡ limits) }
        ensures history { IfOk result (λ r. r.history ≡ []) }
        ensures rested { IfOk result IsRested }
    {
        let history = empty_history(alloc)?;
        let frontier = root_of(alloc, problem, limits.horizon)?;
        Ok(MachineRun {
            alloc,
            problem,
            limits,
            frontier,
            history,
            commits: Commits::new(alloc),
            clock: 0,
            over: false,
        })
    }

    /// What a run keeps.
    pub fn stands(&self)
        ensures stands { Stands self.now }
        ensures covered { CoversAll self.now.problem self.now.limits (state self.now) }
    {
        // reading a field opens the invariant, which says it
        let _over = self.over;
    }

    /// Whether an outcome stands.
    pub fn is_over(&self) -> bool
        ensures { result ≡ has_outcome self.now.history }
    {
        self.over
    }

    /// The machine's clock, in ticks, while no outcome stands.
    pub fn now(&self) -> u64
        ensures { has_outcome self.now.history ≡ false → result ≡ (state self.now).now }
    {
        self.clock
    }

    /// All events so far.
    pub fn history(&self) -> &[Event]
        ensures { result.now ≡ self.now.history }
    {
        &self.history
    }

    /// The commitments, in order of dispatch.
    pub fn commits(&self) -> &[Timed]
        ensures acts { result.now ≡ (state self.now).commits }
        ensures committed { AreCommits self.now.problem result.now }
    {
        self.commits.acts()
    }

    /// All events so far, alone.
    pub fn into_history(self) -> Vec<Event>
        ensures { result.items ≡ self.entry.history }
    {
        let MachineRun {
            alloc: _,
            problem: _,
            limits: _,
            frontier: _,
            history,
            commits: _,
            clock: _,
            over: _,
        } = self;
        history
    }

    /// The limits.
    pub fn limits(&self) -> &Limits
        ensures { result.now ≡ self.now.limits }
    {
        &self.limits
    }

    /// The problem.
    pub fn problem(&self) -> &'p Problem
        ensures { result.now ≡ self.now.problem }
    {
        self.problem
    }

    /// Whether the node of an id stands, and this actor took it.
    pub fn is_taken(&self, id: u32, actor: u32) -> bool
        ensures { result ≡ is_taken actor id self.now.frontier.nodes }
    {
        self.frontier.is_taken(id, actor)
    }

    /// How many ids were given.
    pub fn made(&self) -> u32
        ensures { result ≡ self.now.frontier.made }
    {
        self.frontier.made()
    }

    /// The run ends between two turns with no outcome of the search.
    pub fn halt(&mut self, cause: Cause)
        requires rested { IsRested self.old }
        ensures task { SameTask self.old self.new }
        ensures halted { self.new.history ≡ self.old.history ++ AnEvent.Halt cause ∷ [] }
    {
        self.history.push_reserved(Event::Halt { cause });
        self.over = true;
    }

    /// Takes back the events of a turn that was refused memory in its midst, down to so many
    /// events and commitments, and ends the run there.
    pub fn cut_back(&mut self, start: usize, held: usize)
        requires standing { has_outcome self.old.history ≡ false }
        requires start { HasStart self.old start held }
        ensures task { SameTask self.old self.new }
        ensures cut { (front rest : Items AnEvent) → self.old.history ≡ front ++ rest
            → length front ≡ start
            → self.new.history ≡ front ++ AnEvent.Halt Cause.Memory ∷ [] }
    {
        commitments_of_runs();
        self.history.truncate(start);
        self.commits.cut_back(held);
        self.history.push_reserved(Event::Halt {
            cause: Cause::Memory,
        });
        self.over = true;
    }
}

/// A history with room for a halt.
fn empty_history(alloc: Global) -> Result<Vec<Event>, NoMemory>
    ensures { IfOk result (λ v. (v.items ≡ []) × (vec_len v < vec_capacity v)) }
{
    let mut history = Vec::new(alloc);
    history.reserve(1)?;
    Ok(history)
}

/// The frontier of a problem's root. The empty word is live as long as the clock runs.
fn root_of(alloc: Global, problem: &Problem, horizon: u64) -> Result<Frontier, NoMemory>
    requires { horizon ≤ 2 ^ 40 }
    ensures { IfOk result (IsRoot problem.now horizon) }
{
    problem.keeps_the_rules();
    let rank = root_rank(alloc, problem)?;
    Frontier::root(alloc, problem.goal.as_slice().len() + 1, rank, horizon + 1)
}
