ghost use Rattle.std.specs.Prelude.{◌≡◌, ◌≤◌, ◌+◌, ◌++◌, ◌∷◌, [], drop, length, IfOk, IfErr, IfSome, IfNone, OnOk, OnErr, true, false, vec_capacity};
ghost use Rattle.tp_world.specs.Counts.{one_more};
ghost use Rattle.machine_run.specs.Deeds.{Holds, IsRested, SameTask};
ghost use Rattle.machine_run.specs.Frontiers.{CoversAll};
ghost use Rattle.machine_run.specs.Turns.{Grows, has_outcome};
ghost use Rattle.machine_run.specs.Views.{state};
ghost use Rattle.open_tree.specs.Answers.{GivesLook, GivesTaken, GivesMerged};
ghost use Rattle.open_tree.specs.Charter.{SameCharter};
ghost use Rattle.open_tree.specs.Jobs.{AreSprouts, IsJobOf};
ghost use Rattle.open_tree.specs.Steps.{AreBrood, AreReady, EndsTurn, Finishes, HasNoPlan, IsPublication};
ghost use Rattle.open_tree.specs.Turns.{IsTold};
ghost use Rattle.tp_spec.specs.Machine.{IsWholeRun, state_of};
ghost use Rattle.word_frontier.specs.Nodes.{live_at};
ghost use Rattle.word_network.specs.Conditions.{AreLimits, AreCommits};

use crate::brood::renewed_children;
use crate::job::{Job, Look, Merged, Sprouts, Taken};
use commit_book::are_held;
use machine_run::MachineRun;
use run_laws::{commitments_of_runs, states_of_runs};
use std::alloc::Global;
use std::marker::Model;
use std::snapshot::Snapshot;
use tp_spec::{Cause, Event, Limits, List, NoMemory, Plan, Problem, Timed};
use tp_world::Clock;
use word_frontier::Child;
use word_network::earliest_plan;

/// The tree of words that are tried on a problem, with the clock that each turn reads once and the
/// history of all turns. The history is always a run of the situated machine that ends settled: an
/// outcome stands, or the best node is live and none of its starts is due.
#[derive(Drop)]
pub struct Tree<'p, C: Clock> {
    alloc: Global,
    run: MachineRun<'p>,
    clock: C,
    opened: Snapshot<C>,
    spare: bool,
}

impl<'p, C: Clock> Model for Tree<'p, C> {
    ghost use Rattle.open_tree.specs.Views.{TreeView};
    ghost use Rattle.open_tree.specs.Keeps.{Keeps};
    ghost use Rattle.machine_run.specs.Views.{state};
    ghost use Rattle.std.specs.Prelude.{◌≡◌};
    ghost use Rattle.tp_spec.specs.Machine.{IsSettled};
    ghost use Rattle.tp_spec.specs.contracts.expr.Expr as expr;
    ghost use Rattle.std.specs.Coded.{codes};

    ghost Value = { TreeView C };

    ghost coded = { Prim.hlevel (codes, expr.the_row.coded) };

    ghost view = { λ t. record {
      problem = t.run.problem;
      limits = t.run.limits;
      clock = t.clock;
      opened = t.opened.value;
      history = t.run.history;
    } };

    ghost invariant = { λ t. Keeps (record {
      rate = C.rate t.clock;
      scale = t.run.problem.scale;
      began = C.count t.opened.value;
      count = C.count t.clock;
      first = C.last t.opened.value;
      last = C.last t.clock;
      opened = C.given t.opened.value;
      given = C.given t.clock;
      history = t.run.history;
      spare = t.spare;
    })
        × IsSettled t.run.problem t.run.limits (state t.run)
        × (C.begun t.clock ≡ C.begun t.opened.value) };
}

impl<'p, C: Clock> Tree<'p, C> {
    /// The tree of the empty word, which nobody took. The clock has the problem's rate, and the
    /// limits are such as a command line gives. Where memory is refused the clock comes back.
    pub fn new(
        alloc: Global,
        problem: &'p Problem,
        limits: Limits,
        clock: C,
    ) -> Result<Tree<'p, C>, (NoMemory, C)>
        requires rate { C.rate clock ≡ problem.now.scale }
        requires limits { AreLimits limits }
        ensures history { IfOk result (λ t. t.history ≡ []) }
        ensures problem { IfOk result (λ t. t.problem ≡ problem.now) }
        ensures limits { IfOk result (λ t. t.limits ≡ limits) }
        ensures clock { IfOk result (λ t. t.clock ≡ clock) }
        ensures opened { IfOk result (λ t. t.opened ≡ clock) }
        ensures whole { IfOk result (λ t. IsWholeRun t.problem t.limits t.history) }
        ensures err { IfErr result (λ e. e.1 ≡ clock) }
    {
        let opened = Snapshot::of(&clock);
        let Ok(run) = MachineRun::new(alloc, problem, limits) else {
            return Err((NoMemory, clock));
        };
        run.stands();
        Ok(Tree {
            alloc,
            run,
            clock,
            opened,
            spare: false,
        })
    }

    /// One turn in which an actor takes the least open node that is live, where there is one: dead
    /// nodes that are the best, or come before it, are dropped, and the best node's starts that are
    /// due are dispatched. Over exactly where an outcome stands at return, else nothing exactly
    /// where no node is open. Where memory is refused the turn is one halt, which takes back its
    /// dispatches; the clock was read all the same.
    pub fn take(&mut self, actor: u32) -> Result<Taken<'p>, NoMemory>
        ensures whole { IsWholeRun self.new.problem self.new.limits self.new.history }
        ensures charter { SameCharter self.old self.new }
        ensures over { has_outcome self.old.history ≡ true
            → (result ≡ Ok Taken.Over) × (self.new ≡ self.old) }
        ensures count { has_outcome self.old.history ≡ false
            → C.count self.new.clock ≡ one_more (C.count self.old.clock) }
        ensures taken { has_outcome self.old.history ≡ false
            → IfOk result (GivesTaken self.old.problem self.old.limits self.old.history
            self.new.history actor (C.last self.new.clock)) }
        ensures err { OnErr result (self.new.history ≡ self.old.history ++ Event.Halt Cause.Memory
            ∷ []) }
    {
        if self.run.is_over() {
            self.run.stands();
            return Ok(Taken::Over);
        }
        let reading = self.clock.read();
        let start = self.run.history().len();
        let held = self.run.commits().len();
        match take_turn(self.alloc, &mut self.run, actor, reading) {
            Ok(taken) => {
                self.run.stands();
                Ok(taken)
            }
            Err(NoMemory) => {
                self.run.cut_back(start, held);
                self.run.stands();
                self.spare = true;
                Err(NoMemory)
            }
        }
    }

    /// One turn in which an actor hands in the sprouts of a job that it took. A node whose word may
    /// be a whole plan's, has each commitment and is live now is published with its least schedule
    /// now, one whose live children would give too many ids is the limit, every other one is
    /// expanded with the children that are live now under all commitments: none behind a dead word.
    /// Dead best nodes are dropped and what is due is dispatched before and behind it; where that
    /// leaves no node, the search is exhausted. Over exactly where an outcome stands at return,
    /// else stale exactly where the node had left the frontier after the first settling. Where
    /// memory is refused the turn is one halt, which takes back its dispatches, and the sprouts
    /// come back.
    pub fn merge(
        &mut self,
        actor: u32,
        sprouts: Sprouts<'p>,
    ) -> Result<Merged, (NoMemory, Sprouts<'p>)>
        requires job { has_outcome self.old.history ≡ false
            → IsJobOf self.old.limits self.old.history actor sprouts.job }
        requires problem { sprouts.job.problem ≡ self.old.problem }
        requires limits { sprouts.job.limits ≡ self.old.limits }
        ensures whole { IsWholeRun self.new.problem self.new.limits self.new.history }
        ensures charter { SameCharter self.old self.new }
        ensures over { has_outcome self.old.history ≡ true
            → (result ≡ Ok Merged.Over) × (self.new ≡ self.old) }
        ensures count { has_outcome self.old.history ≡ false
            → C.count self.new.clock ≡ one_more (C.count self.old.clock) }
        ensures merged { has_outcome self.old.history ≡ false
            → IfOk result (GivesMerged self.old.limits self.old.history self.new.history actor
            (C.last self.new.clock) sprouts.entry.job.id) }
        ensures err { OnErr result (self.new.history ≡ self.old.history ++ Event.Halt Cause.Memory
            ∷ []) }
        ensures back { IfErr result (λ e. e.1 ≡ sprouts.entry) }
    {
        if self.run.is_over() {
            self.run.stands();
            return Ok(Merged::Over);
        }
        let reading = self.clock.read();
        let start = self.run.history().len();
        let held = self.run.commits().len();
        match merge_turn(self.alloc, &mut self.run, actor, reading, &sprouts) {
            Ok(merged) => {
                self.run.stands();
                Ok(merged)
            }
            Err(NoMemory) => {
                self.run.cut_back(start, held);
                self.run.stands();
                self.spare = true;
                Err((NoMemory, sprouts))
            }
        }
    }

    /// One turn of an actor without a deed: dead best nodes are dropped, and what is due is
    /// dispatched. Gives the commitments after the first `sent`, of which there are so many, and
    /// whether an outcome stands at return; where one stood before there is no turn. Where memory
    /// is refused the turn is one halt, which takes back its dispatches; where an outcome stood
    /// before, nothing changes then either.
    pub fn look(&mut self, actor: u32, sent: usize) -> Result<Look, NoMemory>
        requires sent { sent ≤ length (state_of self.old.limits self.old.history).commits }
        ensures whole { IsWholeRun self.new.problem self.new.limits self.new.history }
        ensures charter { SameCharter self.old self.new }
        ensures over { has_outcome self.old.history ≡ true → self.new ≡ self.old }
        ensures told { has_outcome self.old.history ≡ true → IfOk result (λ look.
            (look.acts ≡ drop sent (state_of self.old.limits self.old.history).commits)
            × (look.over ≡ true)) }
        ensures count { has_outcome self.old.history ≡ false
            → C.count self.new.clock ≡ one_more (C.count self.old.clock) }
        ensures looked { has_outcome self.old.history ≡ false
            → IfOk result (GivesLook self.old.limits self.old.history self.new.history actor
            (C.last self.new.clock) sent) }
        ensures err { has_outcome self.old.history ≡ false → OnErr result
            (self.new.history ≡ self.old.history ++ Event.Halt Cause.Memory ∷ []) }
    {
        if self.run.is_over() {
            self.run.stands();
            let acts = copy_of(self.alloc, &self.run.commits()[sent..])?;
            return Ok(Look { acts, over: true });
        }
        let reading = self.clock.read();
        let start = self.run.history().len();
        let held = self.run.commits().len();
        match look_turn(self.alloc, &mut self.run, actor, reading, sent) {
            Ok(look) => {
                self.run.stands();
                Ok(look)
            }
            Err(NoMemory) => {
                self.run.cut_back(start, held);
                self.run.stands();
                self.spare = true;
                Err(NoMemory)
            }
        }
    }

    /// Ends the run with no outcome of the search, where none stands yet.
    pub fn halt(&mut self, cause: Cause)
        ensures whole { IsWholeRun self.new.problem self.new.limits self.new.history }
        ensures charter { SameCharter self.old self.new }
        ensures over { has_outcome self.old.history ≡ true → self.new ≡ self.old }
        ensures halted { has_outcome self.old.history ≡ false
            → self.new.history ≡ self.old.history ++ Event.Halt cause ∷ [] }
        ensures clock { self.new.clock ≡ self.old.clock }
    {
        if self.run.is_over() {
            self.run.stands();
            return;
        }
        self.run.halt(cause);
        self.run.stands();
    }

    /// All events so far. They are a run that ends settled, each plan that is still possible begins
    /// with the word of a node, and the Ticks are the clock's readings since the start.
    pub fn history(&self) -> &[Event]
        ensures events { result.now ≡ self.now.history }
        ensures whole { IsWholeRun self.now.problem self.now.limits self.now.history }
        ensures covered { CoversAll self.now.problem self.now.limits
            (state_of self.now.limits self.now.history) }
        ensures clocked { IsTold (C.count self.now.opened) (C.count self.now.clock)
            (C.last self.now.opened) (C.last self.now.clock) (C.given self.now.opened)
            self.now.history }
    {
        self.run.stands();
        self.run.history()
    }

    /// The commitments, in order of dispatch: those of the history's Dispatch events.
    pub fn commits(&self) -> &[Timed]
        ensures acts { result.now ≡ (state_of self.now.limits self.now.history).commits }
        ensures committed { AreCommits self.now.problem result.now }
    {
        self.run.commits()
    }

    /// The limits.
    pub fn limits(&self) -> &Limits
        ensures { result.now ≡ self.now.limits }
    {
        self.run.limits()
    }

    /// The history, which is a run that ends settled, and the clock, whose readings since the start
    /// the Ticks are. It has the problem's rate, and tells the readings that the one at `new` told.
    pub fn into_parts(self) -> (Vec<Event>, C)
        ensures history { result.0.items ≡ self.entry.history }
        ensures whole { IsWholeRun self.entry.problem self.entry.limits result.0.items }
        ensures clock { result.1 ≡ self.entry.clock }
        ensures rate { C.rate result.1 ≡ self.entry.problem.scale }
        ensures begun { C.begun result.1 ≡ C.begun self.entry.opened }
        ensures given { C.given result.1 ≡ C.given self.entry.opened }
        ensures clocked { IsTold (C.count self.entry.opened) (C.count self.entry.clock)
            (C.last self.entry.opened) (C.last self.entry.clock) (C.given self.entry.opened)
            self.entry.history }
    {
        let Tree {
            alloc: _,
            run,
            clock,
            opened: _,
            spare: _,
        } = self;
        run.stands();
        (run.into_history(), clock)
    }
}

/// A take's turn. Where memory is refused its events are to be cut back.
fn take_turn<'p>(
    alloc: Global,
    run: &mut MachineRun<'p>,
    actor: u32,
    reading: u64,
) -> Result<Taken<'p>, NoMemory>
    requires rested { IsRested run.old }
    ensures task { SameTask run.old run.new }
    ensures more { Grows run.old.history run.new.history }
    ensures taken { IfOk result (GivesTaken run.old.problem run.old.limits run.old.history
        run.new.history actor reading) }
    ensures ended { OnOk result (EndsTurn run.old run.new reading) }
    ensures err { OnErr result (has_outcome run.new.history ≡ false) }
{
    run.begin(actor, reading)?;
    if run.is_over() {
        return Ok(Taken::Over);
    }
    let Some((id, node)) = run.take(actor)? else {
        return Ok(Taken::Nothing);
    };
    run.stands();
    let commits = copy_of(alloc, run.commits())?;
    Ok(Taken::Job(Job::new(run.problem(), *run.limits(), id, node, run.now(), commits)))
}

/// A copy of acts.
fn copy_of(alloc: Global, acts: &[Timed]) -> Result<List<Timed>, NoMemory>
    ensures { IfOk result (λ copy. copy ≡ acts.now) }
{
    Ok(List::of(Vec::from_slice(alloc, acts)?))
}

/// The commitments after the first `sent`, in a list that has room for them.
fn acts_after<'p>(run: &MachineRun<'p>, sent: usize, mut acts: Vec<Timed>) -> List<Timed>
    requires sent { sent ≤ length (state run.now).commits }
    requires empty { acts.items ≡ [] }
    requires room { length (state run.now).commits ≤ sent + vec_capacity acts }
    ensures { result ≡ drop sent (state run.now).commits }
{
    match acts.extend_from_slice(&run.commits()[sent..]) {
        Ok(()) => List::of(acts),
        Err(_) => unreachable!(),
    }
}

/// A look's turn. Where memory is refused its events are to be cut back. The room for the
/// commitments comes first: an outcome that stands is not cut back.
fn look_turn<'p>(
    alloc: Global,
    run: &mut MachineRun<'p>,
    actor: u32,
    reading: u64,
    sent: usize,
) -> Result<Look, NoMemory>
    requires rested { IsRested run.old }
    requires sent { sent ≤ length (state run.old).commits }
    ensures task { SameTask run.old run.new }
    ensures more { Grows run.old.history run.new.history }
    ensures looked { IfOk result (GivesLook run.old.limits run.old.history run.new.history actor
        reading sent) }
    ensures ended { OnOk result (EndsTurn run.old run.new reading) }
    ensures err { OnErr result (has_outcome run.new.history ≡ false) }
{
    let most = run.limits().actions as usize;
    let room = Vec::with_capacity(alloc, most.saturating_sub(sent))?;
    run.begin(actor, reading)?;
    run.stands();
    states_of_runs();
    commitments_of_runs();
    let over = run.is_over();
    Ok(Look {
        acts: acts_after(run, sent, room),
        over,
    })
}

/// How many children are live at a clock.
fn count_live(children: &[Child], now: u64) -> usize
    ensures { result ≡ length (live_at now children.now) }
{
    children
        .iter()
        .filter(|child| child.deadline >= now)
        .count()
}

/// The plan of the least schedule of a job's word, where that may be a whole plan's, has each
/// commitment, and is live at the run's clock. A whole word may be dead by now, or lack a
/// commitment that came since.
fn plan_now<'p>(
    alloc: Global,
    run: &MachineRun<'p>,
    sprouts: &Sprouts<'p>,
) -> Result<Option<Plan>, NoMemory>
    requires standing { has_outcome run.now.history ≡ false }
    requires ready { AreReady run.now sprouts.now }
    ensures some { IfOk result (λ r. IfSome r (IsPublication run.now sprouts.now.job.id)) }
    ensures none { IfOk result (λ r. IfNone r (HasNoPlan run.now sprouts.now.job.id)) }
{
    if !sprouts.is_whole() {
        return Ok(None);
    }
    let word = sprouts.job().node().word();
    let problem = run.problem();
    let commits = run.commits();
    if !are_held(problem, word, commits) {
        return Ok(None);
    }
    earliest_plan(alloc, problem, run.limits(), word, commits, run.now())
}

/// Puts the live children of a node in its place, where there may be so many ids, and ends the
/// search there else.
fn grow<'p>(
    run: &mut MachineRun<'p>,
    actor: u32,
    id: u32,
    children: &[Child],
) -> Result<Merged, NoMemory>
    requires held { Holds run.old actor id }
    requires brood { AreBrood run.old id children.now }
    requires none { HasNoPlan run.old id }
    ensures task { SameTask run.old run.new }
    ensures more { Grows run.old.history run.new.history }
    ensures done { IfOk result (Finishes run.old run.new actor id) }
    ensures err { OnErr result (has_outcome run.new.history ≡ false) }
{
    let live = count_live(children, run.now());
    if (run.made() as usize).saturating_add(live) > run.limits().nodes as usize {
        run.limit(actor, id, children)?;
        return Ok(Merged::Over);
    }
    run.expand(actor, id, children)?;
    if run.is_over() {
        Ok(Merged::Over)
    } else {
        Ok(Merged::Done)
    }
}

/// Grows a job's node by its children under the run's commitments: those of the sprouts where
/// nothing was committed since, else found anew.
fn grow_job<'p>(
    alloc: Global,
    run: &mut MachineRun<'p>,
    actor: u32,
    sprouts: &Sprouts<'p>,
) -> Result<Merged, NoMemory>
    requires held { Holds run.old actor sprouts.now.job.id }
    requires ready { AreReady run.old sprouts.now }
    requires none { HasNoPlan run.old sprouts.now.job.id }
    ensures task { SameTask run.old run.new }
    ensures more { Grows run.old.history run.new.history }
    ensures done { IfOk result (Finishes run.old run.new actor sprouts.now.job.id) }
    ensures err { OnErr result (has_outcome run.new.history ≡ false) }
{
    let job = sprouts.job();
    if run.commits().len() == job.commits().len() {
        return grow(run, actor, job.id(), sprouts.children());
    }
    let children = renewed_children(alloc, run, sprouts)?;
    grow(run, actor, job.id(), children.as_slice())
}

/// The deed on a job's node, which stands.
fn finish<'p>(
    alloc: Global,
    run: &mut MachineRun<'p>,
    actor: u32,
    sprouts: &Sprouts<'p>,
) -> Result<Merged, NoMemory>
    requires held { Holds run.old actor sprouts.now.job.id }
    requires ready { AreReady run.old sprouts.now }
    ensures task { SameTask run.old run.new }
    ensures more { Grows run.old.history run.new.history }
    ensures done { IfOk result (Finishes run.old run.new actor sprouts.now.job.id) }
    ensures err { OnErr result (has_outcome run.new.history ≡ false) }
{
    match plan_now(alloc, run, sprouts)? {
        Some(plan) => {
            run.publish(actor, sprouts.job().id(), plan)?;
            Ok(Merged::Over)
        }
        None => grow_job(alloc, run, actor, sprouts),
    }
}

/// A merge's turn. Where memory is refused its events are to be cut back.
fn merge_turn<'p>(
    alloc: Global,
    run: &mut MachineRun<'p>,
    actor: u32,
    reading: u64,
    sprouts: &Sprouts<'p>,
) -> Result<Merged, NoMemory>
    requires rested { IsRested run.old }
    requires job { IsJobOf run.old.limits run.old.history actor sprouts.now.job }
    requires problem { sprouts.now.job.problem ≡ run.old.problem }
    requires limits { sprouts.now.job.limits ≡ run.old.limits }
    requires sprouts { AreSprouts sprouts.now }
    ensures task { SameTask run.old run.new }
    ensures more { Grows run.old.history run.new.history }
    ensures merged { IfOk result (GivesMerged run.old.limits run.old.history run.new.history actor
        reading sprouts.now.job.id) }
    ensures ended { OnOk result (EndsTurn run.old run.new reading) }
    ensures err { OnErr result (has_outcome run.new.history ≡ false) }
{
    run.begin(actor, reading)?;
    if run.is_over() {
        return Ok(Merged::Over);
    }
    run.stands();
    states_of_runs();
    commitments_of_runs();
    if !run.is_taken(sprouts.job().id(), actor) {
        return Ok(Merged::Stale);
    }
    finish(alloc, run, actor, sprouts)
}
