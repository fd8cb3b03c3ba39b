ghost use Rattle.std.specs.Prelude.{◌≡◌, ◌<◌, ◌≤◌, ◌^◌, Some, None, [], length, map, set, true, false, Ok, Err, IfOk, IfErr, IfSome, OnErr};
ghost use Rattle.machine_run.specs.Turns.{has_outcome};
ghost use Rattle.open_tree.specs.Charter.{SameCharter};
ghost use Rattle.script_text.specs.Follows.{Follows};
ghost use Rattle.script_text.specs.Playable.{IsPlayable};
ghost use Rattle.serial_runs.specs.Commands.{GivesCommands};
ghost use Rattle.serial_runs.specs.Endings.{EndsScript};
ghost use Rattle.serial_runs.specs.OneWorker.{HasJob, IsBounded};
ghost use Rattle.serial_runs.specs.Playing.{GoesPast, Nothing, StopsPast, StopsUnput, held_by, id_of, reading_in};
ghost use Rattle.serial_runs.specs.Stopping.{PutsOn, answer_of};
ghost use Rattle.script_text.specs.declared.script.Verb.TheVariants as verbs;
ghost use Rattle.tp_spec.specs.Machine.{IsWholeRun};
ghost use Rattle.tp_spec.specs.WellFormed.{IsWellFormed};
ghost use Rattle.word_network.specs.Conditions.{AreLimits};

use crate::lines::{Over, turn_line};
use crate::sending::send_new;
use open_tree::{Job, Tree};
use script_text::ScriptLine;
use search_workers::Worker;
use std::alloc::Global;
use tp_spec::{Cause, Event, Limits, NoMemory, Problem};
use tp_world::{Clock, ListClock, SendFault, Sink};

/// What a script's run left: its events, and whether all its commands were put.
#[derive(Drop)]
pub struct Played {
    pub history: Vec<Event>,
    pub sent: Result<(), SendFault>,
}

/// Plays the lines of a script in order, each as one turn of its actor with its reading of the
/// clock, in ticks: a take line takes a node, a merge line merges what its actor's take took, or
/// looks where it took nothing, and a look line makes a turn without a deed. Each of the actors 1
/// to 8 may hold a job while others take and merge. Behind each turn the
/// commands of what it committed are sent. No line is played behind an outcome; where none stands
/// behind the last line the run is halted. `NoMemory` where memory was refused before the first
/// line: nothing was played and nothing was put.
pub fn run_script<O: Sink>(
    alloc: Global,
    problem: &Problem,
    limits: Limits,
    script: &[ScriptLine],
    out: &mut O,
) -> Result<Played, NoMemory>
    requires formed { IsWellFormed problem.now }
    requires limits { AreLimits limits }
    requires script { IsPlayable script.now }
    ensures whole { IfOk result (λ r. IsWholeRun problem.now limits r.history.items) }
    ensures follows { IfOk result (λ r. Follows limits script.now r.history.items) }
    ensures ends { IfOk result (λ r. EndsScript r.history.items r.sent) }
    ensures commands { IfOk result (λ r. GivesCommands problem.now limits r.history.items
        (O.view out.old) (O.view out.new) r.sent) }
    ensures unput { IfErr result (λ _. O.view out.new ≡ O.view out.old) }
{
    let mut clock = ListClock::new(readings_of(alloc, script)?);
    clock.begin(problem.scale);
    let mut worker = Worker::new(alloc, problem)?;
    let Ok(mut tree) = Tree::new(alloc, problem, limits, clock) else {
        return Err(NoMemory);
    };
    let sent = play(alloc, problem, &mut worker, &mut tree, script, out);
    let (history, _) = tree.into_parts();
    Ok(Played { history, sent })
}

/// The readings of a script's lines, in order.
fn readings_of(alloc: Global, script: &[ScriptLine]) -> Result<Vec<u64>, NoMemory>
    ensures { IfOk result (λ readings. readings.items ≡ map reading_in script.now) }
{
    let mut readings = Vec::new(alloc);
    for line in script {
        if readings.push(line.reading).is_err() {
            return Err(NoMemory);
        }
    }
    Ok(readings)
}

/// What actors 0 to 8 hold before the first line: nothing.
fn empty_hands<'p>() -> [Option<Job<'p>>; 9]
    ensures { Nothing result }
{
    [None, None, None, None, None, None, None, None, None]
}

/// Takes out what an actor holds.
fn take_out<'p>(held: &mut [Option<Job<'p>>; 9], actor: u32) -> Option<Job<'p>>
    requires low { actor < length held.old }
    ensures taken { result ≡ held_by held.old actor }
    ensures left { held.new ≡ set held.old actor None }
{
    held[actor as usize].take()
}

/// Puts what an actor holds into its place.
fn put_back<'p>(held: &mut [Option<Job<'p>>; 9], actor: u32, own: Option<Job<'p>>)
    requires low { actor < length held.old }
    ensures { held.new ≡ set held.old actor own.entry }
{
    held[actor as usize] = own;
}

/// Plays the lines from the first one on, up to an outcome or a command that could not be put.
/// Where no outcome stands behind the last line the run is halted.
fn play<'p, C: Clock, O: Sink>(
    alloc: Global,
    problem: &'p Problem,
    worker: &mut Worker<'p>,
    tree: &mut Tree<'p, C>,
    script: &[ScriptLine],
    out: &mut O,
) -> Result<(), SendFault>
    requires problem { tree.old.problem ≡ problem.now }
    requires worker { worker.old ≡ problem.now }
    requires bounded { IsBounded problem.now tree.old.limits }
    requires script { IsPlayable script.now }
    requires few { length script.now ≤ 2 ^ 64 }
    requires fresh { tree.old.history ≡ [] }
    requires unread { C.count tree.old.opened ≡ 0 }
    requires given { C.given tree.old.opened ≡ Some (map reading_in script.now) }
    ensures charter { SameCharter tree.old tree.new }
    ensures follows { Follows tree.new.limits script.now tree.new.history }
    ensures ends { EndsScript tree.new.history result }
    ensures commands { GivesCommands problem.now tree.new.limits tree.new.history (O.view out.old)
        (O.view out.new) result }
{
    tree.history();
    let mut held = empty_hands();
    let mut rest = script;
    'lines: loop {
        match rest {
            [line, behind @ ..] => {
                let own = take_out(&mut held, line.actor);
                let played = play_line(alloc, problem, worker, tree, out, line, own);
                tree.history();
                match played? {
                    Ok(next) => {
                        put_back(&mut held, line.actor, next);
                        rest = behind;
                    }
                    Err(Over) => return Ok(()),
                }
            }
            [] => {
                tree.halt(Cause::Script);
                return Ok(());
            }
        }
    }
}

/// Plays a line, and sends the commands of what its turn commits.
fn play_line<'p, C: Clock, O: Sink>(
    alloc: Global,
    problem: &'p Problem,
    worker: &mut Worker<'p>,
    tree: &mut Tree<'p, C>,
    out: &mut O,
    line: &ScriptLine,
    held: Option<Job<'p>>,
) -> Result<Result<Option<Job<'p>>, Over>, SendFault>
    requires problem { tree.old.problem ≡ problem.now }
    requires worker { worker.old ≡ problem.now }
    requires bounded { IsBounded problem.now tree.old.limits }
    requires standing { has_outcome tree.old.history ≡ false }
    requires free { line.now.verb ≡ verbs.Take → held ≡ None }
    requires job { line.now.verb ≡ verbs.Merge → IfSome held
        (HasJob problem.now tree.old.limits tree.old.history line.now.actor) }
    ensures worker { worker.new ≡ worker.old }
    ensures charter { SameCharter tree.old tree.new }
    ensures on { IfOk result (λ turn. IfOk turn (GoesPast problem.now tree.old.limits line.now
        tree.old.history tree.new.history held.entry)) }
    ensures over { IfOk result (λ turn. OnErr turn (StopsPast tree.old.limits line.now
        (id_of held.entry) tree.old.history tree.new.history)) }
    ensures err { IfErr result (StopsUnput tree.old.limits line.now (id_of held.entry)
        tree.old.history tree.new.history) }
    ensures puts { PutsOn problem.now tree.old.limits tree.old.history tree.new.history
        (O.view out.old) (O.view out.new) (answer_of result) }
{
    let sent = tree.commits().len();
    let turn = turn_line(worker, tree, line, held);
    send_new(alloc, problem, tree, out, sent)?;
    Ok(turn)
}
