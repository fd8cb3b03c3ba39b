ghost use Rattle.std.specs.Prelude.{◌≡◌, ◌⊎◌, ◌++◌, ◌∷◌, [], true, false, Some, None, IfOk, IfSome, OnOk, OnErr};
ghost use Rattle.machine_run.specs.Turns.{has_outcome};
ghost use Rattle.open_tree.specs.Charter.{SameCharter};
ghost use Rattle.serial_runs.specs.OneWorker.{HasJob, IsBounded};
ghost use Rattle.serial_runs.specs.Playing.{GoesOnBehind, IsIdle, StopsAtLine, id_of};
ghost use Rattle.script_text.specs.declared.script.Verb.TheVariants as verbs;
ghost use Rattle.tp_spec.specs.Machine.{IsWholeRun};

use crate::sending::{hand_in, may_go_on};
use open_tree::{Job, Taken, Tree};
use run_laws::states_of_runs;
use script_text::{ScriptLine, Verb};
use search_workers::Worker;
use tp_spec::{Cause, Event, NoMemory};
use tp_world::Clock;

/// An outcome stands, so that no line is played any more.
#[derive(Clone, Copy, Debug, PartialEq, Eq)]
pub(crate) struct Over;

/// The turn of a take line. Gives the job that it takes, if it takes one.
pub(crate) fn take_line<'p, C: Clock>(
    tree: &mut Tree<'p, C>,
    line: &ScriptLine,
) -> Result<Option<Job<'p>>, Over>
    requires take { line.now.verb ≡ verbs.Take }
    requires standing { has_outcome tree.old.history ≡ false }
    ensures whole { IsWholeRun tree.new.problem tree.new.limits tree.new.history }
    ensures charter { SameCharter tree.old tree.new }
    ensures on { IfOk result (GoesOnBehind tree.old.problem tree.old.limits line.now
        (C.last tree.new.clock) tree.old.history tree.new.history None) }
    ensures over { OnErr result (StopsAtLine tree.old.limits line.now None
        (C.last tree.new.clock) tree.old.history tree.new.history) }
{
    match tree.take(line.actor) {
        Ok(Taken::Job(job)) => Ok(Some(job)),
        Ok(Taken::Nothing) => Ok(None),
        Ok(Taken::Over) => Err(Over),
        Err(NoMemory) => Err(Over),
    }
}

/// The turn of an actor without a deed.
pub(crate) fn look_line<'p, C: Clock>(tree: &mut Tree<'p, C>, actor: u32) -> Result<(), Over>
    requires standing { has_outcome tree.old.history ≡ false }
    ensures whole { IsWholeRun tree.new.problem tree.new.limits tree.new.history }
    ensures charter { SameCharter tree.old tree.new }
    ensures on { OnOk result (IsIdle actor (C.last tree.new.clock) tree.old.history
        tree.new.history false) }
    ensures over { OnErr result (IsIdle actor (C.last tree.new.clock) tree.old.history
        tree.new.history true ⊎ (tree.new.history ≡ tree.old.history ++ Event.Halt Cause.Memory
        ∷ [])) }
{
    let sent = tree.commits().len();
    match tree.look(actor, sent) {
        Ok(look) => { if look.over { Err(Over) } else { Ok(()) } }
        Err(NoMemory) => Err(Over),
    }
}

/// The turn of a merge line whose actor holds a job.
pub(crate) fn merge_line<'p, C: Clock>(
    worker: &mut Worker<'p>,
    tree: &mut Tree<'p, C>,
    line: &ScriptLine,
    job: Job<'p>,
) -> Result<(), Over>
    requires merge { line.now.verb ≡ verbs.Merge }
    requires problem { tree.old.problem ≡ worker.old }
    requires bounded { IsBounded worker.old tree.old.limits }
    requires job { HasJob worker.old tree.old.limits tree.old.history line.now.actor job }
    requires standing { has_outcome tree.old.history ≡ false }
    ensures worker { worker.new ≡ worker.old }
    ensures charter { SameCharter tree.old tree.new }
    ensures on { OnOk result (GoesOnBehind worker.old tree.old.limits line.now
        (C.last tree.new.clock) tree.old.history tree.new.history (Some job.entry) None) }
    ensures over { OnErr result (StopsAtLine tree.old.limits line.now (Some job.entry.id)
        (C.last tree.new.clock) tree.old.history tree.new.history) }
{
    states_of_runs();
    tree.history();
    let Ok(sprouts) = worker.sprout(job) else {
        tree.halt(Cause::Memory);
        return Err(Over);
    };
    let merged = hand_in(tree, line.actor, sprouts);
    if may_go_on(merged) { Ok(()) } else { Err(Over) }
}

/// The turn of a line, behind which its actor holds what it gives.
pub(crate) fn turn_line<'p, C: Clock>(
    worker: &mut Worker<'p>,
    tree: &mut Tree<'p, C>,
    line: &ScriptLine,
    held: Option<Job<'p>>,
) -> Result<Option<Job<'p>>, Over>
    requires problem { tree.old.problem ≡ worker.old }
    requires bounded { IsBounded worker.old tree.old.limits }
    requires standing { has_outcome tree.old.history ≡ false }
    requires free { line.now.verb ≡ verbs.Take → held ≡ None }
    requires job { line.now.verb ≡ verbs.Merge → IfSome held
        (HasJob worker.old tree.old.limits tree.old.history line.now.actor) }
    ensures worker { worker.new ≡ worker.old }
    ensures charter { SameCharter tree.old tree.new }
    ensures on { IfOk result (GoesOnBehind worker.old tree.old.limits line.now
        (C.last tree.new.clock) tree.old.history tree.new.history held.entry) }
    ensures over { OnErr result (StopsAtLine tree.old.limits line.now (id_of held.entry)
        (C.last tree.new.clock) tree.old.history tree.new.history) }
{
    match line.verb {
        Verb::Take => take_line(tree, line),
        Verb::Merge => match held {
            Some(job) => {
                merge_line(worker, tree, line, job)?;
                Ok(None)
            }
            None => {
                look_line(tree, line.actor)?;
                Ok(None)
            }
        },
        Verb::Look => {
            look_line(tree, line.actor)?;
            Ok(held)
        }
    }
}
