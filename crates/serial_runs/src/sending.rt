ghost use Rattle.std.specs.Prelude.{◌≡◌, ◌≤◌, ◌++◌, ◌∷◌, [], false, drop, length, IfOk, OnErr};
ghost use Rattle.dispatcher.specs.Sending.{GivesSent};
ghost use Rattle.machine_run.specs.Turns.{has_outcome};
ghost use Rattle.open_tree.specs.Answers.{GivesMerged};
ghost use Rattle.open_tree.specs.Charter.{SameCharter};
ghost use Rattle.open_tree.specs.Jobs.{IsJobOf};
ghost use Rattle.serial_runs.specs.Commands.{committed};
ghost use Rattle.serial_runs.specs.OneWorker.{goes_on};
ghost use Rattle.serial_runs.specs.Stopping.{StopsBy, cause_by};
ghost use Rattle.tp_spec.specs.Machine.{IsWholeRun};

use dispatcher::send;
use open_tree::{Merged, Sprouts, Tree};
use std::alloc::Global;
use tp_spec::{Cause, Event, NoMemory, Problem};
use tp_world::{Clock, SendFault, Sink};

/// Sends the command of each commitment after the first `sent`, of which there are so many. Where
/// one could not be put, nothing is put behind it, and the run is halted where no outcome stands.
pub(crate) fn send_new<'p, C: Clock, O: Sink>(
    alloc: Global,
    problem: &Problem,
    tree: &mut Tree<'p, C>,
    out: &mut O,
    sent: usize,
) -> Result<(), SendFault>
    requires sent { sent ≤ length (committed tree.old.limits tree.old.history) }
    ensures charter { SameCharter tree.old tree.new }
    ensures stops { StopsBy result tree.old.history tree.new.history }
    ensures puts { GivesSent problem.now (drop sent (committed tree.old.limits tree.old.history))
        (O.view out.old) (O.view out.new) result }
{
    match send(alloc, problem, out, &tree.commits()[sent..]) {
        Ok(()) => Ok(()),
        Err(fault) => {
            tree.halt(cause_of(fault));
            Err(fault)
        }
    }
}

/// Hands in the sprouts of an actor's job. Where memory is refused they are dropped.
pub(crate) fn hand_in<'p, C: Clock>(
    tree: &mut Tree<'p, C>,
    actor: u32,
    sprouts: Sprouts<'p>,
) -> Result<Merged, NoMemory>
    requires standing { has_outcome tree.old.history ≡ false }
    requires job { IsJobOf tree.old.limits tree.old.history actor sprouts.job }
    requires problem { sprouts.job.problem ≡ tree.old.problem }
    requires limits { sprouts.job.limits ≡ tree.old.limits }
    ensures whole { IsWholeRun tree.new.problem tree.new.limits tree.new.history }
    ensures charter { SameCharter tree.old tree.new }
    ensures merged { IfOk result (GivesMerged tree.old.limits tree.old.history tree.new.history
        actor (C.last tree.new.clock) sprouts.entry.job.id) }
    ensures refused { OnErr result (tree.new.history ≡ tree.old.history ++ Event.Halt Cause.Memory
        ∷ []) }
{
    match tree.merge(actor, sprouts) {
        Ok(merged) => Ok(merged),
        Err(_) => Err(NoMemory),
    }
}

/// For what a run is halted where a command could not be put.
fn cause_of(fault: SendFault) -> Cause
    ensures { result ≡ cause_by fault }
{
    match fault {
        SendFault::Failed => Cause::Out,
        SendFault::NoMemory => Cause::Memory,
    }
}

/// Whether the search goes on behind a merge.
pub(crate) fn may_go_on(merged: Result<Merged, NoMemory>) -> bool
    ensures { result ≡ goes_on merged }
{
    match merged {
        Ok(Merged::Done) => true,
        Ok(Merged::Stale) => true,
        Ok(Merged::Over) => false,
        Err(NoMemory) => false,
    }
}
