ghost use Rattle.std.specs.Prelude.{◌≡◌, [], true, false, Ok, Err, IfOk, IfErr, MatchOption, MatchBool};
ghost use Rattle.machine_run.specs.Turns.{has_outcome};
ghost use Rattle.open_tree.specs.Charter.{SameCharter};
ghost use Rattle.serial_runs.specs.Commands.{GivesCommands};
ghost use Rattle.serial_runs.specs.Endings.{Ends, HasResult};
ghost use Rattle.serial_runs.specs.OneWorker.{IsSearching, IsHolding, GoesOn, HasSearched, IsWorked, TakesOn};
ghost use Rattle.serial_runs.specs.Stopping.{PutsOn, answer_of};

use crate::sending::{hand_in, may_go_on, send_new};
use open_tree::{Job, Taken, Tree};
use run_laws::states_of_runs;
use search_workers::Worker;
use std::alloc::Global;
use tp_spec::{Cause, NoMemory, Problem};
use tp_world::{Clock, SendFault, Sink};

/// One worker, actor 1, takes a node, sprouts it and merges the sprouts, again and again, until an
/// outcome stands. A node that left the frontier between the two is passed over. Behind each turn
/// the commands of what it committed are sent, one put a command; where one could not be put,
/// nothing is put behind it, and the run is halted where no outcome stands. Where memory is refused
/// the run is halted.
pub fn search<'p, C: Clock, O: Sink>(
    alloc: Global,
    problem: &'p Problem,
    tree: &mut Tree<'p, C>,
    out: &mut O,
) -> Result<(), SendFault>
    requires problem { tree.old.problem ≡ problem.now }
    requires searching { IsSearching problem.now tree.old.limits tree.old.history }
    requires fresh { tree.old.history ≡ [] }
    ensures charter { SameCharter tree.old tree.new }
    ensures outcome { has_outcome tree.new.history ≡ true }
    ensures ends { Ends tree.new.history result }
    ensures busy { HasResult tree.new.history → IsWorked tree.new.limits tree.new.history }
    ensures commands { GivesCommands problem.now tree.new.limits tree.new.history (O.view out.old)
        (O.view out.new) result }
{
    let Ok(mut worker) = Worker::new(alloc, problem) else {
        tree.halt(Cause::Memory);
        return Ok(());
    };
    'jobs: loop {
        let Some(job) = take_job(alloc, problem, tree, out)? else {
            return Ok(());
        };
        if !merge_job(alloc, problem, &mut worker, tree, out, job)? {
            return Ok(());
        }
    }
}

/// Takes a node, and sends the commands of what the turn commits. None where an outcome stands.
fn take_job<'p, C: Clock, O: Sink>(
    alloc: Global,
    problem: &'p Problem,
    tree: &mut Tree<'p, C>,
    out: &mut O,
) -> Result<Option<Job<'p>>, SendFault>
    requires problem { tree.old.problem ≡ problem.now }
    requires searching { IsSearching problem.now tree.old.limits tree.old.history }
    ensures charter { SameCharter tree.old tree.new }
    ensures took { IfOk result (λ o. MatchOption o
        (HasSearched tree.old.limits tree.new.history (Ok tt))
        (TakesOn problem.now tree.old.limits tree.old.history tree.new.history)) }
    ensures err { IfErr result (λ fault. HasSearched tree.old.limits tree.new.history (Err fault)) }
    ensures puts { PutsOn problem.now tree.old.limits tree.old.history tree.new.history
        (O.view out.old) (O.view out.new) (answer_of result) }
{
    let sent = tree.commits().len();
    let taken = tree.take(1);
    send_new(alloc, problem, tree, out, sent)?;
    match taken {
        Ok(Taken::Job(job)) => Ok(Some(job)),
        Ok(Taken::Nothing) => unreachable!(),
        Ok(Taken::Over) => Ok(None),
        Err(NoMemory) => Ok(None),
    }
}

/// Sprouts a job and merges it, and sends the commands of what the turn commits. Whether the search
/// goes on.
fn merge_job<'p, C: Clock, O: Sink>(
    alloc: Global,
    problem: &'p Problem,
    worker: &mut Worker<'p>,
    tree: &mut Tree<'p, C>,
    out: &mut O,
    job: Job<'p>,
) -> Result<bool, SendFault>
    requires problem { tree.old.problem ≡ problem.now }
    requires worker { worker.old ≡ problem.now }
    requires holding { IsHolding problem.now tree.old.limits tree.old.history job }
    ensures worker { worker.new ≡ worker.old }
    ensures charter { SameCharter tree.old tree.new }
    ensures merged { IfOk result (λ on. MatchBool on
        (GoesOn problem.now tree.old.limits job.entry.id tree.old.history tree.new.history)
        (HasSearched tree.old.limits tree.new.history (Ok tt))) }
    ensures err { IfErr result (λ fault. HasSearched tree.old.limits tree.new.history (Err fault)) }
    ensures puts { PutsOn problem.now tree.old.limits tree.old.history tree.new.history
        (O.view out.old) (O.view out.new) (answer_of result) }
{
    states_of_runs();
    let Ok(sprouts) = worker.sprout(job) else {
        tree.halt(Cause::Memory);
        return Ok(false);
    };
    let sent = tree.commits().len();
    let merged = hand_in(tree, 1, sprouts);
    send_new(alloc, problem, tree, out, sent)?;
    Ok(may_go_on(merged))
}
