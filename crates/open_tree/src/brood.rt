ghost use Rattle.std.specs.Prelude.{◌≡◌, ◌<◌, ◌+◌, ◌^◌, ◌++◌, ◌∷◌, [], length, IfOk};
ghost use Rattle.machine_run.specs.Views.{state};
ghost use Rattle.open_tree.specs.Broods.{Renews};
ghost use Rattle.open_tree.specs.Steps.{AreBrood, AreReady};
ghost use Rattle.tp_spec.specs.Words.{Sound};
ghost use Rattle.word_network.specs.Conditions.{AreLimits};

use crate::job::Sprouts;
use machine_run::MachineRun;
use std::alloc::Global;
use tp_spec::{List, Mark, NoMemory};
use word_frontier::Child;
use word_network::deadline;

/// A word with one mark more.
fn with_mark(alloc: Global, word: &[Mark], mark: Mark) -> Result<Vec<Mark>, NoMemory>
    ensures { IfOk result (λ v. v.items ≡ word.now ++ mark ∷ []) }
{
    let mut longer = Vec::with_capacity(alloc, word.len().saturating_add(1))?;
    longer.extend_from_slice(word)?;
    match longer.push(mark) {
        Ok(()) => Ok(longer),
        Err(_) => Err(NoMemory),
    }
}

/// A child of a word with its deadline under the run's commitments; none where these leave the
/// longer word dead at every clock.
fn renewed_child<'p>(
    alloc: Global,
    run: &MachineRun<'p>,
    word: &[Mark],
    child: Child,
) -> Result<Option<Child>, NoMemory>
    requires limits { AreLimits run.now.limits }
    requires sound { Sound run.now.problem (word.now ++ child.mark ∷ []) }
    requires few { length word.now + 1 < 2 ^ 31 }
    ensures { IfOk result (Renews run.now.problem run.now.limits (state run.now).commits word.now
        child) }
{
    let longer = with_mark(alloc, word, child.mark)?;
    match deadline(alloc, run.problem(), run.limits(), &longer, run.commits())? {
        Some(deadline) => Ok(Some(Child {
            mark: child.mark,
            rank: child.rank,
            deadline,
        })),
        None => Ok(None),
    }
}

/// The children of a job's word under the run's commitments, of which there are more than when the
/// job was taken. No mark is missing: a word that is live now was live under the job's view.
pub(crate) fn renewed_children<'p>(
    alloc: Global,
    run: &MachineRun<'p>,
    sprouts: &Sprouts<'p>,
) -> Result<List<Child>, NoMemory>
    requires ready { AreReady run.now sprouts.now }
    ensures { IfOk result (AreBrood run.now sprouts.now.job.id) }
{
    let word = sprouts.job().node().word();
    let mut children = List::new(alloc);
    for child in sprouts.children() {
        if let Some(renewed) = renewed_child(alloc, run, word, *child)? {
            children.push(renewed)?;
        }
    }
    Ok(children)
}
