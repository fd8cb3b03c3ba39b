ghost use Rattle.std.specs.Prelude.{◌≡◌, ◌++◌, ◌∷◌, [], false, ◌==◌, map, IsTrue, IfOk, OnOk};
ghost use Rattle.std.specs.List.{list_any};
ghost use Rattle.tp_spec.specs.Schedules.{awaited, without_first};
ghost use Rattle.word_network.specs.Parts.{act_of};

use crate::parts::WordAct;
use std::alloc::Global;
use tp_spec::{NoMemory, Timed};

/// The commitments that are not yet in a word with these acts.
pub fn awaited_by(
    alloc: Global,
    acts: &[WordAct],
    commits: &[Timed],
) -> Result<Vec<Timed>, NoMemory>
    ensures { IfOk result (λ v. v.items ≡ awaited (map act_of acts.now) commits.now) }
{
    if commits.is_empty() {
        return Ok(Vec::new(alloc));
    }
    let mut left = Vec::from_slice(alloc, acts)?;
    let mut waiting = Vec::new(alloc);
    for commit in commits {
        if !take_act(&mut left, commit.action) {
            push_commit(&mut waiting, *commit)?;
        }
    }
    Ok(waiting)
}

fn push_commit(waiting: &mut Vec<Timed>, commit: Timed) -> Result<(), NoMemory>
    ensures { OnOk result (waiting.new.items ≡ waiting.old.items ++ commit ∷ []) }
{
    match waiting.push(commit) {
        Ok(()) => Ok(()),
        Err(_) => Err(NoMemory),
    }
}

/// Takes the first act of an action out, if there is one.
fn take_act(acts: &mut Vec<WordAct>, action: u32) -> bool
    ensures any { result ≡ list_any (λ x. x.action == action) (map act_of acts.old.items) }
    ensures taken { IsTrue result
        → map act_of acts.new.items ≡ without_first action (map act_of acts.old.items) }
    ensures same { result ≡ false → acts.new.items ≡ acts.old.items }
{
    for i in 0..acts.len() {
        if acts[i].action == action {
            acts.remove(i);
            return true;
        }
    }
    false
}
