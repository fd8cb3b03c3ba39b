ghost use Rattle.std.specs.Prelude.{◌≡◌, ◌≤◌, ◌++◌, ◌∷◌, [], map, is_some, IfOk, IfSome, IfNone, IsTrue};
ghost use Rattle.node_state.specs.Growths.{next_marks, rank_with};
ghost use Rattle.search_workers.specs.Sprouting.{CanSprout, AreKept, IsLiveMark};
ghost use Rattle.search_workers.specs.Outlooks.{IsOutlookOf};
ghost use Rattle.tp_laws.specs.Clocks.{IsDeadline};
ghost use Rattle.tp_laws.specs.Instants.{is_instant_item, of_instants};
ghost use Rattle.tp_spec.specs.Schedules.{Live};
ghost use Rattle.tp_spec.specs.Words.{Sound};

use crate::outlook::{Outlook, is_instant, outlook_of};
use open_tree::Job;
use std::alloc::Global;
use tp_spec::{List, Mark, NoMemory, Problem};
use word_frontier::Child;
use word_network::deadline;

/// The children of a job's word: those of the marks that may follow it which make it a live word
/// under the job's view, with the ranks and the deadlines of the longer words.
pub fn children_of(
    alloc: Global,
    problem: &Problem,
    job: &Job<'_>,
    marks: &[Mark],
    ranks: &[u32],
) -> Result<List<Child>, NoMemory>
    requires can { CanSprout problem.now job.now }
    requires follow { marks.now ≡ next_marks problem.now job.now.node.word }
    requires ranked { ranks.now ≡ map (rank_with problem.now job.now.node.word) marks.now }
    ensures { IfOk result (AreKept problem.now job.now marks.now) }
{
    let outlook = outlook_under(problem, job);
    let mut children = List::new(alloc);
    for index in 0..marks.len() {
        let mark = marks[index];
        match live_until(alloc, problem, job, outlook, mark)? {
            Some(deadline) => children.push(Child {
                mark,
                rank: ranks[index],
                deadline,
            })?,
            None => {}
        }
    }
    Ok(children)
}

/// The deadline of a job's word with a mark behind it, which may follow. None exactly where that
/// word is not live under the job's view.
fn live_until(
    alloc: Global,
    problem: &Problem,
    job: &Job<'_>,
    outlook: Option<Outlook>,
    mark: Mark,
) -> Result<Option<u64>, NoMemory>
    requires can { CanSprout problem.now job.now }
    requires known { IfSome outlook (IsOutlookOf problem.now job.now) }
    requires sound { Sound problem.now (job.now.node.word ++ mark ∷ []) }
    ensures timely { IfOk result (λ r. IfSome r (IsDeadline problem.now job.now.limits
        job.now.commits (job.now.node.word ++ mark ∷ []))) }
    ensures live { IfOk result (λ r. IfSome r (λ _. IsLiveMark problem.now job.now mark)) }
    ensures none { IfOk result (λ r. IfNone r (¬ (IsLiveMark problem.now job.now mark))) }
{
    match deadline_with(alloc, problem, job, outlook, mark)? {
        Some(deadline) => {
            if deadline >= job.now() {
                Ok(Some(deadline))
            } else {
                Ok(None)
            }
        }
        None => Ok(None),
    }
}

/// The deadline of a job's word with a mark behind it, which may follow. Where both are of instants
/// it comes from the word's outlook, else from a network.
fn deadline_with(
    alloc: Global,
    problem: &Problem,
    job: &Job<'_>,
    outlook: Option<Outlook>,
    mark: Mark,
) -> Result<Option<u64>, NoMemory>
    requires can { CanSprout problem.now job.now }
    requires known { IfSome outlook (IsOutlookOf problem.now job.now) }
    requires sound { Sound problem.now (job.now.node.word ++ mark ∷ []) }
    ensures some { IfOk result (λ r. IfSome r (IsDeadline problem.now job.now.limits
        job.now.commits (job.now.node.word ++ mark ∷ []))) }
    ensures none { IfOk result (λ r. IfNone r (¬ (Live problem.now job.now.limits 0
        job.now.commits (job.now.node.word ++ mark ∷ [])))) }
{
    match outlook {
        Some(known) => {
            if is_instant(problem, mark.item) {
                Ok(by_outlook(problem, job, known, mark))
            } else {
                by_network(alloc, problem, job, mark)
            }
        }
        None => by_network(alloc, problem, job, mark),
    }
}

/// The outlook of a job's word, where that is of instants and nothing is committed.
fn outlook_under(problem: &Problem, job: &Job<'_>) -> Option<Outlook>
    requires { CanSprout problem.now job.now }
    ensures known { IfSome result (IsOutlookOf problem.now job.now) }
    ensures told { job.now.commits ≡ []
        → is_some result ≡ of_instants problem.now job.now.node.word }
{
    if job.commits().is_empty() {
        outlook_of(problem, job.node().word())
    } else {
        None
    }
}

/// The deadline by the word's outlook.
fn by_outlook(problem: &Problem, job: &Job<'_>, outlook: Outlook, mark: Mark) -> Option<u64>
    requires can { CanSprout problem.now job.now }
    requires known { IsOutlookOf problem.now job.now outlook }
    requires instant { IsTrue (is_instant_item problem.now mark.item) }
    requires sound { Sound problem.now (job.now.node.word ++ mark ∷ []) }
    ensures some { IfSome result (IsDeadline problem.now job.now.limits job.now.commits
        (job.now.node.word ++ mark ∷ [])) }
    ensures none { IfNone result (¬ (Live problem.now job.now.limits 0 job.now.commits
        (job.now.node.word ++ mark ∷ []))) }
{
    outlook.deadline_with(problem, job.limits(), job.node().deadline(), mark)
}

/// The deadline by the network of the longer word.
fn by_network(
    alloc: Global,
    problem: &Problem,
    job: &Job<'_>,
    mark: Mark,
) -> Result<Option<u64>, NoMemory>
    requires can { CanSprout problem.now job.now }
    requires sound { Sound problem.now (job.now.node.word ++ mark ∷ []) }
    ensures some { IfOk result (λ r. IfSome r (IsDeadline problem.now job.now.limits
        job.now.commits (job.now.node.word ++ mark ∷ []))) }
    ensures none { IfOk result (λ r. IfNone r (¬ (Live problem.now job.now.limits 0
        job.now.commits (job.now.node.word ++ mark ∷ [])))) }
{
    let Ok(copy) = Vec::from_slice(alloc, job.node().word()) else {
        return Err(NoMemory);
    };
    let mut word = List::of(copy);
    word.push(mark)?;
    deadline(alloc, problem, job.limits(), word.as_slice(), job.commits())
}
