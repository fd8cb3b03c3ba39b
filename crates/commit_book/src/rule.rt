ghost use Rattle.std.specs.Prelude.{◌≡◌, ◌<◌, ◌≤◌, ◌^◌, ◌+◌, ◌-◌, [], None, length, count_by, slice_index, take, drop, IfSome, IfNone};
ghost use Rattle.commit_book.specs.Commits.{IsNextStart, IsUrgent};
ghost use Rattle.commit_book.specs.Starts.{starts_by, commits_by, free_action, closing_from, started, IsFree};
ghost use Rattle.tp_spec.specs.Items.{is_durative as lasts};
ghost use Rattle.tp_spec.specs.Lists.{is_empty};
ghost use Rattle.tp_spec.specs.Machine.{candidate};
ghost use Rattle.tp_spec.specs.Schedules.{awaited, finish};
ghost use Rattle.tp_spec.specs.Words.{Sound, groups, acts_of, is_start_of, is_end_of};
ghost use Rattle.tp_spec.specs.declared.plan.Timed.{Timed as ATimed};
ghost use Rattle.tp_spec.specs.declared.problem.Problem.{Problem as AProblem};
ghost use Rattle.word_network.specs.Conditions.{AreLimits};
ghost use Rattle.word_network.specs.Schedules.{IsLatest, schedule_of, end_in};

use tp_spec::{Item, Kind, Limits, Mark, Problem, Timed};
use word_network::{Latest, OpenEnd};

/// A start in a word: the index of its mark, the group that it stands in, counted from 0, and its
/// action.
#[derive(Clone, Copy, Debug, PartialEq, Eq)]
pub struct Place {
    pub mark: u32,
    pub group: u32,
    pub action: u32,
}

/// The first start of a word that is no commitment: the k-th start of an action is its k-th
/// commitment. None exactly where every start is one.
pub fn next_start(problem: &Problem, word: &[Mark], commits: &[Timed]) -> Option<Place>
    requires sound { Sound problem.now word.now }
    requires few { length word.now < 2 ^ 31 }
    ensures some { IfSome result (IsNextStart problem.now word.now commits.now) }
    ensures none { IfNone result (candidate [] commits.now (acts_of problem.now word.now) ≡ None) }
{
    // only the lengths of acts hang on the problem, not their starts
    let _ = problem;
    first_free(word, commits)
}

/// The act of the commit rule: the first start of a word that is no commitment, at its tick in the
/// word's greatest schedule and with the length that this gives. None exactly where there is no
/// such start, or its tick is later than the clock plus the lead.
pub fn urgent(
    problem: &Problem,
    limits: &Limits,
    word: &[Mark],
    commits: &[Timed],
    latest: &Latest,
    now: u64,
) -> Option<Timed>
    requires limits { AreLimits limits.now }
    requires now { now ≤ 2 ^ 40 + 1 }
    requires sound { Sound problem.now word.now }
    requires few { length word.now < 2 ^ 31 }
    requires latest { IsLatest problem.now limits.now now commits.now word.now latest.now }
    ensures some { IfSome result (IsUrgent problem.now limits.now now commits.now word.now
        (schedule_of latest.now)) }
    ensures none { IfNone result ((act : ATimed)
        → ¬ (IsUrgent problem.now limits.now now commits.now word.now (schedule_of latest.now)
        act)) }
{
    let Some(place) = first_free(word, commits) else {
        return None;
    };
    let start = tick_at(latest.groups.as_slice(), place.group);
    if start > now + limits.lead {
        return None;
    }
    let end = end_of(problem, word, latest, &place);
    Some(Timed {
        action: place.action,
        start,
        length: end.saturating_sub(start),
    })
}

/// Whether a word has each commitment: as many starts of each action as are committed, at least.
pub fn are_held(problem: &Problem, word: &[Mark], commits: &[Timed]) -> bool
    ensures { result ≡ is_empty (awaited (acts_of problem.now word.now) commits.now) }
{
    // only the lengths of acts hang on the problem, not their number
    let _ = problem;
    for i in 0..commits.len() {
        let action = commits[i].action;
        if count_starts(word, action) <= count_commits(&commits[..i], action) {
            return false;
        }
    }
    true
}

/// The place of the first start that is no commitment.
fn first_free(word: &[Mark], commits: &[Timed]) -> Option<Place>
    requires { length word.now < 2 ^ 31 }
    ensures some { IfSome result (IsFree word.now commits.now) }
    ensures none { IfNone result ((p : AProblem)
        → candidate [] commits.now (acts_of p word.now) ≡ None) }
{
    for i in 0..word.len() {
        if let Some(action) = free_start(&word[..i], &word[i], commits) {
            return Some(Place {
                mark: i as u32,
                group: group_at(word, i),
                action,
            });
        }
    }
    None
}

/// The action that a mark starts behind a word, where this start is no commitment.
fn free_start(before: &[Mark], mark: &Mark, commits: &[Timed]) -> Option<u32>
    ensures { result ≡ free_action before.now commits.now mark.now.item }
{
    match mark.item {
        Item::Start(action) => {
            if count_starts(before, action) < count_commits(commits, action) {
                None
            } else {
                Some(action)
            }
        }
        Item::TimedAt(_) => None,
        Item::End(_) => None,
    }
}

fn count_starts(word: &[Mark], action: u32) -> usize
    ensures { result ≡ starts_by action word.now }
{
    word.iter().filter(|mark| starts(mark, action)).count()
}

fn starts(mark: &Mark, action: u32) -> bool
    ensures { result ≡ is_start_of action mark.now.item }
{
    match mark.item {
        Item::Start(started) => action == started,
        Item::TimedAt(_) => false,
        Item::End(_) => false,
    }
}

fn ends(mark: &Mark, action: u32) -> bool
    ensures { result ≡ is_end_of action mark.now.item }
{
    match mark.item {
        Item::End(ended) => action == ended,
        Item::TimedAt(_) => false,
        Item::Start(_) => false,
    }
}

fn count_commits(commits: &[Timed], action: u32) -> usize
    ensures { result ≡ commits_by action commits.now }
{
    commits
        .iter()
        .filter(|commit| commit.action == action)
        .count()
}

/// The group in which the mark of an index stands.
fn group_at(word: &[Mark], index: usize) -> u32
    requires few { length word.now < 2 ^ 31 }
    requires there { index < length word.now }
    ensures { result ≡ groups (take (index + 1) word.now) - 1 }
{
    count_groups(&word[..index + 1]).saturating_sub(1)
}

fn count_groups(word: &[Mark]) -> u32
    requires { length word.now < 2 ^ 31 }
    ensures { result ≡ groups word.now }
{
    count_fresh(word) as u32
}

fn count_fresh(word: &[Mark]) -> usize
    ensures told { result ≡ count_by (λ m. m.fresh) word.now }
    ensures few { result ≤ length word.now }
{
    word.iter().filter(|mark| mark.fresh).count()
}

/// The tick at which the act that starts at a place of a word ends in a schedule.
fn end_of(problem: &Problem, word: &[Mark], latest: &Latest, place: &Place) -> u64
    requires few { length word.now < 2 ^ 31 }
    requires there { place.now.mark < length word.now }
    ensures { result ≡ finish (schedule_of latest.now)
        (started problem.now word.now place.now) }
{
    match closing_group(problem, word, place) {
        Some(group) => tick_at(latest.groups.as_slice(), group),
        None => open_end(latest.ends.as_slice(), place.action),
    }
}

/// The group in which the act that starts at a place ends, or none while it runs.
fn closing_group(problem: &Problem, word: &[Mark], place: &Place) -> Option<u32>
    requires few { length word.now < 2 ^ 31 }
    requires there { place.now.mark < length word.now }
    ensures { result ≡ (started problem.now word.now place.now).closes }
{
    if is_durative(problem, place.action) {
        first_end(word, place.mark as usize + 1, place.action)
    } else {
        Some(place.group)
    }
}

/// The group of the first end of an action from an index on.
fn first_end(word: &[Mark], from: usize, action: u32) -> Option<u32>
    requires few { length word.now < 2 ^ 31 }
    requires there { from ≤ length word.now }
    ensures { result ≡ closing_from (groups (take from word.now)) action (drop from word.now) }
{
    for i in from..word.len() {
        if ends(&word[i], action) {
            return Some(group_at(word, i));
        }
    }
    None
}

/// Whether an action of the problem has a length.
fn is_durative(problem: &Problem, action: u32) -> bool
    ensures { result ≡ lasts problem.now action }
{
    match problem.actions.as_slice().get(action as usize) {
        Some(found) => match found.kind {
            Kind::Instant => false,
            Kind::Durative { .. } => true,
        },
        None => false,
    }
}

/// The tick of a group, and 0 past them all.
fn tick_at(ticks: &[u64], group: u32) -> u64
    ensures { result ≡ slice_index ticks.now group }
{
    match ticks.get(group as usize) {
        Some(tick) => *tick,
        None => 0,
    }
}

/// The end of an action's running act, and 0 where none runs.
fn open_end(ends: &[OpenEnd], action: u32) -> u64
    ensures { result ≡ end_in action ends.now }
{
    for kept in ends {
        if kept.action == action {
            return kept.end;
        }
    }
    0
}
