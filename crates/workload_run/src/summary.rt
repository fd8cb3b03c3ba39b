ghost use Rattle.std.specs.Prelude.{◌≡◌, ◌≤◌, ◌<◌, ◌^◌, ◌+◌, ◌++◌, ◌∷◌, [], true, length, IfOk, OnOk};
ghost use Rattle.problem_files.specs.Answers.{IsPddlProblem};
ghost use Rattle.tp_spec.specs.declared.event.Event.{Event as AnEvent};
ghost use Rattle.word_network.specs.Conditions.{AreLimits};
ghost use Rattle.workload.specs.Texts.{made_texts};
ghost use Rattle.workload_run.specs.Summaries.{History, IdsByMarks, IsSummary, line, marks_in, end_tick, result_status, result_word, summary_text as text_by, IsSearched};

use crate::searching::searched;
use line_text::{push_bytes, push_number};
use problem_files::read_pddl;
use run_laws::states_of_runs;
use std::alloc::Global;
use tp_spec::{Event, Limits, NoMemory, Problem};
use workload::make;

/// What sums up a search: the text of seven lines, the status of the program for it (0 for a plan,
/// 1 where the search is exhausted, 2 at the limit of ids), and the events.
#[derive(Drop)]
pub struct Summary {
    pub text: Vec<u8>,
    pub status: u8,
    pub history: Vec<Event>,
}

/// Draws the texts of a domain and a problem from a seed, searches their ground problem, at one
/// tick a unit of time, by one worker whose k-th turn, counted from 0, reads k / 1000 ticks, and
/// sums the search up. Its only error is want of memory.
///
/// That no text of the workload has a fault is tested, not proved: a text with one would be
/// answered as want of memory.
pub fn summary_of(alloc: Global, seed: u64, limits: Limits) -> Result<Summary, NoMemory>
    requires { AreLimits limits }
    ensures sums { IfOk result
        (λ s. IsSummary seed limits s.text.items s.status s.history.items) }
    ensures below { IfOk result (λ s. s.status < 3) }
{
    let problem = problem_of(alloc, seed)?;
    let history = searched(alloc, &problem, limits)?;
    summed_up(alloc, seed, &problem, limits, history)
}

/// The ground problem of the texts that a seed draws.
fn problem_of(alloc: Global, seed: u64) -> Result<Problem, NoMemory>
    ensures { IfOk result (IsPddlProblem (made_texts seed).0 (made_texts seed).1 1) }
{
    let (domain, problem) = make(alloc, seed)?;
    match read_pddl(alloc, &domain, &problem, 1) {
        Ok(problem) => Ok(problem),
        Err(_) => Err(NoMemory),
    }
}

/// Sums up the search of a seed's problem.
fn summed_up(
    alloc: Global,
    seed: u64,
    problem: &Problem,
    limits: Limits,
    history: Vec<Event>,
) -> Result<Summary, NoMemory>
    requires limits { AreLimits limits }
    requires made { IsPddlProblem (made_texts seed).0 (made_texts seed).1 1 problem.now }
    requires searched { IsSearched problem.now limits history.items }
    ensures sums { IfOk result
        (λ s. IsSummary seed limits s.text.items s.status s.history.items) }
    ensures below { IfOk result (λ s. s.status < 3) }
{
    states_of_runs();
    ids_of_histories();
    let (text, status) = text_and_status(alloc, seed, problem, &history)?;
    Ok(Summary {
        text,
        status,
        history,
    })
}

/// The lines and the status of a history that ends with a result.
fn text_and_status(
    alloc: Global,
    seed: u64,
    problem: &Problem,
    history: &[Event],
) -> Result<(Vec<u8>, u8), NoMemory>
    requires few { marks_in history.now < 2 ^ 31 }
    requires some { 0 < length history.now }
    ensures below { IfOk result (λ r. r.1 < 3) }
    ensures sums { IfOk result (λ r. (front : History) (last : AnEvent)
        → history.now ≡ front ++ last ∷ []
        → (r.0.items ≡ text_by seed problem.now (marks_in history.now + 1) last)
        × (r.1 ≡ result_status last)) }
{
    let ids = ids_of(history);
    match history {
        [.., last] => {
            let text = summary_text(alloc, seed, problem, ids, last)?;
            Ok((text, result_status(last)))
        }
        [] => unreachable!(),
    }
}

/// How many ids a history gives, the root's counted.
fn ids_of(history: &[Event]) -> u64
    requires { marks_in history.now < 2 ^ 31 }
    ensures { result ≡ marks_in history.now + 1 }
{
    let mut ids = 1;
    let mut rest = history;
    loop {
        match rest {
            [first, tail @ ..] => {
                ids += marks_of(first);
                rest = tail;
            }
            [] => return ids,
        }
    }
}

/// How many ids an event gives.
fn marks_of(event: &Event) -> u64
    ensures { result ≡ marks_in (event.now ∷ []) }
{
    match event {
        Event::Expand { marks, .. } => marks.as_slice().len() as u64,
        _ => 0,
    }
}

fn result_status(event: &Event) -> u8
    ensures status { result ≡ result_status event.now }
    ensures below { result < 3 }
{
    match event {
        Event::Publish { .. } => 0,
        Event::Exhaust => 1,
        _ => 2,
    }
}

fn end_tick(event: &Event) -> u64
    ensures { result ≡ end_tick event.now }
{
    match event {
        Event::Publish { plan, .. } => plan.end,
        _ => 0,
    }
}

/// Puts the word for a result behind a text.
fn push_word(text: &mut Vec<u8>, event: &Event) -> Result<(), NoMemory>
    ensures { OnOk result (text.new.items ≡ text.old.items ++ result_word event.now) }
{
    match event {
        Event::Publish { .. } => push_bytes(text, b"plan"),
        Event::Exhaust => push_bytes(text, b"exhausted"),
        _ => push_bytes(text, b"limit"),
    }
}

/// Puts a line of a name and a number behind a text.
fn push_line(text: &mut Vec<u8>, name: &[u8], number: u64) -> Result<(), NoMemory>
    ensures { OnOk result (text.new.items ≡ text.old.items ++ line name.now number) }
{
    push_bytes(text, name)?;
    push_number(text, number)?;
    push_bytes(text, b"\n")
}

/// The seven lines.
fn summary_text(
    alloc: Global,
    seed: u64,
    problem: &Problem,
    ids: u64,
    last: &Event,
) -> Result<Vec<u8>, NoMemory>
    ensures { IfOk result (λ t. t.items ≡ text_by seed problem.now ids last.now) }
{
    let mut text = Vec::new(alloc);
    push_line(&mut text, b"seed ", seed)?;
    push_line(&mut text, b"facts ", problem.facts.as_slice().len() as u64)?;
    push_line(
        &mut text,
        b"actions ",
        problem.actions.as_slice().len() as u64,
    )?;
    push_line(&mut text, b"timed ", problem.timed.as_slice().len() as u64)?;
    push_line(&mut text, b"nodes ", ids)?;
    push_bytes(&mut text, b"outcome ")?;
    push_word(&mut text, last)?;
    push_bytes(&mut text, b"\n")?;
    push_line(&mut text, b"end ", end_tick(last))?;
    Ok(text)
}

/// The ids that a history gives are as many as the machine tells.
fn ids_of_histories()
    ensures { IdsByMarks }
{}
