//! Reads a domain and a problem of it, and counts what they say.
ghost use Rattle.std.specs.Prelude.{◌≡◌, ◌<◌, ◌≤◌, ◌^◌, List, ℕ, length, IfOk, IfErr};
ghost use Rattle.pddl_domain.specs.Meaning.{domain_of};
ghost use Rattle.pddl_problem.specs.Meaning.{task_of};
ghost use Rattle.read_bench.specs.Reading.{Says, IsSaid, Explains, counts_of};

use pddl_domain::{Domain, read_domain};
use pddl_parts::PddlFault;
use pddl_problem::{Task, read_problem};
use pddl_tokens::{TextFault, read_forms};
use std::alloc::Global;
use std::fmt;
use thiserror::Error;

/// How many of each kind of thing a domain and a problem of it say. Types count `object`, and
/// objects the constants.
#[derive(Clone, Copy, Debug, PartialEq, Eq)]
pub struct Counts {
    pub types: usize,
    pub predicates: usize,
    pub functions: usize,
    pub actions: usize,
    pub objects: usize,
    pub facts: usize,
    pub values: usize,
    pub timed: usize,
    pub goals: usize,
}

impl fmt::Display for Counts {
    fn fmt<W: fmt::Write>(&self, f: &mut fmt::Formatter<W>) -> fmt::Result {
        write!(f, "types {} predicates {} ", self.types, self.predicates)?;
        write!(f, "functions {} actions {} ", self.functions, self.actions)?;
        write!(f, "objects {} facts {} ", self.objects, self.facts)?;
        write!(
            f,
            "values {} timed {} goals {}",
            self.values, self.timed, self.goals
        )
    }
}

/// Why two texts are no domain and a problem of it: which text, and its first fault.
#[derive(Clone, Copy, Debug, PartialEq, Eq, Error)]
pub enum ReadFault {
    #[error("domain: {0}")]
    DomainText(TextFault),
    #[error("domain: {0}")]
    Domain(PddlFault),
    #[error("problem: {0}")]
    ProblemText(TextFault),
    #[error("problem: {0}")]
    Problem(PddlFault),
}

/// The domain that a text says, with numbers in whole units.
fn domain_in(alloc: Global, text: &[u8]) -> Result<Domain, ReadFault>
    requires { length text.now < 2 ^ 31 }
    ensures domain { IfOk result (λ d. Says text.now (λ forms. d ≡ domain_of 1 forms)) }
    ensures fault { IfErr result (λ f. (problem : List ℕ) → Explains f text.now problem) }
{
    let forms = match read_forms(alloc, text) {
        Ok(forms) => forms,
        Err(fault) => return Err(ReadFault::DomainText(fault)),
    };
    match read_domain(alloc, &forms, 1) {
        Ok(domain) => Ok(domain),
        Err(fault) => Err(ReadFault::Domain(fault)),
    }
}

/// The problem of a domain that a text says, with numbers in whole units.
fn problem_in(alloc: Global, domain: &Domain, text: &[u8]) -> Result<Task, ReadFault>
    requires { length text.now < 2 ^ 31 }
    ensures task { IfOk result (λ t. Says text.now (λ forms. t ≡ task_of domain.now 1 forms)) }
    ensures fault { IfErr result (λ f. (source : List ℕ)
        → Says source (λ forms. domain.now ≡ domain_of 1 forms) → Explains f source text.now) }
{
    let forms = match read_forms(alloc, text) {
        Ok(forms) => forms,
        Err(fault) => return Err(ReadFault::ProblemText(fault)),
    };
    match read_problem(alloc, &forms, domain, 1) {
        Ok(task) => Ok(task),
        Err(fault) => Err(ReadFault::Problem(fault)),
    }
}

/// How much a domain and a problem hold.
fn counts_of(domain: &Domain, task: &Task) -> Counts
    ensures { result ≡ counts_of domain.now task.now }
{
    Counts {
        types: domain.types.as_slice().len(),
        predicates: domain.predicates.as_slice().len(),
        functions: domain.functions.as_slice().len(),
        actions: domain.actions.as_slice().len(),
        objects: task.objects.as_slice().len(),
        facts: task.init.as_slice().len(),
        values: task.values.as_slice().len(),
        timed: task.timed.as_slice().len(),
        goals: task.goal.as_slice().len(),
    }
}

/// Reads a domain and a problem of it, and counts what they say, or answers the first text that has
/// a fault with its first fault.
pub fn read_pair(alloc: Global, domain: &[u8], problem: &[u8]) -> Result<Counts, ReadFault>
    requires domain { length domain.now < 2 ^ 31 }
    requires problem { length problem.now < 2 ^ 31 }
    ensures counts { IfOk result (λ counts. IsSaid counts domain.now problem.now) }
    ensures fault { IfErr result (λ f. Explains f domain.now problem.now) }
{
    let domain = match domain_in(alloc, domain) {
        Ok(domain) => domain,
        Err(fault) => return Err(fault),
    };
    match problem_in(alloc, &domain, problem) {
        Ok(task) => Ok(counts_of(&domain, &task)),
        Err(fault) => Err(fault),
    }
}

/// What came of the last reading, and how many there were.
#[derive(Clone, Copy, Debug)]
pub struct Reading {
    pub outcome: Result<Counts, ReadFault>,
    pub rounds: u64,
}

/// Reads a domain and a problem of it so many times, whether they have a fault or not.
pub fn read_often(alloc: Global, domain: &[u8], problem: &[u8], rounds: u64) -> Reading
    requires domain { length domain.now < 2 ^ 31 }
    requires problem { length problem.now < 2 ^ 31 }
    requires once { 1 ≤ rounds }
    ensures counts { IfOk result.outcome (λ counts. IsSaid counts domain.now problem.now) }
    ensures fault { IfErr result.outcome (λ f. Explains f domain.now problem.now) }
    ensures rounds { result.rounds ≡ rounds }
{
    let mut outcome = read_pair(alloc, domain, problem);
    let mut made = 1;
    while made < rounds {
        outcome = read_pair(alloc, domain, problem);
        made += 1;
    }
    Reading {
        outcome,
        rounds: made,
    }
}
