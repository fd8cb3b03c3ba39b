ghost use Rattle.std.specs.Prelude.{◌≡◌, ◌<◌, ◌^◌, ℕ, List, length, IfOk, IfErr};
ghost use Rattle.pddl_tokens.specs.Numbers.{IsScale};
ghost use Rattle.problem_files.specs.Answers.{SaysDomain, SaysTask, AreSaid, IsPddlProblem, IsPddlFaultOf};

use crate::fault::PddlFileFault;
use grounder::{GroundFault, ground_if_well_formed};
use pddl_domain::{Domain, read_domain};
use pddl_parts::PddlFault;
use pddl_problem::{Task, read_problem};
use pddl_tokens::{TextFault, read_forms};
use std::alloc::Global;
use tp_spec::Problem;

/// The domain that a text says, or its first fault.
fn domain_in(alloc: Global, text: &[u8], scale: u32) -> Result<Domain, PddlFileFault>
    requires short { length text.now < 2 ^ 31 }
    requires scale { IsScale scale }
    ensures domain { IfOk result (SaysDomain text.now scale) }
    ensures fault { (problem : List ℕ) → IfErr result (IsPddlFaultOf text.now problem scale) }
{
    match read_forms(alloc, text) {
        Err(TextFault::NoMemory) => Err(PddlFileFault::NoMemory),
        Err(fault) => Err(PddlFileFault::DomainText(fault)),
        Ok(forms) => match read_domain(alloc, &forms, scale) {
            Err(PddlFault::NoMemory) => Err(PddlFileFault::NoMemory),
            Err(fault) => Err(PddlFileFault::Domain(fault)),
            Ok(domain) => Ok(domain),
        },
    }
}

/// The problem of a domain that a text says, or its first fault.
fn task_in(alloc: Global, domain: &Domain, text: &[u8], scale: u32) -> Result<Task, PddlFileFault>
    requires short { length text.now < 2 ^ 31 }
    requires scale { IsScale scale }
    ensures task { IfOk result (SaysTask text.now scale domain.now) }
    ensures fault { (first : List ℕ) → SaysDomain first scale domain.now
        → IfErr result (IsPddlFaultOf first text.now scale) }
{
    match read_forms(alloc, text) {
        Err(TextFault::NoMemory) => Err(PddlFileFault::NoMemory),
        Err(fault) => Err(PddlFileFault::ProblemText(fault)),
        Ok(forms) => match read_problem(alloc, &forms, domain, scale) {
            Err(PddlFault::NoMemory) => Err(PddlFileFault::NoMemory),
            Err(fault) => Err(PddlFileFault::Problem(fault)),
            Ok(task) => Ok(task),
        },
    }
}

/// The ground problem of a domain and a problem of it.
fn grounded(
    alloc: Global,
    domain: &Domain,
    task: &Task,
    scale: u32,
) -> Result<Problem, PddlFileFault>
    ensures problem { (first second : List ℕ)
        → AreSaid first second scale (record { domain = domain.now; task = task.now })
        → IfOk result (IsPddlProblem first second scale) }
    ensures fault { (first second : List ℕ)
        → AreSaid first second scale (record { domain = domain.now; task = task.now })
        → IfErr result (IsPddlFaultOf first second scale) }
{
    match ground_if_well_formed(alloc, domain, task, scale) {
        Ok(Some(problem)) => {
            problem.keeps_the_rules();
            Ok(problem)
        }
        Ok(None) => Err(PddlFileFault::NoMemory),
        Err(GroundFault::TooMany { kind, number }) => Err(PddlFileFault::TooMany {
            kind,
            count: number,
        }),
        Err(GroundFault::NoMemory) => Err(PddlFileFault::NoMemory),
    }
}

/// The ground problem of a domain and of a problem over it, by their texts, each of less than 2^31
/// bytes; times and numbers are in units of `scale`, 1, 10, 100 or 1000. Else the first fault: of
/// the domain's text, of the domain, of the problem's text, of the problem, and then of the counts
/// of the ground problem.
///
/// A ground problem that breaks a rule of ground problems would be answered by `NoMemory`. It is
/// believed that no two texts without a fault have one; that is not proved.
pub fn read_pddl(
    alloc: Global,
    domain: &[u8],
    problem: &[u8],
    scale: u32,
) -> Result<Problem, PddlFileFault>
    requires short_domain { length domain.now < 2 ^ 31 }
    requires short_problem { length problem.now < 2 ^ 31 }
    requires scale { IsScale scale }
    ensures problem { IfOk result (IsPddlProblem domain.now problem.now scale) }
    ensures fault { IfErr result (IsPddlFaultOf domain.now problem.now scale) }
{
    match domain_in(alloc, domain, scale) {
        Err(fault) => Err(fault),
        Ok(said) => match task_in(alloc, &said, problem, scale) {
            Err(fault) => Err(fault),
            Ok(task) => grounded(alloc, &said, &task, scale),
        },
    }
}
