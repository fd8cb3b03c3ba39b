ghost use Rattle.std.specs.Prelude.{◌<◌, ◌^◌, length};
ghost use Rattle.pddl_tokens.specs.Numbers.{IsScale};

use crate::escapes::{bytes_of, text_of};
use crate::shown::{shown_domain, shown_forms, shown_task};
use anyhow::bail;
use pddl_domain::{Domain, read_domain};
use pddl_parts::PddlFault;
use pddl_problem::{Task, read_problem};
use pddl_tokens::{Forms, Word, number, read_forms};
use std::alloc::Global;
use tp_spec::List;

/// What the lines of a table ask for; of problems with the text of their domain.
#[derive(Clone, Copy)]
pub enum Table<'a> {
    Tokens,
    Numbers,
    Domains,
    Problems(&'a str),
}

/// Whether what is read is shown, or only that it is read.
#[derive(Clone, Copy, PartialEq, Eq)]
pub enum Telling {
    Fault,
    Whole,
}

/// What a text holds, or that it is read.
fn forms_answer(alloc: Global, kind: &str, forms: &Forms) -> anyhow::Result<String> {
    if kind == "forms" {
        shown_forms(alloc, forms)
    } else {
        Ok("read".to_string(alloc)?)
    }
}

/// The first fault of a text, or what it holds.
fn token_answer(alloc: Global, line: &str) -> anyhow::Result<String> {
    let (kind, text) = line.split_once(' ').unwrap_or((line, ""));
    let bytes = bytes_of(alloc, text)?;
    if bytes.len() >= 1_000_000 {
        bail!("a text is too long");
    }
    match read_forms(alloc, &bytes) {
        Err(fault) => Ok(format!(in alloc; "{fault:?}")?),
        Ok(forms) => forms_answer(alloc, kind, &forms),
    }
}

/// The number that a word spells at a scale.
fn number_answer(alloc: Global, scale: u32, text: &str) -> anyhow::Result<String>
    requires scale { IsScale scale }
{
    let word = Word {
        at: 0,
        text: List::of(bytes_of(alloc, text)?),
    };
    match number(&word, scale) {
        Ok(number) => Ok(format!(in alloc; "{number}")?),
        Err(fault) => Ok(format!(in alloc; "{fault:?}")?),
    }
}

/// The domain that a text says, or its first fault.
fn domain_in(alloc: Global, scale: u32, text: &[u8]) -> anyhow::Result<Result<Domain, PddlFault>>
    requires scale { IsScale scale }
    requires text { length text.now < 2 ^ 31 }
{
    let forms = read_forms(alloc, text)?;
    Ok(read_domain(alloc, &forms, scale))
}

/// The problem of a domain that a text says, or its first fault.
fn problem_in(
    alloc: Global,
    domain: &Domain,
    scale: u32,
    text: &[u8],
) -> anyhow::Result<Result<Task, PddlFault>>
    requires scale { IsScale scale }
    requires text { length text.now < 2 ^ 31 }
{
    let forms = read_forms(alloc, text)?;
    Ok(read_problem(alloc, &forms, domain, scale))
}

fn told_fault(alloc: Global, fault: PddlFault) -> anyhow::Result<String> {
    Ok(format!(in alloc; "{fault:?}")?)
}

fn told_domain(alloc: Global, telling: Telling, domain: &Domain) -> anyhow::Result<String> {
    match telling {
        Telling::Whole => shown_domain(alloc, domain),
        Telling::Fault => Ok("read".to_string(alloc)?),
    }
}

fn told_task(alloc: Global, telling: Telling, task: &Task) -> anyhow::Result<String> {
    match telling {
        Telling::Whole => shown_task(alloc, task),
        Telling::Fault => Ok("read".to_string(alloc)?),
    }
}

/// The first fault of a domain, or what it says.
pub fn domain_answer(
    alloc: Global,
    scale: u32,
    telling: Telling,
    text: &[u8],
) -> anyhow::Result<String>
    requires scale { IsScale scale }
    requires text { length text.now < 2 ^ 31 }
{
    match domain_in(alloc, scale, text)? {
        Err(fault) => told_fault(alloc, fault),
        Ok(domain) => told_domain(alloc, telling, &domain),
    }
}

/// The first fault of a problem of a domain, or what it says.
fn answer_within(
    alloc: Global,
    domain: &Domain,
    scale: u32,
    telling: Telling,
    text: &[u8],
) -> anyhow::Result<String>
    requires scale { IsScale scale }
    requires text { length text.now < 2 ^ 31 }
{
    match problem_in(alloc, domain, scale, text)? {
        Err(fault) => told_fault(alloc, fault),
        Ok(task) => told_task(alloc, telling, &task),
    }
}

/// The first fault of a problem, or what it says. Its domain has no fault.
fn problem_answer(
    alloc: Global,
    domain: &[u8],
    scale: u32,
    telling: Telling,
    text: &[u8],
) -> anyhow::Result<String>
    requires scale { IsScale scale }
    requires domain { length domain.now < 2 ^ 31 }
    requires text { length text.now < 2 ^ 31 }
{
    match domain_in(alloc, scale, domain)? {
        Err(_) => bail!("the domain of a problem has a fault"),
        Ok(domain) => answer_within(alloc, &domain, scale, telling, text),
    }
}

/// The answer to a line `SCALE TEXT`, or with `show` before it.
fn scaled_answer(alloc: Global, table: Table<'_>, line: &str) -> anyhow::Result<String> {
    let (telling, line) = match line.strip_prefix("show ") {
        Some(line) => (Telling::Whole, line),
        None => (Telling::Fault, line),
    };
    let (scale, text) = line.split_once(' ').unwrap_or((line, ""));
    let scale: u32 = scale.parse()?;
    if !(scale == 1 || scale == 10 || scale == 100 || scale == 1000) {
        bail!("no scale");
    }
    let bytes = text_of(alloc, text)?;
    if bytes.len() >= 1_000_000 {
        bail!("a text is too long");
    }
    match table {
        Table::Tokens | Table::Domains => domain_answer(alloc, scale, telling, &bytes),
        Table::Numbers => number_answer(alloc, scale, text),
        Table::Problems(domain) => {
            let domain = text_of(alloc, domain)?;
            if domain.len() >= 1_000_000 {
                bail!("a text is too long");
            }
            problem_answer(alloc, &domain, scale, telling, &bytes)
        }
    }
}

/// The answer to a line of a table.
pub fn answer(alloc: Global, table: Table<'_>, line: &str) -> anyhow::Result<String> {
    match table {
        Table::Tokens => token_answer(alloc, line),
        Table::Numbers | Table::Domains | Table::Problems(_) => scaled_answer(alloc, table, line),
    }
}
