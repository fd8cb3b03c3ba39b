use crate::escapes::{on_one_line, unescaped};
use ground_text::{read_problem_text, write_problem};
use plan_text::{read_plan, write_plan};
use std::alloc::{AllocError, Global};
use tp_spec::Problem;

/// The least length in bytes that no reader takes.
const TOO_LONG: usize = 1 << 31;

/// What the table said so far.
#[derive(Drop)]
pub struct Cases {
    /// The ground text, with its backslashes, to which changes are made.
    whole: String,
    /// The problem whose plans are read.
    problem: Option<Problem>,
}

impl Cases {
    /// Before the first line of the table.
    pub fn new(alloc: Global) -> Cases {
        Cases {
            whole: String::new(alloc),
            problem: None,
        }
    }

    /// What is printed for a line of the table, with its line feeds: `text TEXT`, a ground text;
    /// `whole TEXT`, one to which changes are made; `change OLD@NEW`, that one with the first OLD
    /// replaced by NEW; `fronts`, each front of it, from the empty one on; `problem TEXT`, the
    /// ground text whose plans are read; `plan TEXT`, a plan of it. All other lines say nothing.
    pub fn answer(&mut self, alloc: Global, line: &str) -> Result<String, AllocError> {
        let (word, rest) = line.split_once(' ').unwrap_or((line, ""));
        if word == "text" {
            read_again(alloc, &unescaped(alloc, rest)?)
        } else if word == "whole" {
            self.whole = String::from_str(alloc, rest)?;
            read_again(alloc, &unescaped(alloc, rest)?)
        } else if word == "change" {
            changed(alloc, self.whole.as_str(), rest)
        } else if word == "fronts" {
            fronts(alloc, &unescaped(alloc, self.whole.as_str())?)
        } else if word == "problem" {
            self.problem = problem_of(alloc, &unescaped(alloc, rest)?);
            Ok(String::new(alloc))
        } else if word == "plan" {
            planned(alloc, &self.problem, &unescaped(alloc, rest)?)
        } else {
            Ok(String::new(alloc))
        }
    }
}

/// What is read of a ground text, written again; the text of the fault where there is one.
fn read_again(alloc: Global, text: &[u8]) -> Result<String, AllocError> {
    if TOO_LONG <= text.len() {
        return String::from_str(alloc, "too long\n");
    }
    match read_problem_text(alloc, text) {
        Ok(problem) => match write_problem(alloc, &problem) {
            Ok(written) => {
                if written.as_slice() == text {
                    String::from_str(alloc, "a problem, written again\n")
                } else {
                    String::from_str(alloc, "a problem, written otherwise\n")
                }
            }
            Err(_) => Err(AllocError),
        },
        Err(fault) => format!(in alloc; "{fault}\n"),
    }
}

/// What is read of a text of which one part is replaced.
fn changed(alloc: Global, whole: &str, change: &str) -> Result<String, AllocError> {
    let (old, new) = change.split_once('@').unwrap_or((change, ""));
    match whole.split_once(old) {
        Some((before, after)) => {
            let text = format!(in alloc; "{before}{new}{after}")?;
            read_again(alloc, &unescaped(alloc, text.as_str())?)
        }
        None => String::from_str(alloc, "nothing to change\n"),
    }
}

/// What is read of each front of a text, a line each.
fn fronts(alloc: Global, text: &[u8]) -> Result<String, AllocError> {
    let mut said = String::new(alloc);
    for place in 0..text.len() {
        let (front, _) = text.split_at(place);
        said.push_str(read_again(alloc, front)?.as_str())?;
    }
    Ok(said)
}

fn problem_of(alloc: Global, text: &[u8]) -> Option<Problem> {
    if TOO_LONG <= text.len() {
        return None;
    }
    read_problem_text(alloc, text).ok()
}

/// What is read of a plan, written again on one line; the text of the fault where there is one.
fn planned(alloc: Global, problem: &Option<Problem>, text: &[u8]) -> Result<String, AllocError> {
    match problem {
        None => String::from_str(alloc, "no problem\n"),
        Some(problem) => {
            if TOO_LONG <= text.len() {
                return String::from_str(alloc, "too long\n");
            }
            match read_plan(alloc, problem, text) {
                Ok(plan) => match write_plan(alloc, problem, &plan) {
                    Ok(written) => {
                        let shown = on_one_line(alloc, &written)?;
                        format!(in alloc; "{shown}\n")
                    }
                    Err(_) => Err(AllocError),
                },
                Err(fault) => format!(in alloc; "{fault}\n"),
            }
        }
    }
}
