//! Reads tables of cases from the files of a folder, its argument or else the one that it runs in,
//! calls the readers of PDDL files with each, and prints a line for each: the table, the number of
//! the line, and the answer.
//!
//! In every table `%` and two digits in base 16 stand for a byte, and `{5 PART}` for a part that
//! stands five times. The tables and their lines:
//!
//! - `tokens`: `fault TEXT` answers `read` or the first fault, `forms TEXT` the bytes of the text
//!   and what it holds: `(0` and `)6` are parentheses at bytes 0 and 6, `2:a` is the word `a` from
//!   byte 2 on.
//! - `numbers`: `SCALE TEXT` answers the number that a word spells, or why it spells none.
//! - `domains`: `SCALE TEXT` answers `read` or the first fault, `show SCALE TEXT` what is read.
//! - `left_out`, `left_out_in_durations`: words, and then texts in which `_` stands for a word. The
//!   answer is the first word's, with the number of words that have it.
//! - `problems`: `domain TEXT` gives the domain of the lines behind it; else as in `domains`.
//!
//! Last it prints the text of each fault.
#![tactic(auto)]

mod answers;
mod escapes;
mod faults;
mod left_out;
mod shown;

use crate::answers::{Table, answer};
use crate::faults::print_faults;
use crate::left_out::print_left_out;
use std::fs::Files;
use std::{env, fs};

/// Prints the answers of a table of problems, whose lines give the domain too.
fn print_problems(rt: &(impl Print + AllocGlobal), text: &str) -> anyhow::Result<()> {
    let mut domain = String::new(rt.alloc());
    let mut number = 0u32;
    for line in text.lines() {
        number = number.wrapping_add(1);
        match line.strip_prefix("domain ") {
            Some(text) => domain = String::from_str(rt.alloc(), text)?,
            None => {
                let told = answer(rt.alloc(), Table::Problems(&domain), line)?;
                println!(rt; "problems {number} {told}")?;
            }
        }
    }
    Ok(())
}

/// Prints the answers of a table.
fn print_table(
    rt: &(impl Print + AllocGlobal),
    table: Table<'_>,
    name: &str,
    text: &str,
) -> anyhow::Result<()> {
    let mut number = 0u32;
    for line in text.lines() {
        number = number.wrapping_add(1);
        let told = answer(rt.alloc(), table, line)?;
        println!(rt; "{name} {number} {told}")?;
    }
    Ok(())
}

/// The text of a table in a folder.
fn table_in(rt: &(impl Files + AllocGlobal), folder: &str, name: &str) -> anyhow::Result<String> {
    let path = format!(in rt.alloc(); "{folder}/{name}")?;
    Ok(fs::read_to_string(rt, &path)?)
}

/// Prints the answers of a table that is read from a folder.
fn tell_table(
    rt: &(impl Files + Print + AllocGlobal),
    folder: &str,
    table: Table<'_>,
    name: &str,
) -> anyhow::Result<()> {
    let text = table_in(rt, folder, name)?;
    print_table(rt, table, name, &text)
}

/// Prints the answers of a table of places that is read from a folder.
fn tell_left_out(
    rt: &(impl Files + Print + AllocGlobal),
    folder: &str,
    name: &str,
) -> anyhow::Result<()> {
    let text = table_in(rt, folder, name)?;
    print_left_out(rt, name, &text)
}

/// Prints the answers of the table of problems that is read from a folder.
fn tell_problems(rt: &(impl Files + Print + AllocGlobal), folder: &str) -> anyhow::Result<()> {
    let text = table_in(rt, folder, "problems")?;
    print_problems(rt, &text)
}

/// Prints the answers of each table of a folder, and the text of each fault.
fn tell_all(rt: &(impl Files + Print + AllocGlobal), folder: &str) -> anyhow::Result<()> {
    tell_table(rt, folder, Table::Tokens, "tokens")?;
    tell_table(rt, folder, Table::Numbers, "numbers")?;
    tell_table(rt, folder, Table::Domains, "domains")?;
    tell_left_out(rt, folder, "left_out")?;
    tell_left_out(rt, folder, "left_out_in_durations")?;
    tell_problems(rt, folder)?;
    print_faults(rt)
}

fn main(rt: HostRuntime) -> anyhow::Result<()> {
    match env::args(&rt)?.nth(1) {
        Some(folder) => tell_all(&rt, &folder),
        None => tell_all(&rt, "."),
    }
}
