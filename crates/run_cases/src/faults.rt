use plan_text::PlanFault;
use run_cli::WordFault;
use std::alloc::Global;
use std::fmt::{Display, Write};
use std::io;
use tp_spec::LineFault;

/// Puts a fault as a line behind a text.
fn put_line(text: &mut String, fault: impl Display + Drop) -> io::Result<()> {
    writeln!(text, "{fault}").map_err(|_| io::Error::from(io::ErrorKind::OutOfMemory))
}

/// Puts the faults of words that come with one word.
fn put_faults_of_words(text: &mut String) -> io::Result<()> {
    put_line(text, WordFault::NoCommand { at: 0 })?;
    put_line(text, WordFault::UnknownCommand { at: 0 })?;
    put_line(text, WordFault::UnknownOption { at: 2 })?;
    put_line(text, WordFault::Twice { at: 4 })?;
    put_line(text, WordFault::NoValue { at: 2 })?;
    put_line(text, WordFault::BadNumber { at: 3 })
}

/// Puts the faults that come with all words.
fn put_last_faults_of_words(text: &mut String) -> io::Result<()> {
    put_line(text, WordFault::FileCount { at: 1 })?;
    put_line(text, WordFault::ScaleOfGround { at: 4 })?;
    put_line(text, WordFault::Missing { at: 2 })?;
    put_line(text, WordFault::NoMemory)
}

/// Puts the faults of a plan file.
fn put_faults_of_plans(text: &mut String) -> io::Result<()> {
    put_line(text, PlanFault::Shape { line: 1 })?;
    put_line(text, PlanFault::UnknownAction { line: 2 })?;
    put_line(text, PlanFault::NotWhole { line: 3 })?;
    put_line(text, PlanFault::TooLarge { line: 4 })?;
    put_line(text, PlanFault::NoMemory)
}

/// Puts the faults of a ground text.
fn put_faults_of_lines(text: &mut String) -> io::Result<()> {
    put_line(text, LineFault::Line { number: 5 })?;
    put_line(text, LineFault::NoMemory)
}

/// The texts of all faults of the words, of a plan file and of a ground text, one a line.
pub fn texts_of_faults(alloc: Global) -> io::Result<String> {
    let mut text = String::new(alloc);
    put_faults_of_words(&mut text)?;
    put_last_faults_of_words(&mut text)?;
    put_faults_of_plans(&mut text)?;
    put_faults_of_lines(&mut text)?;
    Ok(text)
}
