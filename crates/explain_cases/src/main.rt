//! Explains refusals as data: for each line of the file `cases` in the folder `data`, a command
//! line, runs it over the files there, and prints the line that it prints and the explanation of
//! that. Where a printed line and a `|` stand before the command line, that line is explained.
#![tactic(auto)]

use explanations::explain;
use run_cli::run_local;
use std::alloc::Global;
use std::io;
use tp_world::{DiskFiles, Files, ListClock, MemorySink};

/// The greatest length of the file of cases in bytes.
const MOST: u64 = 65_536;

/// The most words of a command line.
const MOST_WORDS: usize = 16;

/// What the program ends with where its own files are not as they should be.
fn unfit() -> io::Error {
    io::Error::from(io::ErrorKind::InvalidData)
}

/// The text of bytes.
fn text_of(bytes: Vec<u8>) -> io::Result<String> {
    String::from_utf8(bytes).map_err(|_| unfit())
}

/// The words of a text, with spaces between them.
fn words_of(alloc: Global, text: &str) -> io::Result<Vec<String>> {
    let mut words = Vec::new(alloc);
    for word in text.split(' ') {
        if !word.is_empty() {
            words.push(String::from_str(alloc, word)?)?;
        }
    }
    Ok(words)
}

/// The line that the words print.
fn printed_line(alloc: Global, files: &mut impl Files, words: &[String]) -> io::Result<String> {
    if words.len() > MOST_WORDS {
        return Err(unfit());
    }
    let mut out = MemorySink::new(alloc, Vec::new(alloc));
    run_local(
        alloc,
        words,
        files,
        &mut out,
        ListClock::new(Vec::new(alloc)),
    );
    text_of(Vec::from_slice(alloc, out.bytes())?)
}

/// The explanation of a printed line.
fn explained(
    alloc: Global,
    files: &mut impl Files,
    words: &[String],
    line: &str,
) -> io::Result<String> {
    if words.len() > MOST_WORDS {
        return Err(unfit());
    }
    match explain(alloc, words, files, line) {
        Ok(text) => text_of(text),
        Err(_) => Err(unfit()),
    }
}

/// What a case prints: its printed line, and the explanation of it.
fn case_text(alloc: Global, files: &mut impl Files, case: &str) -> io::Result<String> {
    let (line, words) = case.split_once('|').unwrap_or(("", case));
    let words = words_of(alloc, words)?;
    let line = if line.is_empty() {
        printed_line(alloc, files, &words)?
    } else {
        format!(in alloc; "{line}\n")?
    };
    let explanation = explained(alloc, files, &words, line.as_str())?;
    let text = format!(in alloc; "> {case}\n{line}{explanation}")?;
    Ok(text)
}

fn main(rt: HostRuntime) -> io::Result<()> {
    let mut files = DiskFiles::new(rt);
    let Ok(bytes) = files.load(rt.alloc(), "cases", MOST) else {
        return Err(unfit());
    };
    let cases = text_of(bytes)?;
    for case in cases.lines() {
        let shown = case_text(rt.alloc(), &mut files, case)?;
        print!(rt; "{shown}")?;
    }
    Ok(())
}
