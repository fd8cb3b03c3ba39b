use crate::case::{Case, MOST_WORDS};
use run_cli::{run, run_local};
use std::alloc::Global;
use std::io;
use tp_world::{Files, ListClock, MemoryFiles, MemorySink, OpenGate};

/// The greatest length of a file of a case in bytes.
const MOST: u64 = 1_048_576;

/// What the program ends with where its own files are not as they should be.
pub fn unfit() -> io::Error {
    io::Error::from(io::ErrorKind::InvalidData)
}

/// So many line feeds.
fn blank_of(alloc: Global, count: u64) -> io::Result<Vec<u8>> {
    let mut bytes = Vec::new(alloc);
    for _ in 0..count {
        bytes.push(b'\n')?;
    }
    Ok(bytes)
}

/// The file that a word names where it names one: the word, or what is behind its `=`.
fn named_in(word: &str) -> &str {
    match word.split_once('=') {
        Some((_, name)) => name,
        None => word,
    }
}

/// The files that the words of a case name and the disk has, and the blank ones.
fn contents_of(
    alloc: Global,
    disk: &mut impl Files,
    case: &Case,
) -> io::Result<Vec<(String, Vec<u8>)>> {
    let mut contents = Vec::new(alloc);
    for word in &case.words {
        let name = named_in(word.as_str());
        if let Ok(content) = disk.load(alloc, name, MOST) {
            contents.push((String::from_str(alloc, name)?, content))?;
        }
    }
    for (name, count) in &case.blank {
        let name = String::from_str(alloc, name.as_str())?;
        contents.push((name, blank_of(alloc, *count)?))?;
    }
    Ok(contents)
}

/// Files in memory: each one that a word of the case names and the disk has, and the blank ones.
fn files_of(alloc: Global, disk: &mut impl Files, case: &Case) -> io::Result<MemoryFiles> {
    let contents = contents_of(alloc, disk, case)?;
    let loads = Vec::from_slice(alloc, &case.loads)?;
    Ok(MemoryFiles::new(contents, loads))
}

/// How a run ended: its status, and the number of its events.
#[derive(Drop)]
struct Ended {
    status: u8,
    events: usize,
}

/// Runs the words of a case, none where they are too many.
fn end_of(
    alloc: Global,
    case: &Case,
    files: &mut MemoryFiles,
    out: &mut MemorySink,
    clock: ListClock,
) -> Option<Ended> {
    if case.words.len() > MOST_WORDS {
        return None;
    }
    let ending = run(alloc, &case.words, files, out, clock, &OpenGate);
    Some(Ended {
        status: ending.status,
        events: ending.history.len(),
    })
}

/// Runs the words of a case by `run_local`, none where they are too many.
fn end_of_local(
    alloc: Global,
    case: &Case,
    files: &mut MemoryFiles,
    out: &mut MemorySink,
    clock: ListClock,
) -> Option<Ended> {
    if case.words.len() > MOST_WORDS {
        return None;
    }
    let ending = run_local(alloc, &case.words, files, out, clock);
    Some(Ended {
        status: ending.status,
        events: ending.history.len(),
    })
}

/// Runs a case over files, with its output into a sink.
fn end_in(
    alloc: Global,
    case: &Case,
    files: &mut MemoryFiles,
    out: &mut MemorySink,
) -> io::Result<Ended> {
    let clock = ListClock::new(Vec::from_slice(alloc, &case.readings)?);
    let ended = if case.local {
        end_of_local(alloc, case, files, out, clock)
    } else {
        end_of(alloc, case, files, out, clock)
    };
    ended.ok_or(unfit())
}

/// The text of bytes.
fn text_of(alloc: Global, bytes: &[u8]) -> io::Result<String> {
    String::from_utf8(Vec::from_slice(alloc, bytes)?).map_err(|_| unfit())
}

/// What ends the last line of a text where nothing does.
fn last_end(shown: &str) -> &'static str {
    if shown.is_empty() || shown.ends_with('\n') {
        ""
    } else {
        "\n"
    }
}

/// The trace file of a case, where the words name one and there is one: a line with its name and
/// its length in bytes, and what it holds.
fn kept_in(alloc: Global, case: &Case, files: &MemoryFiles) -> io::Result<String> {
    let mut kept = String::new(alloc);
    let mut is_named = false;
    for word in &case.words {
        if is_named {
            if let Some(content) = files.content(word.as_str()) {
                let shown = text_of(alloc, content)?;
                kept = format!(in alloc; "kept {word}, bytes {}\n{shown}", shown.len())?;
            }
        }
        is_named = word.as_str() == "--trace";
    }
    Ok(kept)
}

/// An output, and the line of how its run ended.
fn shown_end(alloc: Global, shown: &str, ended: Ended) -> io::Result<String> {
    let end = last_end(shown);
    let text = format!(in alloc;
        "{shown}{end}status {}, events {}, bytes {}\n",
        ended.status,
        ended.events,
        shown.len()
    )?;
    Ok(text)
}

/// Runs a case, and gives what its output holds, and a line with the status, the number of events,
/// and that of the bytes; then the trace file that it leaves.
pub fn run_case(alloc: Global, disk: &mut impl Files, case: &Case) -> io::Result<String> {
    let mut files = files_of(alloc, disk, case)?;
    let mut out = MemorySink::new(alloc, Vec::from_slice(alloc, &case.puts)?);
    let ended = end_in(alloc, case, &mut files, &mut out)?;
    let shown = text_of(alloc, out.bytes())?;
    let shown = shown_end(alloc, shown.as_str(), ended)?;
    let kept = kept_in(alloc, case, &files)?;
    let text = format!(in alloc; "{shown}{kept}")?;
    Ok(text)
}
