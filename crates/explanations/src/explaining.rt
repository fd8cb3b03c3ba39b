ghost use Rattle.std.specs.Prelude.{◌≡◌, ◌<◌, ◌^◌, length};

use crate::files::{file_in, scale_in};
use crate::lines::explain_line;
use crate::pddl::explain_pddl;
use crate::refusal::{Refusal, refusal_in};
use crate::sentences::{count_words, role_words};
use crate::words::explain_words;
use line_text::push_bytes;
use run_cli::read_words;
use std::alloc::Global;
use tp_spec::NoMemory;
use tp_world::{Files, LoadFault};

/// The most bytes of a file in a role.
fn most_bytes(role: &str) -> u64 {
    if role == "trace" {
        67_108_864
    } else {
        1_048_576
    }
}

/// What is wrong with a file that has more.
fn long_words(role: &str) -> &'static str {
    if role == "trace" {
        " has more than 67108864 bytes"
    } else {
        " has more than 1048576 bytes"
    }
}

/// An explanation of a file as a whole: its name, its role and what is wrong with it.
fn explain_whole(alloc: Global, file: &str, role: &str, wrong: &str) -> Result<Vec<u8>, NoMemory> {
    let mut text = Vec::new(alloc);
    push_bytes(&mut text, file.as_bytes())?;
    push_bytes(&mut text, b": the ")?;
    push_bytes(&mut text, role_words(role).as_bytes())?;
    push_bytes(&mut text, wrong.as_bytes())?;
    push_bytes(&mut text, b"\n")?;
    Ok(text)
}

/// The explanation of a count past its limit.
fn explain_count(alloc: Global, file: &str, refusal: &Refusal<'_>) -> Result<Vec<u8>, NoMemory> {
    let mut text = Vec::new(alloc);
    push_bytes(&mut text, file.as_bytes())?;
    push_bytes(&mut text, b": the ground problem would have ")?;
    push_bytes(&mut text, refusal.place.as_bytes())?;
    push_bytes(&mut text, count_words(refusal.fault).as_bytes())?;
    push_bytes(&mut text, b"\n")?;
    Ok(text)
}

/// The explanation of a fault at a place of a file, by the bytes of the file.
fn explain_place(
    alloc: Global,
    file: &str,
    bytes: &[u8],
    refusal: &Refusal<'_>,
    scale: u32,
) -> Result<Vec<u8>, NoMemory> {
    let place = refusal.number();
    if refusal.role == "domain" || refusal.role == "problem" {
        explain_pddl(alloc, file, bytes, place, refusal.fault, scale)
    } else {
        explain_line(alloc, file, bytes, place, refusal.role, refusal.fault)
    }
}

/// The explanation of a refusal of a file, which is loaded again where the fault has a place in it.
fn explain_file<F: Files>(
    alloc: Global,
    file: &str,
    files: &mut F,
    refusal: &Refusal<'_>,
    scale: u32,
) -> Result<Vec<u8>, NoMemory>
    ensures { (F.view files.new).contents ≡ (F.view files.old).contents }
{
    if refusal.fault.is_empty() {
        return explain_whole(alloc, file, refusal.role, " can't be read");
    }
    if refusal.fault == "FileTooLong" {
        return explain_whole(alloc, file, refusal.role, long_words(refusal.role));
    }
    if refusal.fault.starts_with("TooMany") {
        return explain_count(alloc, file, refusal);
    }
    match files.load(alloc, file, most_bytes(refusal.role)) {
        Ok(bytes) => explain_place(alloc, file, &bytes, refusal, scale),
        Err(LoadFault::NoMemory) => Err(NoMemory),
        Err(_) => explain_whole(
            alloc,
            file,
            refusal.role,
            " is refused, and can't be read again",
        ),
    }
}

/// The explanation of a line that `run` of `run_cli` prints where it refuses words or a file, or
/// where a file can't be loaded, for these words and files: nothing for any other line. A file is
/// loaded again for the line at which it is refused.
pub fn explain<F: Files>(
    alloc: Global,
    words: &[String],
    files: &mut F,
    line: &str,
) -> Result<Vec<u8>, NoMemory>
    requires { length words.now < 2 ^ 31 }
    ensures { (F.view files.new).contents ≡ (F.view files.old).contents }
{
    let Some(refusal) = refusal_in(line) else {
        return Ok(Vec::new(alloc));
    };
    if refusal.role == "words" {
        return explain_words(alloc, words, &refusal);
    }
    let Ok(order) = read_words(alloc, words) else {
        return Ok(Vec::new(alloc));
    };
    match file_in(&order, refusal.role) {
        Some(file) => explain_file(alloc, file, files, &refusal, scale_in(&order)),
        None => Ok(Vec::new(alloc)),
    }
}
