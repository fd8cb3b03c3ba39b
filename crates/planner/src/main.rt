//! The program: the commands over the files, the standard output and the clock of the system, and
//! an explanation on the standard error where words or a file are refused.
#![tactic(auto)]

ghost use Rattle.std.specs.Prelude.{◌<◌, ◌^◌, length, IfSome};

use explanations::{KeepingSink, explain};
use run_cli::run;
use std::alloc::Global;
use std::env::FillError;
use std::process::ExitCode;
use std::rt::Env;
use std::str::from_utf8;
use tp_world::{DiskFiles, ElapsedClock, Files, PauseGate, StdSink};

/// More words than a command line has.
const MOST_WORDS: usize = 1 << 30;

/// The bytes of a word of the command line by its number, the program's name being 0; no word
/// behind the last one. No answer where memory is refused.
fn word_at(rt: &impl Env, alloc: Global, number: usize) -> Option<Option<Vec<u8>>> {
    let mut bytes = Vec::new(alloc);
    for shift in 8..32u32 {
        bytes.resize(1usize << shift, 0).ok()?;
        match rt.arg(number, &mut bytes) {
            Ok(length) => {
                bytes.truncate(length);
                return Some(Some(bytes));
            }
            Err(FillError::NotPresent) => return Some(None),
            Err(FillError::TooLong) => {}
        }
    }
    None
}

/// The words of the command line without the program's name; no answer where memory is refused. The
/// first word that is not UTF-8 makes the command line a faulty one: it and all behind it are left
/// out, and two words stand in their place that are no command and no option; two, in case an
/// option before them takes the first for its value.
fn words(rt: &impl Env, alloc: Global) -> Option<Vec<String>>
    ensures { IfSome result (λ words. length words.items < 2 ^ 31) }
{
    let mut words = Vec::new(alloc);
    for number in 1..MOST_WORDS {
        let Some(bytes) = word_at(rt, alloc, number)? else {
            return Some(words);
        };
        match String::from_utf8(bytes) {
            Ok(word) => words.push(word).ok()?,
            Err(_) => {
                words.push(String::from_str(alloc, "-\u{FFFD}").ok()?).ok()?;
                words.push(String::from_str(alloc, "-\u{FFFD}").ok()?).ok()?;
                return Some(words);
            }
        }
    }
    None
}

/// Writes the explanation of a printed refusal to the standard error. Where memory is refused, or
/// the standard error fails, nothing or a part of it stands there.
fn print_explanation(
    error: &impl Print,
    alloc: Global,
    words: &[String],
    files: &mut impl Files,
    line: &[u8],
)
    requires { length words.now < 2 ^ 31 }
{
    let Ok(line) = from_utf8(line) else {
        return;
    };
    if let Ok(text) = explain(alloc, words, files, line) {
        let _ = error.write_all(&text);
    }
}

fn main(rt: HostRuntime) -> ExitCode {
    let alloc = rt.alloc();
    let Some(words) = words(&rt, alloc) else {
        return ExitCode::from(7);
    };
    let mut files = DiskFiles::new(rt);
    let mut out = KeepingSink::new(alloc, StdSink::new(rt));
    let clock = ElapsedClock::new(rt);
    let gate = PauseGate::new(rt);
    let ending = run(alloc, &words, &mut files, &mut out, clock, &gate);
    if 3 <= ending.status && ending.status <= 5 {
        print_explanation(&rt.stderr(), alloc, &words, &mut files, out.last());
    }
    ExitCode::from(ending.status)
}
