//! Measures `solve` under a clock that is told: `clock_bench FILE IDS still|moving`, where FILE is
//! the path of a ground text and IDS the limit of ids. A clock that stands reads 0 in each turn;
//! one that moves reads k in turn k, from 0. The script `bench/clock` makes the files, runs it and
//! compares.
#![tactic(auto)]

ghost use Rattle.std.specs.Prelude.{◌≡◌, IfOk, length};

use run_cli::run;
use std::alloc::Global;
use std::process::ExitCode;
use std::{env, io};
use tp_world::{DiskFiles, ListClock, OpenGate, StdSink};

/// More turns than a search has under the greatest limit of ids.
const MOST_TURNS: u64 = 400_002;

fn usage() -> io::Error {
    io::Error::from(io::ErrorKind::InvalidInput)
}

/// The readings of a clock that stands, or of one that moves by a tick each turn.
fn readings(alloc: Global, moving: bool) -> io::Result<Vec<u64>> {
    let mut readings = Vec::new(alloc);
    if moving {
        for turn in 0..MOST_TURNS {
            readings.push(turn)?;
        }
    }
    Ok(readings)
}

/// The words of a command line that solves a file within a limit of ids.
fn words(alloc: Global, file: String, ids: String) -> io::Result<Vec<String>>
    ensures { IfOk result (λ words. length words.items ≡ 4) }
{
    let mut words = Vec::new(alloc);
    words.push(String::from_str(alloc, "solve")?)?;
    words.push(file)?;
    words.push(String::from_str(alloc, "--nodes")?)?;
    words.push(ids)?;
    Ok(words)
}

fn main(rt: HostRuntime) -> io::Result<ExitCode> {
    let alloc = rt.alloc();
    let mut args = env::args(&rt)?;
    let file = args.nth(1).ok_or(usage())?;
    let ids = args.next().ok_or(usage())?;
    let moving = match args.next().ok_or(usage())?.as_str() {
        "still" => false,
        "moving" => true,
        _ => return Err(usage()),
    };
    let words = words(alloc, file, ids)?;
    let clock = ListClock::new(readings(alloc, moving)?);
    let mut files = DiskFiles::new(rt);
    let mut out = StdSink::new(rt);
    let ending = run(alloc, &words, &mut files, &mut out, clock, &OpenGate);
    Ok(ExitCode::from(ending.status))
}
