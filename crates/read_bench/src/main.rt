//! Measures the readers of PDDL files: reads a domain and a problem of it, as often as it is told,
//! and prints one line: how much they say, or the first fault with its byte. `read_bench DOMAIN
//! PROBLEM [ROUNDS]`, where the two are paths of files; one round where ROUNDS is left out. The
//! script `bench/read` makes the files, runs it and takes the start off.
#![tactic(auto)]

ghost use Rattle.std.specs.Prelude.{◌≤◌, IfOk, vec_len};

mod reading;

use crate::reading::read_often;
use std::alloc::Global;
use std::{env, io};
use tp_world::{DiskFiles, Files, LoadFault};

/// The greatest length of a file in bytes.
const MOST: u64 = 1_048_576;

fn usage() -> io::Error {
    io::Error::from(io::ErrorKind::InvalidInput)
}

/// The content of a file of at most 1,048,576 bytes.
fn load(alloc: Global, files: &mut impl Files, path: &str) -> io::Result<Vec<u8>>
    ensures { IfOk result (λ text. vec_len text ≤ 1_048_576) }
{
    match files.load(alloc, path, MOST) {
        Ok(text) => Ok(text),
        Err(LoadFault::Failed) => Err(io::Error::from(io::ErrorKind::NotFound)),
        Err(LoadFault::TooLong) => Err(io::Error::from(io::ErrorKind::FileTooLarge)),
        Err(LoadFault::NoMemory) => Err(io::Error::from(io::ErrorKind::OutOfMemory)),
    }
}

fn main(rt: HostRuntime) -> io::Result<()> {
    let alloc = rt.alloc();
    let mut args = env::args(&rt)?;
    let domain = args.nth(1).ok_or(usage())?;
    let problem = args.next().ok_or(usage())?;
    let rounds: u64 = match args.next() {
        None => 1,
        Some(word) => word.parse().map_err(|_| usage())?,
    };
    if rounds == 0 {
        return Err(usage());
    }
    let mut files = DiskFiles::new(rt);
    let domain = load(alloc, &mut files, &domain)?;
    let problem = load(alloc, &mut files, &problem)?;
    let reading = read_often(alloc, &domain, &problem, rounds);
    match reading.outcome {
        Ok(counts) => println!(rt; "{counts} rounds {}", reading.rounds),
        Err(fault) => println!(rt; "{fault}"),
    }
}
