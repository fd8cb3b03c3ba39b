//! Measures the lock with seats beside std's `Mutex`, on the same work: each turn reads some
//! numbers of a list and adds one. `lock_bench KIND THREADS TURNS READS`, with KIND `lock` or
//! `mutex`, prints how many numbers were added and the turns per second. Without arguments two
//! threads add numbers under each lock, and the counts are printed.
#![tactic(auto)]

ghost use Rattle.std.specs.Prelude.{◌≡◌, ◌≤◌, length};
ghost use mathlib.Core.List.{IsPrefix};
ghost use Rattle.std.specs.Thread.{IsSync};
ghost use Rattle.turn_lock.specs.Lock.{IsSeatOf, all_parts, made, opened, parts_of, seen};
ghost use Rattle.turn_lock.specs.Turns.{Covers};

mod numbers;

use crate::numbers::Numbers;
use std::alloc::Global;
use std::rt::Clock;
use std::sync::{Mutex, Wait};
use std::thread::Threads;
use std::time::{Duration, Instant};
use std::{env, io, thread};
use turn_lock::{Seat, Turn};

/// What each thread does: so many turns, in each of which it reads so many numbers.
#[derive(Clone, Copy)]
struct Task {
    turns: u64,
    reads: usize,
}

// One thread's turns under the lock with seats.
fn take_turns<R: Wait>(
    rt: &R,
    lock: &Turn<Numbers>,
    seat: Seat<Numbers>,
    task: Task,
) -> Seat<Numbers>
    requires { IsSeatOf lock.now seat }
    ensures { IsSeatOf lock.entry.now result × (parts_of result ≡ parts_of seat) }
{
    let mut seat = seat;
    for number in 0..task.turns {
        let mut held = lock.enter(rt, seat);
        held.value.add(number, task.reads);
        seat = lock.leave(held);
    }
    seat
}

// The task in each of as many threads as the seat has parts.
#[cycle(spread)]
fn spread<R: Threads + Wait + Sync>(
    rt: &R,
    lock: &Turn<Numbers>,
    seat: Seat<Numbers>,
    threads: u32,
    task: Task,
) -> Seat<Numbers>
    requires { IsSeatOf lock.now seat × (parts_of seat ≡ threads) }
    ensures { IsSeatOf lock.entry.now result × (parts_of result ≡ threads) }
{
    if threads < 2 {
        return take_turns(rt, lock, seat, task);
    }
    let few = threads / 2;
    let more = threads - few;
    let (one, two) = lock.split(seat, few);
    let (one, two) = thread::join(
        rt,
        || -> Seat<Numbers>
            requires { IsSync R.row × IsSeatOf lock.now one × (parts_of one ≡ more) }
            ensures { IsSeatOf lock.entry.now result × (parts_of result ≡ more) }
        { spread(rt, lock, one, more, task) },
        || -> Seat<Numbers>
            requires { IsSync R.row × IsSeatOf lock.now two × (parts_of two ≡ few) }
            ensures { IsSeatOf lock.entry.now result × (parts_of result ≡ few) }
        { spread(rt, lock, two, few, task) },
    );
    lock.join(one, two)
}

// One thread's turns under a mutex.
fn lock_often<R: Wait>(rt: &R, shared: &Mutex<Numbers>, task: Task) {
    for number in 0..task.turns {
        shared.lock(rt).add(number, task.reads);
    }
}

#[cycle(spread_mutex)]
fn spread_mutex<R: Threads + Wait + Sync>(
    rt: &R,
    shared: &Mutex<Numbers>,
    threads: u32,
    task: Task,
) {
    if threads < 2 {
        return lock_often(rt, shared, task);
    }
    let few = threads / 2;
    let more = threads - few;
    thread::join(
        rt,
        ||
            requires { IsSync R.row }
        { spread_mutex(rt, shared, more, task) },
        ||
            requires { IsSync R.row }
        { spread_mutex(rt, shared, few, task) },
    );
}

// The numbers at the end: they begin with all that the seat has seen, and those behind the ones at
// the start are its turns.
fn finish(lock: Turn<Numbers>, seat: Seat<Numbers>) -> Numbers
    requires { IsSeatOf lock seat × (parts_of seat ≡ all_parts lock) }
    ensures seen { IsPrefix (seen seat) result.items.items }
    ensures turns { Covers (length (opened lock).items.items) (length result.items.items)
        (made seat) }
{
    let numbers = lock.close(seat);
    numbers
}

// How long the threads take together under the lock with seats, and how many numbers were added.
fn time_lock<R: Threads + Wait + Clock + Sync>(
    rt: &R,
    alloc: Global,
    numbers: Numbers,
    threads: u32,
    task: Task,
) -> io::Result<(Duration, u64)>
    requires { 1 ≤ threads }
{
    let Ok((lock, seat)) = Turn::new(alloc, numbers, threads) else {
        return Err(io::Error::from(io::ErrorKind::OutOfMemory));
    };
    let start = Instant::now(rt);
    let seat = spread(rt, &lock, seat, threads, task);
    let numbers = finish(lock, seat);
    Ok((start?.elapsed(rt)?, numbers.len()))
}

fn time_mutex<R: Threads + Wait + Clock + Sync>(
    rt: &R,
    numbers: Numbers,
    threads: u32,
    task: Task,
) -> io::Result<(Duration, u64)> {
    let shared = Mutex::new(numbers);
    let start = Instant::now(rt)?;
    spread_mutex(rt, &shared, threads, task);
    let numbers = shared.into_inner();
    Ok((start.elapsed(rt)?, numbers.len()))
}

// Turns per second.
fn rate(took: Duration, turns: u64) -> u64 {
    let micros = took
        .as_secs()
        .saturating_mul(1_000_000)
        .saturating_add(u64::from(took.subsec_micros()));
    turns.saturating_mul(1_000_000) / micros.max(1)
}

fn usage() -> io::Error {
    io::Error::from(io::ErrorKind::InvalidInput)
}

fn main(rt: HostRuntime) -> io::Result<()> {
    let mut args = env::args(&rt)?;
    let Some(kind) = args.nth(1) else {
        let task = Task {
            turns: 1_000,
            reads: 10,
        };
        let lock = time_lock(
            &rt,
            rt.alloc(),
            Numbers::with_room(rt.alloc(), 2_000)?,
            2,
            task,
        )?;
        let mutex = time_mutex(&rt, Numbers::with_room(rt.alloc(), 2_000)?, 2, task)?;
        return println!(rt; "lock {} mutex {}", lock.1, mutex.1);
    };
    let threads: u32 = args.next().ok_or(usage())?.parse().map_err(|_| usage())?;
    let turns: u64 = args.next().ok_or(usage())?.parse().map_err(|_| usage())?;
    let reads: usize = args.next().ok_or(usage())?.parse().map_err(|_| usage())?;
    if threads == 0 {
        return Err(usage());
    }
    let task = Task {
        turns: turns / u64::from(threads),
        reads,
    };
    let numbers = Numbers::with_room(rt.alloc(), turns as usize)?;
    let (took, added) = match kind.as_str() {
        "lock" => time_lock(&rt, rt.alloc(), numbers, threads, task)?,
        "mutex" => time_mutex(&rt, numbers, threads, task)?,
        _ => return Err(usage()),
    };
    println!(rt; "{} {}", added, rate(took, added))
}
