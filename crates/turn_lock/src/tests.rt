ghost use Rattle.std.specs.Prelude.{◌≡◌, ◌+◌, ◌<◌, [], ◌++◌, length, IfOk, IfErr, OnOk, vec_len, refl};
ghost use Rattle.std.proofs.Common.{◌∙◌};
ghost use mathlib.Core.List.{IsPrefix};
ghost use Rattle.turn_lock.specs.Lock.{IsSeatOf, all_parts, parts_of};

use crate::{Seat, Story, Turn};
use std::process::Abort;
use std::sync::Wait;
use std::test::Fail;
use std::thread;
use std::thread::Threads;

const TURNS: u32 = 1_000;

#[derive(Clone, Copy, Debug, PartialEq, Eq)]
struct Line {
    by: u32,
    number: u32,
}

// Lines under a heading. The heading is the charter.
#[derive(Drop)]
struct Sheet {
    heading: u32,
    lines: Vec<Line>,
}

impl Story for Sheet {
    type Entry = Line;

    ghost entries = { λ s. s.lines.items };

    ghost same_charter = { λ s t. s.heading ≡ t.heading };

    fn count(&self) -> u64 {
        self.lines.len() as u64
    }

    ghost charter_self = { λ s. refl };

    ghost charter_on = { λ s t u p q. p ∙ q };
}

// Adds a line, where there is room.
fn add(sheet: &mut Sheet, line: Line)
    ensures heading { sheet.old.heading ≡ sheet.new.heading }
    ensures lines { IsPrefix sheet.old.lines.items sheet.new.lines.items }
{
    if sheet.lines.len() < sheet.lines.capacity() {
        sheet.lines.push_reserved(line);
    }
}

// So many turns of one thread, in each of which it adds its next number.
fn add_in_turns<R: Wait>(rt: &R, lock: &Turn<Sheet>, seat: Seat<Sheet>, by: u32) -> Seat<Sheet>
    requires { IsSeatOf lock.now seat }
    ensures { IsSeatOf lock.entry.now result × (parts_of result ≡ parts_of seat) }
{
    let mut seat = seat;
    for number in 0..TURNS {
        let mut held = lock.enter(rt, seat);
        add(&mut held.value, Line { by, number });
        seat = lock.leave(held);
    }
    seat
}

// Each of two threads has its turns, and both seats come back as one.
fn two_threads<R: Threads + Wait + Sync>(
    rt: &R,
    lock: &Turn<Sheet>,
    seat: Seat<Sheet>,
) -> Seat<Sheet>
    requires { IsSeatOf lock.now seat × (parts_of seat ≡ 2) }
    ensures { IsSeatOf lock.entry.now result × (parts_of result ≡ 2) }
{
    let (one, two) = lock.split(seat, 1);
    let (one, two) = thread::join(
        rt,
        || -> Seat<Sheet>
            requires { IsSeatOf lock.now one × (parts_of one ≡ 1) }
            ensures { IsSeatOf lock.entry.now result × (parts_of result ≡ 1) }
        { add_in_turns(rt, lock, one, 1) },
        || -> Seat<Sheet>
            requires { IsSeatOf lock.now two × (parts_of two ≡ 1) }
            ensures { IsSeatOf lock.entry.now result × (parts_of result ≡ 1) }
        { add_in_turns(rt, lock, two, 2) },
    );
    lock.join(one, two)
}

// Whether the numbers of one thread rise from 0 on, one by one, and how many there are.
fn numbers_of(lines: &[Line], by: u32) -> Option<u32> {
    let mut next = 0u32;
    for line in lines {
        if line.by == by {
            if line.number != next || next == u32::MAX {
                return None;
            }
            next += 1;
        }
    }
    Some(next)
}

#[test]
fn two_threads_have_their_turns(rt: HostRuntime) -> Result<(), Fail> {
    let sheet = Sheet {
        heading: 7,
        lines: Vec::with_capacity(rt.alloc(), 2 * TURNS as usize)?,
    };
    let Ok((lock, seat)) = Turn::new(rt.alloc(), sheet, 2) else {
        panic!(rt; "no memory")
    };
    let seat = two_threads(&rt, &lock, seat);
    let parts = seat.parts();
    let sheet = lock.close(seat);
    assert_eq!(rt; (parts, sheet.heading, sheet.lines.len()), (2, 7, 2_000));
    let lines = sheet.lines.as_slice();
    assert_eq!(rt;
        (numbers_of(lines, 1), numbers_of(lines, 2)),
        (Some(TURNS), Some(TURNS))
    );
    Ok(())
}
