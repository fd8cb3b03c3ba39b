//! Each adapter on the system, or over a runtime that says what it was asked to do.
use crate::adapters::{DiskFiles, ElapsedClock, PauseGate, StdSink};
use crate::clock::Clock;
use crate::files::{Files, LoadFault};
use crate::gate::{Gate, Point};
use crate::sink::Sink;
use std::fmt::Display;
use std::fs;
use std::io::{self, Print};
use std::sync::atomic::{AtomicU64, Ordering};
use std::test::Fail;
use std::time::{Clock as SystemClock, Duration};

/// A runtime whose output is one number: the bytes that it was given, as digits to the base 256.
#[derive(Drop)]
struct Heard {
    number: AtomicU64,
}

impl Print for Heard {
    fn print<D: Display + Drop>(&self, _value: D) -> io::Result<()> {
        Ok(())
    }

    fn println<D: Display + Drop>(&self, _value: D) -> io::Result<()> {
        Ok(())
    }

    fn write_all(&self, bytes: &[u8]) -> io::Result<()> {
        let mut number = self.number.load(Ordering::SeqCst);
        for byte in bytes {
            number = number.wrapping_mul(256).wrapping_add(u64::from(*byte));
        }
        self.number.store(number, Ordering::SeqCst);
        Ok(())
    }
}

/// A runtime whose time is set by hand, in milliseconds, and goes on in a sleep alone.
#[derive(Drop)]
struct Hand {
    time: AtomicU64,
}

impl Hand {
    fn time(&self) -> u64 {
        self.time.load(Ordering::SeqCst)
    }
}

impl SystemClock for Hand {
    fn monotonic(&self) -> io::Result<Duration> {
        Ok(Duration::from_millis(self.time()))
    }

    fn since_1970(&self) -> io::Result<Duration> {
        self.monotonic()
    }

    fn sleep(&self, duration: Duration) {
        let more = u64::from(duration.subsec_millis());
        let time = duration.as_secs().saturating_mul(1_000);
        let now = self.time().saturating_add(time).saturating_add(more);
        self.time.store(now, Ordering::SeqCst);
    }
}

fn can_be_sent<T: Send>(_: &T) {}

/// Whether a load gave just these bytes.
fn gives(loaded: &Result<Vec<u8>, LoadFault>, bytes: &[u8]) -> bool {
    match loaded {
        Ok(text) => text.as_slice() == bytes,
        Err(_) => false,
    }
}

/// Whether a load was refused for this fault.
fn refuses(loaded: &Result<Vec<u8>, LoadFault>, fault: LoadFault) -> bool {
    match loaded {
        Ok(_) => false,
        Err(e) => *e == fault,
    }
}

// What a file holds is written and read here past the adapter, under two names.
#[test]
fn disk_files(rt: HostRuntime) -> Result<(), Fail> {
    let alloc = rt.alloc();
    let (read, written) = ("disk_files.read", "disk_files.written");
    let mut files = DiskFiles::new(rt);
    can_be_sent(&files);
    fs::write(&rt, read, b"plan\n")?;
    assert!(rt; gives(&files.load(alloc, read, 5), b"plan\n"));
    assert!(rt; gives(&files.load(alloc, read, 500), b"plan\n"));
    assert!(rt; refuses(&files.load(alloc, read, 4), LoadFault::TooLong));
    assert!(rt; refuses(&files.load(alloc, written, 5), LoadFault::Failed));
    assert!(rt; files.save(alloc, written, b"plan\nend 5\n").is_ok());
    assert!(rt; files.save(alloc, written, b"end\n").is_ok());
    assert!(rt; fs::read(&rt, written)?.as_slice() == b"end\n".as_slice());
    assert!(rt; gives(&files.load(alloc, read, 5), b"plan\n"));
    fs::remove_file(&rt, read)?;
    fs::remove_file(&rt, written)?;
    assert!(rt; files.save(alloc, "", b"plan\n").is_err());
    Ok(())
}

#[test]
fn standard_output(rt: HostRuntime) {
    can_be_sent(&StdSink::new(rt));
    let heard = Heard {
        number: AtomicU64::new(0),
    };
    let mut out = StdSink::new(&heard);
    assert!(rt; out.put(b"do").is_ok());
    assert!(rt; heard.number.load(Ordering::SeqCst) == 0x646f);
    assert!(rt; out.put(b" 5\n").is_ok());
    assert!(rt; heard.number.load(Ordering::SeqCst) == 0x64_6f20_350a);
}

#[test]
fn elapsed_clock(rt: HostRuntime) {
    can_be_sent(&ElapsedClock::new(rt));
    let hand = Hand {
        time: AtomicU64::new(7_000),
    };
    let mut clock = ElapsedClock::new(&hand);
    hand.time.store(9_504, Ordering::SeqCst);
    assert!(rt; clock.read() == 2);
    clock.begin(100);
    assert!(rt; clock.read() == 250);
    clock.begin(1_000);
    hand.time.store(9_505, Ordering::SeqCst);
    assert!(rt; clock.read() == 2_505);
}

#[test]
fn pauses(rt: HostRuntime) {
    let hand = Hand {
        time: AtomicU64::new(0),
    };
    let gate = PauseGate::new(&hand);
    gate.pass(1, 0, Point::Sprout);
    assert!(rt; hand.time() == 0);
    gate.pass(1, 0, Point::Idle);
    assert!(rt; hand.time() == 5);
    gate.pass(0, 0, Point::Look);
    assert!(rt; hand.time() == 10);
}
