//! Runs the commands over files, a sink and a clock in memory, as the lines of the files `cases`
//! and `orders` in the folder `data` say, and prints what each gives; then the text of each fault.
#![tactic(auto)]

mod case;
mod faults;
mod orders;
mod running;

use crate::case::case_of;
use crate::faults::texts_of_faults;
use crate::orders::order_text;
use crate::running::{run_case, unfit};
use std::alloc::Global;
use std::io;
use tp_world::{DiskFiles, Files};

/// The greatest length of a file in bytes.
const MOST: u64 = 65_536;

/// The text of a file.
fn text_of(alloc: Global, files: &mut impl Files, name: &str) -> io::Result<String> {
    let Ok(bytes) = files.load(alloc, name, MOST) else {
        return Err(io::Error::from(io::ErrorKind::NotFound));
    };
    match String::from_utf8(bytes) {
        Ok(text) => Ok(text),
        Err(_) => Err(unfit()),
    }
}

/// Runs the case of a line, and prints what it gives.
fn print_case(
    rt: &(impl Print + AllocGlobal),
    files: &mut impl Files,
    line: &str,
) -> io::Result<()> {
    let case = case_of(rt.alloc(), line)?;
    let shown = run_case(rt.alloc(), files, &case)?;
    print!(rt; "> {line}\n{shown}")
}

/// Prints what each line of the cases gives.
fn print_cases(
    rt: &(impl Print + AllocGlobal),
    files: &mut impl Files,
    cases: &str,
) -> io::Result<()> {
    for line in cases.lines() {
        print_case(rt, files, line)?;
    }
    Ok(())
}

/// Prints what the words of each line order.
fn print_orders(rt: &(impl Print + AllocGlobal), orders: &str) -> io::Result<()> {
    for line in orders.lines() {
        let shown = order_text(rt.alloc(), line)?;
        println!(rt; "{shown}|{line}")?;
    }
    Ok(())
}

/// What the cases give.
fn show_cases(rt: &(impl Print + AllocGlobal), files: &mut impl Files) -> io::Result<()> {
    let cases = text_of(rt.alloc(), files, "cases")?;
    print_cases(rt, files, cases.as_str())
}

/// What the lines of words order.
fn show_orders(rt: &(impl Print + AllocGlobal), files: &mut impl Files) -> io::Result<()> {
    let orders = text_of(rt.alloc(), files, "orders")?;
    print_orders(rt, orders.as_str())
}

/// The texts of faults.
fn show_faults(rt: &(impl Print + AllocGlobal)) -> io::Result<()> {
    let texts = texts_of_faults(rt.alloc())?;
    print!(rt; "{texts}")
}

fn main(rt: HostRuntime) -> io::Result<()> {
    let mut files = DiskFiles::new(rt);
    show_cases(&rt, &mut files)?;
    show_orders(&rt, &mut files)?;
    show_faults(&rt)
}
