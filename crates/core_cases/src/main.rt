//! Calls the public functions of the planner's lower crates, with ample memory, on the problems of
//! its folder `data`, and prints a line for each case. A body that always answered want of memory
//! would meet their contracts, and fails here.
#![tactic(auto)]

mod problems;
mod rows;
mod states;
mod turns;
mod verdicts;

use crate::problems::read;
use std::io;
use tp_spec::Problem;
use tp_world::{DiskFiles, Files};

/// Prints the line of two sets.
fn print_rows(rt: &(impl Print + AllocGlobal)) -> io::Result<()> {
    let line = rows::of_two_sets(rt.alloc())?;
    println!(rt; "{line}")
}

/// Prints the lines of the first state, a timed item and an overflow.
fn print_states(rt: &(impl Print + AllocGlobal), tank: &Problem) -> io::Result<()> {
    println!(rt; "{}", states::at_the_start(rt.alloc(), tank)?)?;
    println!(rt; "{}", states::behind_a_timed_item(rt.alloc(), tank)?)?;
    println!(rt; "{}", states::behind_an_overflow(rt.alloc(), tank)?)
}

/// Prints the line of what interferes.
fn print_interference(rt: &(impl Print + AllocGlobal), switch: &Problem) -> io::Result<()> {
    println!(rt; "{}", states::interference(rt.alloc(), switch)?)
}

/// Prints the lines of two verdicts.
fn print_verdicts(rt: &(impl Print + AllocGlobal), far: &Problem) -> io::Result<()> {
    println!(rt; "{}", verdicts::far_end(rt.alloc(), far)?)?;
    println!(rt; "{}", verdicts::end_off(rt.alloc(), far)?)
}

/// Prints the line of two takes.
fn print_takes(rt: &(impl Print + AllocGlobal), lit: &Problem) -> io::Result<()> {
    println!(rt; "{}", turns::two_takes(rt.alloc(), lit)?)
}

/// The lines of the problem with a tank.
fn show_tank(rt: &(impl Print + AllocGlobal), files: &mut impl Files) -> io::Result<()> {
    let tank = read(rt.alloc(), files, "tank.ground")?;
    print_states(rt, &tank)
}

/// The line of the problem with two switches.
fn show_switch(rt: &(impl Print + AllocGlobal), files: &mut impl Files) -> io::Result<()> {
    let switch = read(rt.alloc(), files, "switch.ground")?;
    print_interference(rt, &switch)
}

/// The lines of the problem with a far timed literal.
fn show_far(rt: &(impl Print + AllocGlobal), files: &mut impl Files) -> io::Result<()> {
    let far = read(rt.alloc(), files, "far.ground")?;
    print_verdicts(rt, &far)
}

/// The line of the problem with a light.
fn show_lit(rt: &(impl Print + AllocGlobal), files: &mut impl Files) -> io::Result<()> {
    let lit = read(rt.alloc(), files, "lit.ground")?;
    print_takes(rt, &lit)
}

fn main(rt: HostRuntime) -> io::Result<()> {
    let mut files = DiskFiles::new(rt);
    print_rows(&rt)?;
    show_tank(&rt, &mut files)?;
    show_switch(&rt, &mut files)?;
    show_far(&rt, &mut files)?;
    show_lit(&rt, &mut files)
}
