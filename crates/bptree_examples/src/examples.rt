//! The examples, and the results that each of them prints, line by line. The examples that
//! README.md and docs/COOKBOOK.md show are modules of the crate itself.

mod argument;
mod calendar;
mod date_statistic;
mod string;
mod visit_depth;

use crate::{race, uses};
use std::alloc::AllocError;
use std::fmt::Debug;
use std::io;

fn print<T: Debug + Drop>(
    rt: &HostRuntime,
    what: &str,
    outcome: Result<T, AllocError>,
) -> io::Result<()> {
    match outcome {
        Ok(numbers) => println!(rt; "{what}: {numbers:?}"),
        Err(_) => println!(rt; "{what}: out of memory"),
    }
}

fn print_maps(rt: &HostRuntime) -> io::Result<()> {
    let alloc = rt.alloc();
    print(rt, "race", race::run(alloc))?;
    print(rt, "hello, world, other", string::run(alloc))?;
    print(rt, "size, depth", visit_depth::run(alloc, 10000))?;
    print(rt, "even numbers", argument::run(alloc))
}

fn print_dates(rt: &HostRuntime) -> io::Result<()> {
    let alloc = rt.alloc();
    print(rt, "leap years", Ok(calendar::leap_years()))?;
    print(rt, "days of February", Ok(calendar::days_of_february()))?;
    print(rt, "days of 2021", calendar::days_of_months(alloc, 2021))?;
    let days = date_statistic::run(alloc);
    print(rt, "days, of 2011, 2012, 2020, 2021, left of 2011", days)
}

fn print_uses(rt: &HostRuntime) -> io::Result<()> {
    let alloc = rt.alloc();
    print(rt, "ranks, players", uses::leaderboard::run(alloc))?;
    print(rt, "segments beside", uses::sweep_line::run(alloc))?;
    print(rt, "items", uses::grouped_index::run(alloc))?;
    print(rt, "rows by value", uses::secondary_index::run(alloc))?;
    print(rt, "takings", uses::revenue::run(alloc))
}

/// Prints a line for each example.
pub fn print_all(rt: &HostRuntime) -> io::Result<()> {
    print_maps(rt)?;
    print_dates(rt)?;
    print_uses(rt)
}
