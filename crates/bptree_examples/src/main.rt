//! Examples of the library, a benchmark, and a program that draws a tree.
//!
//! - examples: of maps and sets (`examples`), and those to be copied (`race`, `uses`, `filling`);
//! - `benchmark`: the times of the calls of a tree;
//! - `drawing`: a tree as text for Graphviz.
//!
//! Without standard input the program prints the results of the examples, and a drawn tree. A line
//! with a number of pairs and a number of rounds runs the benchmark. A line of the program `bptree`
//! changes a map, whose tree is drawn at the end. Lines after it that are no request are skipped.
#![tactic(auto)]

mod benchmark;
mod drawing;
mod examples;
mod filling;
mod race;
mod uses;

use std::alloc::AllocError;
use std::process::ExitCode;
use sweep_bptree::{BPlusTreeMap, Count};

type Map = BPlusTreeMap<u64, u64, Count>;

// The use of the lines of standard input.
#[derive(Clone, Copy)]
enum Lines {
    // There was no line.
    None,
    Timed,
    Drawn,
    // A line had no use, or could not be read.
    Wrong,
}

// Carries out a line. After a request to the map, lines that are no request are skipped.
fn take_line(
    rt: &HostRuntime,
    map: &mut Map,
    line: &str,
    before: Lines,
) -> Result<Lines, AllocError> {
    if drawing::carry_out(map, line.as_bytes())? {
        return Ok(Lines::Drawn);
    }
    Ok(match before {
        Lines::Drawn => Lines::Drawn,
        _ if benchmark::run(rt, line) => Lines::Timed,
        _ => Lines::Wrong,
    })
}

fn take_lines(rt: &HostRuntime, map: &mut Map) -> Result<Lines, AllocError> {
    let mut lines = Lines::None;
    for line in rt.lines(rt.alloc()) {
        let Ok(line) = line else {
            return Ok(Lines::Wrong);
        };
        lines = take_line(rt, map, line.as_str(), lines)?;
        if matches!(lines, Lines::Wrong) {
            break;
        }
    }
    Ok(lines)
}

// Prints the results of the examples and a drawn tree. Returns whether this succeeded.
fn print_all(rt: &HostRuntime) -> bool {
    examples::print_all(rt).is_ok() && drawing::print_one(rt)
}

// Prints what follows the lines. Returns whether this succeeded.
fn print_after(rt: &HostRuntime, map: &Map, lines: Lines) -> bool {
    match lines {
        Lines::None => print_all(rt),
        Lines::Timed => true,
        Lines::Drawn => drawing::print(rt, map),
        Lines::Wrong => false,
    }
}

// Carries out the lines of standard input. Returns whether all of them succeeded.
fn run(rt: &HostRuntime) -> bool {
    let Ok(mut map) = Map::new(rt.alloc()) else {
        return false;
    };
    match take_lines(rt, &mut map) {
        Ok(lines) => print_after(rt, &map, lines),
        Err(_) => false,
    }
}

fn main(rt: HostRuntime) -> ExitCode {
    if run(&rt) {
        ExitCode::SUCCESS
    } else {
        ExitCode::FAILURE
    }
}
