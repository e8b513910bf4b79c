//! Runs the worked rows: reads a row on standard input, does what its lines say through the top calls over objects in memory,
//! and writes the row again with what came out.
//!
//! A line that begins with `<` or `=` is what an earlier run wrote, and is read over; so a row that is as it should be is
//! written as it was read. `docs/rows.md` says what the other lines mean. `row_runner STEP` gives so many bytes of a script a
//! take, where the row doesn't say how many. Its status is 1 where a line is none of a row's, and 2 for other words.
#![tactic(auto)]

mod forging;
mod keys;
mod reaching;
mod row;
mod serving;
mod showing;
mod state;

use row::Row;
use sdbt_base::Memory;
use std::alloc::Global;
use std::io::Write;
use std::process::ExitCode;
use std::rt::Env;
use std::{env, io};

/// How many bytes of a script come a take, where neither the row nor the command line says it.
const STEP: usize = 4_096;

/// The exit status of a row with a line that is none, and of a run that was given no memory.
const FAILED: u8 = 1;

/// The exit status of a faulty command line.
const FAULTY: u8 = 2;

fn main(rt: HostRuntime) -> ExitCode {
    let Some(step) = step_of(&rt) else {
        let _ = eprintln!(&rt; "usage: row_runner [STEP] <ROW");
        return ExitCode::from(FAULTY);
    };
    match follow(&rt, step) {
        Ok(true) => ExitCode::SUCCESS,
        Ok(false) => ExitCode::from(FAILED),
        Err(error) => {
            let _ = eprintln!(&rt; "row_runner: {error}");
            ExitCode::from(FAILED)
        }
    }
}

/// The number on the command line; None where that is faulty.
fn step_of(rt: &(impl Env + Alloc<A = Global>)) -> Option<usize> {
    let mut step = STEP;
    let mut count: usize = 0;
    for word in env::args(rt).ok()?.skip(1) {
        step = word.parse().ok()?;
        count = count.saturating_add(1);
    }
    if count > 1 || step == 0 {
        None
    } else {
        Some(step)
    }
}

/// Does what the row on standard input says, and writes it to standard output. It answers whether each line is one of a row's.
fn follow(rt: &(impl Input + Print + Alloc<A = Global>), step: usize) -> io::Result<bool> {
    let text = io::read_to_string(rt.alloc(), rt.reader())?;
    match Row::of(rt.alloc(), step, text.as_str()) {
        Ok(row) => write(rt, &row),
        Err(Memory) => Err(io::ErrorKind::OutOfMemory.into()),
    }
}

/// Writes a row that was followed to standard output. It answers whether each line is one of a row's.
fn write(rt: &impl Print, row: &Row) -> io::Result<bool> {
    io::writer(rt).write_all(row.text())?;
    Ok(row.is_whole())
}
