//! Measures how threads fare that contend for one lock, or one queue, and prints a table.
//!
//! How many milliseconds each row takes comes from standard input. With 0 the table is its head alone. The last line says what was measured. A
//! fault of the input is told on standard error, and the exit status is 2.
#![tactic(auto)]

mod figures;
mod guarded;
mod line;
mod mutexes;
mod queues;
mod race;
mod rwlocks;
#[cfg(test)]
mod tests;
mod work;

use figures::{HEAD, Row};
use line::{LINES, SECTIONS, THREADS};
use mutexes::nanos_to_a_question;
use std::alloc::Global;
use std::io::Read;
use std::process::ExitCode;
use std::sync::Wait;
use std::thread::Threads;
use std::time::{Clock, CpuClock, Duration};
use std::{io, thread};
use work::steps_in_a_microsecond;

/// The most milliseconds that a row may take.
const MOST: u64 = 60_000;

fn main(rt: HostRuntime) -> io::Result<ExitCode> {
    let Some(millis) = read_millis(&rt)? else {
        eprintln!(rt; "bad number of milliseconds: 0 to {MOST} are right")?;
        return Ok(ExitCode::from(2));
    };
    println!(rt; "{HEAD}")?;
    if millis == 0 {
        println!(rt; "0 rows")?;
    } else {
        measure(&rt, rt.alloc(), Duration::from_millis(millis))?;
    }
    Ok(ExitCode::SUCCESS)
}

/// How many milliseconds a row is to take; `None` where the input is no number, or too many.
fn read_millis(rt: &HostRuntime) -> io::Result<Option<u64>> {
    let mut text = String::new(rt.alloc());
    rt.stdin().read_to_string(&mut text)?;
    let millis = text.trim().parse::<u64>().ok();
    Ok(millis.filter(|millis| *millis <= MOST))
}

/// Prints every row, each of which takes so long, and what was measured.
fn measure<R: Threads + Wait + Clock + CpuClock + Print + Sync>(
    rt: &R,
    alloc: Global,
    most: Duration,
) -> io::Result<()> {
    let steps = steps_in_a_microsecond(rt)?;
    let tries = nanos_to_a_question(rt, alloc)?;
    for section in SECTIONS {
        print_section(rt, alloc, section, steps, most)?;
    }
    let rows = LINES.len() * THREADS.len() * SECTIONS.len();
    let millis = most.as_millis();
    let processors = thread::available_parallelism(rt)?.get();
    println!(rt;
        "{rows} rows of {millis} ms each, on {processors} processors; 1000 ns of work were {steps} steps; the tries before a question took {tries} ns"
    )
}

/// Prints the rows of a section.
fn print_section<R: Threads + Wait + Clock + CpuClock + Print + Sync>(
    rt: &R,
    alloc: Global,
    section: u64,
    steps: u64,
    most: Duration,
) -> io::Result<()> {
    for threads in THREADS {
        print_crowd(rt, alloc, threads, section, steps, most)?;
    }
    Ok(())
}

/// Prints those of so many threads.
fn print_crowd<R: Threads + Wait + Clock + CpuClock + Print + Sync>(
    rt: &R,
    alloc: Global,
    threads: usize,
    section: u64,
    steps: u64,
    most: Duration,
) -> io::Result<()> {
    let steps = steps.saturating_mul(section) / 1000;
    for line in LINES {
        let figures = line.race(rt, alloc, threads, steps, most)?;
        let row = Row {
            name: line.name(),
            threads,
            section,
            figures,
        };
        println!(rt; "{row}")?;
    }
    Ok(())
}
