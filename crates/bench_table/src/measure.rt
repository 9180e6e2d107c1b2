//! Runs the lines, and takes the time of each.

use crate::fault::BenchFault;
use bench_lines::lines::{LINES, Line, OPERATIONS};
use std::alloc::{AllocError, Global};
use std::sync::Wait;
use std::time::{Clock, Duration, Instant};

/// The figures of a line, one for each round, in hundredths of a nanosecond for an operation.
#[derive(Drop)]
pub struct Column {
    pub line: Line,
    pub figures: Vec<u64>,
}

/// The hundredths of a nanosecond that an operation took, rounded down, where a round took this long.
fn hundredths(spent: Duration) -> u64 {
    let figure = spent.as_nanos() * 100 / u128::from(OPERATIONS);
    u64::try_from(figure).unwrap_or(u64::MAX)
}

/// Runs a line once, and tells its figure. Nothing is promised of how long a run takes.
fn figure(rt: &(impl Clock + Wait), alloc: Global, line: Line) -> Result<u64, BenchFault> {
    let start = Instant::now(rt).map_err(|_| BenchFault::Clock)?;
    let successes = line.run(rt, alloc)?;
    let spent = start.elapsed(rt).map_err(|_| BenchFault::Clock)?;
    if successes != OPERATIONS {
        return Err(BenchFault::Refused);
    }
    Ok(hundredths(spent))
}

/// A column for each of these lines, with room for its figures, so that no round takes memory.
fn empty_columns(alloc: Global, lines: &[Line], rounds: usize) -> Result<Vec<Column>, AllocError> {
    let mut columns = Vec::new(alloc);
    for &line in lines {
        let figures = Vec::with_capacity(alloc, rounds)?;
        columns.push(Column { line, figures })?;
    }
    Ok(columns)
}

/// Runs the line of a column once, and adds its figure.
fn add_figure(
    rt: &(impl Clock + Wait),
    alloc: Global,
    column: &mut Column,
) -> Result<(), BenchFault> {
    let figure = figure(rt, alloc, column.line)?;
    column.figures.push(figure)?;
    Ok(())
}

/// Runs each line once, in turn, so that what disturbs the machine for a while falls on all lines alike.
fn one_round(
    rt: &(impl Clock + Wait),
    alloc: Global,
    columns: &mut [Column],
) -> Result<(), BenchFault> {
    for column in columns.iter_mut() {
        add_figure(rt, alloc, column)?;
    }
    Ok(())
}

/// The figures of every line, one for each round.
pub fn measured(
    rt: &(impl Clock + Wait),
    alloc: Global,
    rounds: u64,
) -> Result<Vec<Column>, BenchFault> {
    let mut columns = empty_columns(alloc, &LINES, rounds as usize)?;
    for _ in 0..rounds {
        one_round(rt, alloc, &mut columns)?;
    }
    Ok(columns)
}
