//! How many rounds are asked for, what is printed of them, and of a fault.

mod faults;
mod figures;
mod tables;

use bench_table::fault::BenchFault;
use bench_table::run::run;
use std::alloc::{AllocError, Global};
use std::io::Read;
use std::sync::Wait;
use std::time::Clock;

/// A fault's line, the exit status, and how many bytes were written.
fn told(alloc: Global, fault: BenchFault, written: usize) -> Result<String, AllocError> {
    let status = fault.status();
    format!(in alloc; "{fault}, status {status}, {written} written")
}

/// What a run writes, or what is told of its fault.
fn benched_from<R: Read>(
    rt: &(impl Clock + Wait),
    alloc: Global,
    reader: &mut R,
) -> Result<String, AllocError> {
    let mut written: Vec<u8> = Vec::new(alloc);
    match run(rt, alloc, reader, &mut written) {
        Ok(()) => shown(alloc, &written),
        Err(fault) => told(alloc, fault, written.len()),
    }
}

/// The same where the reader brings a text.
fn benched(rt: &(impl Clock + Wait), alloc: Global, text: &[u8]) -> Result<String, AllocError> {
    let mut reader = text;
    benched_from(rt, alloc, &mut reader)
}

/// An output, whose bytes are ASCII, as text.
fn shown(alloc: Global, output: &[u8]) -> Result<String, AllocError> {
    let mut text = String::new(alloc);
    for byte in output {
        text.push(char::from(*byte))?;
    }
    Ok(text)
}
