//! Runs the program over a reader and a writer.
ghost use Rattle.std.specs.Prelude.{◌≡◌, ◌≢◌, IfErr};

use crate::fault::BenchFault;
use crate::measure::measured;
use crate::rounds::rounds;
use crate::table::{HEAD, print_columns};
use std::alloc::Global;
use std::io::{ErrorKind, Read, Write};
use std::sync::Wait;
use std::time::Clock;

/// Reads to the end.
fn read_all<R: Read>(alloc: Global, reader: &mut R) -> Result<Vec<u8>, BenchFault> {
    let mut text = Vec::new(alloc);
    match reader.read_to_end(&mut text) {
        Ok(_) => Ok(text),
        Err(error) if error.kind() == ErrorKind::OutOfMemory => Err(BenchFault::Memory),
        Err(_) => Err(BenchFault::Read),
    }
}

/// The table of so many rounds.
fn table(rt: &(impl Clock + Wait), alloc: Global, rounds: u64) -> Result<String, BenchFault> {
    let mut table = String::from_str(alloc, HEAD)?;
    let mut columns = measured(rt, alloc, rounds)?;
    print_columns(&mut table, &mut columns)?;
    Ok(table)
}

/// Reads a number of rounds, runs them, and writes the table, and nothing else.
pub fn run<R: Read, W: Write>(
    rt: &(impl Clock + Wait),
    alloc: Global,
    reader: &mut R,
    writer: &mut W,
) -> Result<(), BenchFault>
    // After any fault but a failed write the writer is as it was.
    ensures unwritten { IfErr result (λ e. e ≢ BenchFault.Write → writer.new ≡ writer.old) }
{
    let text = read_all(alloc, reader)?;
    let rounds = rounds(&text)?;
    let table = table(rt, alloc, rounds)?;
    writer
        .write_all(table.as_bytes())
        .map_err(|_| BenchFault::Write)
}
