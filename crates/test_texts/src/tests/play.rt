//! What no text can say: readers and writers that fail, or that come in pieces, memory that is refused, and what the player answers step
//! by step.
mod growths;
mod limits;
mod long;
mod player;
mod rooms;
mod streams;

use std::alloc::{AllocError, Global};
use std::io::{Read, Write};
use sync_play::run;

/// Runs a text from a reader to a writer: `played`, or the fault's line and the exit status.
fn told<R: Read, W: Write>(
    alloc: Global,
    reader: &mut R,
    writer: &mut W,
) -> Result<String, AllocError> {
    match run(alloc, reader, writer) {
        Ok(()) => format!(in alloc; "played"),
        Err(fault) => {
            let status = fault.status();
            format!(in alloc; "{fault}, status {status}")
        }
    }
}
