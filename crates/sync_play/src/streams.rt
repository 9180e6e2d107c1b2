//! Plays the text that a reader brings.
ghost use Rattle.std.specs.Prelude.{◌≡◌, ◌≢◌, OnOk, IfOk, IfErr};
ghost use Rattle.std.specs.Io.KnownBytes.{Appends};
ghost use Rattle.sync_play.specs.Run.{HasRead, HasPlayed, HasBegun, TellsFault, EndsReading, Begins};
ghost use Rattle.sync_play.specs.Text.{output_of};

use crate::text::play_text;
use std::alloc::Allocator;
use std::io::{Read, Write};
use text_lines::fault::RunFault;

/// How many bytes are read at once.
const CHUNK: usize = 4096;

/// Reads to the end. An error of any kind ends it, also an interruption.
pub fn read_all<R: Read, A: Allocator>(alloc: A, reader: &mut R) -> Result<Vec<u8, A>, RunFault>
    ensures ok { IfOk result (λ text. HasRead (R.remaining reader.old) (R.remaining reader.new) text.items) }
    ensures err { IfErr result EndsReading }
{
    let mut text = Vec::new(alloc);
    let mut buffer = [0u8; CHUNK];
    loop {
        match reader.read(&mut buffer) {
            Ok(0) => return Ok(text),
            Ok(count) => text.extend_from_slice(&buffer[..count])?,
            Err(_) => return Err(RunFault::Read),
        }
    }
}

/// Writes all the bytes. An error of any kind ends it, and so does a write that takes none.
pub fn write_all<W: Write>(writer: &mut W, bytes: &[u8]) -> Result<(), RunFault>
    ensures ok { OnOk result (Appends (W.contents writer.old) (W.contents writer.new) bytes.now) }
    ensures write { IfErr result (λ e. e ≡ RunFault.Write) }
    ensures begun { Begins (W.contents writer.old) (W.contents writer.new) bytes.now }
{
    let mut rest = bytes;
    while !rest.is_empty() {
        match writer.write(rest) {
            Ok(0) | Err(_) => return Err(RunFault::Write),
            Ok(count) => rest = &rest[count..],
        }
    }
    Ok(())
}

/// Reads a schedule text to its end, plays it, and writes what it prints, and nothing else.
pub fn run<R: Read, W: Write, A: Allocator + Copy>(
    alloc: A,
    reader: &mut R,
    writer: &mut W,
) -> Result<(), RunFault>
    ensures ok { OnOk result (HasPlayed output_of (R.remaining reader.old) (R.remaining reader.new)
        (W.contents writer.old) (W.contents writer.new)) }
    ensures text { IfErr result (λ e. TellsFault output_of e (R.remaining reader.old) (R.remaining reader.new)) }

    // After a text's fault, a failed read and want of memory the writer is as it was.
    ensures unwritten { IfErr result (λ e. e ≢ RunFault.Write → writer.new ≡ writer.old) }
    ensures begun { IfErr result (λ e. e ≡ RunFault.Write → HasBegun output_of (R.remaining reader.old) (R.remaining reader.new)
        (W.contents writer.old) (W.contents writer.new)) }
{
    let text = read_all(alloc, reader)?;
    let output = play_text(alloc, &text)?;
    write_all(writer, &output)
}
