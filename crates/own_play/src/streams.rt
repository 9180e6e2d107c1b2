//! Plays the text that a reader brings.
ghost use Rattle.std.specs.Prelude.{◌≡◌, ◌≢◌, OnOk, IfErr};
ghost use Rattle.own_play.specs.Output.{output_of};
ghost use Rattle.sync_play.specs.Run.{HasPlayed, HasBegun, TellsFault};

use crate::text::play_text;
use std::alloc::Global;
use std::io::{Read, Write};
use sync_play::{read_all, write_all};
use text_lines::fault::RunFault;

/// Reads a schedule text to its end, of a lock of one's own, of one object or of several, plays it, and writes what it prints, and nothing else.
pub fn run<R: Read, W: Write>(alloc: Global, reader: &mut R, writer: &mut W) -> Result<(), RunFault>
    ensures ok { OnOk result (HasPlayed output_of (R.remaining reader.old) (R.remaining reader.new)
        (W.contents writer.old) (W.contents writer.new)) }
    ensures text { IfErr result (λ e. TellsFault output_of e (R.remaining reader.old) (R.remaining reader.new)) }

    // After a text's fault, a failed read and want of memory the writer is as it was.
    ensures unwritten { IfErr result (λ e. e ≢ RunFault.Write → writer.new ≡ writer.old) }
    ensures begun { IfErr result (λ e. e ≡ RunFault.Write → HasBegun output_of (R.remaining reader.old) (R.remaining reader.new)
        (W.contents writer.old) (W.contents writer.new)) }
{
    let text = read_all(alloc, reader)?;
    let output = play_text(alloc, &text)?;
    write_all(writer, &output)
}
