//! Draws the text that a reader brings.
ghost use Rattle.std.specs.Prelude.{◌≡◌, ◌≢◌, OnOk, IfErr};
ghost use Rattle.text_advice.specs.Failed.{AdvisesOnText};
ghost use Rattle.draw_text.specs.Run.{HasDrawn, HasBegun, TellsFault};

use crate::parts::parts_of;
use crate::picture::draw_text;
use std::alloc::Global;
use std::io::{Read, Write};
use sync_play::{read_all, write_all};
use text_advice::Failed;
use text_lines::fault::RunFault;

/// Reads a schedule text to its end, and the moves that are told behind it; draws both, and writes the picture, and nothing else. Of a text with a
/// fault it tells the fault, and beside it what would be right.
pub fn run<R: Read, W: Write>(alloc: Global, reader: &mut R, writer: &mut W) -> Result<(), Failed>
    ensures ok { OnOk result (HasDrawn (R.remaining reader.old) (R.remaining reader.new)
        (W.contents writer.old) (W.contents writer.new)) }
    ensures text { IfErr result (λ e. TellsFault e.fault (R.remaining reader.old) (R.remaining reader.new)) }
    ensures advised { IfErr result (λ e. AdvisesOnText e) }

    // After a text's fault, a failed read and want of memory the writer is as it was.
    ensures unwritten { IfErr result (λ e. e.fault ≢ RunFault.Write → writer.new ≡ writer.old) }
    ensures begun { IfErr result (λ e. e.fault ≡ RunFault.Write → HasBegun (R.remaining reader.old) (R.remaining reader.new)
        (W.contents writer.old) (W.contents writer.new)) }
{
    let read = read_all(alloc, reader)?;
    let (text, moves) = parts_of(&read);
    match draw_text(alloc, text, moves) {
        Ok(picture) => Ok(write_all(writer, &picture)?),
        Err(fault) => Err(Failed::of_text(alloc, text, fault)),
    }
}
