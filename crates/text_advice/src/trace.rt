//! Traces the text that a reader brings, and says what would be right where it has a fault.
ghost use Rattle.std.specs.Prelude.{◌≡◌, OnOk, IfErr, None};
ghost use Rattle.text_advice.specs.Failed.{AdvisesOnText};
ghost use Rattle.text_advice.specs.Trace.{HasTraced, HasBegun, TellsFault, IsEarly};

use crate::Failed;
use std::alloc::Global;
use std::io::{Read, Write};
use sync_play::{read_all, write_all};
use text_lines::fault::{RunFault, TextFault};
use text_trace::trace::trace_text;

/// Reads a schedule text to its end, and writes its trace, and nothing else.
///
/// Of a text with a fault the trace up to it is written, and then `RunFault::Text` tells the fault, and beside it what would be right. After
/// `Read` and `Memory` nothing was written, and after `Write` a beginning of the trace.
pub fn run<R: Read, W: Write>(alloc: Global, reader: &mut R, writer: &mut W) -> Result<(), Failed>
    ensures ok { OnOk result (HasTraced (R.remaining reader.old) (R.remaining reader.new)
        (W.contents writer.old) (W.contents writer.new) None) }
    ensures text { IfErr result (λ e. TellsFault e.fault (R.remaining reader.old) (R.remaining reader.new)
        (W.contents writer.old) (W.contents writer.new)) }
    ensures advised { IfErr result (λ e. AdvisesOnText e) }
    ensures unwritten { IfErr result (λ e. IsEarly e.fault → writer.new ≡ writer.old) }
    ensures begun { IfErr result (λ e. e.fault ≡ RunFault.Write → HasBegun (R.remaining reader.old) (R.remaining reader.new)
        (W.contents writer.old) (W.contents writer.new)) }
{
    let text = read_all(alloc, reader)?;
    let trace = trace_text(alloc, &text)?;
    write_all(writer, &trace.bytes)?;
    match trace.fault {
        None => Ok(()),
        Some(found) => Err(Failed::of_text(alloc, &text, TextFault::from(found))),
    }
}
