//! Traces a schedule text.
ghost use Rattle.std.specs.Prelude.{◌≡◌, ◌+◌, ◌^◌, ◌<◌, List, length, map, IfOk, string_bytes};
ghost use Rattle.sync_steps.specs.Machine.{StandsAt};
ghost use Rattle.model_events.specs.declared.event.Event.{Event as AnEvent};
ghost use Rattle.text_lines.specs.Lexer.{lines_of};
ghost use Rattle.sync_play.specs.Walk.{rest_walk};
ghost use Rattle.text_own.specs.Answer.{unmark};
ghost use Rattle.text_trace.specs.Own as own;
ghost use Rattle.text_trace.specs.Several as several;
ghost use Rattle.text_trace.specs.Trace as meaning;
ghost use Rattle.text_trace.specs.Whole.{trace_of};

use crate::cells::cells_of;
use crate::rows::{Row, add, trim};
use crate::table::table;
use crate::{own, several};
use std::alloc::{AllocError, Global};
use sync_play::walk::{Rest, next_stride, open};
use sync_steps::steps::Machine;
use text_lines::by_value_type;
use text_lines::fault::FaultyLine;
use text_lines::header::Header;
use text_lines::integer::TextInteger;
use text_own::{begins_own, unmarked};
use text_room::text::begins_several;

/// The rows of a run, the titles of the words' columns, and the line with a fault that ended it early, if there is one.
#[derive(Drop)]
pub struct Rows<T> {
    pub titles: Vec<String>,
    pub rows: Vec<Row<T>>,
    pub fault: Option<FaultyLine>,
}

/// What is written of a text, and the line with a fault that ended it early, if there is one.
#[derive(Debug, Drop)]
pub struct Trace {
    pub bytes: Vec<u8>,
    pub fault: Option<FaultyLine>,
}

/// Adds the rows of the steps that are left of a text, and tells the line with a fault that ends them early, if there is one. Where it is told
/// how many first rows are to be kept, none is kept between these and the last.
pub fn add_steps<T: TextInteger>(
    alloc: Global,
    header: Header<T>,
    machine: &mut Machine<T>,
    rest: &mut Rest<'_, T>,
    most: Option<usize>,
    rows: &mut Vec<Row<T>>,
) -> Result<Option<FaultyLine>, AllocError>
    requires countable { rest.old.line + length rest.old.lines.now < 2 ^ 64 }
    ensures added { (past : List (AnEvent T)) → StandsAt T.arithmetic header.object header.parties past machine.old →
        IfOk result (meaning.HasAdded T.arithmetic T.numerals most header past (rest_walk T.arithmetic T.numerals header.object header.parties past rest.old) rows.old.items rows.new.items) }
    ensures stands { (past : List (AnEvent T)) → StandsAt T.arithmetic header.object header.parties past machine.old →
        IfOk result (meaning.HasPlayed T.arithmetic header past (rest_walk T.arithmetic T.numerals header.object header.parties past rest.old) machine.new) }
{
    loop {
        match next_stride(machine, rest) {
            Ok(Some(stride)) => {
                let cells = cells_of(alloc, header, machine, stride.step)?;
                add(rows, cells, stride.times)?;
                trim(rows, most)?;
            }
            Ok(None) => return Ok(None),
            Err(fault) => return Ok(Some(fault)),
        }
    }
}

/// The title of the words of one object.
pub fn one_title(alloc: Global) -> Result<Vec<String>, AllocError>
    ensures { IfOk result (λ titles. map string_bytes titles.items ≡ meaning.one_title) }
{
    let mut titles = Vec::new(alloc);
    titles.push(String::from_str(alloc, "word")?)?;
    Ok(titles)
}

/// The rows of a text of one object.
fn rows_of<T: TextInteger>(alloc: Global, text: &[u8]) -> Result<Rows<T>, AllocError>
    ensures { IfOk result (λ found. meaning.rows_told found ≡ meaning.rows_of T.arithmetic T.numerals (lines_of text.now)) }
{
    let titles = one_title(alloc)?;
    let mut rows = Vec::new(alloc);
    let (header, mut rest) = match open::<T>(text) {
        Ok(opened) => opened,
        Err(fault) => {
            return Ok(Rows {
                titles,
                rows,
                fault: Some(fault),
            });
        }
    };
    let mut machine = Machine::new(alloc, header.object, header.parties)?;
    let fault = add_steps(alloc, header, &mut machine, &mut rest, None, &mut rows)?;
    Ok(Rows {
        titles,
        rows,
        fault,
    })
}

/// No rows, where the lines before the first step have a fault.
pub(crate) fn no_rows<T>(alloc: Global, fault: FaultyLine) -> Rows<T>
    ensures { meaning.rows_told result ≡ meaning.no_rows fault }
{
    Rows {
        titles: Vec::new(alloc),
        rows: Vec::new(alloc),
        fault: Some(fault),
    }
}

/// What is written of these rows.
fn written<T: TextInteger>(alloc: Global, found: Rows<T>) -> Result<Trace, AllocError>
    ensures { IfOk result (λ trace. meaning.written_of trace ≡ meaning.written (meaning.rows_told found)) }
{
    let out = table(alloc, &found.titles, &found.rows)?;
    Ok(Trace {
        bytes: out.into_bytes(),
        fault: found.fault,
    })
}

/// The trace of a text of one object whose values are of this type.
fn trace_typed<T: TextInteger>(alloc: Global, text: &[u8]) -> Result<Trace, AllocError>
    ensures { IfOk result (λ trace. meaning.written_of trace ≡ meaning.typed_trace T.arithmetic T.numerals (lines_of text.now)) }
{
    let found = rows_of::<T>(alloc, text)?;
    written(alloc, found)
}

/// The trace of a text of several objects whose values are of this type.
fn trace_several<T: TextInteger>(alloc: Global, text: &[u8]) -> Result<Trace, AllocError>
    ensures { IfOk result (λ trace. meaning.written_of trace ≡ meaning.written (several.rows_of T.arithmetic T.numerals (lines_of text.now))) }
{
    let found = several::rows_of::<T>(alloc, text)?;
    written(alloc, found)
}

/// The trace of a text that begins with a table.
fn trace_own(alloc: Global, text: &[u8]) -> Result<Trace, AllocError>
    ensures { IfOk result (λ trace. meaning.written_of trace ≡ meaning.written (own.rows_of (lines_of (map unmark text.now)))) }
{
    let plain = unmarked(alloc, text)?;
    let found = own::rows_of(alloc, &plain)?;
    written(alloc, found)
}

/// The trace of a text, of a lock of one's own, of one object or of several: the head and a line for each row, up to its end or its first fault.
///
/// Its steps are let go as they are folded into rows, so it takes memory for the rows and the output alone.
pub fn trace_text(alloc: Global, text: &[u8]) -> Result<Trace, AllocError>
    ensures { IfOk result (λ trace. meaning.written_of trace ≡ trace_of text.now) }
{
    if begins_own(text) {
        trace_own(alloc, text)
    } else if begins_several(text) {
        by_value_type!(text, trace_several(alloc, text))
    } else {
        by_value_type!(text, trace_typed(alloc, text))
    }
}
