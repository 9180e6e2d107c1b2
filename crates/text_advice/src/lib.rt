//! What would be right where a schedule text has a fault.
//!
//! The fault's own line is two words, which programs read. A person wants to know what to write: [`explain`] shows the line of the text, and
//! says in one sentence what would be right there.
#![tactic(auto)]

mod calls;
mod changes;
mod closures;
mod condition;
mod failed;
mod items;
mod looks;
mod near;
mod objects;
mod own;
pub mod question;
mod repeat;
mod sentence;
mod several;
mod strangers;
mod test;
pub mod trace;
mod variables;
mod words;

use crate::repeat::repeat;
use crate::sentence::advise;
use crate::several::begins_several;
pub use failed::Failed;
use model_events::event::Object;
use std::alloc::{AllocError, Global};
use text_lines::fault::{FaultyLine, LineFault};
use text_lines::lexer::{next_line, next_word};
use text_lines::value_type::object_named;

/// What is left of a text from the line of this number on, counted from 1.
fn from_line(text: &[u8], number: u64) -> &[u8] {
    let mut rest = text;
    for _ in 1..number {
        let Some((_, more)) = next_line(rest) else {
            break;
        };
        rest = more;
    }
    rest
}

/// A line of a text, counted from 1, without its end. Empty where the text has no such line.
fn line_of(text: &[u8], number: u64) -> &[u8] {
    next_line(from_line(text, number)).unwrap_or((b"", b"")).0
}

/// The object that the first line of a text names.
fn object_of(text: &[u8]) -> Option<Object<()>> {
    let (line, _) = next_line(text)?;
    let (name, _) = next_word(line)?;
    object_named(name)
}

/// The line of a text that has this fault, and, on a line of its own, a sentence that says what would be right there.
///
/// It says so by the line, the fault and the object alone: what was played before the line it does not look at.
pub fn explain(alloc: Global, text: &[u8], found: FaultyLine) -> Result<Vec<u8>, AllocError> {
    let line = line_of(text, found.line);
    let mut out = Vec::new(alloc);
    repeat(&mut out, line)?;
    out.extend_from_slice(b"\n")?;
    if begins_several(text) {
        several::advise(&mut out, text, line, found)?;
    } else if own::begins_own(text) && !matches!(found.fault, LineFault::NoObject) {
        own::advise_played(&mut out, text, line, found)?;
    } else {
        advise(&mut out, object_of(text), line, found)?;
    }
    out.extend_from_slice(b"\n")?;
    Ok(out)
}
