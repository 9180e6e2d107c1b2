//! The question of a lock of one's own, in the last line.
ghost use Rattle.std.specs.Prelude.{◌≡◌, ◌+◌, ◌^◌, ◌<◌, length, Ok, OnOk, IfOk, IfErr};
ghost use Rattle.text_lines.specs.Fault.{IsFaultOf};
ghost use Rattle.text_lines.specs.Lexer.{lines_of, words_of};
ghost use Rattle.text_own.specs.Question as meaning;
ghost use Rattle.text_own.specs.Table.{told_lock};

use crate::table::{OwnLock, read};
use std::alloc::Global;
use text_lines::fault::{LineFault, TextFault};
use text_lines::lexer::{is, next_line, next_word, nothing};

/// Whether this word alone is left of a line.
fn is_last(name: &[u8], line: &[u8]) -> bool
    ensures { result ≡ meaning.is_last name.now (words_of line.now) }
{
    match next_word(line) {
        Some((word, rest)) => is(word, name) && next_word(rest).is_none(),
        None => false,
    }
}

/// Whether `two holders` is left of a line.
fn is_two_holders(line: &[u8]) -> bool
    ensures { result ≡ meaning.is_two_holders (words_of line.now) }
{
    match next_word(line) {
        Some((word, rest)) => is(word, b"two") && is_last(b"holders", rest),
        None => false,
    }
}

/// Whether a line asks the question: `never two holders`.
fn is_question(line: &[u8]) -> bool
    ensures { result ≡ meaning.is_question (words_of line.now) }
{
    match next_word(line) {
        Some((word, rest)) => is(word, b"never") && is_two_holders(rest),
        None => false,
    }
}

/// Nothing may stand behind line `number`.
fn check_end(text: &[u8], number: u64) -> Result<(), TextFault>
    requires countable { number + length text.now < 2 ^ 64 }
    ensures ok { OnOk result (meaning.check_end number (lines_of text.now) ≡ Ok tt) }
    ensures fault { IfErr result (λ e. IsFaultOf e (meaning.check_end number (lines_of text.now))) }
{
    let mut line = number;
    let mut rest = text;
    while let Some((next, after)) = next_line(rest) {
        if let Err(fault) = nothing(next) {
            return Err(TextFault::Line {
                line: line + 1,
                fault,
            });
        }
        line += 1;
        rest = after;
    }
    Ok(())
}

/// The question has to stand there, behind line `number`, and nothing behind it.
fn check_question(text: &[u8], number: u64) -> Result<(), TextFault>
    requires countable { number + length text.now + 1 < 2 ^ 64 }
    ensures ok { OnOk result (meaning.check_question number (lines_of text.now) ≡ Ok tt) }
    ensures fault { IfErr result (λ e. IsFaultOf e (meaning.check_question number (lines_of text.now))) }
{
    match next_line(text) {
        Some((line, after)) if is_question(line) => check_end(after, number + 1),
        _ => Err(TextFault::Line {
            line: number + 1,
            fault: LineFault::BadLine,
        }),
    }
}

/// Reads a lock of one's own, and the question of it.
pub fn read_asked<'t>(alloc: Global, text: &'t [u8]) -> Result<OwnLock<'t>, TextFault>
    ensures read { IfOk result (λ lock. meaning.lock_of (lines_of text.now) ≡ Ok (told_lock lock)) }
    ensures fault { IfErr result (λ e. IsFaultOf e (meaning.lock_of (lines_of text.now))) }
{
    let (lock, behind) = read(alloc, b"never", text)?;
    check_question(behind.lines, behind.line)?;
    Ok(lock)
}
