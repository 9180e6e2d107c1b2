//! The lines of a table: what each adds to what was read before it.
ghost use Rattle.std.specs.Prelude.{◌≡◌, ◌+◌, ◌++◌, ◌∷◌, ◌<◌, ◌^◌, [], length, map, is_some, OnOk, Ok, IfOk, IfErr};
ghost use Rattle.text_lines.specs.Fault.{IsFaultOf, at_line};
ghost use Rattle.text_lines.specs.Lexer.{lines_of, words_of};
ghost use Rattle.text_own.specs.Table as meaning;

use crate::row::{row_of, verb_of, word_at};
use model_own::{Entry, Row};
use std::alloc::{AllocError, Global};
use text_lines::fault::{LineFault, TextFault};
use text_lines::lexer::{is, next_line, next_word, nothing, number_within};
use text_lines::several::{may_name, place_of};

/// Where the calls of a lock begin, as far as it has them.
#[derive(Clone, Copy)]
pub struct Calls {
    pub lock: Option<Entry>,
    pub try_lock: Option<Entry>,
    pub unlock: Option<Entry>,
}

/// A lock of one's own, as a text has it.
#[derive(Drop)]
pub struct OwnLock<'t> {
    /// The names of its words, and what these hold at first.
    pub names: Vec<&'t [u8]>,
    pub opening: Vec<u64>,
    pub calls: Calls,
    /// The labels of its rows, and the rows.
    pub labels: Vec<&'t [u8]>,
    pub rows: Vec<Row>,
}

/// What stands behind a table: the number of the line before, and the lines.
#[derive(Clone, Copy)]
pub struct Behind<'t> {
    pub line: u64,
    pub lines: &'t [u8],
}

/// The calls and the rows of a table, and what stands behind them.
#[derive(Drop)]
struct Lines<'t> {
    calls: Calls,
    rows: Vec<Row>,
    behind: Behind<'t>,
}

/// What a line says.
#[derive(Clone, Copy)]
enum Said {
    Nothing,
    Row(Row),
    Calls(Calls),
}

pub(crate) fn push<T: Copy>(items: &mut Vec<T>, item: T) -> Result<(), AllocError>
    ensures { OnOk result (items.new.items ≡ items.old.items ++ item ∷ []) }
{
    items.push(item)?;
    Ok(())
}

#[tactic(auto, using(crate::proofs::TableLaws::map_more))]
fn push_name<'t>(names: &mut Vec<&'t [u8]>, name: &'t [u8]) -> Result<(), AllocError>
    ensures { OnOk result (map (λ n. n.now) names.new.items ≡ map (λ n. n.now) names.old.items ++ name.now ∷ []) }
{
    names.push(name)?;
    Ok(())
}

fn is_call(name: &[u8]) -> bool
    ensures { result ≡ meaning.is_call name.now }
{
    is(name, b"lock") || is(name, b"try_lock") || is(name, b"unlock")
}

/// Whether this is the first word of a line.
fn begins(word: &[u8], line: &[u8]) -> bool
    ensures { result ≡ meaning.begins word.now (words_of line.now) }
{
    match next_word(line) {
        Some((first, _)) => is(first, word),
        None => false,
    }
}

/// The label of a row's line, which is none of a call.
fn label_of(line: &[u8]) -> Option<&[u8]>
    ensures { meaning.told_label result ≡ meaning.label_of (words_of line.now) }
{
    let (label, _) = next_word(line)?;
    if is_call(label) { None } else { Some(label) }
}

/// The labels of all rows before the line that begins with `stop`.
#[tactic(auto, using(crate::proofs::TableLaws::map_more))]
fn labels_of<'t>(alloc: Global, stop: &[u8], text: &'t [u8]) -> Result<Vec<&'t [u8]>, AllocError>
    ensures { IfOk result (λ labels. map (λ l. l.now) labels.items ≡ meaning.labels_of stop.now (lines_of text.now)) }
{
    let mut labels = Vec::new(alloc);
    let mut rest = text;
    while let Some((line, after)) = next_line(rest) {
        if begins(stop, line) {
            return Ok(labels);
        }
        if let Some(label) = label_of(line) {
            push_name(&mut labels, label)?;
        }
        rest = after;
    }
    Ok(labels)
}

/// Where a call begins: `<row>`, or `<row> needs hold`.
fn entry_in(labels: &[&[u8]], line: &[u8]) -> Result<Entry, LineFault>
    ensures { result ≡ meaning.entry_in (map (λ l. l.now) labels.now) (words_of line.now) }
{
    let Some((label, rest)) = next_word(line) else {
        return Err(LineFault::BadLine);
    };
    let Some(row) = place_of(labels, label) else {
        return Err(LineFault::BadLine);
    };
    let Some((needs, rest)) = next_word(rest) else {
        return Ok(Entry {
            row: row as u64,
            takes_hold: true,
            needs_hold: false,
        });
    };
    let Some((hold, rest)) = next_word(rest) else {
        return Err(LineFault::BadLine);
    };
    if !is(needs, b"needs") || !is(hold, b"hold") {
        return Err(LineFault::BadLine);
    }
    nothing(rest)?;
    Ok(Entry {
        row: row as u64,
        takes_hold: false,
        needs_hold: true,
    })
}

/// The calls with one more. Each begins in one place.
fn with_call(calls: Calls, name: &[u8], entry: Entry) -> Result<Calls, LineFault>
    ensures { result ≡ meaning.with_call calls name.now entry }
{
    if is(name, b"lock") && calls.lock.is_none() {
        Ok(Calls {
            lock: Some(entry),
            try_lock: calls.try_lock,
            unlock: calls.unlock,
        })
    } else if is(name, b"try_lock") && calls.try_lock.is_none() {
        Ok(Calls {
            lock: calls.lock,
            try_lock: Some(entry),
            unlock: calls.unlock,
        })
    } else if is(name, b"unlock") && calls.unlock.is_none() {
        Ok(Calls {
            lock: calls.lock,
            try_lock: calls.try_lock,
            unlock: Some(entry),
        })
    } else {
        Err(LineFault::BadLine)
    }
}

/// What a line says, behind so many rows and these calls.
fn read_line(
    names: &[&[u8]],
    labels: &[&[u8]],
    rows: usize,
    calls: Calls,
    line: &[u8],
) -> Result<Said, LineFault>
    ensures { result ≡ meaning.read_line (map (λ n. n.now) names.now) (map (λ l. l.now) labels.now) rows calls (words_of line.now) }
{
    let Some((first, rest)) = next_word(line) else {
        return Ok(Said::Nothing);
    };
    let Some((second, more)) = next_word(rest) else {
        return Err(LineFault::BadLine);
    };
    if is_call(first) {
        let entry = entry_in(labels, rest)?;
        let calls = with_call(calls, first, entry)?;
        return Ok(Said::Calls(calls));
    }
    let Some(verb) = verb_of(second) else {
        return Err(LineFault::BadLine);
    };
    if place_of(labels, first) != Some(rows) {
        return Err(LineFault::BadLine);
    }
    let row = row_of(names, labels, verb, more)?;
    Ok(Said::Row(row))
}

/// The words of a lock, and what they hold at first.
#[derive(Drop)]
struct Words<'t> {
    names: Vec<&'t [u8]>,
    opening: Vec<u64>,
}

/// The words that a line names behind `words`, each with what it holds at first.
fn words_from<'t>(alloc: Global, line: &'t [u8]) -> Result<Words<'t>, TextFault>
    ensures words { IfOk result (λ words. meaning.words_from [] [] (words_of line.now) ≡ Ok (meaning.told_words words)) }
    ensures fault { IfErr result (λ e. IsFaultOf e (at_line 2 (meaning.words_from [] [] (words_of line.now)))) }
{
    let mut names = Vec::new(alloc);
    let mut opening = Vec::new(alloc);
    let mut rest = line;
    while let Some((name, after)) = next_word(rest) {
        let Some((value, after)) = next_word(after) else {
            return Err(TextFault::Line {
                line: 2,
                fault: LineFault::BadLine,
            });
        };
        match first_value(&names, name, value) {
            Ok(number) => {
                push_name(&mut names, name)?;
                push(&mut opening, number)?;
            }
            Err(fault) => return Err(TextFault::Line { line: 2, fault }),
        }
        rest = after;
    }
    Ok(Words { names, opening })
}

/// What the word of a new name holds at first. There are six at most.
fn first_value(names: &[&[u8]], name: &[u8], value: &[u8]) -> Result<u64, LineFault>
    ensures { result ≡ meaning.first_value (map (λ n. n.now) names.now) name.now value.now }
{
    if may_name(names, name) && word_at(names.len()).is_some() {
        number_within(0, u64::MAX, value)
    } else {
        Err(LineFault::BadLine)
    }
}

/// Checks the first line, which names the lock: `object <name>`.
fn check_name(line: &[u8]) -> Result<(), LineFault>
    ensures { result ≡ meaning.check_name (words_of line.now) }
{
    match next_word(line) {
        Some((word, rest)) if is(word, b"object") => {
            if is_one(rest) {
                Ok(())
            } else {
                Err(LineFault::BadLine)
            }
        }
        _ => Err(LineFault::NoObject),
    }
}

/// Whether one word is left of a line.
fn is_one(line: &[u8]) -> bool
    ensures { result ≡ meaning.is_one (words_of line.now) }
{
    match next_word(line) {
        Some((_, rest)) => next_word(rest).is_none(),
        None => false,
    }
}

/// The words of the line that names them, behind `words`: the second.
fn words_in<'t>(alloc: Global, line: &'t [u8]) -> Result<Words<'t>, TextFault>
    ensures words { IfOk result (λ words. meaning.words_in (words_of line.now) ≡ Ok (meaning.told_words words)) }
    ensures fault { IfErr result (λ e. IsFaultOf e (at_line 2 (meaning.words_in (words_of line.now)))) }
{
    match next_word(line) {
        Some((word, rest)) if is(word, b"words") => words_from(alloc, rest),
        _ => Err(TextFault::Line {
            line: 2,
            fault: LineFault::BadLine,
        }),
    }
}

/// The calls and the rows of the lines behind the words, up to the line that begins with `stop`.
fn read_lines<'t>(
    alloc: Global,
    names: &[&[u8]],
    labels: &[&[u8]],
    stop: &[u8],
    text: &'t [u8],
) -> Result<Lines<'t>, TextFault>
    requires countable { length text.now + 3 < 2 ^ 64 }
    ensures read { IfOk result (λ read. meaning.read_lines (map (λ n. n.now) names.now) (map (λ l. l.now) labels.now) stop.now 2 meaning.first_state (lines_of text.now) ≡ Ok (meaning.told_lines read)) }
    ensures countable { IfOk result (λ read. read.behind.line + length read.behind.lines.now + 1 < 2 ^ 64) }
    ensures fault { IfErr result (λ e. IsFaultOf e (meaning.read_lines (map (λ n. n.now) names.now) (map (λ l. l.now) labels.now) stop.now 2 meaning.first_state (lines_of text.now))) }
{
    let mut calls = Calls {
        lock: None,
        try_lock: None,
        unlock: None,
    };
    let mut rows = Vec::new(alloc);
    let mut line: u64 = 2;
    let mut rest = text;
    while let Some((next, after)) = next_line(rest) {
        if begins(stop, next) {
            return Ok(Lines {
                calls,
                rows,
                behind: Behind { line, lines: rest },
            });
        }
        match read_line(names, labels, rows.len(), calls, next) {
            Ok(Said::Nothing) => {}
            Ok(Said::Row(row)) => push(&mut rows, row)?,
            Ok(Said::Calls(more)) => calls = more,
            Err(fault) => {
                return Err(TextFault::Line {
                    line: line + 1,
                    fault,
                });
            }
        }
        line += 1;
        rest = after;
    }
    Err(TextFault::Line {
        line: line + 1,
        fault: LineFault::BadLine,
    })
}

/// Reads a lock of one's own, up to the line that begins with `stop`, and what stands from there on.
pub fn read<'t>(
    alloc: Global,
    stop: &[u8],
    text: &'t [u8],
) -> Result<(OwnLock<'t>, Behind<'t>), TextFault>
    ensures read { IfOk result (λ found. meaning.table_of stop.now (lines_of text.now) ≡ Ok (meaning.told_table found.0 found.1)) }
    ensures countable { IfOk result (λ found. found.1.line + length found.1.lines.now + 1 < 2 ^ 64) }
    ensures fault { IfErr result (λ e. IsFaultOf e (meaning.table_of stop.now (lines_of text.now))) }
{
    let Some((first, after)) = next_line(text) else {
        return Err(TextFault::Line {
            line: 1,
            fault: LineFault::NoObject,
        });
    };
    if let Err(fault) = check_name(first) {
        return Err(TextFault::Line { line: 1, fault });
    }
    let Some((second, rest)) = next_line(after) else {
        return Err(TextFault::Line {
            line: 2,
            fault: LineFault::BadLine,
        });
    };
    let Words { names, opening } = words_in(alloc, second)?;
    let labels = labels_of(alloc, stop, rest)?;
    let Lines {
        calls,
        rows,
        behind,
    } = read_lines(alloc, &names, &labels, stop, rest)?;
    let lock = OwnLock {
        names,
        opening,
        calls,
        labels,
        rows,
    };
    Ok((lock, behind))
}
