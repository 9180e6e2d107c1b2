//! The rows of a trace: steps that read the same, one right after the other, are folded into one.
ghost use Rattle.std.specs.Prelude.{◌≡◌, ◌<◌, OnOk, map, string_bytes};
ghost use Rattle.std.specs.Str.{bytes_eq};
ghost use Rattle.text_trace.specs.Cells.{texts_of};
ghost use Rattle.text_trace.specs.Rows as meaning;

use crate::cells::Cells;
use std::alloc::{AllocError, Global};
use text_lines::lexer::is;

/// A row: steps with the same cells. Steps are counted from 1, up to 2^64 - 1.
#[derive(Drop)]
pub struct Row<T> {
    /// The number of its first step.
    pub first: u64,
    /// The number of its last step.
    pub last: u64,
    pub cells: Cells<T>,
}

/// Whether two texts are the same.
fn same(a: &String, b: &String) -> bool
    ensures { result ≡ bytes_eq (string_bytes a.now) (string_bytes b.now) }
{
    is(a.as_bytes(), b.as_bytes())
}

/// Whether two lists of texts are the same.
fn all_same(a: &[String], b: &[String]) -> bool
    ensures { result ≡ meaning.texts_same (map string_bytes a.now) (map string_bytes b.now) }
{
    if a.len() != b.len() {
        return false;
    }
    for index in 0..a.len() {
        if !same(&a[index], &b[index]) {
            return false;
        }
    }
    true
}

/// Whether two steps read the same, but for their numbers.
fn read_same<T>(a: &Cells<T>, b: &Cells<T>) -> bool
    ensures { result ≡ meaning.read_same (texts_of a.now) (texts_of b.now) }
{
    same(&a.line, &b.line)
        && same(&a.party, &b.party)
        && same(&a.act, &b.act)
        && all_same(&a.words, &b.words)
        && same(&a.holds, &b.holds)
        && same(&a.call, &b.call)
}

/// Adds the next steps, as many as read like this: to the last row where it reads the same, and else in a row of their own.
pub fn add<T: Copy>(rows: &mut Vec<Row<T>>, cells: Cells<T>, times: u64) -> Result<(), AllocError>
    requires { 0 < times }
    ensures { OnOk result (meaning.entries rows.new.items ≡ meaning.added_often times (texts_of cells) (meaning.entries rows.old.items)) }
{
    let Some(last) = rows.pop() else {
        rows.push(Row {
            first: 1,
            last: times,
            cells,
        })?;
        return Ok(());
    };
    if read_same(&last.cells, &cells) {
        rows.push(Row {
            first: last.first,
            last: last.last.saturating_add(times),
            cells,
        })?;
    } else {
        let before = last.last;
        rows.push(last)?;
        rows.push(Row {
            first: before.saturating_add(1),
            last: before.saturating_add(times),
            cells,
        })?;
    }
    Ok(())
}

/// Lets go of the rows between the first ones, as many as are told, and the last. Where it is not told how many, all stay.
pub fn trim<T: Copy>(rows: &mut Vec<Row<T>>, most: Option<usize>) -> Result<(), AllocError>
    ensures { OnOk result (meaning.entries rows.new.items ≡ meaning.trimmed_to most (meaning.entries rows.old.items)) }
{
    let Some(most) = most else { return Ok(()) };
    if rows.len() <= most {
        return Ok(());
    }
    let Some(last) = rows.pop() else {
        return Ok(());
    };
    rows.truncate(most);
    rows.push(last)?;
    Ok(())
}
