//! Lays rows out in columns that line up.
ghost use Rattle.std.specs.Prelude.{◌≡◌, ◌++◌, OnOk, IfOk, length, map, string_bytes, replicate};
ghost use Rattle.text_trace.specs.Rows.{entry_of, entries};
ghost use Rattle.text_trace.specs.Table as meaning;

use crate::rows::Row;
use std::alloc::{AllocError, Global};

/// How wide each column is, but for those of words and the last.
#[derive(Clone, Copy, Debug, PartialEq, Eq)]
pub struct Widths {
    pub steps: usize,
    pub times: usize,
    pub line: usize,
    pub party: usize,
    pub act: usize,
    pub holds: usize,
}

/// The cells of a line.
#[derive(Clone, Copy, Debug)]
struct Line<'t> {
    steps: &'t str,
    times: &'t str,
    line: &'t str,
    party: &'t str,
    act: &'t str,
    words: &'t [String],
    holds: &'t str,
    call: &'t str,
}

/// The number of a row's step, or those of its first and its last.
pub fn steps_text<T>(alloc: Global, row: &Row<T>) -> Result<String, AllocError>
    ensures { IfOk result (λ text. string_bytes text ≡ meaning.steps_words row.now.first row.now.last) }
{
    let first = row.first;
    let last = row.last;
    let mut text = String::new(alloc);
    if first == last {
        write!(text, "{first}")?;
    } else {
        write!(text, "{first}-{last}")?;
    }
    Ok(text)
}

/// How many steps a row has, where it has more than one.
pub fn times_text<T>(alloc: Global, row: &Row<T>) -> Result<String, AllocError>
    ensures { IfOk result (λ text. string_bytes text ≡ meaning.times_words row.now.first row.now.last) }
{
    let mut text = String::new(alloc);
    if row.first != row.last {
        let times = u128::from(row.last.saturating_sub(row.first)) + 1;
        write!(text, "{times}")?;
    }
    Ok(text)
}

/// Widens the columns where a cell of the row is wider.
fn widen<T>(alloc: Global, widths: &mut Widths, row: &Row<T>) -> Result<(), AllocError>
    ensures { OnOk result (widths.new ≡ meaning.widened widths.old (entry_of row.now)) }
{
    let steps = steps_text(alloc, row)?;
    let times = times_text(alloc, row)?;
    let cells = &row.cells;
    *widths = Widths {
        steps: widths.steps.max(steps.len()),
        times: widths.times.max(times.len()),
        line: widths.line.max(cells.line.len()),
        party: widths.party.max(cells.party.len()),
        act: widths.act.max(cells.act.len()),
        holds: widths.holds.max(cells.holds.len()),
    };
    Ok(())
}

/// The widths of the titles, which are the least.
const TITLES: Widths = Widths {
    steps: 4,
    times: 5,
    line: 4,
    party: 5,
    act: 3,
    holds: 5,
};

/// The width of each column: that of its widest cell.
fn widths_of<T>(alloc: Global, rows: &[Row<T>]) -> Result<Widths, AllocError>
    ensures { IfOk result (λ widths. widths ≡ meaning.widths_of (entries rows.now)) }
{
    let mut widths = TITLES;
    for row in rows {
        widen(alloc, &mut widths, row)?;
    }
    Ok(widths)
}

/// The text of this place; nothing where there is none.
pub fn text_at(texts: &[String], place: usize) -> &str
    ensures { result.now ≡ meaning.text_at (map string_bytes texts.now) place }
{
    match texts.get(place) {
        Some(text) => text.as_str(),
        None => "",
    }
}

/// The width of a column of words: that of its widest cell, which may be its title.
fn widest<T>(place: usize, title: &str, rows: &[Row<T>]) -> usize
    ensures { result ≡ meaning.widest place (entries rows.now) (length title.now) }
{
    let mut width = title.len();
    for row in rows {
        width = width.max(text_at(&row.cells.words, place).len());
    }
    width
}

/// The width of each column of words.
fn word_widths<T>(
    alloc: Global,
    titles: &[String],
    rows: &[Row<T>],
) -> Result<Vec<usize>, AllocError>
    ensures { IfOk result (λ widths. widths.items ≡ meaning.word_widths (entries rows.now) (map string_bytes titles.now)) }
{
    let mut widths = Vec::new(alloc);
    for place in 0..titles.len() {
        widths.push(widest(place, titles[place].as_str(), rows))?;
    }
    Ok(widths)
}

fn print_spaces(out: &mut String, count: usize) -> Result<(), AllocError>
    ensures { OnOk result (string_bytes out.new ≡ string_bytes out.old ++ replicate count 32) }
{
    for _index in 0..count {
        out.push(' ')?;
    }
    Ok(())
}

/// A cell that another follows.
fn print_cell(out: &mut String, width: usize, text: &str) -> Result<(), AllocError>
    ensures { OnOk result (string_bytes out.new ≡ string_bytes out.old ++ meaning.cell width text.now) }
{
    out.push_str(text)?;
    print_spaces(out, width.saturating_sub(text.len()))?;
    out.push_str("  ")
}

/// The cells of words.
fn print_words(out: &mut String, widths: &[usize], texts: &[String]) -> Result<(), AllocError>
    ensures { OnOk result (string_bytes out.new ≡ string_bytes out.old ++ meaning.word_cells widths.now (map string_bytes texts.now)) }
{
    for place in 0..widths.len() {
        print_cell(out, widths[place], text_at(texts, place))?;
    }
    Ok(())
}

/// Prints a line: its cells, each but the last with what parts it from the next.
fn print_line(
    out: &mut String,
    widths: &Widths,
    words: &[usize],
    line: &Line<'_>,
) -> Result<(), AllocError>
    ensures { OnOk result (string_bytes out.new ≡ string_bytes out.old ++ meaning.line_text widths.now words.now (meaning.columns_of line.now)) }
{
    print_cell(out, widths.steps, line.steps)?;
    print_cell(out, widths.times, line.times)?;
    print_cell(out, widths.line, line.line)?;
    print_cell(out, widths.party, line.party)?;
    print_cell(out, widths.act, line.act)?;
    print_words(out, words, line.words)?;
    print_cell(out, widths.holds, line.holds)?;
    out.push_str(line.call)?;
    out.push_str("\n")?;
    Ok(())
}

fn print_head(
    out: &mut String,
    widths: &Widths,
    words: &[usize],
    titles: &[String],
) -> Result<(), AllocError>
    ensures { OnOk result (string_bytes out.new ≡ string_bytes out.old ++ meaning.line_text widths.now words.now (meaning.head (map string_bytes titles.now))) }
{
    let head = Line {
        steps: "step",
        times: "times",
        line: "line",
        party: "party",
        act: "act",
        words: titles,
        holds: "holds",
        call: "call",
    };
    print_line(out, widths, words, &head)
}

fn print_row<T>(
    alloc: Global,
    out: &mut String,
    widths: &Widths,
    words: &[usize],
    row: &Row<T>,
) -> Result<(), AllocError>
    ensures { OnOk result (string_bytes out.new ≡ string_bytes out.old ++ meaning.row_line widths.now words.now (entry_of row.now)) }
{
    let steps = steps_text(alloc, row)?;
    let times = times_text(alloc, row)?;
    let cells = &row.cells;
    let line = Line {
        steps: steps.as_str(),
        times: times.as_str(),
        line: cells.line.as_str(),
        party: cells.party.as_str(),
        act: cells.act.as_str(),
        words: &cells.words,
        holds: cells.holds.as_str(),
        call: cells.call.as_str(),
    };
    print_line(out, widths, words, &line)
}

fn print_rows<T>(
    alloc: Global,
    out: &mut String,
    widths: &Widths,
    words: &[usize],
    rows: &[Row<T>],
) -> Result<(), AllocError>
    ensures { OnOk result (string_bytes out.new ≡ string_bytes out.old ++ meaning.row_lines widths.now words.now (entries rows.now)) }
{
    for row in rows {
        print_row(alloc, out, widths, words, row)?;
    }
    Ok(())
}

/// The table of the rows: the head, with the titles of the words' columns, and a line for each.
pub fn table<T>(alloc: Global, titles: &[String], rows: &[Row<T>]) -> Result<String, AllocError>
    ensures { IfOk result (λ text. string_bytes text ≡ meaning.table (map string_bytes titles.now) (entries rows.now)) }
{
    let widths = widths_of(alloc, rows)?;
    let words = word_widths(alloc, titles, rows)?;
    let mut out = String::new(alloc);
    print_head(&mut out, &widths, &words, titles)?;
    print_rows(alloc, &mut out, &widths, &words, rows)?;
    Ok(out)
}
