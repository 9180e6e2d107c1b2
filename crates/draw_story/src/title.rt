//! A row of the trace in words.
ghost use Rattle.std.specs.Prelude.{◌≡◌, ◌++◌, OnOk, IfOk, map, codes, string_bytes};
ghost use Rattle.text_trace.specs.Cells.{texts_of};
ghost use Rattle.text_trace.specs.Rows.{entry_of};
ghost use Rattle.draw_story.specs.Title.{times_part, texts_words, cell_words, title_words};

use std::alloc::{AllocError, Global};
use text_trace::cells::Cells;
use text_trace::rows::Row;
use text_trace::table::{steps_text, text_at, times_text};

/// How many steps a row has, where it has more than one.
fn print_times(out: &mut String, times: &str) -> Result<(), AllocError>
    ensures { OnOk result (string_bytes out.new ≡ string_bytes out.old ++ times_part times.now) }
{
    if times.is_empty() {
        return Ok(());
    }
    write!(out, ", {times} times")
}

/// What the words of an object hold, behind their title.
fn print_text(out: &mut String, title: &str, text: &str) -> Result<(), AllocError>
    ensures { OnOk result (string_bytes out.new ≡ string_bytes out.old ++ (title.now ++ (codes " " ++ (text.now ++ codes ", ")))) }
{
    write!(out, "{title} {text}, ")
}

/// What the words of each object hold.
fn print_texts(out: &mut String, titles: &[String], texts: &[String]) -> Result<(), AllocError>
    ensures { OnOk result (string_bytes out.new ≡ string_bytes out.old ++ texts_words (map string_bytes titles.now) (map string_bytes texts.now)) }
{
    for place in 0..titles.len() {
        print_text(out, titles[place].as_str(), text_at(texts, place))?;
    }
    Ok(())
}

fn print_cells<T>(out: &mut String, titles: &[String], cells: &Cells<T>) -> Result<(), AllocError>
    ensures { OnOk result (string_bytes out.new ≡ string_bytes out.old ++ cell_words (map string_bytes titles.now) (texts_of cells.now)) }
{
    let line = cells.line.as_str();
    let party = cells.party.as_str();
    let act = cells.act.as_str();
    let holds = cells.holds.as_str();
    let call = cells.call.as_str();
    write!(out, ", line {line}, party {party}: {act}; ")?;
    print_texts(out, titles, &cells.words)?;
    write!(out, "holds {holds}, call {call}")
}

/// A row of the trace: its cells, by the names of their columns; those of words have titles.
#[tactic(auto, unfolding(crate::specs::Title::title_words))]
pub fn title_of<T>(alloc: Global, titles: &[String], row: &Row<T>) -> Result<String, AllocError>
    ensures { IfOk result (λ title. string_bytes title ≡ title_words (map string_bytes titles.now) (entry_of row.now)) }
{
    let steps = steps_text(alloc, row)?;
    let times = times_text(alloc, row)?;
    let mut title = String::from_str(alloc, "step ")?;
    title.push_str(steps.as_str())?;
    print_times(&mut title, times.as_str())?;
    print_cells(&mut title, titles, &row.cells)?;
    Ok(title)
}
