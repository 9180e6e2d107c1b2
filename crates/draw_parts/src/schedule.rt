//! Draws the lines of the text, on the left.
use crate::shape::{line, put_shape, put_text};
use draw_layout::layout::{Layout, SCHEDULE, top_of};
use draw_markup::markup::Markup;
use draw_story::story::{Line, Story};
use std::alloc::{AllocError, Global};

/// Draws a line of the schedule, before its first step.
fn draw_line(
    alloc: Global,
    picture: &mut Markup,
    layout: &Layout,
    line_of_text: &Line,
    row: u32,
) -> Result<(), AllocError> {
    let top = top_of(row);
    let right = u64::from(layout.bands_left).saturating_sub(8);
    if row > 0 {
        put_shape(picture, line(alloc, "rule", (12, top), (right, top))?)?;
    }
    let baseline = top + 12;
    draw_number(alloc, picture, line_of_text.number, baseline)?;
    let words = line_of_text.words.as_str();
    put_text(alloc, picture, "", u64::from(SCHEDULE), baseline, words)
}

/// Draws the number of a line.
fn draw_number(
    alloc: Global,
    picture: &mut Markup,
    number: u64,
    baseline: u64,
) -> Result<(), AllocError> {
    let digits = format!(in alloc; "{number}")?;
    put_text(alloc, picture, "soft end", 46, baseline, digits.as_str())
}

/// Draws the lines of the schedule.
pub fn draw_schedule<T>(
    alloc: Global,
    picture: &mut Markup,
    story: &Story<T>,
    layout: &Layout,
) -> Result<(), AllocError> {
    for step in &story.steps {
        if let Some(line) = &step.line {
            draw_line(alloc, picture, layout, line, step.row)?;
        }
    }
    Ok(())
}
