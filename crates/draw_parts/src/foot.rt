//! Draws what stands below the steps: what the run has left, what the picture leaves out, and the legend.
ghost use Rattle.std.specs.Prelude.{◌<◌, ◌+◌, ◌^◌, IfOk};

use crate::legend::{draw_legend, legend_height};
use crate::shape::put_text;
use crate::signs::signs_of;
use draw_layout::layout::Layout;
use draw_markup::markup::Markup;
use draw_story::story::{MOST_STEPS, Story};
use std::alloc::{AllocError, Global};

/// How high the notes below the rows are, of one object.
const NOTES_HEIGHT: u64 = 64;
/// How high a line of them is.
const LINE: u64 = 20;
/// Of how many objects the last lines have room.
const MOST_OBJECTS: u64 = 1000;

/// How far the last lines but one reach.
fn further_height<T>(story: &Story<T>) -> u64
    ensures { result < 2 ^ 15 }
{
    let objects = (story.objects.len() as u64).min(MOST_OBJECTS);
    objects.saturating_sub(1) * LINE
}

/// Where the notes below the rows end.
fn notes_bottom<T>(story: &Story<T>, layout: &Layout) -> u64
    ensures { result < 2 ^ 40 + 2 ^ 16 }
{
    layout.bottom() + NOTES_HEIGHT + further_height(story)
}

/// How many parties make no step.
fn idle_count<T>(story: &Story<T>, layout: &Layout) -> usize {
    story.parties.saturating_sub(layout.lanes.len())
}

/// Says how many parties have no lane, where there are some.
fn say_idle(note: &mut String, idle: usize) -> Result<(), AllocError> {
    if idle == 0 {
        return Ok(());
    }
    write!(
        note,
        "Without a step, and so without a lane: {idle} of the parties. "
    )
}

/// Says how many steps are not drawn, where there are some.
fn say_undrawn(note: &mut String, count: u64) -> Result<(), AllocError> {
    if count == 0 {
        return Ok(());
    }
    write!(
        note,
        "Not drawn: {count} steps after the first {MOST_STEPS} rows."
    )
}

/// What the picture leaves out; nothing where it leaves nothing out.
fn left_out<T>(alloc: Global, story: &Story<T>, layout: &Layout) -> Result<String, AllocError> {
    let mut note = String::new(alloc);
    say_idle(&mut note, idle_count(story, layout))?;
    say_undrawn(&mut note, story.left_out)?;
    Ok(note)
}

/// Draws the last lines of the text's output, one below the other.
fn draw_last<T>(
    alloc: Global,
    picture: &mut Markup,
    story: &Story<T>,
    layout: &Layout,
) -> Result<(), AllocError> {
    let mut baseline = layout.bottom() + 26;
    for line in story.last.as_str().lines() {
        put_text(alloc, picture, "soft", 12, baseline, line)?;
        baseline = baseline.saturating_add(LINE);
    }
    Ok(())
}

/// Draws what the run has left, and what the picture leaves out.
fn draw_notes<T>(
    alloc: Global,
    picture: &mut Markup,
    story: &Story<T>,
    layout: &Layout,
) -> Result<(), AllocError> {
    draw_last(alloc, picture, story, layout)?;
    let bottom = layout.bottom() + further_height(story);
    let note = left_out(alloc, story, layout)?;
    if note.is_empty() {
        return Ok(());
    }
    put_text(alloc, picture, "waiting", 12, bottom + 46, note.as_str())
}

/// Draws what stands below the steps.
pub fn draw_foot<T: Copy>(
    alloc: Global,
    story: &Story<T>,
    layout: &Layout,
) -> Result<Markup, AllocError> {
    let mut picture = Markup::new(alloc);
    draw_notes(alloc, &mut picture, story, layout)?;
    let signs = signs_of(alloc, story, layout)?;
    draw_legend(alloc, &mut picture, &signs, notes_bottom(story, layout))?;
    Ok(picture)
}

/// How high a picture is.
pub fn height_of<T: Copy>(
    alloc: Global,
    story: &Story<T>,
    layout: &Layout,
) -> Result<u64, AllocError>
    ensures { IfOk result (λ height. height < 2 ^ 41) }
{
    let signs = signs_of(alloc, story, layout)?;
    Ok(notes_bottom(story, layout) + legend_height(signs.len()) + 4)
}
