//! Draws a step in the lane of its party.
ghost use Rattle.std.specs.Prelude.{◌<◌, ◌^◌};

use crate::lane::draw_party;
use crate::legend::cross;
use crate::shape::{circle, line, put_shape, put_text, rect};
use crate::signs::is_anybody_at;
use draw_layout::label::{Mark, Reach, Tone, label_of, mark_of, outcome_of, reach_of, tone_of};
use draw_layout::lane::Lane;
use draw_layout::layout::{Layout, top_of};
use draw_markup::markup::Markup;
use draw_story::story::{Story, StoryStep};
use std::alloc::{AllocError, Global};
use sync_steps::steps::Act;
use text_lines::integer::TextInteger;

/// Draws the mark of a step, round its place; that of a wake by whether anybody stands who may be woken.
fn draw_mark(
    alloc: Global,
    picture: &mut Markup,
    mark: Mark,
    wakes: bool,
    x: u64,
    y: u64,
) -> Result<(), AllocError>
    requires x_fits { x < 2 ^ 40 }
    requires y_fits { y < 2 ^ 42 }
{
    let drawn = match mark {
        Mark::None => return Ok(()),
        Mark::Look => circle(alloc, "look", x, y, 5),
        Mark::Done => circle(alloc, "done", x, y, 5),
        Mark::Failed => cross(alloc, x, y),
        Mark::Written => rect(
            alloc,
            "done",
            x.saturating_sub(5),
            y.saturating_sub(5),
            10,
            10,
        ),
        Mark::Wake => line(
            alloc,
            if wakes { "wake" } else { "vain" },
            (x, y),
            (x + 20, y),
        ),
    };
    put_shape(picture, drawn?)
}

/// Draws the way from a step to the word that it reads or writes.
fn draw_reach(
    alloc: Global,
    picture: &mut Markup,
    layout: &Layout,
    object: usize,
    reach: Reach,
    x: u64,
    y: u64,
) -> Result<(), AllocError>
    requires { x < 2 ^ 40 }
{
    let class = if reach.writes { "write" } else { "read" };
    let to = layout.right_of(object, reach.word) + 2;
    put_shape(picture, line(alloc, class, (x, y), (to, y))?)
}

fn tone_class(tone: Option<Tone>) -> &'static str {
    match tone {
        Some(Tone::Granted) => "granted end",
        Some(Tone::Refused) => "refused end",
        Some(Tone::Waiting) => "waiting end",
        None => "end",
    }
}

/// Draws what a step did.
fn draw_label<T: TextInteger>(
    alloc: Global,
    picture: &mut Markup,
    story: &Story<T>,
    lane: &Lane,
    step: &StoryStep<T>,
) -> Result<(), AllocError> {
    let baseline = top_of(step.row) + 12;
    // A wake's arrow is longer than a mark.
    let indent = if mark_of(&step.event.act) == Mark::Wake {
        40
    } else {
        28
    };
    let label = label_of(alloc, story, step)?;
    let x = lane.start() + indent;
    put_text(alloc, picture, "", x, baseline, label.as_str())
}

/// Draws what became of a step's call.
fn draw_outcome<T: TextInteger>(
    alloc: Global,
    picture: &mut Markup,
    lane: &Lane,
    step: &StoryStep<T>,
) -> Result<(), AllocError> {
    let baseline = top_of(step.row) + 12;
    let outcome = outcome_of(alloc, &step.event.then)?;
    if outcome.is_empty() {
        return Ok(());
    }
    let class = tone_class(tone_of(&step.event.then));
    let right = lane.end().saturating_sub(8);
    put_text(alloc, picture, class, right, baseline, outcome.as_str())
}

/// Draws the head of a call: its words in the text, without the party's number, and the party.
fn draw_head<T>(
    alloc: Global,
    picture: &mut Markup,
    lane: &Lane,
    step: &StoryStep<T>,
) -> Result<(), AllocError> {
    let baseline = top_of(step.row) + 13;
    if let Some(line) = &step.line
        && let Some((_, call)) = line.words.as_str().split_once(' ')
    {
        put_text(alloc, picture, "head", lane.start() + 10, baseline, call)?;
    }
    let right = lane.end().saturating_sub(8);
    draw_party(alloc, picture, lane, "soft end", right, baseline)
}

/// Draws the mark of a step, and the way to the word that it reads or writes.
fn draw_act<T: Copy>(
    alloc: Global,
    picture: &mut Markup,
    layout: &Layout,
    lane: &Lane,
    step: &StoryStep<T>,
) -> Result<(), AllocError> {
    let x = lane.middle();
    let y = top_of(step.row) + 8;
    if let Some(reach) = reach_of(&step.event.act) {
        draw_reach(alloc, picture, layout, step.object, reach, x, y)?;
    }
    let wakes = is_anybody_at(layout, step.object, step.row);
    draw_mark(alloc, picture, mark_of(&step.event.act), wakes, x, y)
}

/// Draws a step in the lane of its party: the head of a call, or the way to a word, a mark and words.
fn draw_in_lane<T: TextInteger>(
    alloc: Global,
    picture: &mut Markup,
    story: &Story<T>,
    layout: &Layout,
    lane: &Lane,
    step: &StoryStep<T>,
) -> Result<(), AllocError> {
    if let Act::Begun(_) = step.event.act {
        return draw_head(alloc, picture, lane, step);
    }
    draw_act(alloc, picture, layout, lane, step)?;
    draw_label(alloc, picture, story, lane, step)?;
    draw_outcome(alloc, picture, lane, step)
}

/// Draws all that a step's group has inside.
pub fn draw_inside<T: TextInteger>(
    alloc: Global,
    inside: &mut Markup,
    story: &Story<T>,
    layout: &Layout,
    step: &StoryStep<T>,
) -> Result<(), AllocError> {
    inside.say("\n")?;
    match layout.lane_of(step.event.party) {
        Some(lane) => draw_in_lane(alloc, inside, story, layout, lane, step),
        None => Ok(()),
    }
}
