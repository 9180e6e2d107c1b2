//! Draws what parties did beside the objects, as far as it is told.
ghost use Rattle.std.specs.Prelude.{◌<◌, ◌^◌};

use crate::shape::{circle, line, put_shape, put_text, rect};
use draw_layout::lane::Lane;
use draw_layout::layout::{Layout, top_of};
use draw_markup::markup::Markup;
use draw_story::story::Story;
use draw_story::told::{Aside, Deed};
use std::alloc::{AllocError, Global};

/// Draws the mark of a step on variables, and the way to the bands of these.
fn draw_step(
    alloc: Global,
    picture: &mut Markup,
    layout: &Layout,
    aside: &Aside,
    x: u64,
    y: u64,
) -> Result<(), AllocError>
    requires x_fits { x < 2 ^ 40 }
    requires y_fits { y < 2 ^ 42 }
{
    let is_change = aside.deed == Deed::Sets;
    let class = if is_change { "write" } else { "read" };
    for holding in &aside.held {
        if let Some(right) = layout.right_of_variable(holding.name.as_str()) {
            put_shape(picture, line(alloc, class, (x, y), (right + 2, y))?)?;
        }
    }
    if is_change {
        let mark = rect(
            alloc,
            "done",
            x.saturating_sub(5),
            y.saturating_sub(5),
            10,
            10,
        )?;
        put_shape(picture, mark)
    } else {
        put_shape(picture, circle(alloc, "look", x, y, 5)?)
    }
}

/// Draws what a party did, on its lane.
fn draw_aside(
    alloc: Global,
    picture: &mut Markup,
    layout: &Layout,
    lane: &Lane,
    aside: &Aside,
) -> Result<(), AllocError> {
    let (x, y) = (lane.middle(), top_of(aside.row) + 8);
    let class = match aside.deed {
        Deed::Sets | Deed::Reads => {
            draw_step(alloc, picture, layout, aside, x, y)?;
            ""
        }
        Deed::Sleeps | Deed::Wakes(_) => "soft",
        Deed::Intends => "waiting",
    };
    let words = aside.words.as_str();
    put_text(alloc, picture, class, lane.start() + 28, y + 4, words)
}

/// Draws what parties did beside the objects.
pub fn draw_asides<T>(
    alloc: Global,
    picture: &mut Markup,
    story: &Story<T>,
    layout: &Layout,
) -> Result<(), AllocError> {
    for aside in &story.asides {
        if let Some(lane) = layout.lane_of(aside.party) {
            draw_aside(alloc, picture, layout, lane, aside)?;
        }
    }
    Ok(())
}
