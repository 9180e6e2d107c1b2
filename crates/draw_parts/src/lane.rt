//! Draws the lanes, and on them the parties' calls, stands and holds.
use crate::shape::{circle, line, put_shape, put_text, put_titled, rect};
use draw_layout::lane::{Hold, Lane, Span};
use draw_layout::layout::{Layout, top_of};
use draw_markup::markup::Markup;
use draw_markup::name::Key;
use draw_story::story::Story;
use model_events::hold::HoldKind;
use std::alloc::{AllocError, Global};

/// Draws which party a lane is of.
pub fn draw_party(
    alloc: Global,
    picture: &mut Markup,
    lane: &Lane,
    class: &str,
    x: u64,
    baseline: u64,
) -> Result<(), AllocError> {
    let party = lane.party as u128 + 1;
    let name = format!(in alloc; "party {party}")?;
    put_text(alloc, picture, class, x, baseline, name.as_str())
}

/// Draws the party's name, and the line that its calls stand on.
fn draw_lane(
    alloc: Global,
    picture: &mut Markup,
    layout: &Layout,
    lane: &Lane,
) -> Result<(), AllocError> {
    draw_party(alloc, picture, lane, "head", lane.start() + 10, 22)?;
    let x = lane.middle();
    let way = line(alloc, "lane", (x, 30), (x, layout.bottom()))?;
    put_shape(picture, way)
}

/// Draws the box of a call. It is dashed where the call has not ended.
fn draw_call(
    alloc: Global,
    picture: &mut Markup,
    layout: &Layout,
    lane: &Lane,
    span: &Span,
) -> Result<(), AllocError> {
    let class = if span.last.is_some() { "call" } else { "open" };
    let top = top_of(span.first);
    let bottom = layout.bottom_of(span, 20);
    let height = bottom.saturating_sub(top);
    let area = rect(
        alloc,
        class,
        lane.start(),
        top,
        u64::from(lane.width),
        height,
    )?
    .at(Key::Rounding, 6)?;
    put_shape(picture, area)
}

/// Draws a stand at a closure.
fn draw_stand(
    alloc: Global,
    picture: &mut Markup,
    layout: &Layout,
    lane: &Lane,
    span: &Span,
) -> Result<(), AllocError> {
    let top = top_of(span.first) + 16;
    let bottom = layout.bottom_of(span, 2);
    let area = rect(
        alloc,
        "stand",
        lane.start() + 4,
        top,
        20,
        bottom.saturating_sub(top),
    )?;
    put_titled(alloc, picture, area, "waits at its closure")
}

/// Draws a sleep, in the box of its call.
fn draw_sleep(
    alloc: Global,
    picture: &mut Markup,
    layout: &Layout,
    lane: &Lane,
    span: &Span,
) -> Result<(), AllocError> {
    let top = top_of(span.first) + 8;
    let bottom = layout.bottom_of(span, 8);
    let height = bottom.saturating_sub(top);
    let area = rect(alloc, "waiting", lane.start() + 4, top, 20, height)?;
    put_titled(alloc, picture, area, "asleep")
}

/// Draws a hold.
fn draw_hold(
    alloc: Global,
    picture: &mut Markup,
    layout: &Layout,
    lane: &Lane,
    name: &str,
    hold: &Hold,
) -> Result<(), AllocError> {
    let (class, how) = match hold.kind {
        HoldKind::Write => ("writer", "alone"),
        HoldKind::Read => ("reader", "to read"),
    };
    let title = said_of(alloc, name, how)?;
    let left = lane.bar_of(hold.object);
    let top = top_of(hold.span.first) + 8;
    let bottom = layout.bottom_of(&hold.span, 8);
    let height = bottom.saturating_sub(top);
    let bar = rect(alloc, class, left, top, 5, height)?.at(Key::Rounding, 2)?;
    put_titled(alloc, picture, bar, title.as_str())?;
    if name.is_empty() {
        return Ok(());
    }
    put_text(
        alloc,
        picture,
        "soft end",
        left.saturating_sub(4),
        top + 16,
        name,
    )
}

/// That a party holds something, of this name, if it has one.
fn said_of(alloc: Global, name: &str, how: &str) -> Result<String, AllocError> {
    if name.is_empty() {
        format!(in alloc; "holds, {how}")
    } else {
        format!(in alloc; "holds {name}, {how}")
    }
}

/// The name of an object; one alone has none.
fn name_of<T>(story: &Story<T>, object: usize) -> &str {
    match story.objects.get(object) {
        Some(object) => object.name.as_str(),
        None => "",
    }
}

/// Draws a ring round what a refused call saw last.
fn draw_sight(
    alloc: Global,
    picture: &mut Markup,
    lane: &Lane,
    row: u32,
) -> Result<(), AllocError> {
    let ring = circle(alloc, "last", lane.middle(), top_of(row) + 8, 8)?;
    let title = "what the call saw last before it was refused";
    put_titled(alloc, picture, ring, title)
}

/// Draws a party's calls, where they stand, and where it sleeps.
fn draw_calls(
    alloc: Global,
    picture: &mut Markup,
    layout: &Layout,
    lane: &Lane,
) -> Result<(), AllocError> {
    for call in &lane.calls {
        draw_call(alloc, picture, layout, lane, call)?;
    }
    for stand in &lane.stands {
        draw_stand(alloc, picture, layout, lane, &stand.span)?;
    }
    for span in &lane.sleeps {
        draw_sleep(alloc, picture, layout, lane, span)?;
    }
    Ok(())
}

/// Draws a party's calls, stands, holds and sights.
fn draw_spans<T>(
    alloc: Global,
    picture: &mut Markup,
    story: &Story<T>,
    layout: &Layout,
    lane: &Lane,
) -> Result<(), AllocError> {
    draw_calls(alloc, picture, layout, lane)?;
    for hold in &lane.holds {
        let name = name_of(story, hold.object);
        draw_hold(alloc, picture, layout, lane, name, hold)?;
    }
    for row in &lane.sights {
        draw_sight(alloc, picture, lane, *row)?;
    }
    Ok(())
}

/// Draws the lanes, and on them what the parties did.
pub fn draw_lanes<T>(
    alloc: Global,
    picture: &mut Markup,
    story: &Story<T>,
    layout: &Layout,
) -> Result<(), AllocError> {
    for lane in &layout.lanes {
        draw_lane(alloc, picture, layout, lane)?;
    }
    for lane in &layout.lanes {
        draw_spans(alloc, picture, story, layout, lane)?;
    }
    Ok(())
}
