//! Draws what the steps stand on.
use crate::aside::draw_asides;
use crate::band::draw_bands;
use crate::foot::height_of;
use crate::lane::draw_lanes;
use crate::schedule::draw_schedule;
use crate::shape::{put, put_shape, put_text, rect, title_of};
use crate::style::draw_style;
use draw_layout::layout::Layout;
use draw_markup::markup::Markup;
use draw_story::story::Story;
use std::alloc::{AllocError, Global};

/// Draws the name of the picture, which a browser shows, and what all else refers to.
fn draw_name(alloc: Global, picture: &mut Markup, title: &str) -> Result<(), AllocError> {
    picture.say("\n")?;
    put(picture, title_of(alloc, title)?)?;
    draw_style(alloc, picture)
}

/// Draws the paper, and the first line of the text on it.
fn draw_paper<T: Copy>(
    alloc: Global,
    picture: &mut Markup,
    story: &Story<T>,
    layout: &Layout,
) -> Result<(), AllocError> {
    let width = u64::from(layout.width);
    let height = height_of(alloc, story, layout)?;
    put_shape(picture, rect(alloc, "paper", 0, 0, width, height)?)?;
    put_text(alloc, picture, "head", 12, 22, story.title.as_str())
}

/// Draws the columns: the schedule, the lanes and the bands; and what is told beside the text.
fn draw_columns<T>(
    alloc: Global,
    picture: &mut Markup,
    story: &Story<T>,
    layout: &Layout,
) -> Result<(), AllocError> {
    draw_schedule(alloc, picture, story, layout)?;
    draw_lanes(alloc, picture, story, layout)?;
    draw_bands(alloc, picture, layout)?;
    draw_asides(alloc, picture, story, layout)
}

/// Draws what the steps stand on.
pub fn draw_ground<T: Copy>(
    alloc: Global,
    story: &Story<T>,
    layout: &Layout,
) -> Result<Markup, AllocError> {
    let mut picture = Markup::new(alloc);
    draw_name(alloc, &mut picture, story.title.as_str())?;
    draw_paper(alloc, &mut picture, story, layout)?;
    draw_columns(alloc, &mut picture, story, layout)?;
    Ok(picture)
}
