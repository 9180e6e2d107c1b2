//! Draws what the words of the objects held.
use crate::shape::{put_text, put_titled, rect};
use draw_layout::band::{Band, Colour, Segment};
use draw_layout::layout::{Layout, top_of};
use draw_markup::markup::Markup;
use std::alloc::{AllocError, Global};

/// The class of a band's colour.
fn colour_class(colour: Colour) -> &'static str {
    match colour {
        Colour::Zero => "band zero",
        Colour::First => "band first",
        Colour::Second => "band second",
        Colour::Third => "band third",
        // Dashed, as what has not ended.
        Colour::Half => "open",
    }
}

/// Draws a value of a band, from its step to the next one that writes there.
fn draw_segment(
    alloc: Global,
    picture: &mut Markup,
    layout: &Layout,
    band: &Band,
    segment: &Segment,
) -> Result<(), AllocError> {
    let top = match segment.row {
        Some(row) => top_of(row) + 8,
        None => top_of(0),
    };
    let bottom = match segment.next {
        Some(row) => top_of(row) + 8,
        None => layout.bottom(),
    };
    let left = u64::from(band.left);
    let width = u64::from(band.width);
    let class = colour_class(segment.colour);
    let area = rect(alloc, class, left, top, width, bottom.saturating_sub(top))?;
    put_titled(alloc, picture, area, segment.title.as_str())?;
    let term = segment.term.as_str();
    put_text(alloc, picture, "mid", left + width / 2, top + 15, term)
}

/// Draws a band.
fn draw_band(
    alloc: Global,
    picture: &mut Markup,
    layout: &Layout,
    band: &Band,
) -> Result<(), AllocError> {
    let middle = u64::from(band.left) + u64::from(band.width) / 2;
    put_text(alloc, picture, "soft mid", middle, 22, band.name.as_str())?;
    for segment in &band.segments {
        draw_segment(alloc, picture, layout, band, segment)?;
    }
    Ok(())
}

/// Draws the bands.
pub fn draw_bands(alloc: Global, picture: &mut Markup, layout: &Layout) -> Result<(), AllocError> {
    for band in &layout.bands {
        draw_band(alloc, picture, layout, band)?;
    }
    Ok(())
}
