//! What a variable of a client held, as far as it is told.
use crate::band::{Band, Segment, Source, add_segment, band_width, colour_of, last_colour};
use draw_story::story::Story;
use draw_story::told::{Aside, Deed, Holding};
use std::alloc::{AllocError, Global};

/// What is told of a variable in a move, if something is.
fn told_of<'a>(aside: &'a Aside, name: &str) -> Option<&'a Holding> {
    aside
        .held
        .iter()
        .find(|holding| holding.name.as_str() == name)
}

/// The row from which on a band shows what a move tells: the move's own where it changes the variable, and else the first.
fn row_of(aside: &Aside) -> Option<u32> {
    if aside.deed == Deed::Sets {
        Some(aside.row)
    } else {
        None
    }
}

/// Adds what a move tells of a variable. A read tells it only where nothing is known before.
fn add_told(
    alloc: Global,
    segments: &mut Vec<Segment>,
    aside: &Aside,
    value: u64,
) -> Result<(), AllocError> {
    if aside.deed != Deed::Sets && !segments.is_empty() {
        return Ok(());
    }
    let colour = colour_of(value, last_colour(segments));
    let title = format!(in alloc; "{value}")?;
    let term = format!(in alloc; "{value}")?;
    add_segment(segments, row_of(aside), title, term, colour)
}

/// What a variable held.
fn segments_of(alloc: Global, asides: &[Aside], name: &str) -> Result<Vec<Segment>, AllocError> {
    let mut segments = Vec::new(alloc);
    for aside in asides {
        if let Some(holding) = told_of(aside, name) {
            add_told(alloc, &mut segments, aside, holding.value)?;
        }
    }
    Ok(segments)
}

/// Whether one of these bands is a variable's of this name.
fn has_variable(bands: &[Band], name: &str) -> bool {
    bands.iter().any(|band| band.source == Source::Variable && band.name.as_str() == name)
}

/// The band of a variable, from this place on.
fn variable_of(alloc: Global, asides: &[Aside], name: &str, left: u32) -> Result<Band, AllocError> {
    let segments = segments_of(alloc, asides, name)?;
    let name = String::from_str(alloc, name)?;
    let width = band_width(&name, &segments);
    Ok(Band {
        source: Source::Variable,
        name,
        left,
        width,
        segments,
    })
}

/// Adds the band of the variable that a move changes, if it has none yet, and tells where the next one begins.
fn add_variable(
    alloc: Global,
    bands: &mut Vec<Band>,
    asides: &[Aside],
    aside: &Aside,
    left: u32,
) -> Result<u32, AllocError> {
    let Some(holding) = aside.held.first() else {
        return Ok(left);
    };
    let name = holding.name.as_str();
    if aside.deed != Deed::Sets || has_variable(bands, name) {
        return Ok(left);
    }
    let band = variable_of(alloc, asides, name, left)?;
    let next = left.saturating_add(band.width).saturating_add(10);
    bands.push(band)?;
    Ok(next)
}

/// Adds a band for each variable that changes, from this place on.
pub fn add_variables<T>(
    alloc: Global,
    bands: &mut Vec<Band>,
    story: &Story<T>,
    left: u32,
) -> Result<(), AllocError> {
    let mut left = left;
    for aside in &story.asides {
        left = add_variable(alloc, bands, &story.asides, aside, left)?;
    }
    Ok(())
}
