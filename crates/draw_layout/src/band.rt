//! What a word of an object held, or an atomic, row by row.
use crate::terms::{Shown, band_name, say_value, shown_of};
use crate::value::DataWords;
use crate::width::text_width;
use draw_story::story::{Story, StoryObject};
use std::alloc::{AllocError, Global};
use sync_steps::steps::{Act, Object, Word};
use text_lines::integer::TextInteger;

/// How wide a band is at least.
const LEAST_BAND: u32 = 70;

/// What a band shows, from a row on.
#[derive(Drop)]
pub struct Segment {
    /// The row whose step wrote it; none for the value before the first step.
    pub row: Option<u32>,
    /// The row whose step wrote the next value; none for the last one.
    pub next: Option<u32>,
    /// What was put, as it is.
    pub title: String,
    /// The same in its object's own terms.
    pub term: String,
    pub colour: Colour,
}

/// The colours of a band: one for 0, and three in turn; and one for a value of which only a half is written.
#[derive(Clone, Copy, PartialEq, Eq)]
pub enum Colour {
    Zero,
    First,
    Second,
    Third,
    Half,
}

/// Whose values a band shows.
#[derive(Clone, Copy, PartialEq, Eq)]
pub enum Source {
    /// Those of an object, counted from 0.
    Object(usize, Shown),
    /// Those of the variable that has the band's name.
    Variable,
}

/// What a word held, an atomic or a variable.
#[derive(Drop)]
pub struct Band {
    pub source: Source,
    pub name: String,
    pub left: u32,
    pub width: u32,
    pub segments: Vec<Segment>,
}

/// The colour of a value after one of this colour.
pub(crate) fn colour_of(value: u64, last: Option<Colour>) -> Colour {
    let colour = match value % 3 {
        _ if value == 0 => Colour::Zero,
        1 => Colour::First,
        2 => Colour::Second,
        _ => Colour::Third,
    };
    if last == Some(colour) {
        next_colour(colour)
    } else {
        colour
    }
}

/// The colour of an atomic's value after one of this colour.
fn colour_of_words(words: DataWords, last: Option<Colour>) -> Colour {
    if words.is_half {
        Colour::Half
    } else {
        colour_of(words.low | words.high, last)
    }
}

/// The colour of what a band shows last.
pub(crate) fn last_colour(segments: &[Segment]) -> Option<Colour> {
    match segments.last() {
        Some(segment) => Some(segment.colour),
        None => None,
    }
}

/// The colour that takes a colour's place beside itself.
fn next_colour(colour: Colour) -> Colour {
    match colour {
        Colour::Zero => Colour::Zero,
        Colour::First => Colour::Second,
        Colour::Second => Colour::Third,
        Colour::Third => Colour::First,
        Colour::Half => Colour::Half,
    }
}

/// What a step puts into this word, if it changes it.
fn put_of<T: Copy>(act: &Act<T>, word: Word) -> Option<u64> {
    match *act {
        Act::Store { word: at, put } if at == word => Some(put),
        Act::Swap { word: at, old, put } if at == word && old != put => Some(put),
        Act::Add { word: at, put, .. } if at == word => Some(put),
        Act::Exchange {
            word: at,
            to,
            done: true,
            ..
        } if at == word => Some(to),
        _ => None,
    }
}

/// Says the value of an atomic; while only its low word is written it is none yet.
fn say_words<T: TextInteger>(out: &mut String, words: DataWords) -> Result<(), AllocError> {
    if words.is_half {
        return out.push_str("half written");
    }
    let value: T = words.value();
    value.print(out)
}

/// The value of an atomic, in words.
fn said_words<T: TextInteger>(alloc: Global, words: DataWords) -> Result<String, AllocError> {
    let mut term = String::new(alloc);
    say_words::<T>(&mut term, words)?;
    Ok(term)
}

/// Adds what a band shows from a row on; what it shows last before ends there.
pub(crate) fn add_segment(
    segments: &mut Vec<Segment>,
    row: Option<u32>,
    title: String,
    term: String,
    colour: Colour,
) -> Result<(), AllocError> {
    if let Some(last) = segments.last_mut() {
        last.next = row;
    }
    segments.push(Segment {
        row,
        next: None,
        title,
        term,
        colour,
    })?;
    Ok(())
}

/// Adds a value of a word.
fn add_word<T: Copy>(
    alloc: Global,
    segments: &mut Vec<Segment>,
    object: &Object<T>,
    row: Option<u32>,
    word: Word,
    value: u64,
) -> Result<(), AllocError> {
    let colour = colour_of(value, last_colour(segments));
    let mut term = String::new(alloc);
    say_value(&mut term, object, word, value)?;
    let title = format!(in alloc; "{value}")?;
    add_segment(segments, row, title, term, colour)
}

/// Adds a value of an atomic.
fn add_value<T: TextInteger>(
    alloc: Global,
    segments: &mut Vec<Segment>,
    row: Option<u32>,
    words: DataWords,
    colour: Colour,
) -> Result<(), AllocError> {
    let term = said_words::<T>(alloc, words)?;
    let DataWords { low, high, .. } = words;
    let title = format!(in alloc; "low half {low}, high half {high}")?;
    add_segment(segments, row, title, term, colour)
}

/// What a word held, from the opening on.
fn segments_of<T: Copy>(
    alloc: Global,
    story: &Story<T>,
    place: usize,
    object: &StoryObject<T>,
    word: Word,
) -> Result<Vec<Segment>, AllocError> {
    let mut segments = Vec::new(alloc);
    let value = object.opening.get(word);
    add_word(alloc, &mut segments, &object.object, None, word, value)?;
    for step in &story.steps {
        if step.object == place
            && let Some(value) = put_of(&step.event.act, word)
        {
            add_word(
                alloc,
                &mut segments,
                &object.object,
                Some(step.row),
                word,
                value,
            )?;
        }
    }
    Ok(segments)
}

/// What an atomic held, from the opening on.
fn values_of<T: TextInteger>(
    alloc: Global,
    story: &Story<T>,
    place: usize,
    object: &StoryObject<T>,
) -> Result<Vec<Segment>, AllocError> {
    let mut words = DataWords::before(object);
    let mut segments = Vec::new(alloc);
    let mut last = colour_of_words(words, None);
    add_value::<T>(alloc, &mut segments, None, words, last)?;
    for step in &story.steps {
        if step.object == place
            && let Some(written) = words.written_by(&step.event.act)
        {
            words = written;
            let colour = colour_of_words(words, Some(last));
            add_value::<T>(alloc, &mut segments, Some(step.row), words, colour)?;
            last = if words.is_half { last } else { colour };
        }
    }
    Ok(segments)
}

/// How wide a band has to be, so that all that it shows has room.
pub(crate) fn band_width(name: &String, segments: &[Segment]) -> u32 {
    let mut widest = text_width(name);
    for segment in segments {
        widest = widest.max(text_width(&segment.term));
    }
    LEAST_BAND.max(widest.saturating_add(16))
}

/// All that a band shows.
fn all_shown<T: TextInteger>(
    alloc: Global,
    story: &Story<T>,
    place: usize,
    object: &StoryObject<T>,
    shown: Shown,
) -> Result<Vec<Segment>, AllocError> {
    match shown {
        Shown::Word(word) => segments_of(alloc, story, place, object, word),
        Shown::Value => values_of(alloc, story, place, object),
    }
}

/// How a band is named: by what it shows, behind the object's name, if it has one.
fn name_of_band<T>(
    alloc: Global,
    object: &StoryObject<T>,
    shown: Shown,
) -> Result<String, AllocError> {
    let name = object.name.as_str();
    let what = band_name(&object.object, shown);
    if name.is_empty() {
        String::from_str(alloc, what)
    } else {
        format!(in alloc; "{name}: {what}")
    }
}

/// A band, from this place on.
fn band_of<T: TextInteger>(
    alloc: Global,
    story: &Story<T>,
    place: usize,
    object: &StoryObject<T>,
    shown: Shown,
    left: u32,
) -> Result<Band, AllocError> {
    let segments = all_shown(alloc, story, place, object, shown)?;
    let name = name_of_band(alloc, object, shown)?;
    let width = band_width(&name, &segments);
    Ok(Band {
        source: Source::Object(place, shown),
        name,
        left,
        width,
        segments,
    })
}

/// Adds a band, from this place on, and tells where the next one begins.
fn add_band<T: TextInteger>(
    alloc: Global,
    bands: &mut Vec<Band>,
    story: &Story<T>,
    place: usize,
    object: &StoryObject<T>,
    shown: Shown,
    left: u32,
) -> Result<u32, AllocError> {
    let band = band_of(alloc, story, place, object, shown, left)?;
    let next = left.saturating_add(band.width).saturating_add(10);
    bands.push(band)?;
    Ok(next)
}

/// Adds the bands of an object, from this place on.
fn add_bands<T: TextInteger>(
    alloc: Global,
    bands: &mut Vec<Band>,
    story: &Story<T>,
    place: usize,
    object: &StoryObject<T>,
    left: u32,
) -> Result<u32, AllocError> {
    let mut left = left;
    for shown in shown_of(&object.object) {
        left = add_band(alloc, bands, story, place, object, *shown, left)?;
    }
    Ok(left)
}

/// The bands, from this place on, object by object.
pub fn bands_of<T: TextInteger>(
    alloc: Global,
    story: &Story<T>,
    left: u32,
) -> Result<Vec<Band>, AllocError> {
    let mut bands = Vec::new(alloc);
    let mut left = left;
    for place in 0..story.objects.len() {
        left = add_bands(alloc, &mut bands, story, place, &story.objects[place], left)?;
    }
    Ok(bands)
}

/// Where a band behind these begins.
pub fn bands_next(bands: &[Band], left: u32) -> u32 {
    match bands.last() {
        Some(band) => band.left.saturating_add(band.width).saturating_add(10),
        None => left,
    }
}

/// Where the last band ends, with the room that follows it.
pub fn bands_right(bands: &[Band], left: u32) -> u32 {
    match bands.last() {
        Some(band) => band.left.saturating_add(band.width).saturating_add(18),
        None => left,
    }
}
