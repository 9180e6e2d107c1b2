//! Where everything stands in a picture, in plain numbers: rows from top to bottom, and columns from left to right.
//!
//! A row is 24 pixels high and has one step, or a move that is told beside the text. The lines of the schedule stand on the left, then comes a band
//! for each word and each variable that changes, and then a lane for each party that does something.
ghost use Rattle.std.specs.Prelude.{◌<◌, ◌^◌, IfSome};

use crate::band::{Band, Source, bands_next, bands_of, bands_right};
use crate::lane::{Lane, Span, lanes_of, lanes_right};
use crate::terms::shown_at;
use crate::variable::add_variables;
use crate::width::text_width;
use draw_story::story::Story;
use std::alloc::{AllocError, Global};
use sync_steps::steps::Word;
use text_lines::integer::TextInteger;

/// Where the first row begins.
const FIRST: u64 = 36;
/// How high a row is.
const ROW: u64 = 24;
/// Where the words of the schedule's lines begin.
pub const SCHEDULE: u32 = 58;
/// How wide a picture is at least.
const LEAST_WIDTH: u32 = 620;

/// Where everything stands.
#[derive(Drop)]
pub struct Layout {
    /// Where the bands begin.
    pub bands_left: u32,
    pub bands: Vec<Band>,
    pub lanes: Vec<Lane>,
    /// How many rows there are.
    pub rows: u32,
    pub width: u32,
}

/// Where a row begins.
pub fn top_of(row: u32) -> u64
    ensures { result < 2 ^ 38 }
{
    FIRST + ROW * u64::from(row)
}

/// How wide the words of the schedule's lines are.
fn schedule_width<T>(story: &Story<T>) -> u32 {
    let mut widest = 0;
    for step in &story.steps {
        if let Some(line) = &step.line {
            widest = text_width(&line.words).max(widest);
        }
    }
    widest
}

/// Where the bands begin: after the words of the schedule, and after those of the first line.
fn bands_start<T>(story: &Story<T>) -> u32 {
    SCHEDULE
        .saturating_add(schedule_width(story))
        .max(text_width(&story.title) + 12)
        .saturating_add(14)
}

/// How many rows there are, one at least.
fn row_count<T>(story: &Story<T>) -> u32 {
    let steps = story.steps.last().map_or(0, |step| step.row);
    let asides = story.asides.last().map_or(0, |aside| aside.row);
    steps.max(asides).saturating_add(1)
}

impl Layout {
    /// Where everything of a story stands.
    pub fn of<T: TextInteger>(alloc: Global, story: &Story<T>) -> Result<Layout, AllocError> {
        let bands_left = bands_start(story);
        let mut bands = bands_of(alloc, story, bands_left)?;
        let variables_left = bands_next(&bands, bands_left);
        add_variables(alloc, &mut bands, story, variables_left)?;
        let lanes_left = bands_right(&bands, bands_left);
        let lanes = lanes_of(alloc, story, lanes_left)?;
        let width = lanes_right(&lanes, lanes_left).max(LEAST_WIDTH);
        Ok(Layout {
            bands_left,
            bands,
            lanes,
            rows: row_count(story),
            width,
        })
    }

    /// Where the rows end.
    pub fn bottom(&self) -> u64
        ensures { result < 2 ^ 40 }
    {
        // The last value of a word has its words below its row's middle.
        top_of(self.rows) + 6
    }

    /// Where the rows of a span end: in its last one, or with all of them.
    pub fn bottom_of(&self, span: &Span, into: u64) -> u64
        requires { into < 100 }
        ensures { result < 2 ^ 41 }
    {
        match span.last {
            Some(row) => top_of(row) + into,
            None => self.bottom(),
        }
    }

    /// The lane of a party.
    pub fn lane_of(&self, party: usize) -> Option<&Lane> {
        self.lanes.iter().find(|lane| lane.party == party)
    }

    /// Where the band of a word of an object ends.
    pub fn right_of(&self, object: usize, word: Word) -> u64
        ensures { result < 2 ^ 40 }
    {
        let shown = Source::Object(object, shown_at(word));
        for band in &self.bands {
            if band.source == shown {
                return u64::from(band.left) + u64::from(band.width);
            }
        }
        u64::from(self.bands_left)
    }

    /// Where the band of a variable ends, if it has one.
    pub fn right_of_variable(&self, name: &str) -> Option<u64>
        ensures { IfSome result (λ right. right < 2 ^ 40) }
    {
        for band in &self.bands {
            if band.source == Source::Variable && band.name.as_str() == name {
                return Some(u64::from(band.left) + u64::from(band.width));
            }
        }
        None
    }
}
