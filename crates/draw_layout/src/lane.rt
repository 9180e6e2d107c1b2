//! The lane of a party, in plain numbers: its calls, where they stand, what it holds, and what its refused calls saw last.
ghost use Rattle.std.specs.Prelude.{◌<◌, ◌^◌, IfOk};

use crate::label::{Reach, Tone, label_of, outcome_of, reach_of, tone_of};
use crate::width::text_width;
use draw_story::story::{Story, StoryObject, StoryStep};
use draw_story::told::{Aside, Deed};
use model_events::hold::HoldKind;
use std::alloc::{AllocError, Global};
use sync_steps::steps::{Act, Then};
use text_lines::integer::TextInteger;

/// How wide the box of a call is at least.
const LEAST_BOX: u32 = 130;

/// Rows from one on. Without a last one they go to the end of the picture.
#[derive(Clone, Copy)]
pub struct Span {
    pub first: u32,
    pub last: Option<u32>,
}

impl Span {
    /// Ends it at a row, if it is still open.
    fn end(&mut self, row: u32) {
        if self.last.is_none() {
            self.last = Some(row);
        }
    }
}

/// A stand at a closure, in a call of an object.
#[derive(Clone, Copy)]
pub struct Stand {
    pub object: usize,
    pub span: Span,
}

/// A hold of an object.
#[derive(Clone, Copy)]
pub struct Hold {
    pub object: usize,
    pub kind: HoldKind,
    pub span: Span,
}

/// Where on its lane a party's holds of an object stand.
#[derive(Clone, Copy)]
pub struct Bar {
    pub object: usize,
    pub left: u32,
}

/// What a party did. On its left is the place for its holds, and then comes the box of each call.
#[derive(Drop)]
pub struct Lane {
    pub party: usize,
    pub left: u32,
    /// How wide the place for its holds is.
    pub bars_width: u32,
    pub bars: Vec<Bar>,
    /// How wide the boxes are.
    pub width: u32,
    pub calls: Vec<Span>,
    pub stands: Vec<Stand>,
    pub holds: Vec<Hold>,
    /// The rows of what refused calls saw last.
    pub sights: Vec<u32>,
    /// The rows in which it is told to be asleep.
    pub sleeps: Vec<Span>,
    /// The row of what its party saw last.
    seen: Option<u32>,
}

impl Lane {
    /// A lane on which nothing stands yet.
    fn empty(alloc: Global, party: usize, left: u32, width: u32) -> Lane {
        Lane {
            party,
            left,
            bars_width: 0,
            bars: Vec::new(alloc),
            width,
            calls: Vec::new(alloc),
            stands: Vec::new(alloc),
            holds: Vec::new(alloc),
            sights: Vec::new(alloc),
            sleeps: Vec::new(alloc),
            seen: None,
        }
    }

    /// Adds what a step of its party did.
    fn add<T: Copy>(&mut self, step: &StoryStep<T>) -> Result<(), AllocError> {
        add_call(&mut self.calls, step)?;
        add_stand(&mut self.stands, step)?;
        add_hold(&mut self.holds, step.object, step.hold, step.row)?;
        self.add_sight(step)
    }

    /// Adds what a call saw last, where the step refuses it.
    fn add_sight<T: Copy>(&mut self, step: &StoryStep<T>) -> Result<(), AllocError> {
        self.seen = seen_after(self.seen, step);
        if let Some(row) = self.seen
            && tone_of(&step.event.then) == Some(Tone::Refused)
        {
            self.sights.push(row)?;
        }
        Ok(())
    }

    /// Where the boxes of its calls begin.
    pub fn start(&self) -> u64
        ensures { result < 2 ^ 34 }
    {
        u64::from(self.left) + u64::from(self.bars_width)
    }

    /// Where they end.
    pub fn end(&self) -> u64
        ensures { result < 2 ^ 35 }
    {
        self.start() + u64::from(self.width)
    }

    /// Where the marks of its steps stand.
    pub fn middle(&self) -> u64
        ensures { result < 2 ^ 35 }
    {
        self.start() + 14
    }

    /// Where its holds of an object stand.
    pub fn bar_of(&self, object: usize) -> u64
        ensures { result < 2 ^ 34 }
    {
        for bar in &self.bars {
            if bar.object == object {
                return u64::from(self.left) + u64::from(bar.left);
            }
        }
        u64::from(self.left)
    }
}

/// How wide the box of a call has to be for this step.
fn step_width<T: TextInteger>(
    alloc: Global,
    story: &Story<T>,
    step: &StoryStep<T>,
) -> Result<u32, AllocError> {
    let outcome_width = outcome_width(alloc, &step.event.then)?;
    let said_width = said_width(alloc, story, step)?;
    Ok(said_width + outcome_width + 12)
}

/// How wide what is said of a step is, with what stands beside it.
fn said_width<T: TextInteger>(
    alloc: Global,
    story: &Story<T>,
    step: &StoryStep<T>,
) -> Result<u32, AllocError>
    ensures { IfOk result (λ width. width < 9000) }
{
    match (&step.event.act, &step.line) {
        // The call's name stands on the left, and its party on the right.
        (Act::Begun(_), Some(line)) => Ok(text_width(&line.words) + 70),
        _ => Ok(label_width(alloc, story, step)? + 46),
    }
}

/// How wide the words of what became of a call are.
fn outcome_width<T: TextInteger>(alloc: Global, then: &Then<T>) -> Result<u32, AllocError>
    ensures { IfOk result (λ width. width < 8000) }
{
    let outcome = outcome_of(alloc, then)?;
    Ok(text_width(&outcome))
}

/// How wide the words of what a step did are.
fn label_width<T: TextInteger>(
    alloc: Global,
    story: &Story<T>,
    step: &StoryStep<T>,
) -> Result<u32, AllocError>
    ensures { IfOk result (λ width. width < 8000) }
{
    let label = label_of(alloc, story, step)?;
    Ok(text_width(&label))
}

/// How wide the boxes of a party are, by what it does beside the objects. `None` where that is nothing.
fn aside_width(asides: &[Aside], party: usize) -> Option<u32> {
    let mut width = None;
    for aside in asides {
        if aside.party == party {
            let wide = text_width(&aside.words) + 46;
            width = Some(wide.max(width.unwrap_or(LEAST_BOX)));
        }
    }
    width
}

/// How wide the boxes of a party are. `None` where it does nothing.
fn box_width<T: TextInteger>(
    alloc: Global,
    story: &Story<T>,
    party: usize,
) -> Result<Option<u32>, AllocError> {
    let mut width = aside_width(&story.asides, party);
    for step in &story.steps {
        if step.event.party == party {
            let wide = step_width(alloc, story, step)?;
            width = Some(wide.max(width.unwrap_or(LEAST_BOX)));
        }
    }
    Ok(width)
}

/// Ends the last of these spans at a row, if it is still open.
fn end_last(spans: &mut Vec<Span>, row: u32) {
    if let Some(span) = spans.last_mut() {
        span.end(row);
    }
}

/// Begins a span at a row.
fn begin(spans: &mut Vec<Span>, row: u32) -> Result<(), AllocError> {
    spans.push(Span {
        first: row,
        last: None,
    })?;
    Ok(())
}

/// Begins a call or ends it, where a step does.
fn add_call<T: Copy>(calls: &mut Vec<Span>, step: &StoryStep<T>) -> Result<(), AllocError> {
    if let Act::Begun(_) = step.event.act {
        begin(calls, step.row)?;
    }
    if let Then::Answers(_) = step.event.then {
        end_last(calls, step.row);
    }
    Ok(())
}

/// Ends a stand at a closure, and begins one where the call stands after a step.
fn add_stand<T: Copy>(stands: &mut Vec<Stand>, step: &StoryStep<T>) -> Result<(), AllocError> {
    if let Some(stand) = stands.last_mut() {
        stand.span.end(step.row);
    }
    match step.event.then {
        Then::Waits(_) | Then::Chooses(_) => {
            stands.push(Stand {
                object: step.object,
                span: Span {
                    first: step.row,
                    last: None,
                },
            })?;
            Ok(())
        }
        Then::GoesOn | Then::Answers(_) => Ok(()),
    }
}

/// Whether one of these holds of an object is still there.
fn is_held(holds: &[Hold], object: usize) -> bool {
    for hold in holds {
        if hold.object == object && hold.span.last.is_none() {
            return true;
        }
    }
    false
}

/// Begins a hold of an object at a row, where the party has none.
fn begin_hold(
    holds: &mut Vec<Hold>,
    object: usize,
    kind: HoldKind,
    row: u32,
) -> Result<(), AllocError> {
    if is_held(holds, object) {
        return Ok(());
    }
    holds.push(Hold {
        object,
        kind,
        span: Span {
            first: row,
            last: None,
        },
    })?;
    Ok(())
}

/// Ends the hold of an object at a row, if it is still there.
fn end_hold(holds: &mut Vec<Hold>, object: usize, row: u32) {
    for hold in holds.iter_mut() {
        if hold.object == object {
            hold.span.end(row);
        }
    }
}

/// Begins a hold of an object or ends it, by what the party holds of it after a step.
fn add_hold(
    holds: &mut Vec<Hold>,
    object: usize,
    held: Option<HoldKind>,
    row: u32,
) -> Result<(), AllocError> {
    match held {
        Some(kind) => begin_hold(holds, object, kind, row),
        None => {
            end_hold(holds, object, row);
            Ok(())
        }
    }
}

/// The row of what a party has seen last, after a step.
fn seen_after<T: Copy>(seen: Option<u32>, step: &StoryStep<T>) -> Option<u32> {
    match reach_of(&step.event.act) {
        Some(Reach { writes: false, .. }) => Some(step.row),
        _ => seen,
    }
}

/// Whether a party ever holds an object.
fn ever_holds<T: Copy>(steps: &[StoryStep<T>], party: usize, object: usize) -> bool {
    for step in steps {
        if step.event.party == party && step.object == object && step.hold.is_some() {
            return true;
        }
    }
    false
}

impl Lane {
    /// Makes room for the holds of an object, behind its name, if it has one.
    fn add_bar<T: Copy>(
        &mut self,
        place: usize,
        object: &StoryObject<T>,
    ) -> Result<(), AllocError> {
        let name = if object.name.is_empty() {
            0
        } else {
            text_width(&object.name).saturating_add(4)
        };
        let left = self.bars_width.saturating_add(name);
        self.bars.push(Bar {
            object: place,
            left,
        })?;
        self.bars_width = left.saturating_add(8);
        Ok(())
    }

    /// Makes room for what the party ever holds; for something at least.
    fn add_bars<T: Copy>(&mut self, story: &Story<T>) -> Result<(), AllocError> {
        for place in 0..story.objects.len() {
            if ever_holds(&story.steps, self.party, place) {
                self.add_bar(place, &story.objects[place])?;
            }
        }
        self.bars_width = self.bars_width.max(8);
        Ok(())
    }
}

/// The row in which a party that is asleep from a row on is woken.
fn woken_at(asides: &[Aside], party: usize, from: u32) -> Option<u32> {
    let wake = asides.iter().find(|aside| aside.row > from && aside.deed == Deed::Wakes(party))?;
    Some(wake.row)
}

/// The row of a party's first step behind a row.
fn goes_on_at<T: Copy>(steps: &[StoryStep<T>], party: usize, from: u32) -> Option<u32> {
    let step = steps
        .iter()
        .find(|step| step.row > from && step.event.party == party)?;
    Some(step.row)
}

/// The rows in which a party is told to be asleep: from where it falls asleep until it is woken, or goes on since it is not.
fn sleeps_of<T: Copy>(
    alloc: Global,
    story: &Story<T>,
    party: usize,
) -> Result<Vec<Span>, AllocError> {
    let mut sleeps = Vec::new(alloc);
    for aside in &story.asides {
        if aside.party == party && aside.deed == Deed::Sleeps {
            let last = woken_at(&story.asides, party, aside.row).or(goes_on_at(
                &story.steps,
                party,
                aside.row,
            ));
            sleeps.push(Span {
                first: aside.row,
                last,
            })?;
        }
    }
    Ok(sleeps)
}

/// The lane of a party whose boxes are this wide, from this place on.
fn lane_of<T: Copy>(
    alloc: Global,
    story: &Story<T>,
    party: usize,
    left: u32,
    width: u32,
) -> Result<Lane, AllocError> {
    let mut lane = Lane::empty(alloc, party, left, width);
    lane.add_bars(story)?;
    lane.sleeps = sleeps_of(alloc, story, party)?;
    for step in &story.steps {
        if step.event.party == party {
            lane.add(step)?;
        }
    }
    Ok(lane)
}

/// Adds the lane of a party whose boxes are this wide, from this place on, and tells where the next one begins.
fn add_lane<T: Copy>(
    alloc: Global,
    lanes: &mut Vec<Lane>,
    story: &Story<T>,
    party: usize,
    left: u32,
    width: u32,
) -> Result<u32, AllocError> {
    let lane = lane_of(alloc, story, party, left, width)?;
    let next = right_of_lane(&lane).saturating_add(20);
    lanes.push(lane)?;
    Ok(next)
}

/// Where the boxes of a lane end.
fn right_of_lane(lane: &Lane) -> u32 {
    lane.left
        .saturating_add(lane.bars_width)
        .saturating_add(lane.width)
}

/// Adds the lane of a party, if it does something.
fn add_party<T: TextInteger>(
    alloc: Global,
    lanes: &mut Vec<Lane>,
    story: &Story<T>,
    party: usize,
    left: u32,
) -> Result<u32, AllocError> {
    match box_width(alloc, story, party)? {
        Some(width) => add_lane(alloc, lanes, story, party, left, width),
        None => Ok(left),
    }
}

/// The lanes, from this place on: one for each party that does something.
pub fn lanes_of<T: TextInteger>(
    alloc: Global,
    story: &Story<T>,
    left: u32,
) -> Result<Vec<Lane>, AllocError> {
    let mut lanes = Vec::new(alloc);
    let mut left = left;
    for party in 0..story.parties {
        left = add_party(alloc, &mut lanes, story, party, left)?;
    }
    Ok(lanes)
}

/// Where the last lane ends, with the room that follows it.
pub fn lanes_right(lanes: &[Lane], left: u32) -> u32 {
    match lanes.last() {
        Some(lane) => right_of_lane(lane).saturating_add(12),
        None => left,
    }
}
