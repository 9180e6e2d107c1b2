//! The signs that a picture uses.
use crate::legend::{SIGNS, Sign};
use draw_layout::label::{Mark, mark_of, reach_of};
use draw_layout::lane::{Hold, Lane, Span, Stand};
use draw_layout::layout::Layout;
use draw_story::story::{Story, StoryStep};
use draw_story::told::{Aside, Deed};
use model_events::event::Act;
use model_events::hold::HoldKind;
use std::alloc::{AllocError, Global};

/// Whether one of these stands in a call of an object goes on at a row, begun before it.
fn covers(stands: &[Stand], object: usize, row: u32) -> bool {
    for stand in stands {
        let span = stand.span;
        if stand.object == object && span.first < row && row <= span.last.unwrap_or(u32::MAX) {
            return true;
        }
    }
    false
}

/// Whether some party stands at a closure of an object at a row.
pub fn is_anybody_at(layout: &Layout, object: usize, row: u32) -> bool {
    for lane in &layout.lanes {
        if covers(&lane.stands, object, row) {
            return true;
        }
    }
    false
}

/// Whether a step reads or writes a word, and which of the two.
fn writes<T: Copy>(act: &Act<T>) -> Option<bool> {
    match reach_of(act) {
        Some(reach) => Some(reach.writes),
        None => None,
    }
}

/// Whether a step is drawn with a sign.
fn is_at_step<T: Copy>(step: &StoryStep<T>, layout: &Layout, sign: Sign) -> bool {
    let mark = mark_of(&step.event.act);
    match sign {
        Sign::Read => writes(&step.event.act) == Some(false),
        Sign::Write => writes(&step.event.act) == Some(true),
        Sign::Look => mark == Mark::Look,
        Sign::Done => mark == Mark::Done,
        Sign::Failed => mark == Mark::Failed,
        Sign::Written => mark == Mark::Written,
        Sign::Wake => mark == Mark::Wake && is_anybody_at(layout, step.object, step.row),
        Sign::WakeOfNobody => mark == Mark::Wake && !is_anybody_at(layout, step.object, step.row),
        _ => false,
    }
}

/// Whether one of these holds is of this kind.
fn has_kind(holds: &[Hold], kind: HoldKind) -> bool {
    for hold in holds {
        if hold.kind == kind {
            return true;
        }
    }
    false
}

/// Whether the last of these calls has not ended.
fn is_open(calls: &[Span]) -> bool {
    match calls.last() {
        Some(call) => call.last.is_none(),
        None => false,
    }
}

/// Whether a lane is drawn with a sign.
fn is_on_lane(lane: &Lane, sign: Sign) -> bool {
    match sign {
        Sign::Stand => !lane.stands.is_empty(),
        Sign::Asleep => !lane.sleeps.is_empty(),
        Sign::WriteHold => has_kind(&lane.holds, HoldKind::Write),
        Sign::ReadHold => has_kind(&lane.holds, HoldKind::Read),
        Sign::Sight => !lane.sights.is_empty(),
        Sign::Open => is_open(&lane.calls),
        _ => false,
    }
}

/// Whether a sign is on one of the lanes.
fn is_on_lanes(layout: &Layout, sign: Sign) -> bool {
    for lane in &layout.lanes {
        if is_on_lane(lane, sign) {
            return true;
        }
    }
    false
}

/// Whether a sign is at one of the steps.
fn is_at_steps<T: Copy>(steps: &[StoryStep<T>], layout: &Layout, sign: Sign) -> bool {
    for step in steps {
        if is_at_step(step, layout, sign) {
            return true;
        }
    }
    false
}

/// Whether a sign is at a step on a variable.
fn is_at_asides(asides: &[Aside], sign: Sign) -> bool {
    let deed = match sign {
        Sign::Read | Sign::Look => Deed::Reads,
        Sign::Write | Sign::Written => Deed::Sets,
        _ => return false,
    };
    asides.iter().any(|aside| aside.deed == deed)
}

/// The signs that a picture uses, in the order of the legend.
pub fn signs_of<T: Copy>(
    alloc: Global,
    story: &Story<T>,
    layout: &Layout,
) -> Result<Vec<Sign>, AllocError> {
    let mut signs = Vec::new(alloc);
    for sign in SIGNS {
        if is_on_lanes(layout, sign)
            || is_at_steps(&story.steps, layout, sign)
            || is_at_asides(&story.asides, sign)
        {
            signs.push(sign)?;
        }
    }
    Ok(signs)
}
