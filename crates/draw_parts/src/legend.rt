//! What the signs of a picture mean.
ghost use Rattle.std.specs.Prelude.{◌<◌, ◌^◌};

use crate::shape::{circle, line, path, put_shape, put_text, rect};
use draw_markup::markup::Markup;
use draw_markup::opening::Opening;
use std::alloc::{AllocError, Global};

/// A sign that a legend explains.
#[derive(Clone, Copy)]
pub enum Sign {
    Read,
    Write,
    Look,
    Done,
    Failed,
    Written,
    Wake,
    WakeOfNobody,
    Stand,
    Asleep,
    WriteHold,
    ReadHold,
    Sight,
    Open,
}

/// All signs, in the order in which a legend has them.
pub const SIGNS: [Sign; 14] = [
    Sign::Look,
    Sign::Done,
    Sign::Failed,
    Sign::Written,
    Sign::Read,
    Sign::Write,
    Sign::Wake,
    Sign::WakeOfNobody,
    Sign::Stand,
    Sign::Asleep,
    Sign::WriteHold,
    Sign::ReadHold,
    Sign::Sight,
    Sign::Open,
];

const COLUMNS: usize = 3;

/// How high a row of a legend is.
const ROW: u64 = 22;

/// How high the legend of so many signs is.
pub fn legend_height(signs: usize) -> u64
    ensures { result < 2 ^ 10 }
{
    let rows = signs.min(SIGNS.len()).div_ceil(COLUMNS);
    rows as u64 * ROW
}

fn meaning(sign: Sign) -> &'static str {
    match sign {
        Sign::Read => "reads the word",
        Sign::Write => "writes the word",
        Sign::Look => "load, answer",
        Sign::Done => "exchange, done",
        Sign::Failed => "exchange, swap: failed",
        Sign::Written => "store, add, swap",
        Sign::Wake => "a wake",
        Sign::WakeOfNobody => "a wake, nobody waits",
        Sign::Stand => "waits at a closure",
        Sign::Asleep => "asleep",
        Sign::WriteHold => "holds, alone",
        Sign::ReadHold => "holds, to read",
        Sign::Sight => "refused call saw last",
        Sign::Open => "call not ended",
    }
}

/// The sign, 16 wide and 12 high.
fn drawn(alloc: Global, sign: Sign, left: u64, top: u64) -> Result<Opening, AllocError>
    requires left_fits { left < 2 ^ 40 }
    requires top_fits { top < 2 ^ 42 }
{
    let middle = top + 6;
    match sign {
        Sign::Read => line(alloc, "read", (left, middle), (left + 16, middle)),
        Sign::Write | Sign::Wake => line(alloc, "write", (left, middle), (left + 16, middle)),
        Sign::WakeOfNobody => line(alloc, "vain", (left, middle), (left + 16, middle)),
        Sign::Look => circle(alloc, "look", left + 8, middle, 5),
        Sign::Done => circle(alloc, "done", left + 8, middle, 5),
        Sign::Failed => cross(alloc, left + 8, middle),
        Sign::Written => rect(alloc, "done", left + 3, top + 1, 10, 10),
        Sign::Stand => rect(alloc, "stand", left, top, 16, 12),
        Sign::Asleep => rect(alloc, "waiting", left, top, 16, 12),
        Sign::WriteHold => rect(alloc, "writer", left + 5, top, 5, 12),
        Sign::ReadHold => rect(alloc, "reader", left + 5, top, 5, 12),
        Sign::Sight => circle(alloc, "last", left + 8, middle, 7),
        Sign::Open => rect(alloc, "open", left, top, 16, 12),
    }
}

/// The cross of an exchange that failed, round a place.
pub fn cross(alloc: Global, x: u64, y: u64) -> Result<Opening, AllocError> {
    let outline = format!(in alloc; "M{x},{y}m-4,-4l8,8m0,-8l-8,8")?;
    path(alloc, "failed", outline.as_str())
}

/// Draws a sign and what it means.
fn draw_entry(
    alloc: Global,
    picture: &mut Markup,
    sign: Sign,
    left: u64,
    top: u64,
) -> Result<(), AllocError>
    requires left_fits { left < 2 ^ 40 }
    requires top_fits { top < 2 ^ 42 }
{
    put_shape(picture, drawn(alloc, sign, left, top)?)?;
    put_text(alloc, picture, "soft", left + 26, top + 10, meaning(sign))
}

/// Draws the legend of these signs.
pub fn draw_legend(
    alloc: Global,
    picture: &mut Markup,
    signs: &[Sign],
    top: u64,
) -> Result<(), AllocError>
    requires { top < 2 ^ 41 }
{
    for at in 0..signs.len().min(SIGNS.len()) {
        let column = (at % COLUMNS) as u64;
        let row = (at / COLUMNS) as u64;
        draw_entry(
            alloc,
            picture,
            signs[at],
            12 + column * 200,
            top + row * ROW,
        )?;
    }
    Ok(())
}
