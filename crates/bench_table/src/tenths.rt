//! The median of a line's figures, and the tenths around it.
ghost use Rattle.std.specs.Prelude.{◌<◌, length};

/// What the table tells of a line.
#[derive(Clone, Copy, Debug, PartialEq, Eq)]
pub struct Tenths {
    pub median: u64,
    /// A tenth of the figures stands below it in order.
    pub lower: u64,
    /// A tenth of the figures stands above it in order.
    pub upper: u64,
}

impl Tenths {
    /// Puts the figures in order, and takes those at the half, at the tenth from below and at the tenth from above.
    pub fn of(figures: &mut [u64]) -> Tenths
        requires some { 0 < length figures.old }
    {
        figures.sort_unstable();
        let count = figures.len();
        Tenths {
            median: figures[count / 2],
            lower: figures[count / 10],
            upper: figures[count - 1 - count / 10],
        }
    }
}
