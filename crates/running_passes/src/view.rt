//! What a pass knows.
use crate::part::{Part, Sights};

/// What a pass knows. No value of it is made.
pub struct View<T> {
    pub part: Part,
    pub sights: Sights,
    pub tally: T,
}
