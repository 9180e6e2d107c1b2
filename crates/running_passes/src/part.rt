//! What every pass knows: which part of the whole it is, and what its owner saw.
//!
//! No value of these types is made. They stand in contracts alone.

/// Which part of all passes of an object a pass is: `share` of 2 to the `depth` equal parts.
pub struct Part {
    pub share: u64,
    pub depth: u64,
}

/// What the calls with a pass saw of the word that decides them.
pub struct Sights {
    /// How often the word was seen.
    pub count: u64,
    /// What it was the last time.
    pub last: u64,
    /// Whether the pass has written nothing since it saw the word last, so that any change is another party's.
    pub fresh: bool,
    /// Whether the last sight was an exchange that failed although the word was fresh and the one seen before: another party wrote
    /// in between.
    pub missed: bool,
}
