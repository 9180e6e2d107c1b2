//! What passes know of the one history of an atomic, and which of its acts are their own.
ghost use Rattle.std.specs.Prelude.{ℕ, List};
ghost use Rattle.running_atomic.specs.declared.history.Place.{Place};
ghost use Rattle.running_atomic.specs.declared.history.AtomicAct.{AtomicAct};

use running_passes::Tally;
use running_rw_hold::{Held, Known};
use std::marker::Model;

/// A value, as its two words.
#[derive(Drop)]
pub struct Content {
    /// The low 64 bits.
    pub low: u64,
    /// The high 64 bits.
    pub high: u64,
}

impl Known for Content {
    ghost use Rattle.running_atomic.specs.History.{same_content, tells_same_content};

    ghost same = { same_content };

    ghost tells = { tells_same_content };
}

/// An act on the value: a call with what it was handed, and of a `fetch_update` what its closure chose.
#[derive(Drop)]
pub enum AtomicAct {
    Load,
    Store(Content),
    Swap(Content),
    CompareExchange(Content, Content),
    CompareExchangeWeak(Content, Content),
    FetchAdd(Content),
    FetchSub(Content),
    FetchAnd(Content),
    FetchOr(Content),
    FetchXor(Content),
    FetchNand(Content),
    FetchMax(Content),
    FetchMin(Content),
    FetchUpdate(Option<Content>),
}

/// What is known of a place in the history. Two who know different acts there are torn. No value of it is made.
pub enum Place<X> {
    Unknown,
    Is(X),
    Torn,
}

/// What is known of each place, as contracts see it. No value of it is made.
pub struct Seen {
    places: Vec<Place<AtomicAct>>,
}

impl Model for Seen {
    ghost Value = { List (Place AtomicAct) };

    ghost view = { λ seen. seen.places.items };
}

/// A count for each place, as contracts see them. No value of it is made.
pub struct Counts {
    numbers: Vec<u64>,
}

impl Model for Counts {
    ghost Value = { List ℕ };

    ghost view = { λ counts. counts.numbers.items };
}

/// What a pass of an atomic knows of its history, and how often each place of it is an own act. No value of it is made.
pub struct Heard {
    /// What it has seen of the history.
    pub seen: Seen,
    /// How often each place of it is an own act.
    pub own: Counts,
}

/// What a pass of an atomic counts and knows: its hold of the lock inside, which knows the data words, and the history. No value of it
/// is made.
pub struct AtomicTally {
    pub hold: Held<Content>,
    pub heard: Heard,
}

impl Tally for AtomicTally {
    ghost use Rattle.running_atomic.specs.History.{no_acts, both_tallies, known_tally, tallies_add_up};

    ghost none = { no_acts };

    ghost add = { both_tallies };

    ghost core = { known_tally };

    ghost adds_up = { tallies_add_up };
}
