//! The rows of a table of steps: what a step is to do, and how its call goes on by what the step finds.
ghost use Rattle.std.specs.Prelude.{◌≡◌, ⊤};
ghost use Rattle.model_events.specs.Rows.{value_told, outcome_of, IsWithin};

use crate::event::{Act, Answer, Then, Wake, Word};
use std::alloc::AllocError;

/// What a step is to do, before any word is read.
#[derive(Copy)]
pub enum Intent<T> {
    /// A load.
    Load(Word),
    /// A store.
    Store { word: Word, put: u64 },
    /// A swap: it puts the value, and tells the old one.
    Swap { word: Word, put: u64 },
    /// An add, which wraps.
    Add { word: Word, more: u64 },
    /// A subtraction, which wraps.
    Subtract { word: Word, less: u64 },
    /// A compare-exchange.
    Exchange { word: Word, from: u64, to: u64 },
    /// A call of a wake closure.
    Wake(Wake),
    /// The end of the closure of a once or a lazy value.
    End,
    /// A read of a lazy cell that holds this value.
    ReadCell(T),
}

impl<T: Copy> Clone for Intent<T> {
    ghost is_clone = { λ x y. y ≡ x };

    ghost is_infallible = { λ _. ⊤ };

    fn clone(&self) -> Result<Self, AllocError> {
        Ok(*self)
    }
}

/// How a call goes on after a step.
#[derive(Copy)]
pub enum After<T, P> {
    /// By itself, from this place.
    At(P),
    /// It stands at its wait closure, which is told this value, and then goes on from the place.
    Waits(P, u64),
    /// It stands at its choice closure, which is told this value, and then goes on from the place.
    Chooses(P, T),
    /// It has ended with this answer.
    Ends(Answer<T>),
}

impl<T: Copy, P: Copy> Clone for After<T, P> {
    ghost is_clone = { λ x y. y ≡ x };

    ghost is_infallible = { λ _. ⊤ };

    fn clone(&self) -> Result<Self, AllocError> {
        Ok(*self)
    }
}

impl<T, P> After<T, P> {
    /// How an event tells it.
    #[inline(always)]
    pub fn outcome(&self) -> Then<T>
    where
        T: Copy,
        ensures { result ≡ outcome_of self.now }
    {
        match self {
            After::At(_) => Then::GoesOn,
            After::Waits(_, seen) => Then::Waits(*seen),
            After::Chooses(_, old) => Then::Chooses(*old),
            After::Ends(answer) => Then::Answers(*answer),
        }
    }

    /// The same with the place as a place of something larger.
    #[inline(always)]
    pub fn within<Q, F: FnOnce(P) -> Q>(self, wrap: F) -> After<T, Q>
        requires { F.IsAlwaysCallable wrap }
        ensures { IsWithin (F.post wrap) self result }
    {
        match self {
            After::At(place) => After::At(wrap(place)),
            After::Waits(place, seen) => After::Waits(wrap(place), seen),
            After::Chooses(place, old) => After::Chooses(wrap(place), old),
            After::Ends(answer) => After::Ends(answer),
        }
    }
}

impl<T> Act<T> {
    /// What the step told of its word.
    #[inline(always)]
    pub fn told(&self) -> Option<u64>
        ensures { result ≡ value_told self.now }
    {
        match self {
            Act::Load { seen, .. } => Some(*seen),
            Act::Swap { old, .. } | Act::Add { old, .. } => Some(*old),
            Act::Exchange { found, .. } => Some(*found),
            _ => None,
        }
    }
}
