//! The lazy value: a once whose closure gives the value, and a cell, which holds the value once the closure has ended.
#![tactic(auto)]

ghost use Rattle.std.specs.Prelude.{◌≡◌, ℕ, List};
ghost use Rattle.model_events.specs.declared.event.Event.{Event as AnEvent};
ghost use Rattle.model_events.specs.Arithmetic.{Arithmetic};
ghost use Rattle.model_events.specs.Runs.{IsPast};
ghost use Rattle.model_lazy.specs.Table.{lazy_begins, lazy_intent, lazy_after, reads_next, lazy_table};
ghost use Rattle.model_lazy.specs.Law.{KeepsLazy};

use model_events::WaitAction;
use model_events::event::{Answer, Call, Word};
use model_events::row::{After, Intent};
use model_once::OncePlace;

/// Where a party is in a call at a lazy value; each place is named for its next step.
#[derive(Clone, Copy, PartialEq, Eq)]
pub enum LazyPlace {
    /// A step of the once inside.
    Once(OncePlace),
    /// The read of the cell.
    Read,
}

impl LazyPlace {
    /// Where a call begins, if a lazy value has it.
    #[inline(always)]
    pub fn begin<T>(call: &Call<T>) -> Option<LazyPlace>
        ensures { result ≡ lazy_begins call.now }
    {
        match call {
            Call::Force => Some(LazyPlace::Once(OncePlace::Look)),
            _ => None,
        }
    }

    /// What the step is to do, at a lazy value with this word, whose closure gives this value.
    #[inline(always)]
    pub fn intent<T>(&self, word: Word, value: T) -> Intent<T>
    where
        T: Copy,
        ensures { result ≡ lazy_intent value word self.now }
    {
        match self {
            LazyPlace::Once(place) => place.intent(word),
            LazyPlace::Read => Intent::ReadCell(value),
        }
    }

    /// How the call goes on, by what the step told, where the closure gives this value.
    #[inline(always)]
    pub fn after<T>(&self, told: Option<u64>, value: T) -> After<T, LazyPlace>
    where
        T: Copy,
        ensures { result ≡ lazy_after value self.now told }
    {
        match self {
            LazyPlace::Once(place) => reads_next(place.after(told)),
            LazyPlace::Read => After::Ends(Answer::Value(value)),
        }
    }

    /// Where the call goes on once its wait closure has answered: no call of a lazy value asks one.
    #[inline(always)]
    pub fn answered(&self, _action: WaitAction) -> LazyPlace
        ensures { result ≡ self.now }
    {
        *self
    }
}

/// Where the call of the once would have ended, the cell is read next.
#[inline(always)]
fn reads_next<T>(after: After<T, OncePlace>) -> After<T, LazyPlace>
where
    T: Copy,
    ensures { result ≡ reads_next after }
{
    match after {
        After::At(place) => After::At(LazyPlace::Once(place)),
        After::Waits(place, seen) => After::Waits(LazyPlace::Once(place), seen),
        After::Chooses(place, old) => After::Chooses(LazyPlace::Once(place), old),
        After::Ends(_) => After::At(LazyPlace::Read),
    }
}

/// What holds at every prefix of every run of a lazy value, of any number of parties. It says so of the definitions alone, and
/// does nothing.
pub fn at_every_prefix<T>()
    ensures { (z : Arithmetic T) (v : T) (parties : ℕ) (past : List (AnEvent T)) →
        IsPast z (lazy_table v) parties past → KeepsLazy v past }
{}
