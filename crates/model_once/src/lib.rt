//! The once: its word is 0 where no closure has begun, 1 where one runs, and 2 where it has ended.
#![tactic(auto)]

ghost use Rattle.std.specs.Prelude.{◌≡◌, ◌≢◌, Option, ℕ, List};
ghost use Rattle.model_events.specs.declared.event.Event.{Event as AnEvent};
ghost use Rattle.model_events.specs.Arithmetic.{Arithmetic};
ghost use Rattle.model_events.specs.Runs.{IsPast};
ghost use Rattle.model_once.specs.Table.{once_begins, once_intent, once_after, once_table};
ghost use Rattle.model_once.specs.Law.{KeepsOnce};

use model_events::WaitAction;
use model_events::event::{Answer, Call, Word};
use model_events::row::{After, Intent};

/// The word after a closure has begun, where none has.
#[inline(always)]
pub fn begun(word: u64) -> Option<u64>
    ensures empty { word ≡ 0 → result ≡ Some 1 }
    ensures begun { word ≢ 0 → result ≡ None }
{
    (word == 0).then_some(1)
}

/// Where a party is in a call at a once; each place is named for its next step.
#[derive(Clone, Copy, PartialEq, Eq)]
pub enum OncePlace {
    /// The load of `IsCompleted`.
    IsCompleted,
    /// The load of `CallOnce`.
    Look,
    /// The exchange that decides whose closure runs.
    Begin,
    /// The end of the closure.
    Run,
    /// The store of the call whose closure has ended.
    Complete,
    /// The load of a call that waits until another's closure has ended.
    Stay,
}

impl OncePlace {
    /// Where a call begins, if a once has it.
    #[inline(always)]
    pub fn begin<T>(call: &Call<T>) -> Option<OncePlace>
        ensures { result ≡ once_begins call.now }
    {
        match call {
            Call::IsCompleted => Some(OncePlace::IsCompleted),
            Call::CallOnce => Some(OncePlace::Look),
            _ => None,
        }
    }

    /// What the step is to do, at a once with this word.
    #[inline(always)]
    pub fn intent<T>(&self, word: Word) -> Intent<T>
        ensures { result ≡ once_intent word self.now }
    {
        match self {
            OncePlace::IsCompleted | OncePlace::Look | OncePlace::Stay => Intent::Load(word),
            OncePlace::Begin => Intent::Exchange {
                word,
                from: 0,
                to: 1,
            },
            OncePlace::Run => Intent::End,
            OncePlace::Complete => Intent::Store { word, put: 2 },
        }
    }

    /// How the call goes on, by what the step told.
    #[inline(always)]
    pub fn after<T>(&self, told: Option<u64>) -> After<T, OncePlace>
        ensures { result ≡ once_after self.now told }
    {
        let found = told.unwrap_or(0);
        match self {
            OncePlace::IsCompleted => After::Ends(Answer::Flag(found == 2)),
            OncePlace::Look => {
                if found == 2 {
                    After::Ends(Answer::Done)
                } else {
                    After::At(OncePlace::Begin)
                }
            }
            OncePlace::Begin => {
                if begun(found).is_some() {
                    After::At(OncePlace::Run)
                } else {
                    After::At(OncePlace::Stay)
                }
            }
            OncePlace::Run => After::At(OncePlace::Complete),
            OncePlace::Complete => After::Ends(Answer::Done),
            OncePlace::Stay => {
                if found == 2 {
                    After::Ends(Answer::Done)
                } else {
                    After::At(OncePlace::Stay)
                }
            }
        }
    }

    /// Where the call goes on once its wait closure has answered: no call of a once asks one.
    #[inline(always)]
    pub fn answered(&self, _action: WaitAction) -> OncePlace
        ensures { result ≡ self.now }
    {
        *self
    }
}

/// What holds at every prefix of every run of a once, of any number of parties. It says so of the definitions alone, and
/// does nothing.
pub fn at_every_prefix<T>()
    ensures { (z : Arithmetic T) (parties : ℕ) (past : List (AnEvent T)) →
        IsPast z once_table parties past → KeepsOnce past }
{}
