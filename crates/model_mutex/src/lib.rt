//! The mutex: its word is 0 where it is free and 1 where it is locked.
#![tactic(auto)]

ghost use Rattle.std.specs.Prelude.{◌≡◌, ◌≢◌, Option, ℕ, List};
ghost use Rattle.model_events.specs.declared.event.Event.{Event as AnEvent};
ghost use Rattle.model_events.specs.Arithmetic.{Arithmetic};
ghost use Rattle.model_events.specs.Runs.{IsPast};
ghost use Rattle.model_mutex.specs.Table.{mutex_begins, mutex_intent, mutex_after, mutex_answered, is_free, mutex_grant, mutex_table};
ghost use Rattle.model_mutex.specs.Law.{KeepsMutex};

use model_events::WaitAction;
use model_events::event::{Answer, Call, Wake, Word};
use model_events::hold::HoldKind;
use model_events::patience::Patience;
use model_events::row::{After, Intent};

/// The word after a lock, where the mutex is free.
#[inline(always)]
pub fn granted(word: u64) -> Option<u64>
    ensures free { word ≡ 0 → result ≡ Some 1 }
    ensures locked { word ≢ 0 → result ≡ None }
{
    (word == 0).then_some(1)
}

/// Where a party is in a call at a mutex; each place is named for its next step.
#[derive(Clone, Copy, PartialEq, Eq)]
pub enum MutexPlace {
    /// The one exchange of `TryLock`.
    TryLock,
    /// An exchange of `Lock`.
    Lock(Patience),
    /// The store of `Unlock`.
    Release,
    /// The wake of `Unlock`.
    Wake,
}

impl MutexPlace {
    /// Where a call begins, if a mutex has it.
    #[inline(always)]
    pub fn begin<T>(call: &Call<T>) -> Option<MutexPlace>
        ensures { result ≡ mutex_begins call.now }
    {
        match call {
            Call::TryLock => Some(MutexPlace::TryLock),
            Call::Lock => Some(MutexPlace::Lock(Patience::FRESH)),
            Call::Unlock => Some(MutexPlace::Release),
            _ => None,
        }
    }

    /// What the step is to do, at a mutex with this word.
    #[inline(always)]
    pub fn intent<T>(&self, word: Word) -> Intent<T>
        ensures { result ≡ mutex_intent word self.now }
    {
        match self {
            MutexPlace::TryLock | MutexPlace::Lock(_) => Intent::Exchange {
                word,
                from: 0,
                to: 1,
            },
            MutexPlace::Release => Intent::Store { word, put: 0 },
            MutexPlace::Wake => Intent::Wake(Wake::One),
        }
    }

    /// How the call goes on, by what the step told.
    #[inline(always)]
    pub fn after<T>(&self, told: Option<u64>) -> After<T, MutexPlace>
        ensures { result ≡ mutex_after self.now told }
    {
        match self {
            MutexPlace::TryLock => {
                if is_free(told) {
                    After::Ends(Answer::Success)
                } else {
                    After::Ends(Answer::Interrupted)
                }
            }
            MutexPlace::Lock(patience) => {
                if is_free(told) {
                    After::Ends(Answer::Success)
                } else {
                    patience.refused(1).within(MutexPlace::Lock)
                }
            }
            MutexPlace::Release => After::At(MutexPlace::Wake),
            MutexPlace::Wake => After::Ends(Answer::Done),
        }
    }

    /// Where the call goes on once its wait closure has answered.
    #[inline(always)]
    pub fn answered(&self, action: WaitAction) -> MutexPlace
        ensures { result ≡ mutex_answered self.now action }
    {
        match self {
            MutexPlace::Lock(patience) => MutexPlace::Lock(patience.answered(action)),
            MutexPlace::TryLock => MutexPlace::TryLock,
            MutexPlace::Release => MutexPlace::Release,
            MutexPlace::Wake => MutexPlace::Wake,
        }
    }
}

/// The hold that a locking call takes.
#[inline(always)]
pub fn grant<T>(call: &Call<T>) -> Option<HoldKind>
    ensures { (from to : ℕ) → result ≡ mutex_grant call.now from to }
{
    match call {
        Call::Lock | Call::TryLock => Some(HoldKind::Write),
        _ => None,
    }
}

/// Whether a sight told that the mutex was free.
#[inline(always)]
fn is_free(told: Option<u64>) -> bool
    ensures { result ≡ is_free told }
{
    told.and_then(granted).is_some()
}

/// What holds at every prefix of every run of a mutex, of any number of parties. It says so of the definitions alone, and
/// does nothing.
pub fn at_every_prefix<T>()
    ensures { (z : Arithmetic T) (parties : ℕ) (past : List (AnEvent T)) →
        IsPast z mutex_table parties past → KeepsMutex past }
{}
