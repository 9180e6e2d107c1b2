//! The spin lock: its word is 0 where it is free and 1 where it is locked. A call that waits only spins.
#![tactic(auto)]

ghost use Rattle.std.specs.Prelude.{◌≡◌, ℕ, List};
ghost use Rattle.model_events.specs.declared.event.Event.{Event as AnEvent};
ghost use Rattle.model_events.specs.Arithmetic.{Arithmetic};
ghost use Rattle.model_events.specs.Runs.{IsPast};
ghost use Rattle.model_spin.specs.Table.{spin_begins, spin_intent, spin_after, is_free, spin_grant, spin_table};
ghost use Rattle.model_spin.specs.Law.{KeepsSpin};

use model_events::WaitAction;
use model_events::event::{Answer, Call, Word};
use model_events::hold::HoldKind;
use model_events::row::{After, Intent};

/// Where a party is in a call at a spin lock; each place is named for its next step.
#[derive(Clone, Copy, PartialEq, Eq)]
pub enum SpinPlace {
    /// The one swap of `TryLock`.
    TryLock,
    /// A swap of `Lock` or `BlockingLock`.
    Lock,
    /// The store of `Unlock`.
    Release,
}

impl SpinPlace {
    /// Where a call begins, if a spin lock has it.
    #[inline(always)]
    pub fn begin<T>(call: &Call<T>) -> Option<SpinPlace>
        ensures { result ≡ spin_begins call.now }
    {
        match call {
            Call::TryLock => Some(SpinPlace::TryLock),
            Call::Lock | Call::BlockingLock => Some(SpinPlace::Lock),
            Call::Unlock => Some(SpinPlace::Release),
            _ => None,
        }
    }

    /// What the step is to do, at a spin lock with this word.
    #[inline(always)]
    pub fn intent<T>(&self, word: Word) -> Intent<T>
        ensures { result ≡ spin_intent word self.now }
    {
        match self {
            SpinPlace::TryLock | SpinPlace::Lock => Intent::Swap { word, put: 1 },
            SpinPlace::Release => Intent::Store { word, put: 0 },
        }
    }

    /// How the call goes on, by what the step told.
    #[inline(always)]
    pub fn after<T>(&self, told: Option<u64>) -> After<T, SpinPlace>
        ensures { result ≡ spin_after self.now told }
    {
        match self {
            SpinPlace::TryLock => {
                if is_free(told) {
                    After::Ends(Answer::Success)
                } else {
                    After::Ends(Answer::Interrupted)
                }
            }
            SpinPlace::Lock => {
                if is_free(told) {
                    After::Ends(Answer::Success)
                } else {
                    After::At(SpinPlace::Lock)
                }
            }
            SpinPlace::Release => After::Ends(Answer::Done),
        }
    }

    /// Where the call goes on once its wait closure has answered: no call of a spin lock asks one.
    #[inline(always)]
    pub fn answered(&self, _action: WaitAction) -> SpinPlace
        ensures { result ≡ self.now }
    {
        *self
    }
}

/// The hold that a locking call takes.
#[inline(always)]
pub fn grant<T>(call: &Call<T>) -> Option<HoldKind>
    ensures { (from to : ℕ) → result ≡ spin_grant call.now from to }
{
    match call {
        Call::Lock | Call::BlockingLock | Call::TryLock => Some(HoldKind::Write),
        _ => None,
    }
}

/// Whether a swap told that the lock was free.
#[inline(always)]
fn is_free(told: Option<u64>) -> bool
    ensures { result ≡ is_free told }
{
    told == Some(0)
}

/// What holds at every prefix of every run of a spin lock, of any number of parties. It says so of the definitions alone, and
/// does nothing.
pub fn at_every_prefix<T>()
    ensures { (z : Arithmetic T) (parties : ℕ) (past : List (AnEvent T)) →
        IsPast z spin_table parties past → KeepsSpin past }
{}
