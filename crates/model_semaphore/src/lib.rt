//! The semaphore: its word is the number of permits that are there to take.
#![tactic(auto)]

ghost use Rattle.std.specs.Prelude.{◌≡◌, ◌≢◌, ◌+◌, ◌-◌, ◌%◌, ◌^◌, ◌<◌, Option, ℕ, List};
ghost use Rattle.model_events.specs.declared.event.Event.{Event as AnEvent};
ghost use Rattle.model_events.specs.Arithmetic.{Arithmetic};
ghost use Rattle.model_events.specs.Runs.{IsPast};
ghost use Rattle.model_semaphore.specs.Table.{semaphore_begins, semaphore_intent, semaphore_after, semaphore_answered, try_look, look, semaphore_table};
ghost use Rattle.model_semaphore.specs.Law.{KeepsSemaphore};

use model_events::WaitAction;
use model_events::event::{Answer, Call, Wake, Word};
use model_events::patience::Patience;
use model_events::row::{After, Intent};

/// The word after `n` permits were posted; it wraps.
#[inline(always)]
pub fn posted(word: u64, n: u64) -> u64
    ensures { result ≡ (word + n) % 2 ^ 64 }
{
    word.wrapping_add(n)
}

/// The word after a permit was taken, where there is one.
#[inline(always)]
pub fn taken(word: u64) -> Option<u64>
    ensures empty { word ≡ 0 → result ≡ None }
    ensures open { word ≢ 0 → result ≡ Some (word - 1) }
{
    word.checked_sub(1)
}

/// Where a party is in a call at a semaphore; each place is named for its next step.
#[derive(Clone, Copy, PartialEq, Eq)]
pub enum SemaphorePlace {
    /// The load of `Value`.
    Value,
    /// The add of `Post`.
    Post(u64),
    /// The wake of `Post`.
    Wake,
    /// The load of `TryWait`.
    TryLook,
    /// The exchange of `TryWait` from the value seen to one less.
    TryTake {
        seen: u64,
        to: u64,
    },
    /// The load of `Wait`.
    Look(Patience),
    /// The exchange of `Wait` from the value seen to one less.
    Take {
        seen: u64,
        to: u64,
        patience: Patience,
    },
}

impl SemaphorePlace {
    /// Where a call begins, if a semaphore has it.
    #[inline(always)]
    pub fn begin<T>(call: &Call<T>) -> Option<SemaphorePlace>
        ensures { result ≡ semaphore_begins call.now }
    {
        match call {
            Call::Value => Some(SemaphorePlace::Value),
            Call::Post(n) => Some(SemaphorePlace::Post(*n)),
            Call::TryWait => Some(SemaphorePlace::TryLook),
            Call::Wait => Some(SemaphorePlace::Look(Patience::FRESH)),
            _ => None,
        }
    }

    /// What the step is to do, at a semaphore with this word.
    #[inline(always)]
    pub fn intent<T>(&self, word: Word) -> Intent<T>
        ensures { result ≡ semaphore_intent word self.now }
    {
        match self {
            SemaphorePlace::Value | SemaphorePlace::TryLook | SemaphorePlace::Look(_) => {
                Intent::Load(word)
            }
            SemaphorePlace::Post(n) => Intent::Add { word, more: *n },
            SemaphorePlace::Wake => Intent::Wake(Wake::One),
            SemaphorePlace::TryTake { seen, to } | SemaphorePlace::Take { seen, to, .. } => {
                Intent::Exchange {
                    word,
                    from: *seen,
                    to: *to,
                }
            }
        }
    }

    /// How the call goes on, by what the step told.
    #[inline(always)]
    pub fn after<T>(&self, told: Option<u64>) -> After<T, SemaphorePlace>
        ensures { result ≡ semaphore_after self.now told }
    {
        let found = told.unwrap_or(0);
        match self {
            SemaphorePlace::Value => After::Ends(Answer::Number(found)),
            SemaphorePlace::Post(_) => After::At(SemaphorePlace::Wake),
            SemaphorePlace::Wake => After::Ends(Answer::Done),
            SemaphorePlace::TryLook => try_look(found),
            SemaphorePlace::TryTake { seen, .. } => {
                if found == *seen {
                    After::Ends(Answer::Success)
                } else {
                    try_look(found)
                }
            }
            SemaphorePlace::Look(patience) => look(patience, found),
            SemaphorePlace::Take { seen, patience, .. } => {
                if found == *seen {
                    After::Ends(Answer::Success)
                } else {
                    look(patience, found)
                }
            }
        }
    }

    /// Where the call goes on once its wait closure has answered.
    #[inline(always)]
    pub fn answered(&self, action: WaitAction) -> SemaphorePlace
        ensures { result ≡ semaphore_answered self.now action }
    {
        match self {
            SemaphorePlace::Look(patience) => SemaphorePlace::Look(patience.answered(action)),
            SemaphorePlace::Value
            | SemaphorePlace::Post(_)
            | SemaphorePlace::Wake
            | SemaphorePlace::TryLook
            | SemaphorePlace::TryTake { .. }
            | SemaphorePlace::Take { .. } => *self,
        }
    }
}

/// After a look `TryWait` gives up at 0, and else goes on to take a permit.
#[inline(always)]
fn try_look<T>(seen: u64) -> After<T, SemaphorePlace>
    ensures { result ≡ try_look seen }
{
    match taken(seen) {
        Some(to) => After::At(SemaphorePlace::TryTake { seen, to }),
        None => After::Ends(Answer::Interrupted),
    }
}

/// After a look `Wait` is refused at 0, and else goes on to take a permit.
#[inline(always)]
fn look<T>(patience: &Patience, seen: u64) -> After<T, SemaphorePlace>
    ensures { result ≡ look patience.now seen }
{
    match taken(seen) {
        Some(to) => After::At(SemaphorePlace::Take {
            seen,
            to,
            patience: *patience,
        }),
        None => patience.refused(0).within(SemaphorePlace::Look),
    }
}

/// What holds at every prefix of every run of a semaphore, of any number of parties. It says so of the definitions alone,
/// and does nothing.
pub fn at_every_prefix<T>()
    ensures { (z : Arithmetic T) (initial parties : ℕ) (past : List (AnEvent T)) → initial < 2 ^ 64 →
        IsPast z (semaphore_table initial) parties past → KeepsSemaphore initial past }
{}
