//! The condition variable and its mutex: the mutex's word, the count of those that wait, and the permits that notifies give them.
#![tactic(auto)]

ghost use Rattle.std.specs.Prelude.{◌≡◌, min, Option, ℕ, List};
ghost use Rattle.model_events.specs.declared.event.Event.{Event as AnEvent};
ghost use Rattle.model_events.specs.declared.event.Wake.TheVariants as wakes;
ghost use Rattle.model_events.specs.Arithmetic.{Arithmetic};
ghost use Rattle.model_events.specs.Runs.{IsPast};
ghost use Rattle.model_condvar.specs.Table.{condvar_begins, condvar_intent, condvar_after, condvar_answered, condvar_grant, released, permitted, relocked, condvar_woken, condvar_table};
ghost use Rattle.model_condvar.specs.Law.{KeepsCondvar};

use model_events::WaitAction;
use model_events::event::{Answer, Call, Wake, Word};
use model_events::hold::HoldKind;
use model_events::patience::Patience;
use model_events::row::{After, Intent};
use model_mutex::MutexPlace;
use model_semaphore::SemaphorePlace;

/// How many permits a notify gives that wakes so, where so many wait: at most one to wake one, and one for each to wake all.
#[inline(always)]
pub fn permits_for(wake: Wake, waiters: u64) -> u64
    ensures one { wake ≡ wakes.One → result ≡ min 1 waiters }
    ensures all { wake ≡ wakes.All → result ≡ waiters }
{
    match wake {
        Wake::One => waiters.min(1),
        Wake::All => waiters,
    }
}

/// Where a party is in a call at a condition variable; each place is named for its next step.
#[derive(Clone, Copy, PartialEq, Eq)]
pub enum CondvarPlace {
    /// A step of the mutex, in `Lock`, `TryLock` or `Unlock`.
    Mutex(MutexPlace),
    /// The load of the waiter count, in a notify that wakes so.
    Read(Wake),
    /// The add to the permits, in a notify.
    Post { wake: Wake, amount: u64 },
    /// The wake of a notify.
    Wake(Wake),
    /// The add to the waiter count, in `Wait`.
    CountIn,
    /// A step of the mutex, in the unlock of a `Wait`.
    Release(MutexPlace),
    /// A step of the semaphore of permits, in `Wait`.
    Permit(SemaphorePlace),
    /// The subtraction from the waiter count, in a `Wait` that took a permit or took none.
    CountOut { signalled: bool },
    /// A step of the mutex, in the lock of such a `Wait`.
    Relock { signalled: bool, place: MutexPlace },
}

impl CondvarPlace {
    /// Where a call begins, if a condition variable or its mutex has it.
    #[inline(always)]
    pub fn begin<T>(call: &Call<T>) -> Option<CondvarPlace>
        ensures { result ≡ condvar_begins call.now }
    {
        match call {
            Call::NotifyOne => Some(CondvarPlace::Read(Wake::One)),
            Call::NotifyAll => Some(CondvarPlace::Read(Wake::All)),
            Call::Wait => Some(CondvarPlace::CountIn),
            _ => Some(CondvarPlace::Mutex(MutexPlace::begin(call)?)),
        }
    }

    /// What the step is to do.
    #[inline(always)]
    pub fn intent<T>(&self) -> Intent<T>
        ensures { result ≡ condvar_intent self.now }
    {
        match self {
            CondvarPlace::Mutex(place)
            | CondvarPlace::Release(place)
            | CondvarPlace::Relock { place, .. } => place.intent(Word::State),
            CondvarPlace::Read(_) => Intent::Load(Word::Waiters),
            CondvarPlace::Post { amount, .. } => SemaphorePlace::Post(*amount).intent(Word::Value),
            CondvarPlace::Wake(wake) => Intent::Wake(*wake),
            CondvarPlace::CountIn => Intent::Add {
                word: Word::Waiters,
                more: 1,
            },
            CondvarPlace::Permit(place) => place.intent(Word::Value),
            CondvarPlace::CountOut { .. } => Intent::Subtract {
                word: Word::Waiters,
                less: 1,
            },
        }
    }

    /// How the call goes on, by what the step told.
    #[inline(always)]
    pub fn after<T: Copy>(&self, told: Option<u64>) -> After<T, CondvarPlace>
        ensures { result ≡ condvar_after self.now told }
    {
        match self {
            CondvarPlace::Mutex(place) => place.after(told).within(CondvarPlace::Mutex),
            CondvarPlace::Read(wake) => After::At(CondvarPlace::Post {
                wake: *wake,
                amount: permits_for(*wake, told.unwrap_or(0)),
            }),
            CondvarPlace::Post { wake, .. } => After::At(CondvarPlace::Wake(*wake)),
            CondvarPlace::Wake(_) => After::Ends(Answer::Done),
            CondvarPlace::CountIn => After::At(CondvarPlace::Release(MutexPlace::Release)),
            CondvarPlace::Release(place) => after_release(place.after(told)),
            CondvarPlace::Permit(place) => after_permit(place.after(told)),
            CondvarPlace::CountOut { signalled } => After::At(CondvarPlace::Relock {
                signalled: *signalled,
                place: MutexPlace::Lock(Patience::FRESH),
            }),
            CondvarPlace::Relock { signalled, place } => {
                after_relock(*signalled, place.after(told))
            }
        }
    }

    /// Where the call goes on once its wait closure has answered.
    #[inline(always)]
    pub fn answered(&self, action: WaitAction) -> CondvarPlace
        ensures { result ≡ condvar_answered self.now action }
    {
        match self {
            CondvarPlace::Mutex(place) => CondvarPlace::Mutex(place.answered(action)),
            CondvarPlace::Permit(place) => CondvarPlace::Permit(place.answered(action)),
            CondvarPlace::Relock { signalled, place } => CondvarPlace::Relock {
                signalled: *signalled,
                place: place.answered(action),
            },
            CondvarPlace::Read(_)
            | CondvarPlace::Post { .. }
            | CondvarPlace::Wake(_)
            | CondvarPlace::CountIn
            | CondvarPlace::Release(_)
            | CondvarPlace::CountOut { .. } => *self,
        }
    }
}

/// A `Wait` that has unlocked waits for a permit.
#[inline(always)]
fn after_release<T: Copy>(after: After<T, MutexPlace>) -> After<T, CondvarPlace>
    ensures { result ≡ released after }
{
    match after {
        After::Ends(_) => After::At(CondvarPlace::Permit(SemaphorePlace::Look(Patience::FRESH))),
        on => on.within(CondvarPlace::Release),
    }
}

/// Whether it took a permit or gave up, it counts itself out.
#[inline(always)]
fn after_permit<T: Copy>(after: After<T, SemaphorePlace>) -> After<T, CondvarPlace>
    ensures { result ≡ permitted after }
{
    match after {
        After::Ends(Answer::Success) => After::At(CondvarPlace::CountOut { signalled: true }),
        After::Ends(_) => After::At(CondvarPlace::CountOut { signalled: false }),
        on => on.within(CondvarPlace::Permit),
    }
}

/// Then it locks again, and answers.
#[inline(always)]
fn after_relock<T: Copy>(signalled: bool, after: After<T, MutexPlace>) -> After<T, CondvarPlace>
    ensures { result ≡ relocked signalled after }
{
    match after {
        After::Ends(Answer::Success) if signalled => After::Ends(Answer::Success),
        After::Ends(Answer::Success) => After::Ends(Answer::InterruptedHeld),
        After::Ends(_) => After::Ends(Answer::Interrupted),
        on => on.within(|place| CondvarPlace::Relock { signalled, place }),
    }
}

/// The hold that a locking call takes, and a `Wait` that locks again.
#[inline(always)]
pub fn grant<T>(call: &Call<T>) -> Option<HoldKind>
    ensures { (from to : ℕ) → result ≡ condvar_grant call.now from to }
{
    match call {
        Call::Wait => Some(HoldKind::Write),
        _ => model_mutex::grant(call),
    }
}

/// The word that a call's wake is of: a notify's is of the permits, on which a `Wait` sleeps, and that of every other call of the mutex's
/// word.
#[inline(always)]
pub fn woken_word<T>(call: &Call<T>) -> Word
    ensures { result ≡ condvar_woken call.now }
{
    match call {
        Call::NotifyOne | Call::NotifyAll => Word::Value,
        _ => Word::State,
    }
}

/// What holds at every prefix of every run of a condition variable and its mutex, of any number of parties. It says so of the
/// definitions alone, and does nothing.
pub fn at_every_prefix<T>()
    ensures { (z : Arithmetic T) (parties : ℕ) (past : List (AnEvent T)) →
        IsPast z condvar_table parties past → KeepsCondvar past }
{}
