//! The atomic: two data words under a reader-preferring lock.
#![tactic(auto)]

ghost use Rattle.std.specs.Prelude.{◌≡◌, Option, ℕ, List, ⊤};
ghost use Rattle.model_events.specs.declared.event.Event.{Event as AnEvent};
ghost use Rattle.model_events.specs.Arithmetic.{IsValue, IsClosed};
ghost use Rattle.model_events.specs.Runs.{IsPast};
ghost use Rattle.model_atomic.specs.Law.{KeepsAtomic};
ghost use Rattle.model_atomic.specs.Table.{atomic_begins, atomic_intent, atomic_after, atomic_chosen, atomic_grant, look_at, puts, inside, knows, atomic_table};

use model_events::WaitAction;
use model_events::atomic::internal::AtomicInteger;
use model_events::event::{Answer, Call, Word};
use model_events::hold::HoldKind;
use model_events::row::{After, Intent};
use model_rw_reader::{RwReaderPlace, reader_enters};
use std::alloc::AllocError;

/// Where a party is in a call at an atomic; each place is named for its next step. It keeps what the call was begun with as long as the
/// call needs it, and then the words that it stores and what it answers.
#[derive(Copy, PartialEq, Eq)]
pub enum AtomicPlace<T> {
    /// A load of the lock's word, in `Load`.
    Look,
    /// An exchange of the lock's word from the value seen to one more, in `Load`.
    Enter {
        seen: u64,
        to: u64,
    },
    /// An exchange of the lock's word of 0 for 2^64 - 1, in a call that may write.
    Take(Call<T>),
    /// The load of the low word.
    Low(Call<T>),
    /// The load of the high word; the low one was this.
    High {
        call: Call<T>,
        low: u64,
    },
    /// The load of the high word once more, in a `FetchUpdate` whose closure, at which it stands before, chose nothing.
    Again(T),
    /// The store of the low word.
    PutLow {
        low: u64,
        high: u64,
        answer: Answer<T>,
    },
    /// The store of the high word.
    PutHigh {
        high: u64,
        answer: Answer<T>,
    },
    /// The release of the lock, by the kind of the party's hold.
    Leave(Answer<T>),
}

impl<T: Copy> Clone for AtomicPlace<T> {
    ghost is_clone = { λ x y. y ≡ x };

    ghost is_infallible = { λ _. ⊤ };

    fn clone(&self) -> Result<Self, AllocError> {
        Ok(*self)
    }
}

impl<T: Copy> AtomicPlace<T> {
    /// Where a call begins, if an atomic has it.
    #[inline(always)]
    pub fn begin(call: &Call<T>) -> Option<AtomicPlace<T>>
        ensures { result ≡ atomic_begins call.now }
    {
        match call {
            Call::Load => Some(AtomicPlace::Look),
            Call::Store(_)
            | Call::Swap(_)
            | Call::CompareExchange(..)
            | Call::CompareExchangeWeak(..)
            | Call::FetchAdd(_)
            | Call::FetchSub(_)
            | Call::FetchAnd(_)
            | Call::FetchOr(_)
            | Call::FetchXor(_)
            | Call::FetchNand(_)
            | Call::FetchMax(_)
            | Call::FetchMin(_)
            | Call::FetchUpdate => Some(AtomicPlace::Take(*call)),
            _ => None,
        }
    }

    /// What the step is to do, by its party's hold.
    #[inline(always)]
    pub fn intent(&self, hold: Option<HoldKind>) -> Intent<T>
        ensures { result ≡ atomic_intent self.now hold }
    {
        match self {
            AtomicPlace::Look => Intent::Load(Word::State),
            AtomicPlace::Enter { seen, to } => Intent::Exchange {
                word: Word::State,
                from: *seen,
                to: *to,
            },
            AtomicPlace::Take(_) => RwReaderPlace::TryWrite.intent(Word::State, hold),
            AtomicPlace::Low(_) => Intent::Load(Word::Low),
            AtomicPlace::High { .. } | AtomicPlace::Again(_) => Intent::Load(Word::High),
            AtomicPlace::PutLow { low, .. } => Intent::Store {
                word: Word::Low,
                put: *low,
            },
            AtomicPlace::PutHigh { high, .. } => Intent::Store {
                word: Word::High,
                put: *high,
            },
            AtomicPlace::Leave(_) => RwReaderPlace::Release.intent(Word::State, hold),
        }
    }

    /// Where the call goes on once its wait closure has answered: it asks none.
    #[inline(always)]
    pub fn answered(&self, _action: WaitAction) -> AtomicPlace<T>
        ensures { result ≡ self.now }
    {
        *self
    }
}

impl<T: AtomicInteger> AtomicPlace<T> {
    /// How the call goes on, by what the step told.
    #[inline(always)]
    pub fn after(&self, told: Option<u64>) -> After<T, AtomicPlace<T>>
        ensures { result ≡ atomic_after T.arithmetic self.now told }
    {
        let found = told.unwrap_or(0);
        match self {
            AtomicPlace::Look => After::At(look_at(found)),
            AtomicPlace::Enter { seen, .. } => {
                if found == *seen {
                    After::At(AtomicPlace::Low(Call::Load))
                } else {
                    After::At(look_at(found))
                }
            }
            AtomicPlace::Take(call) => {
                if found == 0 {
                    After::At(inside(*call))
                } else {
                    After::At(AtomicPlace::Take(*call))
                }
            }
            AtomicPlace::Low(call) => After::At(AtomicPlace::High {
                call: *call,
                low: found,
            }),
            AtomicPlace::High { call, low } => knows(*call, T::from_words(*low, found)),
            AtomicPlace::Again(old) => After::At(AtomicPlace::Leave(Answer::ErrOld(*old))),
            AtomicPlace::PutLow { high, answer, .. } => After::At(AtomicPlace::PutHigh {
                high: *high,
                answer: *answer,
            }),
            AtomicPlace::PutHigh { answer, .. } => After::At(AtomicPlace::Leave(*answer)),
            AtomicPlace::Leave(answer) => After::Ends(*answer),
        }
    }

    /// Where a `FetchUpdate` goes on once its choice closure has answered.
    #[inline(always)]
    pub fn chosen(&self, choice: Option<T>) -> AtomicPlace<T>
        ensures { result ≡ atomic_chosen T.arithmetic self.now choice }
    {
        match (self, choice) {
            (AtomicPlace::Again(old), Some(new)) => puts(new, Answer::OkOld(*old)),
            (place, _) => *place,
        }
    }
}

/// After a look `Load` enters where a reader may, and looks again where none may.
#[inline(always)]
fn look_at<T>(seen: u64) -> AtomicPlace<T>
    ensures { result ≡ look_at seen }
{
    match reader_enters(seen) {
        Some(to) => AtomicPlace::Enter { seen, to },
        None => AtomicPlace::Look,
    }
}

/// Both words of a value are stored, and then the call answers.
#[inline(always)]
fn puts<T: AtomicInteger>(new: T, answer: Answer<T>) -> AtomicPlace<T>
    ensures { result ≡ puts T.arithmetic new answer }
{
    let (low, high) = new.to_words();
    AtomicPlace::PutLow { low, high, answer }
}

/// Where a call goes on that has the lock for writing.
#[inline(always)]
fn inside<T: AtomicInteger>(call: Call<T>) -> AtomicPlace<T>
    ensures { result ≡ inside T.arithmetic call }
{
    match call {
        Call::Store(value) => puts(value, Answer::Done),
        other => AtomicPlace::Low(other),
    }
}

/// Where a call goes on that knows the old value.
#[inline(always)]
fn knows<T: AtomicInteger>(call: Call<T>, old: T) -> After<T, AtomicPlace<T>>
    ensures { result ≡ knows T.arithmetic call old }
{
    match call {
        Call::Load => After::At(AtomicPlace::Leave(Answer::Value(old))),
        Call::Swap(value) => After::At(puts(value, Answer::Value(old))),
        Call::CompareExchange(current, new) | Call::CompareExchangeWeak(current, new) => {
            if old == current {
                After::At(puts(new, Answer::OkOld(old)))
            } else {
                After::At(AtomicPlace::Leave(Answer::ErrOld(old)))
            }
        }
        Call::FetchAdd(value) => After::At(puts(old.overflowing_add(value).0, Answer::Value(old))),
        Call::FetchSub(value) => After::At(puts(old.overflowing_sub(value).0, Answer::Value(old))),
        Call::FetchAnd(value) => After::At(puts(old & value, Answer::Value(old))),
        Call::FetchOr(value) => After::At(puts(old | value, Answer::Value(old))),
        Call::FetchXor(value) => After::At(puts(old ^ value, Answer::Value(old))),
        Call::FetchNand(value) => After::At(puts(!(old & value), Answer::Value(old))),
        Call::FetchMax(value) => After::At(puts(old.max(value), Answer::Value(old))),
        Call::FetchMin(value) => After::At(puts(old.min(value), Answer::Value(old))),
        Call::FetchUpdate => After::Chooses(AtomicPlace::Again(old), old),
        _ => After::At(AtomicPlace::Leave(Answer::Done)),
    }
}

/// The hold that a call takes.
#[inline(always)]
pub fn grant<T>(call: &Call<T>) -> Option<HoldKind>
    ensures { result ≡ atomic_grant call.now }
{
    match call {
        Call::Load => Some(HoldKind::Read),
        Call::Store(_)
        | Call::Swap(_)
        | Call::CompareExchange(..)
        | Call::CompareExchangeWeak(..)
        | Call::FetchAdd(_)
        | Call::FetchSub(_)
        | Call::FetchAnd(_)
        | Call::FetchOr(_)
        | Call::FetchXor(_)
        | Call::FetchNand(_)
        | Call::FetchMax(_)
        | Call::FetchMin(_)
        | Call::FetchUpdate => Some(HoldKind::Write),
        _ => None,
    }
}

/// The operators lead from values of the type to values of the type. Says so of the definitions alone, and does nothing.
#[inline(always)]
pub fn closed<T: AtomicInteger>()
    ensures { IsClosed T.arithmetic }
{}

/// What holds at every prefix of every run of an atomic, of any number of parties. It says so of the definitions alone, and does nothing.
pub fn at_every_prefix<T: AtomicInteger>()
    ensures { (v : T) (parties : ℕ) (past : List (AnEvent T)) → IsValue T.arithmetic v →
        IsPast T.arithmetic (atomic_table T.arithmetic v) parties past → KeepsAtomic T.arithmetic v past }
{
    closed::<T>();
}
