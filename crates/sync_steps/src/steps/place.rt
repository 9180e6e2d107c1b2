//! Where the parties of a machine are, and which primitive's row that is.
ghost use Rattle.std.specs.Prelude.{◌≡◌, true, is_some, ⊤};
ghost use Rattle.model_events.specs.declared.event.Object.TheVariants as objects;
ghost use Rattle.model_events.specs.declared.event.Word.{Word as AnyWord};
ghost use Rattle.model_events.specs.WordsAt.{word_at};
ghost use Rattle.sync_steps.specs.Objects.{IsObject, has_call as listed_call, is_rw_call as rw_call, is_register_call as register_call, wants_hold, has_word, woken_word};
ghost use Rattle.sync_steps.specs.Machine.Places.{opening_at, begins_at, intent_at, after_at, answered_at, chosen_at, grant_at, needs_hold_at, watched_word};

use super::turn::read_value;
use model_atomic::AtomicPlace;
use model_barrier::BarrierPlace;
use model_condvar::CondvarPlace;
use model_events::WaitAction;
use model_events::atomic::internal::AtomicInteger;
use model_events::event::{Call, Object, Wake, Word};
use model_events::hold::HoldKind;
use model_events::row::{After, Intent};
use model_events::words::Words;
use model_lazy::LazyPlace;
use model_mutex::MutexPlace;
use model_once::OncePlace;
use model_rw_reader::RwReaderPlace;
use model_rw_writer::RwWriterPlace;
use model_semaphore::SemaphorePlace;
use model_spin::SpinPlace;
use std::alloc::AllocError;

/// Where a party is in its call: a place of its object's primitive.
#[derive(Copy, PartialEq, Eq)]
pub enum Place<T> {
    Mutex(MutexPlace),
    Spin(SpinPlace),
    Semaphore(SemaphorePlace),
    Barrier(BarrierPlace),
    RwReader(RwReaderPlace),
    RwWriter(RwWriterPlace),
    Condvar(CondvarPlace),
    Once(OncePlace),
    /// With the value that the closure gives.
    Lazy(LazyPlace, T),
    Atomic(AtomicPlace<T>),
}

impl<T: Copy> Clone for Place<T> {
    ghost is_clone = { λ x y. y ≡ x };

    ghost is_infallible = { λ _. ⊤ };

    fn clone(&self) -> Result<Self, AllocError> {
        Ok(*self)
    }
}

/// A closure at which a call stands until it has answered.
#[derive(Clone, Copy, PartialEq, Eq)]
pub enum Closure {
    Wait,
    Choice,
}

/// A call under way: where it is, and whether it stands at a closure.
#[derive(Copy, PartialEq, Eq)]
pub struct Doing<T> {
    pub call: Call<T>,
    pub place: Place<T>,
    pub stands: Option<Closure>,
}

impl<T: Copy> Clone for Doing<T> {
    ghost is_clone = { λ x y. y ≡ x };

    ghost is_infallible = { λ _. ⊤ };

    fn clone(&self) -> Result<Self, AllocError> {
        Ok(*self)
    }
}

/// A party: the call that it has under way, and what it holds.
#[derive(Copy, PartialEq, Eq)]
pub struct Party<T> {
    pub doing: Option<Doing<T>>,
    pub hold: Option<HoldKind>,
}

// By hand, since a derived one is not known to give the same party.
impl<T: Copy> Clone for Party<T> {
    ghost is_clone = { λ x y. y ≡ x };

    fn clone(&self) -> Result<Self, AllocError> {
        Ok(*self)
    }
}

/// How a call goes on, with the place of its primitive as one of all. A macro, since no constructor of `Place<T>` from a place that
/// does not name `T` can be passed to a function.
macro_rules! within {
    ($after:expr, $place:path $(, $value:expr)?) => {
        match $after {
            After::At(place) => After::At($place(place $(, $value)?)),
            After::Waits(place, seen) => After::Waits($place(place $(, $value)?), seen),
            After::Chooses(place, old) => After::Chooses($place(place $(, $value)?), old),
            After::Ends(answer) => After::Ends(answer),
        }
    };
}

impl<T: AtomicInteger> Place<T> {
    /// Where a call begins, if the object has it.
    pub fn begin(object: &Object<T>, call: &Call<T>) -> Option<Place<T>>
        ensures { result ≡ begins_at T.arithmetic object.now call.now }
    {
        match object {
            Object::Mutex => Some(Place::Mutex(MutexPlace::begin(call)?)),
            Object::Spin => Some(Place::Spin(SpinPlace::begin(call)?)),
            Object::Semaphore(_) => Some(Place::Semaphore(SemaphorePlace::begin(call)?)),
            Object::Barrier(n) => Some(Place::Barrier(BarrierPlace::begin(call, *n)?)),
            Object::ReaderLock => Some(Place::RwReader(RwReaderPlace::begin(call)?)),
            Object::WriterLock => Some(Place::RwWriter(RwWriterPlace::begin(call)?)),
            Object::Condvar => Some(Place::Condvar(CondvarPlace::begin(call)?)),
            Object::Once => Some(Place::Once(OncePlace::begin(call)?)),
            Object::Lazy(value) => Some(Place::Lazy(LazyPlace::begin(call)?, *value)),
            Object::Atomic(_) => Some(Place::Atomic(AtomicPlace::begin(call)?)),
        }
    }

    /// What the step is to do, by its party's hold.
    #[inline(always)]
    pub fn intent(&self, hold: Option<HoldKind>) -> Intent<T>
        ensures { result ≡ intent_at T.arithmetic self.now hold }
    {
        match self {
            Place::Mutex(place) => place.intent(Word::State),
            Place::Spin(place) => place.intent(Word::State),
            Place::Semaphore(place) => place.intent(Word::State),
            Place::Barrier(place) => place.intent(Word::State),
            Place::RwReader(place) => place.intent(Word::State, hold),
            Place::RwWriter(place) => place.intent(Word::State, Word::Counter, hold),
            Place::Condvar(place) => place.intent(),
            Place::Once(place) => place.intent(Word::State),
            Place::Lazy(place, value) => place.intent(Word::State, *value),
            Place::Atomic(place) => place.intent(hold),
        }
    }

    /// How the call goes on, by what the step told.
    #[inline(always)]
    pub fn after(&self, told: Option<u64>) -> After<T, Place<T>>
        ensures { result ≡ after_at T.arithmetic self.now told }
    {
        match self {
            Place::Mutex(place) => within!(place.after(told), Place::Mutex),
            Place::Spin(place) => within!(place.after(told), Place::Spin),
            Place::Semaphore(place) => within!(place.after(told), Place::Semaphore),
            Place::Barrier(place) => within!(place.after(told), Place::Barrier),
            Place::RwReader(place) => within!(place.after(told), Place::RwReader),
            Place::RwWriter(place) => within!(place.after(told), Place::RwWriter),
            Place::Condvar(place) => within!(place.after(told), Place::Condvar),
            Place::Once(place) => within!(place.after(told), Place::Once),
            Place::Lazy(place, value) => within!(place.after(told, *value), Place::Lazy, *value),
            Place::Atomic(place) => within!(place.after(told), Place::Atomic),
        }
    }

    /// Where the call goes on once its wait closure has answered.
    pub fn answered(&self, action: WaitAction) -> Place<T>
        ensures { result ≡ answered_at T.arithmetic self.now action }
    {
        match self {
            Place::Mutex(place) => Place::Mutex(place.answered(action)),
            Place::Spin(place) => Place::Spin(place.answered(action)),
            Place::Semaphore(place) => Place::Semaphore(place.answered(action)),
            Place::Barrier(place) => Place::Barrier(place.answered(action)),
            Place::RwReader(place) => Place::RwReader(place.answered(action)),
            Place::RwWriter(place) => Place::RwWriter(place.answered(action)),
            Place::Condvar(place) => Place::Condvar(place.answered(action)),
            Place::Once(place) => Place::Once(place.answered(action)),
            Place::Lazy(place, value) => Place::Lazy(place.answered(action), *value),
            Place::Atomic(place) => Place::Atomic(place.answered(action)),
        }
    }

    /// Where the call goes on once its choice closure has answered: only an atomic's calls ask for a choice.
    pub fn chosen(&self, choice: Option<T>) -> Place<T>
        ensures { result ≡ chosen_at T.arithmetic self.now choice }
    {
        match self {
            Place::Atomic(place) => Place::Atomic(place.chosen(choice)),
            other => *other,
        }
    }
}

/// The words of an object before the first event.
pub(crate) fn opened<T: AtomicInteger>(object: &Object<T>) -> Words
    ensures words { (word : AnyWord) → word_at result word ≡ opening_at T.arithmetic object.now word }
    ensures values { IsObject T.arithmetic object.now }
{
    let mut state = 0;
    let mut low_high = (0, 0);
    match object {
        Object::Semaphore(initial) => state = *initial,
        // Read, so that it is known to be below 2^32.
        Object::Barrier(n) => {
            let _n = *n;
        }
        Object::Lazy(value) => read_value(*value),
        Object::Atomic(value) => {
            model_atomic::closed::<T>();
            low_high = (*value).to_words();
        }
        Object::Mutex
        | Object::Spin
        | Object::ReaderLock
        | Object::WriterLock
        | Object::Condvar
        | Object::Once => {}
    }
    Words {
        state,
        counter: 0,
        waiters: 0,
        value: 0,
        low: low_high.0,
        high: low_high.1,
    }
}

/// The hold that a call takes where its exchange of the lock's word puts `to` in the place of `from`.
#[inline(always)]
pub fn grant<T: AtomicInteger>(
    object: &Object<T>,
    call: &Call<T>,
    from: u64,
    to: u64,
) -> Option<HoldKind>
    ensures { result ≡ grant_at T.arithmetic object.now call.now from to }
{
    match object {
        Object::Mutex => model_mutex::grant(call),
        Object::Spin => model_spin::grant(call),
        Object::ReaderLock => model_rw_reader::grant(call),
        Object::WriterLock => model_rw_writer::grant(call, from, to),
        Object::Condvar => model_condvar::grant(call),
        Object::Atomic(_) => model_atomic::grant(call),
        Object::Semaphore(_) | Object::Barrier(_) | Object::Once | Object::Lazy(_) => None,
    }
}

fn is_rw_call<T>(call: &Call<T>) -> bool
    ensures { result ≡ rw_call call.now }
{
    matches!(
        call,
        Call::ReadLock | Call::TryReadLock | Call::WriteLock | Call::TryWriteLock | Call::Unlock
    )
}

fn is_condvar_call<T>(call: &Call<T>) -> bool
    ensures { result ≡ listed_call objects.Condvar call.now }
{
    matches!(
        call,
        Call::Lock | Call::TryLock | Call::Unlock | Call::Wait | Call::NotifyOne | Call::NotifyAll
    )
}

fn is_register_call<T>(call: &Call<T>) -> bool
    ensures { result ≡ register_call call.now }
{
    matches!(
        call,
        Call::Load
            | Call::Store(_)
            | Call::Swap(_)
            | Call::CompareExchange(_, _)
            | Call::CompareExchangeWeak(_, _)
            | Call::FetchAdd(_)
            | Call::FetchSub(_)
            | Call::FetchAnd(_)
            | Call::FetchOr(_)
            | Call::FetchXor(_)
            | Call::FetchNand(_)
            | Call::FetchMax(_)
            | Call::FetchMin(_)
            | Call::FetchUpdate
    )
}

/// Whether the object has the call. The model's tables begin those that it has, and no other.
pub fn has_call<T: AtomicInteger>(object: &Object<T>, call: &Call<T>) -> bool
    ensures listed { result ≡ listed_call object.now call.now }
    ensures table { result ≡ is_some (begins_at T.arithmetic object.now call.now) }
{
    match object {
        Object::Mutex => matches!(call, Call::Lock | Call::TryLock | Call::Unlock),
        Object::Spin => {
            matches!(
                call,
                Call::Lock | Call::BlockingLock | Call::TryLock | Call::Unlock
            )
        }
        Object::Semaphore(_) => {
            matches!(
                call,
                Call::Value | Call::Post(_) | Call::Wait | Call::TryWait
            )
        }
        Object::Barrier(_) => matches!(call, Call::Wait),
        Object::ReaderLock | Object::WriterLock => is_rw_call(call),
        Object::Condvar => is_condvar_call(call),
        Object::Once => matches!(call, Call::CallOnce | Call::IsCompleted),
        Object::Lazy(_) => matches!(call, Call::Force),
        Object::Atomic(_) => is_register_call(call),
    }
}

/// Whether only a party with a hold may begin the call.
pub fn needs_hold<T: AtomicInteger>(object: &Object<T>, call: &Call<T>) -> bool
    ensures listed { result ≡ wants_hold object.now call.now }
    ensures table { result ≡ needs_hold_at T.arithmetic object.now call.now }
{
    match object {
        Object::Mutex | Object::Spin | Object::ReaderLock | Object::WriterLock => {
            matches!(call, Call::Unlock)
        }
        Object::Condvar => matches!(call, Call::Unlock | Call::Wait),
        Object::Semaphore(_)
        | Object::Barrier(_)
        | Object::Once
        | Object::Lazy(_)
        | Object::Atomic(_) => false,
    }
}

/// The word that a wake of the call is of: a word that the object has.
pub fn woken_word<T>(object: &Object<T>, call: &Call<T>, wake: Wake) -> Word
    ensures listed { result ≡ woken_word object.now call.now wake }
    ensures has { has_word object.now result ≡ true }
{
    match object {
        Object::WriterLock => model_rw_writer::woken_word(wake),
        Object::Condvar => model_condvar::woken_word(call),
        Object::Mutex
        | Object::Spin
        | Object::Semaphore(_)
        | Object::Barrier(_)
        | Object::ReaderLock
        | Object::Once
        | Object::Lazy(_)
        | Object::Atomic(_) => Word::State,
    }
}

/// The word that a wait closure watches which was asked at this place, and whose value it was told: a word that the object has. On it a
/// closure that sleeps does so.
pub fn watched_word<T>(object: &Object<T>, place: &Place<T>) -> Word
    ensures listed { result ≡ watched_word object.now place.now }
    ensures has { has_word object.now result ≡ true }
{
    match (object, place) {
        (Object::WriterLock, Place::RwWriter(RwWriterPlace::WriteLook(_))) => Word::Counter,
        (Object::Condvar, Place::Condvar(CondvarPlace::Permit(_))) => Word::Value,
        _ => Word::State,
    }
}
