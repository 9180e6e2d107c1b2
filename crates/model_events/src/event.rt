//! What a run is made of: the words, the calls and the answers of objects, and events, in each of which one atomic step is made.
//!
//! A value of these is cloned as it is copied: a derived `Clone` goes through each variant, and its proof costs as much as the rest here.
ghost use Rattle.std.specs.Prelude.{◌≡◌, ⊤};

use crate::WaitAction;
use std::alloc::AllocError;

/// A word of an object: each is one atomic 64-bit word.
#[derive(Clone, Copy, Debug, PartialEq, Eq)]
pub enum Word {
    /// The word of a lock, a semaphore, a barrier or a once; of a `Condvar` its mutex's word; of an `Atomic` its lock's word.
    State,
    /// The wake counter of a `WriterLock`.
    Counter,
    /// How many wait at a `Condvar`.
    Waiters,
    /// The permits of a `Condvar`.
    Value,
    /// The low half of an `Atomic`'s value.
    Low,
    /// The high half of an `Atomic`'s value.
    High,
}

/// A call of a wake closure.
#[derive(Clone, Copy, PartialEq, Eq)]
pub enum Wake {
    /// It wakes one that waits.
    One,
    /// It wakes all that wait.
    All,
}

/// A call of a party at the object, named as in the Rust crate.
///
/// Each object has some of them. The values that the calls of an `Atomic` bring are of its integer type `T`.
#[derive(Copy, PartialEq, Eq)]
pub enum Call<T> {
    /// Takes the lock; waits while it is held.
    Lock,
    /// Takes the lock, or gives up at once.
    TryLock,
    /// Takes a spin lock, and only spins.
    BlockingLock,
    /// Gives the hold back, and wakes.
    Unlock,
    /// Tells a semaphore's value.
    Value,
    /// Adds so many permits, and wakes one.
    Post(u64),
    /// Waits: at a semaphore for a permit, at a barrier for its round, at a `Condvar` for a notify.
    Wait,
    /// Takes a permit, or gives up where there is none.
    TryWait,
    /// Takes a read hold; waits while a writer has the lock.
    ReadLock,
    /// Takes a read hold, or gives up at once.
    TryReadLock,
    /// Takes the write hold; waits while the lock is held.
    WriteLock,
    /// Takes the write hold, or gives up at once.
    TryWriteLock,
    /// Wakes one that waits at a `Condvar`.
    NotifyOne,
    /// Wakes all that wait at a `Condvar`.
    NotifyAll,
    /// Runs a once's closure, or waits until it has run.
    CallOnce,
    /// Whether a once's closure has run.
    IsCompleted,
    /// Gives a lazy value, and makes it first where it is not there.
    Force,
    /// Reads an `Atomic`.
    Load,
    /// Writes an `Atomic`.
    Store(T),
    /// Writes it, and answers the old value.
    Swap(T),
    /// Writes the second where it has the first, and answers the old value.
    CompareExchange(T, T),
    /// The same: it fails only where the value differs.
    CompareExchangeWeak(T, T),
    /// Adds, and wraps. As each of the following it answers the old value.
    FetchAdd(T),
    /// Subtracts, and wraps.
    FetchSub(T),
    /// Writes the bits that both have.
    FetchAnd(T),
    /// Writes the bits that one of them has.
    FetchOr(T),
    /// Writes the bits that only one of them has.
    FetchXor(T),
    /// Writes the bits that not both have.
    FetchNand(T),
    /// Writes the greater.
    FetchMax(T),
    /// Writes the lesser.
    FetchMin(T),
    /// Writes what its choice closure makes of the old value, if it makes one.
    FetchUpdate,
}

impl<T: Copy> Clone for Call<T> {
    ghost is_clone = { λ x y. y ≡ x };

    ghost is_infallible = { λ _. ⊤ };

    fn clone(&self) -> Result<Self, AllocError> {
        Ok(*self)
    }
}

/// What an event did.
#[derive(Copy)]
pub enum Act<T> {
    /// A call began.
    Begun(Call<T>),
    /// A load told `seen`.
    Load {
        word: Word,
        seen: u64,
    },
    /// A store put `put`.
    Store {
        word: Word,
        put: u64,
    },
    /// A swap told `old` and put `put`.
    Swap {
        word: Word,
        old: u64,
        put: u64,
    },
    /// An add or a subtraction told `old` and put `put`.
    Add {
        word: Word,
        old: u64,
        put: u64,
    },
    /// A compare-exchange found `found`; it is done where that is `from`, and then put `to`, else it put nothing.
    Exchange {
        word: Word,
        from: u64,
        to: u64,
        found: u64,
        done: bool,
    },
    /// A wake closure was called.
    Woke(Wake),
    /// The wait closure answered.
    Answered(WaitAction),
    /// The choice closure of a `FetchUpdate` answered.
    Chosen(Option<T>),
    /// The closure of a once or a lazy value ended.
    Ended,
    /// The value of a lazy cell was read.
    ReadCell(T),
}

impl<T: Copy> Clone for Act<T> {
    ghost is_clone = { λ x y. y ≡ x };

    ghost is_infallible = { λ _. ⊤ };

    fn clone(&self) -> Result<Self, AllocError> {
        Ok(*self)
    }
}

/// What a call answers.
#[derive(Copy, PartialEq, Eq)]
pub enum Answer<T> {
    /// The hold or the permit is taken.
    Success,
    /// It gave up. Nothing is held by this call, and nothing taken; but a `Wait` at a `Condvar` may have taken a permit.
    Interrupted,
    /// A `Wait` at a `Condvar` gave up its wait for a permit, and holds the mutex again.
    InterruptedHeld,
    /// A call without a value has ended.
    Done,
    /// The call's round of a barrier is full.
    Ok,
    /// A barrier takes no more arrivals.
    Full,
    /// A semaphore's value.
    Number(u64),
    /// Whether a once has run.
    Flag(bool),
    /// The value of a lazy cell or an `Atomic`.
    Value(T),
    /// The old value; the new one was written.
    OkOld(T),
    /// The old value; nothing was written.
    ErrOld(T),
}

impl<T: Copy> Clone for Answer<T> {
    ghost is_clone = { λ x y. y ≡ x };

    ghost is_infallible = { λ _. ⊤ };

    fn clone(&self) -> Result<Self, AllocError> {
        Ok(*self)
    }
}

/// How a call stands after an event.
#[derive(Copy, PartialEq, Eq)]
pub enum Then<T> {
    /// It goes on by itself.
    GoesOn,
    /// It stands at its wait closure, which was told this value.
    Waits(u64),
    /// It stands at its choice closure, which was told this value.
    Chooses(T),
    /// It has ended with this answer.
    Answers(Answer<T>),
}

impl<T: Copy> Clone for Then<T> {
    ghost is_clone = { λ x y. y ≡ x };

    ghost is_infallible = { λ _. ⊤ };

    fn clone(&self) -> Result<Self, AllocError> {
        Ok(*self)
    }
}

/// One event: one atomic step, one call of a wake closure, one answer of a wait or choice closure, the end of a
/// once's closure, one read of a lazy value, or the beginning of a call.
#[derive(Copy)]
pub struct Event<T> {
    /// The party, counted from 0.
    pub party: usize,
    /// What it did.
    pub act: Act<T>,
    /// How its call stands afterwards.
    pub then: Then<T>,
}

impl<T: Copy> Clone for Event<T> {
    ghost is_clone = { λ x y. y ≡ x };

    ghost is_infallible = { λ _. ⊤ };

    fn clone(&self) -> Result<Self, AllocError> {
        Ok(*self)
    }
}

/// What a schedule asks of a party.
#[derive(Copy)]
pub enum Input<T> {
    /// It begins this call.
    Begin(Call<T>),
    /// It makes its next step.
    Go,
    /// Its wait closure answers.
    Answer(WaitAction),
    /// Its choice closure answers.
    Choose(Option<T>),
}

impl<T: Copy> Clone for Input<T> {
    ghost is_clone = { λ x y. y ≡ x };

    ghost is_infallible = { λ _. ⊤ };

    fn clone(&self) -> Result<Self, AllocError> {
        Ok(*self)
    }
}

/// A primitive, with what it is opened with.
#[derive(Copy)]
pub enum Object<T> {
    /// A lock for one; free at first.
    Mutex,
    /// A lock for one that only spins.
    Spin,
    /// With its initial value.
    Semaphore(u64),
    /// With how many arrivals open a round.
    Barrier(u32),
    /// A reader-writer lock that prefers readers.
    ReaderLock,
    /// A reader-writer lock that prefers writers.
    WriterLock,
    /// A condition variable and its mutex.
    Condvar,
    /// A closure that runs once.
    Once,
    /// With the value that its closure gives.
    Lazy(T),
    /// With its initial value.
    Atomic(T),
}

impl<T: Copy> Clone for Object<T> {
    ghost is_clone = { λ x y. y ≡ x };

    ghost is_infallible = { λ _. ⊤ };

    fn clone(&self) -> Result<Self, AllocError> {
        Ok(*self)
    }
}

/// Why a machine refused an input; it is unchanged then. The first that applies, in this order.
#[derive(Clone, Copy, Debug, PartialEq, Eq)]
pub enum StepFault {
    /// The party's number is not below the number of parties.
    NoParty,
    /// `Begin` while the party has a call under way.
    Busy,
    /// `Begin` of a call that the object does not have.
    OtherObject,
    /// `Begin` of a locking call by a party with a hold.
    Holding,
    /// `Begin` of `Unlock`, or of `Wait` at a `Condvar`, by a party without a hold.
    NoHold,
    /// `Go` without a call under way.
    Idle,
    /// `Go` while the party stands at a wait or choice closure.
    WaitingForAnswer,
    /// `Answer` or `Choose` to a party that does not stand at a closure of that kind.
    NotWaiting,
}
