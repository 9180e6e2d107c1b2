//! The reader-preferring lock: its word is the number of read holds, or 2^64 - 1 with a write hold.
#![tactic(auto)]

ghost use Rattle.std.specs.Prelude.{◌≡◌, ◌≢◌, ◌+◌, ◌-◌, ◌^◌, ◌<◌, ◌≤◌, Option, ℕ, List};
ghost use Rattle.model_events.specs.declared.event.Event.{Event as AnEvent};
ghost use Rattle.model_events.specs.Arithmetic.{Arithmetic};
ghost use Rattle.model_events.specs.Runs.{IsPast};
ghost use Rattle.model_rw_reader.specs.Table.{rw_reader_begins, rw_reader_intent, rw_reader_after, rw_reader_answered, try_read_look, read_look, release, rw_reader_grant, rw_reader_table};
ghost use Rattle.model_rw_reader.specs.Law.{KeepsRwReader};

use model_events::WaitAction;
use model_events::event::{Answer, Call, Wake, Word};
use model_events::hold::HoldKind;
use model_events::patience::Patience;
use model_events::row::{After, Intent};

/// The word with a write hold.
const WRITE_LOCKED: u64 = u64::MAX;

/// The word after a reader entered, where one may: no write hold stands, and there are less than 2^64 - 2 read holds.
#[inline(always)]
pub fn reader_enters(word: u64) -> Option<u64>
    ensures open { word < 2 ^ 64 - 2 → result ≡ Some (word + 1) }
    ensures shut { 2 ^ 64 - 2 ≤ word → result ≡ None }
{
    if word < WRITE_LOCKED - 1 {
        Some(word + 1)
    } else {
        None
    }
}

/// The word after a reader left, where there is one.
#[inline(always)]
pub fn reader_leaves(word: u64) -> Option<u64>
    ensures unread { word ≡ 0 → result ≡ None }
    ensures written { word ≡ 2 ^ 64 - 1 → result ≡ None }
    ensures read { word ≢ 0 → word ≢ 2 ^ 64 - 1 → result ≡ Some (word - 1) }
{
    if word == WRITE_LOCKED {
        None
    } else {
        word.checked_sub(1)
    }
}

/// The word after a writer entered, where nobody holds the lock.
#[inline(always)]
pub fn writer_enters(word: u64) -> Option<u64>
    ensures free { word ≡ 0 → result ≡ Some (2 ^ 64 - 1) }
    ensures held { word ≢ 0 → result ≡ None }
{
    (word == 0).then_some(WRITE_LOCKED)
}

/// Where a party is in a call at a reader-preferring lock; each place is named for its next step.
#[derive(Clone, Copy, PartialEq, Eq)]
pub enum RwReaderPlace {
    /// The load of `TryReadLock`.
    TryReadLook,
    /// The exchange of `TryReadLock` from the value seen to one more.
    TryRead {
        seen: u64,
        to: u64,
    },
    /// A load of `ReadLock`.
    ReadLook(Patience),
    /// An exchange of `ReadLock` from the value seen to one more.
    Read {
        seen: u64,
        to: u64,
        patience: Patience,
    },
    /// The one exchange of `TryWriteLock`.
    TryWrite,
    /// An exchange of `WriteLock`.
    Write(Patience),
    /// The release of `Unlock`, by the kind of the party's hold.
    Release,
    /// The wake of `Unlock`.
    Wake,
}

impl RwReaderPlace {
    /// Where a call begins, if the lock has it.
    #[inline(always)]
    pub fn begin<T>(call: &Call<T>) -> Option<RwReaderPlace>
        ensures { result ≡ rw_reader_begins call.now }
    {
        match call {
            Call::TryReadLock => Some(RwReaderPlace::TryReadLook),
            Call::ReadLock => Some(RwReaderPlace::ReadLook(Patience::FRESH)),
            Call::TryWriteLock => Some(RwReaderPlace::TryWrite),
            Call::WriteLock => Some(RwReaderPlace::Write(Patience::FRESH)),
            Call::Unlock => Some(RwReaderPlace::Release),
            _ => None,
        }
    }

    /// What the step is to do, at a lock with this word, by its party's hold.
    #[inline(always)]
    pub fn intent<T>(&self, word: Word, hold: Option<HoldKind>) -> Intent<T>
        ensures { result ≡ rw_reader_intent word self.now hold }
    {
        match self {
            RwReaderPlace::TryReadLook | RwReaderPlace::ReadLook(_) => Intent::Load(word),
            RwReaderPlace::TryRead { seen, to } | RwReaderPlace::Read { seen, to, .. } => {
                Intent::Exchange {
                    word,
                    from: *seen,
                    to: *to,
                }
            }
            RwReaderPlace::TryWrite | RwReaderPlace::Write(_) => Intent::Exchange {
                word,
                from: 0,
                to: WRITE_LOCKED,
            },
            RwReaderPlace::Release => release(word, hold),
            RwReaderPlace::Wake => Intent::Wake(Wake::One),
        }
    }

    /// How the call goes on, by what the step told.
    #[inline(always)]
    pub fn after<T>(&self, told: Option<u64>) -> After<T, RwReaderPlace>
        ensures { result ≡ rw_reader_after self.now told }
    {
        let found = told.unwrap_or(0);
        match self {
            RwReaderPlace::TryReadLook => try_read_look(found),
            RwReaderPlace::TryRead { seen, .. } => {
                if found == *seen {
                    After::Ends(Answer::Success)
                } else {
                    After::Ends(Answer::Interrupted)
                }
            }
            RwReaderPlace::ReadLook(patience) => read_look(patience, found),
            RwReaderPlace::Read { seen, patience, .. } => {
                if found == *seen {
                    After::Ends(Answer::Success)
                } else {
                    read_look(patience, found)
                }
            }
            RwReaderPlace::TryWrite => {
                if found == 0 {
                    After::Ends(Answer::Success)
                } else {
                    After::Ends(Answer::Interrupted)
                }
            }
            RwReaderPlace::Write(patience) => {
                if found == 0 {
                    After::Ends(Answer::Success)
                } else {
                    patience.refused(found).within(RwReaderPlace::Write)
                }
            }
            RwReaderPlace::Release => After::At(RwReaderPlace::Wake),
            RwReaderPlace::Wake => After::Ends(Answer::Done),
        }
    }

    /// Where the call goes on once its wait closure has answered.
    #[inline(always)]
    pub fn answered(&self, action: WaitAction) -> RwReaderPlace
        ensures { result ≡ rw_reader_answered self.now action }
    {
        match self {
            RwReaderPlace::ReadLook(patience) => RwReaderPlace::ReadLook(patience.answered(action)),
            RwReaderPlace::Write(patience) => RwReaderPlace::Write(patience.answered(action)),
            RwReaderPlace::TryReadLook
            | RwReaderPlace::TryRead { .. }
            | RwReaderPlace::Read { .. }
            | RwReaderPlace::TryWrite
            | RwReaderPlace::Release
            | RwReaderPlace::Wake => *self,
        }
    }
}

/// What the release of a hold does to the word: one reader less, or 0 where the writer leaves.
#[inline(always)]
fn release<T>(word: Word, hold: Option<HoldKind>) -> Intent<T>
    ensures { result ≡ release word hold }
{
    match hold {
        Some(HoldKind::Read) => Intent::Subtract { word, less: 1 },
        // Without a hold no `Unlock` begins.
        Some(HoldKind::Write) | None => Intent::Store { word, put: 0 },
    }
}

/// After its look `TryReadLock` goes on to enter where a reader may, and else gives up.
#[inline(always)]
fn try_read_look<T>(seen: u64) -> After<T, RwReaderPlace>
    ensures { result ≡ try_read_look seen }
{
    match reader_enters(seen) {
        Some(to) => After::At(RwReaderPlace::TryRead { seen, to }),
        None => After::Ends(Answer::Interrupted),
    }
}

/// After a look `ReadLock` goes on to enter where a reader may, and is else refused.
#[inline(always)]
fn read_look<T>(patience: &Patience, seen: u64) -> After<T, RwReaderPlace>
    ensures { result ≡ read_look patience.now seen }
{
    match reader_enters(seen) {
        Some(to) => After::At(RwReaderPlace::Read {
            seen,
            to,
            patience: *patience,
        }),
        None => patience.refused(seen).within(RwReaderPlace::ReadLook),
    }
}

/// The hold that a locking call takes: of a reading call one for reading, of a writing call the one for writing.
#[inline(always)]
pub fn grant<T>(call: &Call<T>) -> Option<HoldKind>
    ensures { (from to : ℕ) → result ≡ rw_reader_grant call.now from to }
{
    match call {
        Call::ReadLock | Call::TryReadLock => Some(HoldKind::Read),
        Call::WriteLock | Call::TryWriteLock => Some(HoldKind::Write),
        _ => None,
    }
}

/// What holds at every prefix of every run of a reader-preferring lock, of any number of parties. It says so of the
/// definitions alone, and does nothing.
pub fn at_every_prefix<T>()
    ensures { (z : Arithmetic T) (parties : ℕ) (past : List (AnEvent T)) →
        IsPast z rw_reader_table parties past → KeepsRwReader past }
{}
