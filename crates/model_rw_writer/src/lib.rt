//! The writer-preferring lock: its word is twice the number of read holds plus a mark of 0 or 1, or 2^64 - 1 with a write hold. A waiting
//! writer sets the mark, and while it is set no reader enters.
#![tactic(auto)]

ghost use Rattle.std.specs.Prelude.{◌≡◌, ◌≢◌, ◌+◌, ◌-◌, ◌%◌, ◌^◌, ◌<◌, ◌≤◌, Option, ℕ, List};
ghost use Rattle.model_events.specs.declared.event.Event.{Event as AnEvent};
ghost use Rattle.model_events.specs.Arithmetic.{Arithmetic};
ghost use Rattle.model_events.specs.Runs.{IsPast};
ghost use Rattle.model_rw_writer.specs.Law.{KeepsRwWriter};
ghost use Rattle.model_rw_writer.specs.Table.{rw_writer_begins, rw_writer_intent, rw_writer_after, rw_writer_answered, release, try_read_look, read_look, spins, marks_or_spins, unmarks_or_leaves, write_refused, write_look, last_look, released, woken_one, woken_all, is_blocked, is_last_reader, rw_writer_grant, rw_writer_woken, rw_writer_table};

use model_events::event::{Answer, Call, Wake, Word};
use model_events::hold::HoldKind;
use model_events::patience::Patience;
use model_events::row::{After, Intent};
use model_events::{SPIN_REPETITIONS, WaitAction};

/// The word with a write hold.
const WRITE_LOCKED: u64 = u64::MAX;

/// The word after a reader entered, where one may: neither a write hold stands nor the mark is set, and there are less than 2^63 - 2 read
/// holds.
#[inline(always)]
pub fn reader_enters(word: u64) -> Option<u64>
    ensures open { word % 2 ≡ 0 → word < 2 ^ 64 - 4 → result ≡ Some (word + 2) }
    ensures marked { word % 2 ≡ 1 → result ≡ None }
    ensures full { 2 ^ 64 - 4 ≤ word → result ≡ None }
{
    if word % 2 == 0 && word < WRITE_LOCKED - 3 {
        Some(word + 2)
    } else {
        None
    }
}

/// The word after a reader left, where there is one; a mark stays.
#[inline(always)]
pub fn reader_leaves(word: u64) -> Option<u64>
    ensures unread { word < 2 → result ≡ None }
    ensures written { word ≡ 2 ^ 64 - 1 → result ≡ None }
    ensures read { 2 ≤ word → word ≢ 2 ^ 64 - 1 → result ≡ Some (word - 2) }
{
    if word == WRITE_LOCKED {
        None
    } else {
        word.checked_sub(2)
    }
}

/// The word after the writer entered, where nobody holds the lock; a mark goes with it.
#[inline(always)]
pub fn writer_enters(word: u64) -> Option<u64>
    ensures free { word < 2 → result ≡ Some (2 ^ 64 - 1) }
    ensures held { 2 ≤ word → result ≡ None }
{
    (word <= 1).then_some(WRITE_LOCKED)
}

/// The word after the mark was set, where neither it is set nor a write hold stands; 2^64 - 2 is left alone, since one more says that a
/// write hold stands.
#[inline(always)]
pub fn marks(word: u64) -> Option<u64>
    ensures open { word % 2 ≡ 0 → word ≢ 2 ^ 64 - 2 → result ≡ Some (word + 1) }
    ensures marked { word % 2 ≡ 1 → result ≡ None }
    ensures full { word ≡ 2 ^ 64 - 2 → result ≡ None }
{
    if word % 2 == 0 && word != WRITE_LOCKED - 1 {
        Some(word + 1)
    } else {
        None
    }
}

/// The word after the mark was taken away, where it is set.
#[inline(always)]
pub fn unmarks(word: u64) -> Option<u64>
    ensures marked { word % 2 ≡ 1 → word ≢ 2 ^ 64 - 1 → result ≡ Some (word - 1) }
    ensures unmarked { word % 2 ≡ 0 → result ≡ None }
    ensures written { word ≡ 2 ^ 64 - 1 → result ≡ None }
{
    if word % 2 == 1 && word != WRITE_LOCKED {
        Some(word - 1)
    } else {
        None
    }
}

/// Whether a write hold stands, or the mark is set beside a read hold.
#[inline(always)]
pub fn is_blocked(word: u64) -> bool
    ensures { result ≡ is_blocked word }
{
    word % 2 == 1 && word > 1
}

/// Whether one read hold stands, under the mark: who releases it counts, and wakes a writer.
#[inline(always)]
pub fn is_last_reader(word: u64) -> bool
    ensures { result ≡ is_last_reader word }
{
    word == 3
}

/// Who leaves the lock and wakes those that wait.
#[derive(Clone, Copy, PartialEq, Eq)]
pub enum Leaver {
    /// The last reader, while the mark is set.
    Reader,
    /// The writer that had the lock.
    Writer,
    /// A writer that gives up, and has taken the mark away.
    GivenUp,
}

/// Where a party is in a call at a writer-preferring lock; each place is named for its next step.
#[derive(Clone, Copy, PartialEq, Eq)]
pub enum RwWriterPlace {
    /// The load of `TryReadLock`.
    TryReadLook,
    /// The exchange of `TryReadLock` from the value seen to two more.
    TryRead {
        seen: u64,
        to: u64,
    },
    /// A load of `ReadLock`.
    ReadLook(Patience),
    /// An exchange of `ReadLock` from the value seen to two more.
    Read {
        seen: u64,
        to: u64,
        patience: Patience,
    },
    /// The one exchange of `TryWriteLock`.
    TryWrite,
    /// A load of `WriteLock`.
    WriteLook(Patience),
    /// The exchange of `WriteLock` that enters, from 0 or 1.
    Enter {
        seen: u64,
        patience: Patience,
    },
    /// The exchange of `WriteLock` that sets the mark.
    Mark {
        seen: u64,
        to: u64,
        patience: Patience,
    },
    /// The exchange of a `WriteLock` that gives up, which takes the mark away.
    Unmark {
        seen: u64,
        to: u64,
    },
    /// The load of the wake counter, after all spins.
    LoadCounter(Patience),
    /// The look after it, the last one before the call stands.
    LastLook {
        count: u64,
        patience: Patience,
    },
    /// The release of `Unlock`, by the kind of the party's hold.
    Release,
    /// The add to the wake counter.
    Count(Leaver),
    /// The wake of one.
    WakeOne(Leaver),
    /// The wake of all.
    WakeAll(Leaver),
}

impl RwWriterPlace {
    /// Where a call begins, if the lock has it.
    #[inline(always)]
    pub fn begin<T>(call: &Call<T>) -> Option<RwWriterPlace>
        ensures { result ≡ rw_writer_begins call.now }
    {
        match call {
            Call::TryReadLock => Some(RwWriterPlace::TryReadLook),
            Call::ReadLock => Some(RwWriterPlace::ReadLook(Patience::FRESH)),
            Call::TryWriteLock => Some(RwWriterPlace::TryWrite),
            Call::WriteLock => Some(RwWriterPlace::WriteLook(Patience::FRESH)),
            Call::Unlock => Some(RwWriterPlace::Release),
            _ => None,
        }
    }

    /// What the step is to do, at a lock with this word and this wake counter, by its party's hold.
    #[inline(always)]
    pub fn intent<T>(&self, word: Word, counter: Word, hold: Option<HoldKind>) -> Intent<T>
        ensures { result ≡ rw_writer_intent word counter self.now hold }
    {
        match self {
            RwWriterPlace::TryReadLook
            | RwWriterPlace::ReadLook(_)
            | RwWriterPlace::WriteLook(_)
            | RwWriterPlace::LastLook { .. } => Intent::Load(word),
            RwWriterPlace::LoadCounter(_) => Intent::Load(counter),
            RwWriterPlace::TryRead { seen, to }
            | RwWriterPlace::Read { seen, to, .. }
            | RwWriterPlace::Mark { seen, to, .. }
            | RwWriterPlace::Unmark { seen, to } => Intent::Exchange {
                word,
                from: *seen,
                to: *to,
            },
            RwWriterPlace::TryWrite => Intent::Exchange {
                word,
                from: 0,
                to: WRITE_LOCKED,
            },
            RwWriterPlace::Enter { seen, .. } => Intent::Exchange {
                word,
                from: *seen,
                to: WRITE_LOCKED,
            },
            RwWriterPlace::Release => release(word, hold),
            RwWriterPlace::Count(_) => Intent::Add {
                word: counter,
                more: 1,
            },
            RwWriterPlace::WakeOne(_) => Intent::Wake(Wake::One),
            RwWriterPlace::WakeAll(_) => Intent::Wake(Wake::All),
        }
    }

    /// How the call goes on, by what the step told.
    #[inline(always)]
    pub fn after<T>(&self, told: Option<u64>) -> After<T, RwWriterPlace>
        ensures { result ≡ rw_writer_after self.now told }
    {
        let found = told.unwrap_or(0);
        match self {
            RwWriterPlace::TryReadLook => try_read_look(found),
            RwWriterPlace::TryRead { seen, .. } => {
                if found == *seen {
                    After::Ends(Answer::Success)
                } else {
                    After::Ends(Answer::Interrupted)
                }
            }
            RwWriterPlace::ReadLook(patience) => read_look(patience, found),
            RwWriterPlace::Read { seen, patience, .. } => {
                if found == *seen {
                    After::Ends(Answer::Success)
                } else {
                    read_look(patience, found)
                }
            }
            RwWriterPlace::TryWrite => {
                if found == 0 {
                    After::Ends(Answer::Success)
                } else {
                    After::Ends(Answer::Interrupted)
                }
            }
            RwWriterPlace::WriteLook(patience) => write_look(patience, found),
            RwWriterPlace::Enter { seen, patience } => {
                if found == *seen {
                    After::Ends(Answer::Success)
                } else {
                    write_refused(patience, found)
                }
            }
            RwWriterPlace::Mark { seen, patience, .. } => {
                if found == *seen {
                    spins(patience)
                } else {
                    write_look(patience, found)
                }
            }
            RwWriterPlace::Unmark { seen, .. } => {
                if found == *seen {
                    After::At(RwWriterPlace::Count(Leaver::GivenUp))
                } else {
                    unmarks_or_leaves(found)
                }
            }
            RwWriterPlace::LoadCounter(patience) => After::At(RwWriterPlace::LastLook {
                count: found,
                patience: *patience,
            }),
            RwWriterPlace::LastLook { count, patience } => last_look(*count, patience, found),
            RwWriterPlace::Release => released(told),
            RwWriterPlace::Count(leaver) => After::At(RwWriterPlace::WakeOne(*leaver)),
            RwWriterPlace::WakeOne(leaver) => woken_one(*leaver),
            RwWriterPlace::WakeAll(leaver) => woken_all(*leaver),
        }
    }

    /// Where the call goes on once its wait closure has answered.
    #[inline(always)]
    pub fn answered(&self, action: WaitAction) -> RwWriterPlace
        ensures { result ≡ rw_writer_answered self.now action }
    {
        match self {
            RwWriterPlace::ReadLook(patience) => RwWriterPlace::ReadLook(patience.answered(action)),
            RwWriterPlace::WriteLook(patience) => {
                RwWriterPlace::WriteLook(patience.answered(action))
            }
            RwWriterPlace::TryReadLook
            | RwWriterPlace::TryRead { .. }
            | RwWriterPlace::Read { .. }
            | RwWriterPlace::TryWrite
            | RwWriterPlace::Enter { .. }
            | RwWriterPlace::Mark { .. }
            | RwWriterPlace::Unmark { .. }
            | RwWriterPlace::LoadCounter(_)
            | RwWriterPlace::LastLook { .. }
            | RwWriterPlace::Release
            | RwWriterPlace::Count(_)
            | RwWriterPlace::WakeOne(_)
            | RwWriterPlace::WakeAll(_) => *self,
        }
    }
}

/// What the release of a hold does to the word: one reader less, or 0 where the writer leaves.
#[inline(always)]
fn release<T>(word: Word, hold: Option<HoldKind>) -> Intent<T>
    ensures { result ≡ release word hold }
{
    match hold {
        Some(HoldKind::Read) => Intent::Subtract { word, less: 2 },
        // Without a hold no `Unlock` begins.
        Some(HoldKind::Write) | None => Intent::Store { word, put: 0 },
    }
}

/// After its look `TryReadLock` goes on to enter where a reader may, and else gives up.
#[inline(always)]
fn try_read_look<T>(seen: u64) -> After<T, RwWriterPlace>
    ensures { result ≡ try_read_look seen }
{
    match reader_enters(seen) {
        Some(to) => After::At(RwWriterPlace::TryRead { seen, to }),
        None => After::Ends(Answer::Interrupted),
    }
}

/// After a look `ReadLock` goes on to enter where a reader may, and is else refused.
#[inline(always)]
fn read_look<T>(patience: &Patience, seen: u64) -> After<T, RwWriterPlace>
    ensures { result ≡ read_look patience.now seen }
{
    match reader_enters(seen) {
        Some(to) => After::At(RwWriterPlace::Read {
            seen,
            to,
            patience: *patience,
        }),
        None => patience.refused(seen).within(RwWriterPlace::ReadLook),
    }
}

/// A writer spins; after all its spins it loads the counter.
#[inline(always)]
fn spins<T>(patience: &Patience) -> After<T, RwWriterPlace>
    ensures { result ≡ spins patience.now }
{
    if patience.spins < SPIN_REPETITIONS {
        After::At(RwWriterPlace::WriteLook(Patience {
            spins: patience.spins + 1,
            keep: patience.keep,
        }))
    } else {
        After::At(RwWriterPlace::LoadCounter(*patience))
    }
}

/// A writer that keeps on asking sets the mark, so that no reader enters any more; where it may not, it spins.
#[inline(always)]
fn marks_or_spins<T>(patience: &Patience, seen: u64) -> After<T, RwWriterPlace>
    ensures { result ≡ marks_or_spins patience.now seen }
{
    match marks(seen) {
        Some(to) => After::At(RwWriterPlace::Mark {
            seen,
            to,
            patience: *patience,
        }),
        None => spins(patience),
    }
}

/// A writer that gives up takes the mark away, whoever has set it, or leaves where there is none.
#[inline(always)]
fn unmarks_or_leaves<T>(seen: u64) -> After<T, RwWriterPlace>
    ensures { result ≡ unmarks_or_leaves seen }
{
    match unmarks(seen) {
        Some(to) => After::At(RwWriterPlace::Unmark { seen, to }),
        None => After::Ends(Answer::Interrupted),
    }
}

/// Where a writer may not enter, or has missed.
#[inline(always)]
fn write_refused<T>(patience: &Patience, seen: u64) -> After<T, RwWriterPlace>
    ensures { result ≡ write_refused patience.now seen }
{
    if patience.keep {
        marks_or_spins(patience, seen)
    } else {
        unmarks_or_leaves(seen)
    }
}

/// After a look a writer enters from 0 or 1.
#[inline(always)]
fn write_look<T>(patience: &Patience, seen: u64) -> After<T, RwWriterPlace>
    ensures { result ≡ write_look patience.now seen }
{
    match writer_enters(seen) {
        Some(_) => After::At(RwWriterPlace::Enter {
            seen,
            patience: *patience,
        }),
        None => write_refused(patience, seen),
    }
}

/// After its last look a writer stands where the lock is blocked, and its closure is told the counter. Else that is a look like others.
#[inline(always)]
fn last_look<T>(count: u64, patience: &Patience, seen: u64) -> After<T, RwWriterPlace>
    ensures { result ≡ last_look count patience.now seen }
{
    if is_blocked(seen) {
        After::Waits(RwWriterPlace::WriteLook(*patience), count)
    } else {
        write_look(patience, seen)
    }
}

/// After a release the last reader under a mark goes on to wake one, the writer to wake all; another reader has ended.
#[inline(always)]
fn released<T>(old: Option<u64>) -> After<T, RwWriterPlace>
    ensures { result ≡ released old }
{
    match old {
        None => After::At(RwWriterPlace::Count(Leaver::Writer)),
        Some(old) => {
            if is_last_reader(old) {
                After::At(RwWriterPlace::Count(Leaver::Reader))
            } else {
                After::Ends(Answer::Done)
            }
        }
    }
}

#[inline(always)]
fn woken_one<T>(leaver: Leaver) -> After<T, RwWriterPlace>
    ensures { result ≡ woken_one leaver }
{
    match leaver {
        Leaver::Reader => After::Ends(Answer::Done),
        Leaver::Writer | Leaver::GivenUp => After::At(RwWriterPlace::WakeAll(leaver)),
    }
}

#[inline(always)]
fn woken_all<T>(leaver: Leaver) -> After<T, RwWriterPlace>
    ensures { result ≡ woken_all leaver }
{
    match leaver {
        Leaver::Reader | Leaver::Writer => After::Ends(Answer::Done),
        Leaver::GivenUp => After::Ends(Answer::Interrupted),
    }
}

/// The hold that a locking call takes by an exchange of the word: of a reading call one for reading; of a writing call the one for
/// writing, where the exchange neither sets the mark nor takes it away.
#[inline(always)]
pub fn grant<T>(call: &Call<T>, from: u64, to: u64) -> Option<HoldKind>
    ensures { result ≡ rw_writer_grant call.now from to }
{
    match call {
        Call::ReadLock | Call::TryReadLock => Some(HoldKind::Read),
        Call::TryWriteLock => Some(HoldKind::Write),
        Call::WriteLock => {
            let marks = from.checked_add(1) == Some(to);
            let unmarks = to.checked_add(1) == Some(from);
            if marks || unmarks {
                None
            } else {
                Some(HoldKind::Write)
            }
        }
        _ => None,
    }
}

/// The word that a wake is of: the wake of one is of the wake counter, on which writers sleep, and the wake of all of the lock's word, on
/// which readers do.
#[inline(always)]
pub fn woken_word(wake: Wake) -> Word
    ensures { result ≡ rw_writer_woken wake }
{
    match wake {
        Wake::One => Word::Counter,
        Wake::All => Word::State,
    }
}

/// What holds at every prefix of every run of a writer-preferring lock, of any number of parties. It says so of the
/// definitions alone, and does nothing.
pub fn at_every_prefix<T>()
    ensures { (z : Arithmetic T) (parties : ℕ) (past : List (AnEvent T)) →
        IsPast z rw_writer_table parties past → KeepsRwWriter past }
{}
