//! The word that wait and wake closures see, of whichever object, so that one closure serves them all.

use running_barrier::BarrierWord;
use running_model::{OfWord, Shown, Shows};
use running_mutex::MutexWord;
use running_passes::Watched;
use running_rw_reader::RwReaderWord;
use running_rw_writer::RwWriterWord;
use running_semaphore::SemaphoreWord;
use std::marker::Model;
use std::sync::Wait;
use std::time::Duration;

/// A word of an object, as wait and wake closures see it. It can be loaded and slept on, and no more.
#[derive(Drop)]
pub struct WaitWord<'t> {
    word: AnyWord<'t>,
}

/// A word of any object.
#[derive(Drop)]
enum AnyWord<'t> {
    Mutex(MutexWord<'t>),
    ReaderLock(RwReaderWord<'t>),
    WriterLock(RwWriterWord<'t>),
    Semaphore(SemaphoreWord<'t>),
    Barrier(BarrierWord<'t>),
}

/// Contracts see of which object it is, and which of its words.
impl<'t> Model for WaitWord<'t> {
    ghost use Rattle.std.specs.Prelude.{ℕ};
    ghost use Rattle.atomic_table.specs.Seated.{TableId};
    ghost use Rattle.running_model.specs.Shown.{which};
    ghost use Rattle.iceoryx2_pal_concurrency_sync.specs.declared.wait_word.AnyWord.TheVariants as any;

    ghost Value = { TableId × ℕ };

    ghost view = { λ w. elim w.word [
      | any.Mutex word ↦ which word
      | any.ReaderLock word ↦ which word
      | any.WriterLock word ↦ which word
      | any.Semaphore word ↦ which word
      | any.Barrier word ↦ which word
    ] };
}

/// Does this with the word, of whichever object it is.
macro_rules! with {
    ($any:expr, $word:ident => $done:expr) => {
        match $any {
            AnyWord::Mutex($word) => $done,
            AnyWord::ReaderLock($word) => $done,
            AnyWord::WriterLock($word) => $done,
            AnyWord::Semaphore($word) => $done,
            AnyWord::Barrier($word) => $done,
        }
    };
}

impl WaitWord<'_> {
    /// The word as it is now. Another party may write it right after, so the answer promises nothing.
    #[inline(always)]
    pub fn load(&self) -> u64 {
        with!(&self.word, word => word.load())
    }
}

impl Watched for WaitWord<'_> {
    #[inline(always)]
    fn load(&self) -> u64 {
        WaitWord::load(self)
    }

    fn park<R: Wait>(&self, rt: &R, seen: u64) {
        with!(&self.word, word => word.park(rt, seen))
    }

    fn park_timeout<R: Wait>(&self, rt: &R, seen: u64, most: Duration) {
        with!(&self.word, word => word.park_timeout(rt, seen, most))
    }

    fn wake_one(&self) {
        with!(&self.word, word => word.wake_one())
    }

    fn wake_all(&self) {
        with!(&self.word, word => word.wake_all())
    }
}

/// Which word of which object it is.
impl Shown for WaitWord<'_> {
    ghost object = { λ shown. shown.0 };

    ghost index = { λ shown. shown.1 };
}

impl<'t> OfWord<MutexWord<'t>> for WaitWord<'t> {
    #[inline(always)]
    fn of(word: MutexWord<'t>) -> WaitWord<'t> {
        WaitWord {
            word: AnyWord::Mutex(word),
        }
    }
}

impl<'t> OfWord<RwReaderWord<'t>> for WaitWord<'t> {
    #[inline(always)]
    fn of(word: RwReaderWord<'t>) -> WaitWord<'t> {
        WaitWord {
            word: AnyWord::ReaderLock(word),
        }
    }
}

/// Either word of a writer-preferring lock: its own, or its wake counter.
impl<'t> OfWord<RwWriterWord<'t>> for WaitWord<'t> {
    #[inline(always)]
    fn of(word: RwWriterWord<'t>) -> WaitWord<'t> {
        WaitWord {
            word: AnyWord::WriterLock(word),
        }
    }
}

impl<'t> OfWord<SemaphoreWord<'t>> for WaitWord<'t> {
    #[inline(always)]
    fn of(word: SemaphoreWord<'t>) -> WaitWord<'t> {
        WaitWord {
            word: AnyWord::Semaphore(word),
        }
    }
}

impl<'t> OfWord<BarrierWord<'t>> for WaitWord<'t> {
    #[inline(always)]
    fn of(word: BarrierWord<'t>) -> WaitWord<'t> {
        WaitWord {
            word: AnyWord::Barrier(word),
        }
    }
}

/// All locks show their words as one type.
pub struct OneWord;

impl<'t, T: Shown> Shows<'t, T> for OneWord
where
    WaitWord<'t>: OfWord<T>,
{
    type As = WaitWord<'t>;
}
