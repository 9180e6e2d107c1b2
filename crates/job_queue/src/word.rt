//! The word that wait and wake closures see: that of the state's lock, or that of the permits.

use running_guarded::GuardedWord;
use running_passes::Watched;
use running_semaphore::SemaphoreWord;
use std::sync::Wait;
use std::time::Duration;

/// A word of a queue that keeps its jobs in an `S`, as wait and wake closures see it. It can be loaded and slept on, and no more.
#[derive(Drop)]
pub struct QueueWord<'t, S> {
    pub(crate) word: PartWord<'t, S>,
}

/// A word of either part.
#[derive(Drop)]
pub(crate) enum PartWord<'t, S> {
    State(&'t GuardedWord<'t, S>),
    Permits(&'t SemaphoreWord<'t>),
}

/// Does this with the word, of whichever part it is.
macro_rules! with {
    ($any:expr, $word:ident => $done:expr) => {
        match $any {
            PartWord::State($word) => $done,
            PartWord::Permits($word) => $done,
        }
    };
}

impl<S> QueueWord<'_, S> {
    /// The word as it is now. Another party may write it right after, so the answer promises nothing.
    #[inline(always)]
    pub fn load(&self) -> u64 {
        with!(&self.word, word => word.load())
    }
}

impl<S> Watched for QueueWord<'_, S> {
    #[inline(always)]
    fn load(&self) -> u64 {
        QueueWord::load(self)
    }

    fn park<R: Wait>(&self, rt: &R, seen: u64) {
        with!(&self.word, word => word.park(rt, seen))
    }

    fn park_timeout<R: Wait>(&self, rt: &R, seen: u64, most: Duration) {
        with!(&self.word, word => word.park_timeout(rt, seen, most))
    }

    fn wake_one(&self) {
        with!(&self.word, word => word.wake_one())
    }

    fn wake_all(&self) {
        with!(&self.word, word => word.wake_all())
    }
}
