//! The word that wait and wake closures see.
ghost use Rattle.std.specs.Prelude.{◌≡◌};

use atomic_table::Shared;
use running_model::{Sealed, Shown};
use running_mutex::PlayedMutex;
use running_passes::{View, Watched, low_half};
use running_spin_lock::ValueRule;
use std::sync::Wait;
use std::time::Duration;

/// The word of a guarded value, as wait and wake closures see it. It can be loaded and slept on, and no more.
#[derive(Drop)]
pub struct GuardedWord<'t, T> {
    shared: &'t Shared<Option<T>, View<PlayedMutex>, (), ValueRule>,
    ghost one_word: { shared.now.table_id.words ≡ 1 },
}

/// Which word of which object it is.
impl<T> Shown for GuardedWord<'_, T> {
    ghost use Rattle.running_guarded.specs.GuardedWord.{object_shown};

    ghost object = { object_shown };

    ghost index = { λ _. 0 };
}

impl<'t, T> GuardedWord<'t, T> {
    ghost use Rattle.running_guarded.specs.GuardedWord.{object_shown};

    /// The word of this table, sealed. Nothing else makes one.
    #[inline(always)]
    pub(crate) fn sealed(
        shared: &'t Shared<Option<T>, View<PlayedMutex>, (), ValueRule>,
    ) -> Sealed<GuardedWord<'t, T>>
        requires one_word { shared.now.table_id.words ≡ 1 }
        ensures object { object_shown result.shown ≡ shared.now.table_id }
    {
        Sealed::of(GuardedWord { shared })
    }

    /// The word as it is now: 0 where it is free, and 1 where it is locked. Another party may write it right after, so the answer
    /// promises nothing.
    #[inline(always)]
    pub fn load(&self) -> u64 {
        self.shared.peek(0)
    }
}

impl<T> Watched for GuardedWord<'_, T> {
    #[inline(always)]
    fn load(&self) -> u64 {
        GuardedWord::load(self)
    }

    fn park<R: Wait>(&self, rt: &R, seen: u64) {
        self.shared.park(rt, 0, low_half(seen));
    }

    fn park_timeout<R: Wait>(&self, rt: &R, seen: u64, most: Duration) {
        self.shared.park_timeout(rt, 0, low_half(seen), most);
    }

    fn wake_one(&self) {
        self.shared.wake_one(0);
    }

    fn wake_all(&self) {
        self.shared.wake_all(0);
    }
}
