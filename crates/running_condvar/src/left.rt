//! That a wait has let its caller's lock go, once it was counted in.
ghost use Rattle.running_model.specs.Asked.{WokeOnce};
ghost use Rattle.running_mutex.specs.MutexShown.{IsMutexPass, IsItsWord, holds_of, HasUnlocked, HasPlayedUnlock};
ghost use Rattle.running_mutex.specs.MutexParties.{HasMutex};
ghost use Rattle.running_condvar.specs.CondShown.{LeavesCounted};
ghost use Rattle.running_model.specs.Passes.{parties_of};
ghost use Rattle.std.specs.Prelude.{◌≡◌};

use crate::CountedWait;
use running_model::OfWord;
use running_mutex::{Mutex, MutexPass, MutexWord};
use std::alloc::Allocator;

/// What came of it, without which nobody sleeps. Nothing else makes one.
#[derive(Drop)]
pub(crate) struct Left<Y> {
    given: Y,
}

impl<Y> Left<Y> {
    /// What `leave` gave.
    #[inline(always)]
    pub(crate) fn into_given(self) -> Y
        ensures { result ≡ self.given }
    {
        let Left { given } = self;
        given
    }
}

impl CountedWait<'_> {
    /// Calls `leave`, by which the caller lets a lock of its own go.
    #[inline(always)]
    pub(crate) fn leave<Y, F: FnOnce(&CountedWait<'_>) -> Y>(&self, leave: F) -> Left<Y>
        requires may { F.IsAlwaysCallable leave }
        ensures left { LeavesCounted F.FnOnce leave result.given }
    {
        let given = leave(self);
        Left { given }
    }

    /// Unlocks the mutex. What came of it is the wake closure.
    #[inline(always)]
    pub(crate) fn unlock<'t, A: Allocator, S, X: OfWord<MutexWord<'t>>, W: FnMut(&X)>(
        &self,
        mtx: &'t Mutex<A, S>,
        pass: &mut MutexPass,
        wake_one: W,
    ) -> Left<W>
        requires own { IsMutexPass mtx.now pass.old }
        requires on { holds_of pass.old ≡ 1 }
        requires has { HasMutex (parties_of pass.old) }
        requires may { W.IsAlwaysCallable wake_one }
        ensures unlocked { HasUnlocked pass.old pass.new }
        ensures played { HasPlayedUnlock pass.old pass.new }
        ensures woke { WokeOnce W.FnMut (λ word. IsItsWord mtx.now (X.Shown.object word) (X.Shown.index word)) wake_one result.given }
    {
        let given = mtx.leave(pass, wake_one);
        Left { given }
    }
}
