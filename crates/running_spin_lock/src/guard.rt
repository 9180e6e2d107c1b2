//! What a holder has.
ghost use Rattle.std.specs.Prelude.{◌≡◌, ◌<◌, true};
ghost use Rattle.running_spin_lock.specs.ValueSteps.{has_vacant_slot};
ghost use Rattle.running_spin_lock.specs.SpinParties.{HasLock};

use crate::pass::SpinPass;
use crate::script::PlayedSpin;
use crate::spin_lock::SpinLock;
use atomic_table::Seat;
use running_passes::View;
use std::alloc::{Allocator, Global};
use std::ops::{Deref, DerefMut};

/// The lock is held by the pass that is lent to the guard, and the guard lends the value. Its end puts the value back, stores 0, and
/// gives the pass back. The value lies in the guard, so it is copied out and back: box a large one.
pub struct SpinLockGuard<'p, T, A: Allocator = Global> {
    pub(crate) lock: &'p SpinLock<T, A>,
    pub(crate) pass: &'p mut SpinPass,
    pub(crate) seat: Seat<Option<T>, View<PlayedSpin>>,
    pub(crate) value: T,
    ghost own: { seat.table_id ≡ lock.now.table.shared.table_id },
    ghost on: { seat.me.0.tally.counts.holds ≡ 1 },
    ghost has: { HasLock seat.me.0.tally.parties },
    ghost alive: { 0 < seat.me.0.part.share },
    ghost out: { has_vacant_slot seat.me.1 ≡ true },
}

impl<T, A: Allocator> Deref for SpinLockGuard<'_, T, A> {
    ghost use Rattle.running_spin_lock.specs.SpinShown.{value_of};

    type Target = T;

    #[inline(always)]
    fn deref(&self) -> &T
        ensures { result.now ≡ value_of self.now }
    {
        &self.value
    }
}

impl<T, A: Allocator> DerefMut for SpinLockGuard<'_, T, A> {
    ghost use Rattle.std.specs.Prelude.{[]};
    ghost use mir.Syntax.{named};
    ghost use Rattle.std.specs.Borrow.{sem, Lends};
    ghost use Rattle.running_spin_lock.specs.contracts.guard.SpinLockGuard.{the_row};
    ghost use Rattle.running_spin_lock.specs.SpinShown.{value_of, guard_with};

    #[inline(always)]
    fn deref_mut(&mut self) -> &mut T
        ensures* writes_back { sem 𝓛 (Lends (the_row (record { mir = named 1; lft = [] }) T.row A.row A.Allocator) T.row self.entry result (guard_with self.old)) }
        ensures value { result.now ≡ value_of self.old }
    {
        &mut self.value
    }
}

/// Puts the value back, and then stores 0. No closure is called.
impl<T, A: Allocator> Drop for SpinLockGuard<'_, T, A> {
    ghost use Rattle.running_spin_lock.specs.SpinShown.{view, view_with, HasUnlocked};
    ghost use Rattle.running_spin_lock.specs.SpinSteps.{HasPlayedUnlock};

    #[inline(always)]
    fn drop(self)
        ensures released { HasUnlocked self.entry self.exit.1.0.now }
        ensures played { HasPlayedUnlock (view_with self.entry) (view self.exit.1.0.now) }
    {
        let SpinLockGuard {
            lock,
            pass,
            seat,
            value,
        } = self;
        *pass = SpinPass::seated(lock.leave(seat, value));
    }
}
