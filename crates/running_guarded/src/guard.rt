//! What a holder has.
ghost use Rattle.std.specs.Prelude.{◌≡◌, ◌<◌, true};
ghost use Rattle.running_spin_lock.specs.ValueSteps.{has_vacant_slot};
ghost use Rattle.running_mutex.specs.MutexParties.{HasMutex};

use crate::guarded::Guarded;
use crate::pass::GuardedPass;
use atomic_table::Seat;
use running_mutex::PlayedMutex;
use running_passes::View;
use std::alloc::{Allocator, Global};
use std::ops::{Deref, DerefMut};

/// The value is locked by the pass that is lent to the guard, and the guard lends it. It must be spent, by `Guarded::unlock`. The value
/// lies in the guard, so it is copied out and back: box a large one. It must not be `Drop`: who let one go would leave the value locked.
pub struct Guard<'p, T, A: Allocator = Global> {
    pub(crate) of: &'p Guarded<T, A>,
    pub(crate) pass: &'p mut GuardedPass,
    pub(crate) seat: Seat<Option<T>, View<PlayedMutex>>,
    pub(crate) value: T,
    ghost own: { seat.table_id ≡ of.now.table.shared.table_id },
    ghost on: { seat.me.0.tally.counts.holds ≡ 1 },
    ghost has: { HasMutex seat.me.0.tally.parties },
    ghost alive: { 0 < seat.me.0.part.share },
    ghost out: { has_vacant_slot seat.me.1 ≡ true },
}

impl<T, A: Allocator> Guard<'_, T, A> {
    ghost use Rattle.running_guarded.specs.GuardedShown.{id_in, number_in, view_with, value_of};

    /// Its seat and its value, for the guard of a handle, which gives them back to `Guarded::sit`.
    #[inline(always)]
    pub fn apart(self) -> (Seat<Option<T>, View<PlayedMutex>>, T)
        ensures seat { (result.0.table_id ≡ id_in self.entry) × (result.0.id ≡ number_in self.entry) }
        ensures view { result.0.me.0 ≡ view_with self.entry }
        ensures on { (result.0.me.0.tally.counts.holds ≡ 1) × HasMutex result.0.me.0.tally.parties }
        ensures there { 0 < result.0.me.0.part.share × (has_vacant_slot result.0.me.1 ≡ true) }
        ensures value { result.1 ≡ value_of self.entry }
    {
        let Guard {
            of: _,
            pass: _,
            seat,
            value,
        } = self;
        (seat, value)
    }
}

impl<T, A: Allocator> Deref for Guard<'_, T, A> {
    ghost use Rattle.running_guarded.specs.GuardedShown.{value_of};

    type Target = T;

    #[inline(always)]
    fn deref(&self) -> &T
        ensures { result.now ≡ value_of self.now }
    {
        &self.value
    }
}

impl<T, A: Allocator> DerefMut for Guard<'_, T, A> {
    ghost use Rattle.std.specs.Prelude.{[]};
    ghost use mir.Syntax.{named};
    ghost use Rattle.std.specs.Borrow.{sem, Lends};
    ghost use Rattle.running_guarded.specs.contracts.guard.Guard.{the_row};
    ghost use Rattle.running_guarded.specs.GuardedShown.{value_of, guard_with};

    #[inline(always)]
    fn deref_mut(&mut self) -> &mut T
        ensures* writes_back { sem 𝓛 (Lends (the_row (record { mir = named 1; lft = [] }) T.row A.row A.Allocator) T.row self.entry result (guard_with self.old)) }
        ensures value { result.now ≡ value_of self.old }
    {
        &mut self.value
    }
}
