//! A guard of the value, whose end unlocks.
ghost use Rattle.std.specs.Prelude.{◌≡◌, ◌<◌, true};
ghost use Rattle.running_mutex.specs.MutexParties.{HasMutex};
ghost use Rattle.running_spin_lock.specs.ValueSteps.{has_vacant_slot};
ghost use Rattle.running_guarded.specs.GuardedShown.{id_of};

use crate::GuardedHandle;
use atomic_table::Seat;
use running_guarded::Guarded;
use running_mutex::PlayedMutex;
use running_passes::{View, WaitResult};
use std::alloc::{Allocator, Global};
use std::ops::{Deref, DerefMut};
use std::sync::Wait;
use std::time::{Clock, Instant};

/// The value is locked, and lent. Where the guard's scope ends, also by `?`, `return` or `break`, the value is unlocked, and one that
/// sleeps is woken. It lies in the guard, so it is copied out and back: box a large one.
pub struct Locked<'h, 'g, T, A: Allocator = Global> {
    handle: &'h mut GuardedHandle<'g, T, A>,
    // Of half of the handle's pass.
    seat: Seat<Option<T>, View<PlayedMutex>>,
    value: T,
    ghost own: { seat.table_id ≡ id_of handle.now.of.now.value },
    ghost on: { seat.me.0.tally.counts.holds ≡ 1 },
    ghost has: { HasMutex seat.me.0.tally.parties },
    ghost alive: { 0 < seat.me.0.part.share },
    ghost out: { has_vacant_slot seat.me.1 ≡ true },
}

impl<'g, T, A: Allocator> GuardedHandle<'g, T, A> {
    ghost use Rattle.std.specs.Prelude.{None, IfSome, IsSome};
    ghost use Rattle.sleeping_guarded.specs.HandleShown.{borrow_of, IsGuardOf, HasComeIn, HasComeInAtOnce};

    /// Locks the value, asleep until it is free, and lends it. It is unlocked where the guard's scope ends.
    #[inline(always)]
    pub fn lock<'h, R: Wait>(&'h mut self, rt: &R) -> Locked<'h, 'g, T, A>
        ensures same_borrow { borrow_of result ≡ self.entry.ghost_name }
        ensures locked { IsGuardOf HasComeIn self.old result }
    {
        let of = self.of;
        let mut part = self.pass.part_off(&of.value);
        match Guarded::lock(
            &mut part,
            &of.value,
            rt,
            |word, seen| of.sleepers.sleep(rt, word, *seen),
        ) {
            WaitResult::Success(guard) => {
                let (seat, value) = guard.apart();
                Locked {
                    handle: self,
                    seat,
                    value,
                }
            }
            WaitResult::Interrupted => unreachable!(),
        }
    }

    /// The same; `None` where the value was still locked once the deadline had passed.
    #[inline(always)]
    pub fn lock_until<'h, R: Wait + Clock>(
        &'h mut self,
        rt: &R,
        deadline: Option<Instant>,
    ) -> Option<Locked<'h, 'g, T, A>>
        ensures locked { IfSome result (IsGuardOf HasComeIn self.old) }
        ensures waits { deadline ≡ None → IsSome result }
    {
        let of = self.of;
        let mut part = self.pass.part_off(&of.value);
        match Guarded::lock(
            &mut part,
            &of.value,
            rt,
            |word, seen| of.sleepers.sleep_until(rt, word, *seen, deadline),
        ) {
            WaitResult::Success(guard) => {
                let (seat, value) = guard.apart();
                Some(Locked {
                    handle: self,
                    seat,
                    value,
                })
            }
            WaitResult::Interrupted => {
                self.pass.absorb(part, &of.value);
                None
            }
        }
    }

    /// The same without a wait; `None` where the value was seen locked.
    #[inline(always)]
    pub fn try_lock<'h>(&'h mut self) -> Option<Locked<'h, 'g, T, A>>
        ensures locked { IfSome result (IsGuardOf HasComeInAtOnce self.old) }
    {
        let of = self.of;
        let mut part = self.pass.part_off(&of.value);
        match Guarded::try_lock(&mut part, &of.value) {
            WaitResult::Success(guard) => {
                let (seat, value) = guard.apart();
                Some(Locked {
                    handle: self,
                    seat,
                    value,
                })
            }
            WaitResult::Interrupted => {
                self.pass.absorb(part, &of.value);
                None
            }
        }
    }
}

impl<T, A: Allocator> Deref for Locked<'_, '_, T, A> {
    ghost use Rattle.sleeping_guarded.specs.HandleShown.{value_of};

    type Target = T;

    #[inline(always)]
    fn deref(&self) -> &T
        ensures { result.now ≡ value_of self.now }
    {
        &self.value
    }
}

impl<T, A: Allocator> DerefMut for Locked<'_, '_, T, A> {
    ghost use Rattle.std.specs.Prelude.{[]};
    ghost use mir.Syntax.{named};
    ghost use Rattle.std.specs.Borrow.{sem, Lends};
    ghost use Rattle.sleeping_guarded.specs.contracts.locked.Locked.{the_row};
    ghost use Rattle.sleeping_guarded.specs.HandleShown.{value_of, guard_with};

    #[inline(always)]
    fn deref_mut(&mut self) -> &mut T
        ensures* writes_back { sem 𝓛 (Lends (the_row (record { mir = named 1; lft = [] }) (record { mir = named 2; lft = [] }) T.row A.row A.Allocator) T.row self.entry result (guard_with self.old)) }
        ensures value { result.now ≡ value_of self.old }
    {
        &mut self.value
    }
}

impl<T, A: Allocator> Drop for Locked<'_, '_, T, A> {
    ghost use Rattle.sleeping_guarded.specs.HandleShown.{IsLeftBy};

    #[inline(always)]
    fn drop(self)
        ensures let_go { IsLeftBy self.entry self.exit.0.now }
    {
        let Locked {
            handle,
            seat,
            value,
        } = self;
        let of = handle.of;
        let back = of.value.sit(seat, value, |_| of.sleepers.wake_one());
        handle.pass.absorb(back, &of.value);
    }
}
