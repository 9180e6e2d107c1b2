//! A value that many read at once, or one writes, at which callers sleep, and handles of it: a handle owns its pass, so its calls ask for
//! nothing.
//!
//! Readers and writers sleep apart. Since a writer may give up, who wakes a writer wakes them all, so that no wake goes with one that gives up.
#![tactic(auto)]

ghost use Rattle.std.specs.Prelude.{◌≡◌, ◌<◌, true};
ghost use Rattle.model_events.specs.declared.hold.HoldKind.TheVariants as kinds;
ghost use Rattle.running_model.specs.Passes.{parties_of};
ghost use Rattle.running_rw_writer.specs.RwWriterParties.{has_hold};
ghost use Rattle.running_rw_writer.specs.RwWriterShown.{pass_in, reads_of, writes_of};
ghost use Rattle.running_rw_value.specs.RwValueShown.{IsRwValuePass};
ghost use Rattle.sleeping_rw_value.specs.declared.Held.TheVariants as held_as;

mod locked;

pub use crate::locked::{Reading, Writing};
use running_closures::Sleepers;
use running_passes::WaitResult;
use running_rw_value::RwLock;
use running_rw_writer::RwWriterPass;
pub use running_sharing::Handle;
use std::alloc::{AllocError, Allocator, Global};
use std::sync::Wait;
use std::time::{Clock, Instant};

/// A value that many read, and who sleeps at it.
#[derive(Drop)]
pub struct SleepingRwValue<T, A: Allocator = Global> {
    value: RwLock<T, A>,
    readers: Sleepers,
    writers: Sleepers,
}

/// The right to call it, which one thread needs. It owns its pass, which is of that value by its type.
#[derive(Drop)]
pub struct RwValueHandle<'v, T, A: Allocator = Global> {
    of: &'v SleepingRwValue<T, A>,
    pass: RwWriterPass,
    held: Held,
    ghost own: { IsRwValuePass of.now.value pass },
    ghost reads: { held ≡ held_as.Reading → 0 < reads_of (pass_in pass) },
    ghost has_read: { held ≡ held_as.Reading → has_hold kinds.Read (parties_of (pass_in pass)) ≡ true },
    ghost writes: { held ≡ held_as.Writing → writes_of (pass_in pass) ≡ 1 },
    ghost has_written: { held ≡ held_as.Writing → has_hold kinds.Write (parties_of (pass_in pass)) ≡ true },
}

/// Which guard of a handle is out.
#[derive(Clone, Copy, Drop)]
enum Held {
    Nothing,
    Reading,
    Writing,
}

impl<T, A: Allocator> SleepingRwValue<T, A> {
    ghost use Rattle.std.specs.Prelude.{IfOk, IfErr, IfSome, IfNone};
    ghost use Rattle.running_passes.specs.Views.{first_view};
    ghost use Rattle.running_model.specs.Slots.{no_parties};
    ghost use Rattle.running_model.specs.Passes.{played};
    ghost use Rattle.running_rw_writer.specs.RwWriter.{nothing_marked};
    ghost use Rattle.running_rw_writer.specs.RwWriterShown.{known_by};
    ghost use Rattle.running_rw_value.specs.RwValueShown.{Looks, Acts};
    ghost use Rattle.sleeping_rw_value.specs.HandleShown.{IsSleepingPass, below, object_of, pass_of, HasReadAtOnce, HasWrittenAtOnce, WasTurnedAway, HasSeenTaken};

    /// A value that is free, at which nobody sleeps, and the pass that is whole. `Err` where there was no memory; then nothing was made, and
    /// the value comes back.
    pub fn new(alloc: A, value: T) -> Result<(SleepingRwValue<T, A>, RwWriterPass), (AllocError, T)>
        ensures own { IfOk result (λ made. IsSleepingPass made.0 made.1) }
        ensures first { IfOk result (λ made. known_by made.1 ≡ first_view (played no_parties nothing_marked)) }
        ensures refused { IfErr result (λ refused. refused.1 ≡ value) }
    {
        let (value, pass) = RwLock::new(alloc, value)?;
        let readers = Sleepers::new();
        let writers = Sleepers::new();
        Ok((
            SleepingRwValue {
                value,
                readers,
                writers,
            },
            pass,
        ))
    }

    /// The lock itself, for calls with a pass: with closures of your own, or where you count.
    #[inline(always)]
    pub fn lock(&self) -> &RwLock<T, A>
        ensures { result.now ≡ below self.now }
    {
        &self.value
    }

    /// The handle with this pass.
    #[inline(always)]
    pub fn handle(&self, pass: RwWriterPass) -> RwValueHandle<'_, T, A>
        requires own { IsSleepingPass self.now pass }
        ensures object { object_of result ≡ self.now }
        ensures pass { pass_of result ≡ pass }
    {
        let held = Held::Nothing;
        RwValueHandle {
            of: self,
            pass,
            held,
        }
    }

    /// Ends the lock, and gives the value. Any pass of it will do, since a handle borrows the lock.
    pub fn into_inner(self, pass: RwWriterPass) -> T
        requires own { IsSleepingPass self pass }
    {
        let SleepingRwValue {
            value,
            readers: _,
            writers: _,
        } = self;
        value.into_inner(pass)
    }

    #[inline(always)]
    fn try_look<X, R: Wait, F: FnOnce(&T) -> X>(
        &self,
        rt: &R,
        pass: &mut RwWriterPass,
        act: F,
    ) -> Option<X>
        requires own { IsSleepingPass self.now pass.old }
        requires may { F.IsAlwaysCallable act }
        ensures locked { IfSome result (λ _. HasReadAtOnce pass.old pass.new) }
        ensures acted { IfSome result (λ x. Looks F.FnOnce act x) }
        ensures refused { IfNone result (WasTurnedAway pass.old pass.new) }
    {
        match RwLock::try_read(pass, &self.value, rt) {
            WaitResult::Success(guard) => {
                let given = act(&*guard);
                RwLock::unlock_read(guard, |_| self.writers.wake_all());
                Some(given)
            }
            WaitResult::Interrupted => None,
        }
    }

    #[inline(always)]
    fn try_act<X, R: Wait, F: FnOnce(&mut T) -> X>(
        &self,
        rt: &R,
        pass: &mut RwWriterPass,
        act: F,
    ) -> Option<X>
        requires own { IsSleepingPass self.now pass.old }
        requires may { F.IsAlwaysCallable act }
        ensures locked { IfSome result (λ _. HasWrittenAtOnce pass.old pass.new) }
        ensures acted { IfSome result (λ x. Acts F.FnOnce act x) }
        ensures refused { IfNone result (HasSeenTaken pass.old pass.new) }
    {
        match RwLock::try_write(pass, &self.value, rt) {
            WaitResult::Success(guard) => {
                let mut guard = guard;
                let given = guard.change(act);
                RwLock::unlock_write(
                    guard,
                    |_| self.writers.wake_all(),
                    |_| self.readers.wake_all(),
                );
                Some(given)
            }
            WaitResult::Interrupted => None,
        }
    }
}

impl<'v, T, A: Allocator> RwValueHandle<'v, T, A> {
    ghost use Rattle.std.specs.Prelude.{None, IfSome, IfNone, IsSome, vec_len, IfOk};
    ghost use Rattle.running_rw_value.specs.RwValueShown.{Looks, Acts, HasReadOnce, HasWrittenOnce};
    ghost use Rattle.sleeping_rw_value.specs.HandleShown.{IsSleepingPass, object_of, pass_of, PassHas, HasGivenUpReading, HasGivenUpWriting, HasReadAtOnce, HasWrittenAtOnce, WasTurnedAway, HasSeenTaken};

    /// Locks the value for reading, asleep until a reader may enter, calls `act` with it, unlocks, and wakes.
    #[inline(always)]
    pub fn with_read<X, R: Wait, F: FnOnce(&T) -> X>(&mut self, rt: &R, act: F) -> X
        requires may { F.IsAlwaysCallable act }
        ensures locked { PassHas HasReadOnce self.old self.new }
        ensures acted { Looks F.FnOnce act result }
    {
        self.held = Held::Nothing;
        let of = self.of;
        let done = of.value.with_read(
            rt,
            &mut self.pass,
            |word, seen| of.readers.sleep(rt, word, *seen),
            |_| of.writers.wake_all(),
            act,
        );
        match done {
            WaitResult::Success(given) => given,
            WaitResult::Interrupted => unreachable!(),
        }
    }

    /// The same; `None` where no reader could enter once the deadline had passed, and then `act` was not called.
    #[inline(always)]
    pub fn with_read_until<X, R: Wait + Clock, F: FnOnce(&T) -> X>(
        &mut self,
        rt: &R,
        deadline: Option<Instant>,
        act: F,
    ) -> Option<X>
        requires may { F.IsAlwaysCallable act }
        ensures locked { IfSome result (λ _. PassHas HasReadOnce self.old self.new) }
        ensures acted { IfSome result (λ x. Looks F.FnOnce act x) }
        ensures gave_up { IfNone result (PassHas HasGivenUpReading self.old self.new) }
        ensures waits { deadline ≡ None → IsSome result }
    {
        self.held = Held::Nothing;
        let of = self.of;
        let done = of.value.with_read(
            rt,
            &mut self.pass,
            |word, seen| of.readers.sleep_until(rt, word, *seen, deadline),
            |_| of.writers.wake_all(),
            act,
        );
        match done {
            WaitResult::Success(given) => Some(given),
            WaitResult::Interrupted => None,
        }
    }

    /// Reads without a wait; `None` where no reader could enter, and then `act` was not called.
    #[inline(always)]
    pub fn try_with_read<X, R: Wait, F: FnOnce(&T) -> X>(&mut self, rt: &R, act: F) -> Option<X>
        requires may { F.IsAlwaysCallable act }
        ensures locked { IfSome result (λ _. PassHas HasReadAtOnce self.old self.new) }
        ensures acted { IfSome result (λ x. Looks F.FnOnce act x) }
        ensures refused { IfNone result (PassHas WasTurnedAway self.old self.new) }
    {
        self.held = Held::Nothing;
        self.of.try_look(rt, &mut self.pass, act)
    }

    /// Locks the value for writing, asleep until it is free, calls `act` with it, unlocks, and wakes.
    #[inline(always)]
    pub fn with_write<X, R: Wait, F: FnOnce(&mut T) -> X>(&mut self, rt: &R, act: F) -> X
        requires may { F.IsAlwaysCallable act }
        ensures locked { PassHas HasWrittenOnce self.old self.new }
        ensures acted { Acts F.FnOnce act result }
    {
        self.held = Held::Nothing;
        let of = self.of;
        let done = of.value.with_write(
            rt,
            &mut self.pass,
            |word, seen| of.writers.sleep(rt, word, *seen),
            |_| of.writers.wake_all(),
            |_| of.readers.wake_all(),
            act,
        );
        match done {
            WaitResult::Success(given) => given,
            WaitResult::Interrupted => unreachable!(),
        }
    }

    /// The same; `None` where the value was still locked once the deadline had passed, and then `act` was not called.
    #[inline(always)]
    pub fn with_write_until<X, R: Wait + Clock, F: FnOnce(&mut T) -> X>(
        &mut self,
        rt: &R,
        deadline: Option<Instant>,
        act: F,
    ) -> Option<X>
        requires may { F.IsAlwaysCallable act }
        ensures locked { IfSome result (λ _. PassHas HasWrittenOnce self.old self.new) }
        ensures acted { IfSome result (λ x. Acts F.FnOnce act x) }
        ensures gave_up { IfNone result (PassHas HasGivenUpWriting self.old self.new) }
        ensures waits { deadline ≡ None → IsSome result }
    {
        self.held = Held::Nothing;
        let of = self.of;
        let done = of.value.with_write(
            rt,
            &mut self.pass,
            |word, seen| of.writers.sleep_until(rt, word, *seen, deadline),
            |_| of.writers.wake_all(),
            |_| of.readers.wake_all(),
            act,
        );
        match done {
            WaitResult::Success(given) => Some(given),
            WaitResult::Interrupted => None,
        }
    }

    /// Writes without a wait; `None` where the lock was not free, and then `act` was not called.
    #[inline(always)]
    pub fn try_with_write<X, R: Wait, F: FnOnce(&mut T) -> X>(
        &mut self,
        rt: &R,
        act: F,
    ) -> Option<X>
        requires may { F.IsAlwaysCallable act }
        ensures locked { IfSome result (λ _. PassHas HasWrittenAtOnce self.old self.new) }
        ensures acted { IfSome result (λ x. Acts F.FnOnce act x) }
        ensures refused { IfNone result (PassHas HasSeenTaken self.old self.new) }
    {
        self.held = Held::Nothing;
        self.of.try_act(rt, &mut self.pass, act)
    }

    /// The pass alone, for who counts.
    #[inline(always)]
    pub fn into_pass(self) -> RwWriterPass
        ensures own { IsSleepingPass (object_of self.entry) result }
        ensures same { result ≡ pass_of self.entry }
    {
        let RwValueHandle { pass, .. } = self;
        pass
    }
}

impl<T, A: Allocator> Handle for RwValueHandle<'_, T, A> {
    ghost use Rattle.std.specs.Prelude.{◌≡◌};
    ghost use Rattle.sleeping_rw_value.specs.HandleShown.{object_of, part_with};

    ghost same = { λ one other. object_of other ≡ object_of one };

    ghost part = { part_with };

    fn split(self) -> (Self, Self) {
        let RwValueHandle { of, pass, .. } = self;
        let Ok((pass, other)) = pass.split(of.value.front()) else {
            unreachable!()
        };
        (of.handle(pass), of.handle(other))
    }

    fn join(self, other: Self) -> Self {
        let RwValueHandle { of, pass, .. } = self;
        let RwValueHandle { pass: other, .. } = other;
        let Ok(pass) = RwWriterPass::join(pass, other, of.value.front()) else {
            unreachable!()
        };
        of.handle(pass)
    }
}
