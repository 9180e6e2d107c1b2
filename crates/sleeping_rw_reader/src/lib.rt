//! A lock of many readers or one writer, which lets readers in as long as no writer is, at which callers sleep, and handles of it: a handle
//! owns its pass, so its calls ask for nothing.
#![tactic(auto)]

ghost use Rattle.std.specs.Prelude.{◌≡◌};
ghost use Rattle.model_events.specs.declared.hold.HoldKind.TheVariants as kinds;
ghost use Rattle.running_rw_reader.specs.RwReaderShown.{IsRwReaderPass};
ghost use Rattle.sleeping_rw_reader.specs.Kinds.{Holds};
ghost use Rattle.sleeping_rw_reader.specs.declared.Held.TheVariants as held_as;

mod locked;

pub use crate::locked::{Reading, Writing};
use running_closures::Sleepers;
use running_rw_reader::{RwLockReaderPreference, RwReaderPass};
pub use running_sharing::Handle;
use std::alloc::{AllocError, Allocator, Global};

/// A lock that guards no data, and who sleeps at it: who unlocks wakes all, since readers come in together.
#[derive(Drop)]
pub struct SleepingRwReader<A: Allocator = Global> {
    lock: RwLockReaderPreference<A>,
    sleepers: Sleepers,
}

/// The right to call it, which one thread needs. It owns its pass, which is of that lock by its type.
#[derive(Drop)]
pub struct RwReaderHandle<'l, A: Allocator = Global> {
    of: &'l SleepingRwReader<A>,
    pass: RwReaderPass,
    held: Held,
    ghost own: { IsRwReaderPass of.now.lock pass },
    ghost reads: { held ≡ held_as.Reading → Holds kinds.Read pass },
    ghost writes: { held ≡ held_as.Writing → Holds kinds.Write pass },
}

/// Which guard of a handle is out.
#[derive(Clone, Copy, Drop)]
enum Held {
    Nothing,
    Reading,
    Writing,
}

impl<A: Allocator> SleepingRwReader<A> {
    ghost use Rattle.std.specs.Prelude.{IfOk};
    ghost use Rattle.running_passes.specs.Passes.{view};
    ghost use Rattle.running_passes.specs.Views.{first_view};
    ghost use Rattle.running_model.specs.Slots.{no_parties};
    ghost use Rattle.running_model.specs.Passes.{played};
    ghost use Rattle.running_rw_hold.specs.RwReader.{no_holds};
    ghost use Rattle.sleeping_rw_reader.specs.HandleShown.{IsSleepingPass, below, object_of, pass_of};

    /// A lock that is free, at which nobody sleeps, and the pass that is whole. `Err` where there was no memory; then nothing was made.
    pub fn new(alloc: A) -> Result<(SleepingRwReader<A>, RwReaderPass), AllocError>
        ensures own { IfOk result (λ made. IsSleepingPass made.0 made.1) }
        ensures first { IfOk result (λ made. view made.1 ≡ first_view (played no_parties no_holds)) }
    {
        let (lock, pass) = RwLockReaderPreference::new(alloc)?;
        let sleepers = Sleepers::new();
        Ok((SleepingRwReader { lock, sleepers }, pass))
    }

    /// The lock itself, for calls with a pass: with closures of your own, or where you count.
    #[inline(always)]
    pub fn lock(&self) -> &RwLockReaderPreference<A>
        ensures { result.now ≡ below self.now }
    {
        &self.lock
    }

    /// The handle with this pass.
    #[inline(always)]
    pub fn handle(&self, pass: RwReaderPass) -> RwReaderHandle<'_, A>
        requires own { IsSleepingPass self.now pass }
        ensures object { object_of result ≡ self.now }
        ensures pass { pass_of result ≡ pass }
    {
        let held = Held::Nothing;
        RwReaderHandle {
            of: self,
            pass,
            held,
        }
    }
}

impl<A: Allocator> RwReaderHandle<'_, A> {
    ghost use Rattle.sleeping_rw_reader.specs.HandleShown.{IsSleepingPass, object_of, pass_of};

    /// The pass alone, for who counts.
    #[inline(always)]
    pub fn into_pass(self) -> RwReaderPass
        ensures own { IsSleepingPass (object_of self.entry) result }
        ensures same { result ≡ pass_of self.entry }
    {
        let RwReaderHandle { pass, .. } = self;
        pass
    }
}

impl<A: Allocator> Handle for RwReaderHandle<'_, A> {
    ghost use Rattle.sleeping_rw_reader.specs.HandleShown.{object_of, part_with};

    ghost same = { λ one other. object_of other ≡ object_of one };

    ghost part = { part_with };

    fn split(self) -> (Self, Self) {
        let RwReaderHandle { of, pass, .. } = self;
        let Ok((pass, other)) = pass.split(&of.lock) else {
            unreachable!()
        };
        (of.handle(pass), of.handle(other))
    }

    fn join(self, other: Self) -> Self {
        let RwReaderHandle { of, pass, .. } = self;
        let RwReaderHandle { pass: other, .. } = other;
        let Ok(pass) = RwReaderPass::join(pass, other, &of.lock) else {
            unreachable!()
        };
        of.handle(pass)
    }
}
