//! What a reader has, and what a writer has.
ghost use Rattle.std.specs.Prelude.{◌≡◌, ◌<◌, true};
ghost use Rattle.model_events.specs.declared.hold.HoldKind.TheVariants as kinds;
ghost use Rattle.running_model.specs.Passes.{parties_of};
ghost use Rattle.running_rw_writer.specs.RwWriterParties.{has_hold};
ghost use Rattle.running_rw_writer.specs.RwWriterShown.{IsRwWriterPass, pass_in, reads_of, writes_of};

use crate::lock::RwLock;
use running_rw_writer::{RwLockWriterPreference, RwWriterPass};
use std::alloc::{Allocator, Global};
use std::ops::Deref;
use std::sync::{RwLockReadGuard, RwLockWriteGuard};

/// The value is locked for reading by the pass that is lent to the guard, and the guard lends it, as the guards of other readers do. It
/// must be spent, by `RwLock::unlock_read`.
pub struct ReadGuard<'p, T, A: Allocator = Global> {
    pub(crate) of: &'p RwLock<T, A>,
    pub(crate) pass: &'p mut RwWriterPass,
    pub(crate) value: RwLockReadGuard<'p, T>,
    ghost own: { IsRwWriterPass of.now.lock pass.now },
    ghost on: { 0 < reads_of (pass_in pass.now) },
    ghost has: { has_hold kinds.Read (parties_of (pass_in pass.now)) ≡ true },
}

/// The value is locked for writing by the pass that is lent to the guard, and the guard alone lends it: `*guard` reads it, and `change`
/// writes it. It must be spent, by `RwLock::unlock_write`.
pub struct WriteGuard<'p, T, A: Allocator = Global> {
    pub(crate) value: RwLockWriteGuard<'p, T>,
    pub(crate) held: Writing<'p, A>,
}

/// What a writer has of the lock in front. It stands apart from the value, which is written beside it.
pub(crate) struct Writing<'p, A: Allocator> {
    pub(crate) of: &'p RwLockWriterPreference<A>,
    pub(crate) pass: &'p mut RwWriterPass,
    ghost own: { IsRwWriterPass of.now pass.now },
    ghost on: { writes_of (pass_in pass.now) ≡ 1 },
    ghost has: { has_hold kinds.Write (parties_of (pass_in pass.now)) ≡ true },
}

impl<T, A: Allocator> WriteGuard<'_, T, A> {
    ghost use Rattle.std.specs.Fn.{FnOnceTakesAtMut, FnOnceReturnsAtMut};
    ghost use Rattle.running_rw_value.specs.RwValueShown.{writer_pass, writer_borrow, writer_value};

    /// Calls `act` with the value. What it leaves there is what the guard lends from then on.
    #[inline(always)]
    pub fn change<X, F: FnOnce(&mut T) -> X>(&mut self, act: F) -> X
        requires may { FnOnceTakesAtMut F.FnOnce act (writer_value self.old) }
        ensures same_borrow { writer_borrow self.new ≡ writer_borrow self.old }
        ensures same_pass { writer_pass self.new ≡ writer_pass self.old }
        ensures acted { FnOnceReturnsAtMut F.FnOnce act (writer_value self.old) result (writer_value self.new) }
    {
        act(&mut *self.value)
    }
}

impl<T, A: Allocator> Deref for ReadGuard<'_, T, A> {
    ghost use Rattle.running_rw_value.specs.RwValueShown.{reader_value};

    type Target = T;

    #[inline(always)]
    fn deref(&self) -> &T
        ensures { result.now ≡ reader_value self.now }
    {
        &*self.value
    }
}

impl<T, A: Allocator> Deref for WriteGuard<'_, T, A> {
    ghost use Rattle.running_rw_value.specs.RwValueShown.{writer_value};

    type Target = T;

    #[inline(always)]
    fn deref(&self) -> &T
        ensures { result.now ≡ writer_value self.now }
    {
        &*self.value
    }
}
