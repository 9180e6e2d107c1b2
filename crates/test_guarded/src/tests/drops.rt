//! The value ends once.
ghost use Rattle.running_guarded.specs.GuardedShown.{IsGuardedPass};

use super::wake_nobody_at_value;
use linked_list_allocator::LocalHeap;
use running_guarded::{Guarded, GuardedPass};
use running_passes::WaitResult;
use std::alloc::{AllocError, Global};
use std::sync::atomic::{AtomicU64, Ordering};
use std::test::Fail;

/// A value that counts its end.
struct Counted<'c> {
    ends: &'c AtomicU64,
}

impl Drop for Counted<'_> {
    fn drop(self) {
        let Counted { ends } = self;
        ends.fetch_add(1, Ordering::SeqCst);
    }
}

/// Locks the value, and lets it go again. Whether it was locked.
fn lock_once(guarded: &Guarded<Counted<'_>>, pass: &mut GuardedPass) -> bool
    requires own { IsGuardedPass guarded.now pass.old }
{
    match Guarded::try_lock(pass, guarded) {
        WaitResult::Success(guard) => {
            Guarded::unlock(guard, wake_nobody_at_value);
            true
        }
        WaitResult::Interrupted => false,
    }
}

/// How many values have ended once one was locked, and once its lock is dropped; `None` where there is no memory.
fn ends_of_lock(alloc: Global) -> Option<(bool, u64, u64)> {
    let ends = AtomicU64::new(0);
    let (guarded, mut pass) = Guarded::new(alloc, Counted { ends: &ends }).ok()?;
    let was_locked = lock_once(&guarded, &mut pass);
    let before = ends.load(Ordering::SeqCst);
    drop(guarded);
    Some((was_locked, before, ends.load(Ordering::SeqCst)))
}

#[test]
fn a_value_ends_with_its_lock(rt: HostRuntime) -> Result<(), Fail> {
    assert_eq!(rt; ends_of_lock(rt.alloc()), Some((true, 0, 1)));
    Ok(())
}

/// How many values have ended once one was taken out of its lock, and once it is dropped itself; `None` where there is no memory.
fn ends_of_value(alloc: Global) -> Option<(u64, u64)> {
    let ends = AtomicU64::new(0);
    let (guarded, pass) = Guarded::new(alloc, Counted { ends: &ends }).ok()?;
    let value = guarded.into_inner(pass);
    let before = ends.load(Ordering::SeqCst);
    drop(value);
    Some((before, ends.load(Ordering::SeqCst)))
}

#[test]
fn a_value_that_was_taken_out_ends_once(rt: HostRuntime) -> Result<(), Fail> {
    assert_eq!(rt; ends_of_value(rt.alloc()), Some((0, 1)));
    Ok(())
}

/// How many values have ended once one found no memory for its lock, and once it is dropped; `None` where there was memory.
fn ends_of_refused(alloc: Global) -> Result<Option<(u64, u64)>, AllocError> {
    let ends = AtomicU64::new(0);
    let heap = LocalHeap::new(alloc, 16)?;
    match Guarded::new(&heap, Counted { ends: &ends }) {
        Ok(_) => Ok(None),
        Err((_, value)) => {
            let before = ends.load(Ordering::SeqCst);
            drop(value);
            Ok(Some((before, ends.load(Ordering::SeqCst))))
        }
    }
}

#[test]
fn a_value_that_found_no_memory_ends_once(rt: HostRuntime) -> Result<(), Fail> {
    assert_eq!(rt; ends_of_refused(rt.alloc())?, Some((0, 1)));
    Ok(())
}
