//! What a caller can prove of the value: what its type keeps.
ghost use Rattle.std.specs.Prelude.{◌≡◌, ◌%◌, ◌≤◌};
ghost use Rattle.running_spin_lock.specs.SpinShown.{IsSpinPass, IsSamePass};

use iceoryx2_pal_concurrency_sync::spin_lock::{SpinLock, SpinPass};
use std::alloc::{AllocError, Global};
use std::marker::{Model, PhantomData};
use std::mem;
use std::sync::Wait;
use std::test::Fail;

/// An even number.
#[derive(Debug, Drop)]
struct Even {
    number: u64,
    ghost even: { number % 2 ≡ 0 },
}

impl Even {
    /// The next even number, or 0.
    fn go_on(&mut self) {
        self.number = self.number.wrapping_add(2);
    }
}

/// Goes on by one. What it answers is even, whatever other threads have done.
fn even_after<R: Wait>(rt: &R, lock: &SpinLock<Even>, pass: &mut SpinPass) -> u64
    requires own { IsSpinPass lock.now pass.old }
    ensures stayed { IsSamePass pass.old pass.new }
    ensures even { result % 2 ≡ 0 }
{
    let mut guard = SpinLock::blocking_lock(pass, lock, rt);
    guard.go_on();
    guard.number
}

#[test]
fn an_even_number_stays_even(rt: HostRuntime) -> Result<(), Fail> {
    let (lock, mut pass) = SpinLock::new(rt.alloc(), Even { number: 4 })?;
    assert_eq!(rt; even_after(&rt, &lock, &mut pass), 6);
    Ok(())
}

/// What is to be kept of a value.
trait Keeps<T> {
    ghost keeps: { T → Type 0 };
}

/// A value with a fact that the caller picks.
#[derive(Drop)]
struct Kept<T, K: Keeps<T>> {
    value: T,
    by: PhantomData<K>,
}

impl<T, K: Keeps<T>> Model for Kept<T, K> {
    ghost Value = { T };

    ghost view = { λ kept. kept.value };

    ghost invariant = { λ kept. K.keeps kept.value };
}

impl<T, K: Keeps<T>> Kept<T, K> {
    fn into_value(self) -> T
        ensures kept { K.keeps result }
    {
        let Kept { value, by: _ } = self;
        value
    }
}

/// Replaces the value, and answers the one that stood there: it was kept.
fn replace<T, K: Keeps<T>, R: Wait>(
    rt: &R,
    lock: &SpinLock<Kept<T, K>>,
    pass: &mut SpinPass,
    value: T,
) -> T
    requires own { IsSpinPass lock.now pass.old }
    requires fits { K.keeps value }
    ensures stayed { IsSamePass pass.old pass.new }
    ensures kept { K.keeps result }
{
    let mut guard = SpinLock::blocking_lock(pass, lock, rt);
    let kept = Kept {
        value,
        by: PhantomData,
    };
    mem::replace(&mut *guard, kept).into_value()
}

/// At most ten.
#[derive(Drop)]
struct AtMostTen;

impl Keeps<u64> for AtMostTen {
    ghost keeps = { λ n. n ≤ 10 };
}

/// Replaces a new lock's 3 by 10, and that by 0: what each time stood there.
fn replace_twice<R: Wait>(rt: &R, alloc: Global) -> Result<(u64, u64), AllocError> {
    let first: Kept<u64, AtMostTen> = Kept {
        value: 3,
        by: PhantomData,
    };
    match SpinLock::new(alloc, first) {
        Ok((lock, mut pass)) => {
            let three = replace(rt, &lock, &mut pass, 10);
            Ok((three, replace(rt, &lock, &mut pass, 0)))
        }
        Err((error, _)) => Err(error),
    }
}

#[test]
fn a_kept_value_is_kept(rt: HostRuntime) -> Result<(), Fail> {
    assert_eq!(rt; replace_twice(&rt, rt.alloc())?, (3, 10));
    Ok(())
}
