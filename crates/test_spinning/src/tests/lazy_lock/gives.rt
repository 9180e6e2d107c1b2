//! What a caller can prove of the value: it picks what is kept of the closure, and what that gives.
ghost use Rattle.std.specs.Prelude.{◌≡◌, ℕ, IfOk};
ghost use Rattle.running_lazy_lock.specs.Given.{IsGiven};

use iceoryx2_pal_concurrency_sync::lazy_lock::{Gives, LazyLock};
use std::alloc::{AllocError, Global};
use std::marker::Brand;
use std::sync::Wait;
use std::test::Fail;

/// Makes a lazy value, and reads it twice.
fn read_twice<F: FnOnce() -> u64 + Drop, G: Gives<u64, F>, R: Wait>(
    rt: &R,
    alloc: Global,
    init: F,
) -> Result<(u64, u64), AllocError>
    requires kept { G.may init }
    requires keeps { (f : F) → G.may f → F.IsAlwaysCallable f × ((value : ℕ) → F.post f value → G.gives f value) }
    ensures first { IfOk result (λ read. IsGiven G.may G.gives read.0) }
    ensures second { IfOk result (λ read. IsGiven G.may G.gives read.1) }
{
    let made: Result<(LazyLock<u64, F, G>, _), _> = LazyLock::keeping(alloc, init);
    match made {
        Ok((lazy, mut pass)) => {
            let first = *LazyLock::force(&lazy, rt, &mut pass);
            Ok((first, *LazyLock::force(&lazy, rt, &mut pass)))
        }
        Err((error, _)) => Err(error),
    }
}

/// With 42 picked for what the closure gives, both reads are known to be 42.
fn read_forty_two<R: Wait>(rt: &R, alloc: Global) -> Result<(u64, u64), AllocError>
    ensures { IfOk result (λ read. (read.0 ≡ 42) × (read.1 ≡ 42)) }
{
    read_twice::<_, Brand, R>(
        rt,
        alloc,
        || -> u64
            ensures { result ≡ 42 }
        { 42 },
    )
}

/// With the closure's own contract picked, each read is a value that a closure of its type may give, by that contract.
fn read_as_promised<F: FnOnce() -> u64 + Drop, R: Wait>(
    rt: &R,
    alloc: Global,
    init: F,
) -> Result<(u64, u64), AllocError>
    requires may { (f : F) → F.IsAlwaysCallable f }
    ensures { IfOk result (λ read. IsGiven (λ _. Unit {0}) F.post read.0 × IsGiven (λ _. Unit {0}) F.post read.1) }
{
    read_twice::<F, Brand, R>(rt, alloc, init)
}

#[test]
fn a_value_is_what_the_caller_picked(rt: HostRuntime) -> Result<(), Fail> {
    assert_eq!(rt; read_forty_two(&rt, rt.alloc())?, (42, 42));
    assert_eq!(rt; read_as_promised(&rt, rt.alloc(), || 7)?, (7, 7));
    Ok(())
}
