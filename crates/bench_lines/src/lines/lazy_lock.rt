//! The lines of the lazy value.
ghost use Rattle.std.specs.Prelude.{◌≤◌};
ghost use Rattle.running_lazy_lock.specs.LazyShown.{IsLazyPass};

use crate::lines::OPERATIONS;
use iceoryx2_pal_concurrency_sync::lazy_lock::{LazyLock, LazyPass};
use std::alloc::{AllocError, Global};
use std::sync::Wait;

/// Forces a value that was made.
pub fn force(rt: &impl Wait, alloc: Global) -> Result<u32, AllocError> {
    match LazyLock::new(alloc, || true) {
        Ok((lazy, mut pass)) => {
            LazyLock::force(&lazy, rt, &mut pass);
            Ok(force_often(rt, &lazy, &mut pass))
        }
        Err((error, _)) => Err(error),
    }
}

/// The measured loop, of its own: that the closure may be called is a condition, which an `Operation` cannot have.
#[inline(never)]
fn force_often<F: FnOnce() -> bool + Drop, R: Wait>(
    rt: &R,
    lazy: &LazyLock<bool, F>,
    pass: &mut LazyPass,
) -> u32
    requires own { IsLazyPass lazy.now pass.old }
    requires may { (f : F) → F.IsAlwaysCallable f }
    ensures { result ≤ OPERATIONS }
{
    let mut count = 0;
    for _ in 0..OPERATIONS {
        if *LazyLock::force(lazy, rt, pass) {
            count += 1;
        }
    }
    count
}
