//! Its pass can be parted, for many threads.
ghost use Rattle.std.specs.Prelude.{◌≡◌};

use crate::{Mutex, MutexPass};
use running_sharing::Shares;
use std::alloc::Allocator;

impl<A: Allocator, S> Shares<Mutex<A, S>> for MutexPass {
    ghost use Rattle.running_passes.specs.Passes.{part_of};
    ghost use Rattle.running_mutex.specs.MutexShown.{IsMutexPass, holds_of};

    ghost idle = { λ mutex p. IsMutexPass mutex p × (holds_of p ≡ 0) };

    ghost part = { part_of };

    fn cut(self, of: &Mutex<A, S>) -> (MutexPass, MutexPass) {
        let Ok(parts) = self.split(of) else {
            unreachable!()
        };
        parts
    }

    fn mend(one: MutexPass, other: MutexPass, of: &Mutex<A, S>) -> MutexPass {
        let Ok(pass) = MutexPass::join(one, other, of) else {
            unreachable!()
        };
        pass
    }
}
