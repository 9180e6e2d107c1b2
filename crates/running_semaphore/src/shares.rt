//! Its pass can be parted, for many threads.

use crate::{SemPass, Semaphore};
use running_sharing::Shares;
use std::alloc::Allocator;

impl<A: Allocator, S> Shares<Semaphore<A, S>> for SemPass {
    ghost use Rattle.running_passes.specs.Passes.{part_of};
    ghost use Rattle.running_semaphore.specs.SemaphoreShown.{IsSemPass};

    ghost idle = { IsSemPass };

    ghost part = { part_of };

    fn cut(self, of: &Semaphore<A, S>) -> (SemPass, SemPass) {
        let Ok(parts) = self.split(of) else {
            unreachable!()
        };
        parts
    }

    fn mend(one: SemPass, other: SemPass, of: &Semaphore<A, S>) -> SemPass {
        let Ok(pass) = SemPass::join(one, other, of) else {
            unreachable!()
        };
        pass
    }
}
