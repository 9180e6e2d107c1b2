//! Its pass can be parted, for many threads.
ghost use Rattle.std.specs.Prelude.{◌≡◌};

use crate::{CondPass, ConditionVariable};
use running_sharing::Shares;
use std::alloc::Allocator;

impl<A: Allocator, S> Shares<ConditionVariable<A, S>> for CondPass {
    ghost use Rattle.running_passes.specs.Passes.{part_of};
    ghost use Rattle.running_condvar.specs.CondShown.{IsCondPass, waits_in, permits_in};

    // It is the same part of both passes inside.
    ghost idle = { λ condvar p. IsCondPass condvar p × (part_of (permits_in p) ≡ part_of (waits_in p)) };

    ghost part = { λ p. part_of (waits_in p) };

    fn cut(self, of: &ConditionVariable<A, S>) -> (CondPass, CondPass) {
        let Ok(parts) = self.split(of) else {
            unreachable!()
        };
        parts
    }

    fn mend(one: CondPass, other: CondPass, of: &ConditionVariable<A, S>) -> CondPass {
        let Ok(pass) = CondPass::join(one, other, of) else {
            unreachable!()
        };
        pass
    }
}
