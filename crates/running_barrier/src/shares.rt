//! Its pass can be parted, for many threads.

use crate::{Barrier, BarrierPass};
use running_sharing::Shares;
use std::alloc::Allocator;

impl<A: Allocator, S> Shares<Barrier<A, S>> for BarrierPass {
    ghost use Rattle.running_passes.specs.Passes.{part_of};
    ghost use Rattle.running_barrier.specs.BarrierShown.{IsBarrierPass};

    ghost idle = { IsBarrierPass };

    ghost part = { part_of };

    fn cut(self, of: &Barrier<A, S>) -> (BarrierPass, BarrierPass) {
        let Ok(parts) = self.split(of) else {
            unreachable!()
        };
        parts
    }

    fn mend(one: BarrierPass, other: BarrierPass, of: &Barrier<A, S>) -> BarrierPass {
        let Ok(pass) = BarrierPass::join(one, other, of) else {
            unreachable!()
        };
        pass
    }
}
