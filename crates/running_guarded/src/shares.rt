//! Its pass can be parted, for many threads.

use crate::{Guarded, GuardedPass};
use running_sharing::Shares;
use std::alloc::Allocator;

impl<T, A: Allocator> Shares<Guarded<T, A>> for GuardedPass {
    ghost use Rattle.running_guarded.specs.GuardedShown.{IsGuardedPass, part_of};

    ghost idle = { IsGuardedPass };

    ghost part = { part_of };

    fn cut(self, of: &Guarded<T, A>) -> (GuardedPass, GuardedPass) {
        let Ok(parts) = self.split(of) else {
            unreachable!()
        };
        parts
    }

    fn mend(one: GuardedPass, other: GuardedPass, of: &Guarded<T, A>) -> GuardedPass {
        let Ok(pass) = GuardedPass::join(one, other, of) else {
            unreachable!()
        };
        pass
    }
}
