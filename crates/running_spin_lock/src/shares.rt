//! Its pass can be parted, for many threads.

use crate::{SpinLock, SpinPass};
use running_sharing::Shares;
use std::alloc::Allocator;

impl<T, A: Allocator> Shares<SpinLock<T, A>> for SpinPass {
    ghost use Rattle.running_spin_lock.specs.SpinShown.{IsSpinPass, part_of};

    ghost idle = { IsSpinPass };

    ghost part = { part_of };

    fn cut(self, of: &SpinLock<T, A>) -> (SpinPass, SpinPass) {
        let Ok(parts) = self.split(of) else {
            unreachable!()
        };
        parts
    }

    fn mend(one: SpinPass, other: SpinPass, of: &SpinLock<T, A>) -> SpinPass {
        let Ok(pass) = SpinPass::join(one, other, of) else {
            unreachable!()
        };
        pass
    }
}
