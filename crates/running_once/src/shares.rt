//! Its pass can be parted, for many threads.

use crate::{Once, OncePass};
use running_sharing::Shares;
use std::alloc::Allocator;

impl<A: Allocator> Shares<Once<A>> for OncePass {
    ghost use Rattle.running_once.specs.OnceShown.{IsOncePass, part_of_once};

    ghost idle = { IsOncePass };

    ghost part = { part_of_once };

    fn cut(self, of: &Once<A>) -> (OncePass, OncePass) {
        let Ok(parts) = self.split(of) else {
            unreachable!()
        };
        parts
    }

    fn mend(one: OncePass, other: OncePass, of: &Once<A>) -> OncePass {
        let Ok(pass) = OncePass::join(one, other, of) else {
            unreachable!()
        };
        pass
    }
}
