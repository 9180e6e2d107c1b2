//! Its pass can be parted, for many threads.
ghost use Rattle.std.specs.Prelude.{◌≡◌};

use crate::{Gives, LazyLock, LazyPass};
use running_sharing::Shares;
use std::alloc::Allocator;

impl<T: Drop, F: Drop, G: Gives<T, F>, A: Allocator + Clone> Shares<LazyLock<T, F, G, A>>
    for LazyPass {
    ghost use Rattle.running_lazy_lock.specs.LazyShown.{IsLazyPass, part_of, part_of_init};

    ghost idle = { λ lazy p. IsLazyPass lazy p × (part_of_init p ≡ part_of p) };

    ghost part = { part_of };

    fn cut(self, of: &LazyLock<T, F, G, A>) -> (LazyPass, LazyPass) {
        let Ok(parts) = self.split(of) else {
            unreachable!()
        };
        parts
    }

    fn mend(one: LazyPass, other: LazyPass, of: &LazyLock<T, F, G, A>) -> LazyPass {
        let Ok(pass) = LazyPass::join(one, other, of) else {
            unreachable!()
        };
        pass
    }
}
