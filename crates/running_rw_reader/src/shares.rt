//! Its pass can be parted, for many threads.
ghost use Rattle.std.specs.Prelude.{◌≡◌};

use crate::{RwLockReaderPreference, RwReaderPass};
use running_sharing::Shares;
use std::alloc::Allocator;

impl<A: Allocator, S> Shares<RwLockReaderPreference<A, S>> for RwReaderPass {
    ghost use Rattle.running_passes.specs.Passes.{part_of};
    ghost use Rattle.running_rw_reader.specs.RwReaderShown.{IsRwReaderPass, reads_of, writes_of};

    ghost idle = { λ lock p. IsRwReaderPass lock p × (reads_of p ≡ 0) × (writes_of p ≡ 0) };

    ghost part = { part_of };

    fn cut(self, of: &RwLockReaderPreference<A, S>) -> (RwReaderPass, RwReaderPass) {
        let Ok(parts) = self.split(of) else {
            unreachable!()
        };
        parts
    }

    fn mend(
        one: RwReaderPass,
        other: RwReaderPass,
        of: &RwLockReaderPreference<A, S>,
    ) -> RwReaderPass {
        let Ok(pass) = RwReaderPass::join(one, other, of) else {
            unreachable!()
        };
        pass
    }
}
