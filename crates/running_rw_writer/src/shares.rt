//! Its pass can be parted, for many threads.
ghost use Rattle.std.specs.Prelude.{◌≡◌};

use crate::{RwLockWriterPreference, RwWriterPass};
use running_sharing::Shares;
use std::alloc::Allocator;

impl<A: Allocator, S> Shares<RwLockWriterPreference<A, S>> for RwWriterPass {
    ghost use Rattle.running_rw_writer.specs.RwWriterShown.{IsRwWriterPass, part_in, pass_in, reads_of, writes_of};

    ghost idle = { λ lock p. IsRwWriterPass lock p × (reads_of (pass_in p) ≡ 0) × (writes_of (pass_in p) ≡ 0) };

    ghost part = { part_in };

    fn cut(self, of: &RwLockWriterPreference<A, S>) -> (RwWriterPass, RwWriterPass) {
        let Ok(parts) = self.split(of) else {
            unreachable!()
        };
        parts
    }

    fn mend(
        one: RwWriterPass,
        other: RwWriterPass,
        of: &RwLockWriterPreference<A, S>,
    ) -> RwWriterPass {
        let Ok(pass) = RwWriterPass::join(one, other, of) else {
            unreachable!()
        };
        pass
    }
}
