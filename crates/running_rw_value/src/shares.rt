//! Its pass can be parted, for many threads.
ghost use Rattle.std.specs.Prelude.{◌≡◌};

use crate::RwLock;
use running_rw_writer::RwWriterPass;
use running_sharing::Shares;
use std::alloc::Allocator;

impl<T, A: Allocator> Shares<RwLock<T, A>> for RwWriterPass {
    ghost use Rattle.running_rw_writer.specs.RwWriterShown.{part_in, pass_in, reads_of, writes_of};
    ghost use Rattle.running_rw_value.specs.RwValueShown.{IsRwValuePass};

    ghost idle = { λ lock p. IsRwValuePass lock p × (reads_of (pass_in p) ≡ 0) × (writes_of (pass_in p) ≡ 0) };

    ghost part = { part_in };

    fn cut(self, of: &RwLock<T, A>) -> (RwWriterPass, RwWriterPass) {
        let Ok(parts) = self.split(of.front()) else {
            unreachable!()
        };
        parts
    }

    fn mend(one: RwWriterPass, other: RwWriterPass, of: &RwLock<T, A>) -> RwWriterPass {
        let Ok(pass) = RwWriterPass::join(one, other, of.front()) else {
            unreachable!()
        };
        pass
    }
}
