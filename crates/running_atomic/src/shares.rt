//! Its pass can be parted, for many threads.

use crate::{Atomic, AtomicPass};
use running_sharing::Shares;
use std::alloc::Allocator;

// For each type by itself: the borrow checker covers no call of `split` that is generic in the value.

impl<A: Allocator> Shares<Atomic<u64, A>> for AtomicPass<u64> {
    ghost use Rattle.running_atomic.specs.AtomicShown.{IsAtomicPass, part_of_atomic};

    ghost idle = { IsAtomicPass };

    ghost part = { part_of_atomic };

    fn cut(self, of: &Atomic<u64, A>) -> (AtomicPass<u64>, AtomicPass<u64>) {
        let Ok(parts) = self.split(of) else {
            unreachable!()
        };
        parts
    }

    fn mend(one: AtomicPass<u64>, other: AtomicPass<u64>, of: &Atomic<u64, A>) -> AtomicPass<u64> {
        let Ok(pass) = AtomicPass::join(one, other, of) else {
            unreachable!()
        };
        pass
    }
}

impl<A: Allocator> Shares<Atomic<u128, A>> for AtomicPass<u128> {
    ghost use Rattle.running_atomic.specs.AtomicShown.{IsAtomicPass, part_of_atomic};

    ghost idle = { IsAtomicPass };

    ghost part = { part_of_atomic };

    fn cut(self, of: &Atomic<u128, A>) -> (AtomicPass<u128>, AtomicPass<u128>) {
        let Ok(parts) = self.split(of) else {
            unreachable!()
        };
        parts
    }

    fn mend(
        one: AtomicPass<u128>,
        other: AtomicPass<u128>,
        of: &Atomic<u128, A>,
    ) -> AtomicPass<u128> {
        let Ok(pass) = AtomicPass::join(one, other, of) else {
            unreachable!()
        };
        pass
    }
}

impl<A: Allocator> Shares<Atomic<i64, A>> for AtomicPass<i64> {
    ghost use Rattle.running_atomic.specs.AtomicShown.{IsAtomicPass, part_of_atomic};

    ghost idle = { IsAtomicPass };

    ghost part = { part_of_atomic };

    fn cut(self, of: &Atomic<i64, A>) -> (AtomicPass<i64>, AtomicPass<i64>) {
        let Ok(parts) = self.split(of) else {
            unreachable!()
        };
        parts
    }

    fn mend(one: AtomicPass<i64>, other: AtomicPass<i64>, of: &Atomic<i64, A>) -> AtomicPass<i64> {
        let Ok(pass) = AtomicPass::join(one, other, of) else {
            unreachable!()
        };
        pass
    }
}

impl<A: Allocator> Shares<Atomic<i128, A>> for AtomicPass<i128> {
    ghost use Rattle.running_atomic.specs.AtomicShown.{IsAtomicPass, part_of_atomic};

    ghost idle = { IsAtomicPass };

    ghost part = { part_of_atomic };

    fn cut(self, of: &Atomic<i128, A>) -> (AtomicPass<i128>, AtomicPass<i128>) {
        let Ok(parts) = self.split(of) else {
            unreachable!()
        };
        parts
    }

    fn mend(
        one: AtomicPass<i128>,
        other: AtomicPass<i128>,
        of: &Atomic<i128, A>,
    ) -> AtomicPass<i128> {
        let Ok(pass) = AtomicPass::join(one, other, of) else {
            unreachable!()
        };
        pass
    }
}
