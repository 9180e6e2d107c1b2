//! A storm at a barrier for 4, by four threads.
ghost use Rattle.std.specs.Prelude.{◌≡◌};
ghost use Rattle.running_passes.specs.Passes.{part_of};
ghost use Rattle.running_barrier.specs.BarrierShown.{IsBarrierPass, waiters_of};

use crate::crowd::{Means, Object};
use crate::platform::Platform;
use crate::tally::Tally;
use iceoryx2_pal_concurrency_sync::strategy::barrier::{Barrier, BarrierPass};
use iceoryx2_pal_concurrency_sync::{Shares, WaitAction, WaitWord};
use std::alloc::{AllocError, Global};
use std::sync::Wait;
use std::time::{Clock, Duration};

/// A barrier whose round is full at four.
#[derive(Drop)]
pub struct ForFour {
    barrier: Barrier,
    ghost for_four: { waiters_of barrier ≡ 4 },
}

impl Shares<ForFour> for BarrierPass {
    ghost idle = { λ of p. IsBarrierPass of.barrier p };

    ghost part = { part_of };

    fn cut(self, of: &ForFour) -> (BarrierPass, BarrierPass) {
        let Ok(parts) = self.split(&of.barrier) else {
            unreachable!()
        };
        parts
    }

    fn mend(one: BarrierPass, other: BarrierPass, of: &ForFour) -> BarrierPass {
        let Ok(pass) = BarrierPass::join(one, other, &of.barrier) else {
            unreachable!()
        };
        pass
    }
}

impl Object<BarrierPass> for ForFour {
    const WOKEN_ALONE: u64 = 0;

    fn make(alloc: Global) -> Result<(Self, BarrierPass), AllocError> {
        let (barrier, pass) = Barrier::new(alloc, 4)?;
        Ok((ForFour { barrier }, pass))
    }

    /// A wait at a barrier ends with the round alone, whatever its closure says. Its round stands in the high half of its word, so a sleep on
    /// the word itself is short. Only a barrier for nobody is full: by proof.
    fn turn<
        R: Wait + Clock,
        B: Platform + Drop,
        W: Fn(&WaitWord, &u64) -> WaitAction + Copy,
        K: Fn(&WaitWord) + Copy,
        V: Fn(&WaitWord) + Copy,
    >(&self, rt: &R, pass: &mut BarrierPass, _number: u64, turn: u64, by: &Means<B, W, K, V>) {
        by.tally.arrive();
        let wait = |word: &WaitWord, seen: &u64| {
            by.at
                .all
                .wait(rt, by.tally, word, *seen, Duration::from_millis(1));
        };
        let Ok(()) = self.barrier.wait(rt, pass, wait, by.wake_all) else {
            unreachable!()
        };
        by.tally.depart(turn);
    }

    fn end<R: Wait + Clock>(
        self,
        _rt: &R,
        _pass: BarrierPass,
        _tally: &Tally,
    ) -> (u64, Option<u64>) {
        (0, None)
    }
}
