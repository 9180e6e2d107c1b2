//! The mutex that guards a value, at which one sleeps.
ghost use Rattle.running_guarded.specs.GuardedShown.{IsGuardedPass};

use crate::race::Contended;
use crate::work::Work;
use iceoryx2_pal_concurrency_sync::{Sleepers, WaitResult};
use running_guarded::{Guarded, GuardedPass};
use std::alloc::{AllocError, Global};
use std::sync::Wait;

/// A number that is guarded.
#[derive(Drop)]
pub struct Number {
    number: Guarded<u64>,
    sleepers: Sleepers,
}

impl Contended<GuardedPass> for Number {
    ghost owns = { λ number p. IsGuardedPass number.number p };

    fn make(alloc: Global) -> Result<(Self, GuardedPass), AllocError> {
        let sleepers = Sleepers::new();
        match Guarded::new(alloc, 0u64) {
            Ok((number, pass)) => Ok((Number { number, sleepers }, pass)),
            Err((error, _)) => Err(error),
        }
    }

    fn part(&self, pass: GuardedPass) -> (GuardedPass, GuardedPass) {
        let Ok(parts) = pass.split(&self.number) else {
            unreachable!()
        };
        parts
    }

    #[inline(always)]
    fn operate<R: Wait>(&self, rt: &R, pass: &mut GuardedPass, work: &mut Work) {
        match self.number.with(
            rt,
            pass,
            |word, seen| self.sleepers.sleep(rt, word, *seen),
            |_| self.sleepers.wake_one(),
            |number| {
                work.go();
                *number = number.wrapping_add(1);
            },
        ) {
            WaitResult::Success(()) => work.go(),
            WaitResult::Interrupted => unreachable!(),
        }
    }
}
