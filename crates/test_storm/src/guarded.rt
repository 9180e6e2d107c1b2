//! A storm at a guarded value and a condition variable: two put in, and notify; six wait, and take out.
ghost use Rattle.std.specs.Prelude.{◌≡◌};
ghost use Rattle.running_guarded.specs.GuardedShown.{IsGuardedPass, part_of, HasStayed};
ghost use Rattle.running_condvar.specs.CondShown.{IsCondPass};

use crate::crowd::{Means, Object};
use crate::platform::{Impatient, Platform};
use crate::tally::Tally;
use iceoryx2_pal_concurrency_sync::strategy::condition_variable::{CondPass, ConditionVariable};
use iceoryx2_pal_concurrency_sync::{Shares, WaitAction, WaitResult, WaitWord};
use running_guarded::{Guarded, GuardedPass};
use std::alloc::{AllocError, Global};
use std::sync::Wait;
use std::sync::atomic::{AtomicU64, Ordering};
use std::time::Clock;

/// A number that is guarded, and where those wait who want it to be more.
#[derive(Drop)]
pub struct Stock {
    value: Guarded<u64>,
    more: ConditionVariable,
}

/// The right to both.
#[derive(Drop)]
pub struct Passes {
    value: GuardedPass,
    more: CondPass,
}

impl Shares<Stock> for Passes {
    ghost idle = { λ stock p. IsGuardedPass stock.value p.value × IsCondPass stock.more p.more };

    ghost part = { λ p. part_of p.value };

    fn cut(self, of: &Stock) -> (Passes, Passes) {
        let Ok((value, other_value)) = self.value.split(&of.value) else {
            unreachable!()
        };
        let Ok((more, other_more)) = self.more.split(&of.more) else {
            unreachable!()
        };
        let other = Passes {
            value: other_value,
            more: other_more,
        };
        (Passes { value, more }, other)
    }

    fn mend(one: Passes, other: Passes, of: &Stock) -> Passes {
        let Ok(value) = GuardedPass::join(one.value, other.value, &of.value) else {
            unreachable!()
        };
        let Ok(more) = CondPass::join(one.more, other.more, &of.more) else {
            unreachable!()
        };
        Passes { value, more }
    }
}

impl Object<Passes> for Stock {
    /// Who takes out, and waits at the condition variable.
    const WOKEN_ALONE: u64 = 0;

    fn make(alloc: Global) -> Result<(Self, Passes), AllocError> {
        let (more, more_pass) = ConditionVariable::new(alloc)?;
        match Guarded::new(alloc, 0u64) {
            Ok((value, value_pass)) => Ok((
                Stock { value, more },
                Passes {
                    value: value_pass,
                    more: more_pass,
                },
            )),
            Err((error, _)) => Err(error),
        }
    }

    /// The first two put in, and the others take out.
    fn turn<
        R: Wait + Clock,
        B: Platform + Drop,
        W: Fn(&WaitWord, &u64) -> WaitAction + Copy,
        K: Fn(&WaitWord) + Copy,
        V: Fn(&WaitWord) + Copy,
    >(&self, rt: &R, pass: &mut Passes, number: u64, _turn: u64, by: &Means<B, W, K, V>) {
        if number < 2 {
            self.put(rt, pass, by);
        } else {
            self.take(rt, pass, by);
        }
    }

    /// What was put in and not taken out has to be there, and nobody is counted as waiting any more.
    fn end<R: Wait + Clock>(self, rt: &R, mut pass: Passes, tally: &Tally) -> (u64, Option<u64>) {
        let lost = match self.add(rt, &mut pass.value, tally, 0, &Impatient) {
            WaitResult::Success(left) => left.abs_diff(tally.rest()),
            WaitResult::Interrupted => u64::MAX,
        };
        let still = still_counted(&self.more, &mut pass.more);
        (lost.saturating_add(still), None)
    }
}

impl Stock {
    /// Adds so much to the number, which is then this.
    fn add<R: Wait + Clock, B: Platform + Drop>(
        &self,
        rt: &R,
        pass: &mut GuardedPass,
        tally: &Tally,
        amount: u64,
        at: &B,
    ) -> WaitResult<u64>
        requires own { IsGuardedPass self.now.value pass.old }
        ensures stayed { HasStayed pass.old pass.new }
    {
        self.value.with(
            rt,
            pass,
            |word, seen| at.wait(rt, tally, word, *seen, Tally::patience()),
            |word| at.wake_one(word),
            |number| {
                *number = number.wrapping_add(amount);
                *number
            },
        )
    }

    /// Puts three in, and notifies all.
    fn put<
        R: Wait + Clock,
        B: Platform + Drop,
        W: Fn(&WaitWord, &u64) -> WaitAction + Copy,
        K: Fn(&WaitWord) + Copy,
        V: Fn(&WaitWord) + Copy,
    >(&self, rt: &R, pass: &mut Passes, by: &Means<B, W, K, V>)
        requires own { IsGuardedPass self.now.value pass.old.value × IsCondPass self.now.more pass.old.more }
        requires may { V.IsAlwaysCallable by.now.wake_all }
        ensures own { IsGuardedPass self.now.value pass.new.value × IsCondPass self.now.more pass.new.more }
        ensures same { part_of pass.new.value ≡ part_of pass.old.value }
    {
        match self.add(rt, &mut pass.value, by.tally, 3, &by.at.one) {
            WaitResult::Success(_) => {
                by.tally.put(3);
                self.more.notify_all(&mut pass.more, by.wake_all);
            }
            WaitResult::Interrupted => {}
        }
    }

    /// Waits until there is one to take out.
    fn take<
        R: Wait + Clock,
        B: Platform + Drop,
        W: Fn(&WaitWord, &u64) -> WaitAction + Copy,
        K: Fn(&WaitWord) + Copy,
        V: Fn(&WaitWord) + Copy,
    >(&self, rt: &R, pass: &mut Passes, by: &Means<B, W, K, V>)
        requires own { IsGuardedPass self.now.value pass.old.value × IsCondPass self.now.more pass.old.more }
        requires may { W.IsAlwaysCallable by.now.wait }
        ensures own { IsGuardedPass self.now.value pass.new.value × IsCondPass self.now.more pass.new.more }
        ensures same { part_of pass.new.value ≡ part_of pass.old.value }
    {
        let taken = self.value.when(
            rt,
            &mut pass.value,
            |word| by.at.one.wake_one(word),
            &self.more,
            &mut pass.more,
            by.wait,
            |number| {
                *number = number.checked_sub(1)?;
                Some(())
            },
        );
        match taken {
            WaitResult::Success(()) => by.tally.take(1),
            WaitResult::Interrupted => {}
        }
    }
}

/// How many the condition variable counts as waiting. A notify gives a permit for each of them, so the second of two tells by how much the
/// permits have grown.
fn still_counted(more: &ConditionVariable, pass: &mut CondPass) -> u64
    requires own { IsCondPass more.now pass.old }
{
    let before = permits_after_a_notify(more, pass);
    permits_after_a_notify(more, pass).wrapping_sub(before)
}

/// How many permits there are once a notify has given its own.
fn permits_after_a_notify(more: &ConditionVariable, pass: &mut CondPass) -> u64
    requires own { IsCondPass more.now pass.old }
    ensures own { IsCondPass more.now pass.new }
{
    let permits = AtomicU64::new(0);
    more.notify_all(pass, |word| permits.store(word.load(), Ordering::SeqCst));
    permits.load(Ordering::SeqCst)
}
