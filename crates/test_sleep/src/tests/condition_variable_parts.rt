//! Passes of a condition variable that are parted, and joined again.
ghost use Rattle.std.specs.Prelude.{◌≡◌};
ghost use Rattle.running_passes.specs.Parts.{IsWhole};
ghost use Rattle.running_passes.specs.Passes.{part_of};
ghost use Rattle.running_condvar.specs.CondShown.{IsCondPass, HasStayed, HasGiven, waits_in, permits_in};

use iceoryx2_pal_concurrency_sync::strategy::condition_variable::{CondPass, ConditionVariable};
use iceoryx2_pal_concurrency_sync::{in_threads, wake_nobody};
use std::sync::atomic::{AtomicU64, Ordering};
use std::test::Fail;
use std::thread::Threads;

/// Parts a pass of which nothing is known but that it is whole, in three, and joins them again.
fn part_and_join(condvar: &ConditionVariable, pass: CondPass) -> CondPass
    requires own { IsCondPass condvar.now pass }
    requires whole { IsWhole (part_of (waits_in pass)) × IsWhole (part_of (permits_in pass)) }
    ensures own { IsCondPass condvar.now result }
    ensures whole { IsWhole (part_of (waits_in result)) × IsWhole (part_of (permits_in result)) }
{
    let Ok((one, other)) = pass.split(condvar) else {
        unreachable!()
    };
    let Ok((two, three)) = other.split(condvar) else {
        unreachable!()
    };
    let Ok(other) = CondPass::join(two, three, condvar) else {
        unreachable!()
    };
    let Ok(pass) = CondPass::join(one, other, condvar) else {
        unreachable!()
    };
    pass
}

/// Notifies all by the whole pass, so nobody waits and nothing is given. The permits that its wake closure loads.
fn notify_nobody(condvar: &ConditionVariable, pass: &mut CondPass) -> u64
    requires own { IsCondPass condvar.now pass.old }
    requires whole { IsWhole (part_of (waits_in pass.old)) }
    ensures none { HasGiven 0 0 pass.old pass.new }
{
    let permits = AtomicU64::new(9);
    condvar.notify_all(pass, |word| permits.store(word.load(), Ordering::SeqCst));
    permits.load(Ordering::SeqCst)
}

#[test]
fn parts_are_the_whole_again(rt: HostRuntime) -> Result<(), Fail> {
    let (condvar, pass) = ConditionVariable::new(rt.alloc())?;
    let mut pass = part_and_join(&condvar, pass);
    assert_eq!(rt; notify_nobody(&condvar, &mut pass), 0);
    Ok(())
}

fn notify_once(condvar: &ConditionVariable, mut pass: CondPass) -> CondPass
    requires own { IsCondPass condvar.now pass }
    ensures stayed { HasStayed pass result }
{
    condvar.notify_one(&mut pass, wake_nobody);
    pass
}

/// Notifies in four threads, each with a part of the whole pass, which is whole again at the end.
fn notify_in_threads<R: Threads + Sync>(
    rt: &R,
    condvar: &ConditionVariable,
    pass: CondPass,
) -> CondPass
    requires own { IsCondPass condvar.now pass }
    requires whole { IsWhole (part_of (waits_in pass)) }
    requires one_part { part_of (permits_in pass) ≡ part_of (waits_in pass) }
    ensures own { IsCondPass condvar.now result }
    ensures whole { IsWhole (part_of (waits_in result)) }
{
    in_threads(rt, condvar, pass, 4, &|pass| { notify_once(condvar, pass) })
}

#[test]
fn four_threads_notify_nobody(rt: HostRuntime) -> Result<(), Fail> {
    let (condvar, pass) = ConditionVariable::new(rt.alloc())?;
    let mut pass = notify_in_threads(&rt, &condvar, pass);
    assert_eq!(rt; notify_nobody(&condvar, &mut pass), 0);
    Ok(())
}
