//! Threads that meet at the value.
ghost use Rattle.running_passes.specs.Parts.{IsWhole};
ghost use Rattle.running_guarded.specs.GuardedShown.{IsGuardedPass, HasStayed, part_of};

use super::party::new_guarded;
use super::{wake_nobody_at_value, yield_at_value};
use running_guarded::{Guarded, GuardedPass};
use running_passes::WaitResult;
use running_sharing::in_threads;
use std::alloc::AllocError;
use std::sync::Wait;
use std::test::Fail;
use std::thread;
use std::thread::Threads;

/// Pushes these numbers under one guard, and tells whether there was memory.
fn push_all<R: Wait>(
    rt: &R,
    guarded: &Guarded<Vec<u64>>,
    mut pass: GuardedPass,
    numbers: &[u64],
) -> (GuardedPass, bool)
    requires own { IsGuardedPass guarded.now pass }
    ensures stayed { HasStayed pass result.0 }
{
    let pushed = match Guarded::lock(&mut pass, guarded, rt, yield_at_value) {
        WaitResult::Success(mut guard) => {
            let pushed = extend(&mut guard, numbers).is_ok();
            Guarded::unlock(guard, wake_nobody_at_value);
            pushed
        }
        WaitResult::Interrupted => unreachable!(),
    };
    (pass, pushed)
}

fn extend(list: &mut Vec<u64>, numbers: &[u64]) -> Result<(), AllocError> {
    for number in numbers {
        list.push(*number)?;
    }
    Ok(())
}

/// Two threads push 1, and 2 and 3, with the parts of this pass: what the vector then has, and whether there was memory.
fn push_by_two<R: Threads + Wait + Sync>(
    rt: &R,
    guarded: Guarded<Vec<u64>>,
    pass: GuardedPass,
) -> (Vec<u64>, bool)
    requires own { IsGuardedPass guarded pass }
    requires whole { IsWhole (part_of pass) }
{
    let Ok((one, two)) = pass.split(&guarded) else {
        unreachable!()
    };
    let ((one, first), (two, second)) = thread::join(
        rt,
        || -> (GuardedPass, bool)
            requires { IsGuardedPass guarded one }
            ensures { HasStayed one result.0 }
        { push_all(rt, &guarded, one, &[1]) },
        || -> (GuardedPass, bool)
            requires { IsGuardedPass guarded two }
            ensures { HasStayed two result.0 }
        { push_all(rt, &guarded, two, &[2, 3]) },
    );
    let Ok(pass) = GuardedPass::join(one, two, &guarded) else {
        unreachable!()
    };
    (guarded.into_inner(pass), first && second)
}

#[test]
fn two_threads_push_to_one_vector(rt: HostRuntime) -> Result<(), Fail> {
    let Ok((guarded, pass)) = Guarded::new(rt.alloc(), Vec::new(rt.alloc())) else {
        return Err("no memory")?;
    };
    let (list, had_memory) = push_by_two(&rt, guarded, pass);
    let list = list.as_slice();
    let in_order = list == [1, 2, 3].as_slice() || list == [2, 3, 1].as_slice();
    assert!(rt; had_memory && in_order);
    Ok(())
}

/// A closure that acts by adding 1.
fn add_one(number: &mut u64) {
    *number = number.wrapping_add(1);
}

/// Adds 1 to the value 2500 times.
fn count_up<R: Wait>(rt: &R, guarded: &Guarded<u64>, mut pass: GuardedPass) -> GuardedPass
    requires own { IsGuardedPass guarded.now pass }
    ensures stayed { HasStayed pass result }
{
    for _ in 0..2500u64 {
        match guarded.with(rt, &mut pass, yield_at_value, wake_nobody_at_value, add_one) {
            WaitResult::Success(()) => {}
            WaitResult::Interrupted => unreachable!(),
        }
    }
    pass
}

#[test]
fn no_addition_is_lost(rt: HostRuntime) -> Result<(), Fail> {
    let (guarded, pass) = new_guarded(rt.alloc(), 0)?;
    let pass = in_threads(
        &rt,
        &guarded,
        pass,
        2,
        &|pass| { count_up(&rt, &guarded, pass) },
    );
    assert_eq!(rt; guarded.into_inner(pass), 5000);
    Ok(())
}
