//! A sum of 128 bits: four threads add to one number, each a thousand times, and what it then is was proved.
#![tactic(auto)]

ghost use Rattle.std.specs.Prelude.{◌≡◌, ◌*◌, ◌^◌, IfOk};
ghost use Rattle.running_passes.specs.Parts.{IsAgain};
ghost use Rattle.model_events.specs.Integers.{u128_arithmetic};
ghost use Rattle.running_atomic.specs.AtomicShown.{IsAtomicPass, HasStayed, part_of_atomic};
ghost use Rattle.running_atomic.specs.Additions.{HasAdded};

use running_atomic::{Atomic, AtomicPass};
use std::alloc::{AllocError, Global};
use std::sync::Wait;
use std::sync::atomic::Ordering;
use std::thread::Threads;
use std::{io, thread};

/// What each addition adds: 2^60, so that sixteen of them are more than 64 bits hold.
const STEP: u128 = 1152921504606846976;

fn main(rt: HostRuntime) -> io::Result<()> {
    let sum = sum_of_four(&rt, rt.alloc())?;
    println!(rt; "{sum}")
}

/// What the number is once four threads have added to it, each a thousand times.
fn sum_of_four<R: Threads + Wait + Sync>(rt: &R, alloc: Global) -> Result<u128, AllocError>
    ensures sum { IfOk result (λ sum. sum ≡ 4000 * 2 ^ 60) }
{
    let (number, pass) = Atomic::<u128>::new(alloc, 0)?;
    let pass = add_by_four(rt, &number, pass);
    Ok(number.into_inner(pass))
}

/// Two threads, each of which has the addition made by two more.
fn add_by_four<R: Threads + Wait + Sync>(
    rt: &R,
    number: &Atomic<u128>,
    pass: AtomicPass<u128>,
) -> AtomicPass<u128>
    requires own { IsAtomicPass number.now pass }
    requires fresh { HasAdded u128_arithmetic STEP 0 pass }
    ensures own { IsAtomicPass number.now result }
    ensures again { IsAgain (part_of_atomic pass) (part_of_atomic result) }
    ensures added { HasAdded u128_arithmetic STEP 4000 result }
{
    let Ok((one, two)) = pass.split(number) else {
        unreachable!()
    };
    let (one, two) = thread::join(
        rt,
        || -> AtomicPass<u128>
            requires { IsAtomicPass number.now one × HasAdded u128_arithmetic STEP 0 one }
            ensures { IsAtomicPass number.entry.now result × IsAgain (part_of_atomic one) (part_of_atomic result) × HasAdded u128_arithmetic STEP 2000 result }
        { add_by_two(rt, number, one) },
        || -> AtomicPass<u128>
            requires { IsAtomicPass number.now two × HasAdded u128_arithmetic STEP 0 two }
            ensures { IsAtomicPass number.entry.now result × IsAgain (part_of_atomic two) (part_of_atomic result) × HasAdded u128_arithmetic STEP 2000 result }
        { add_by_two(rt, number, two) },
    );
    let Ok(pass) = AtomicPass::join(one, two, number) else {
        unreachable!()
    };
    pass
}

/// Two threads add, each a thousand times.
fn add_by_two<R: Threads + Wait + Sync>(
    rt: &R,
    number: &Atomic<u128>,
    pass: AtomicPass<u128>,
) -> AtomicPass<u128>
    requires own { IsAtomicPass number.now pass }
    requires fresh { HasAdded u128_arithmetic STEP 0 pass }
    ensures own { IsAtomicPass number.now result }
    ensures again { IsAgain (part_of_atomic pass) (part_of_atomic result) }
    ensures added { HasAdded u128_arithmetic STEP 2000 result }
{
    let Ok((one, two)) = pass.split(number) else {
        unreachable!()
    };
    let (one, two) = thread::join(
        rt,
        || -> AtomicPass<u128>
            requires { IsAtomicPass number.now one × HasAdded u128_arithmetic STEP 0 one }
            ensures { HasStayed one result × HasAdded u128_arithmetic STEP 1000 result }
        { add_often(rt, number, one) },
        || -> AtomicPass<u128>
            requires { IsAtomicPass number.now two × HasAdded u128_arithmetic STEP 0 two }
            ensures { HasStayed two result × HasAdded u128_arithmetic STEP 1000 result }
        { add_often(rt, number, two) },
    );
    let Ok(pass) = AtomicPass::join(one, two, number) else {
        unreachable!()
    };
    pass
}

/// Adds a thousand times.
fn add_often<R: Wait>(rt: &R, number: &Atomic<u128>, mut pass: AtomicPass<u128>) -> AtomicPass<u128>
    requires own { IsAtomicPass number.now pass }
    requires fresh { HasAdded u128_arithmetic STEP 0 pass }
    ensures stayed { HasStayed pass result }
    ensures added { HasAdded u128_arithmetic STEP 1000 result }
{
    for _ in 0..1000u64 {
        number.fetch_add(rt, &mut pass, STEP, Ordering::SeqCst);
    }
    pass
}
