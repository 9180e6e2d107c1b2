//! A crowd of threads at one object.
ghost use Rattle.std.specs.Prelude.{◌≡◌, IfOk};
ghost use Rattle.running_passes.specs.Parts.{IsWhole};

use crate::platform::{Platform, Platforms};
use crate::tally::{Outcome, Tally};
use iceoryx2_pal_concurrency_sync::{Shares, WaitAction, WaitWord, in_threads};
use std::alloc::{AllocError, Global};
use std::sync::Wait;
use std::thread::Threads;
use std::time::Clock;

/// What one of a crowd has at hand. The closures are made once for all objects, since each one more has to be proved.
#[derive(Drop)]
pub struct Means<'c, B: Platform + Drop, W, K, V> {
    pub tally: &'c Tally,
    pub at: &'c Platforms<B>,
    /// Waits where this one is to wait.
    pub wait: W,
    /// Wakes one of those that are woken one at a time.
    pub wake_one: K,
    /// Wakes all of those that are woken together.
    pub wake_all: V,
}

/// An object that a crowd calls, each of it with a part of this pass.
pub trait Object<P: Shares<Self>>: Sized {
    /// So many of the crowd, the first of it, are woken one at a time, and the others together.
    const WOKEN_ALONE: u64;

    /// The object, and the pass that is whole.
    fn make(alloc: Global) -> Result<(Self, P), AllocError>
        ensures idle { IfOk result (λ made. P.idle made.0 made.1) }
        ensures whole { IfOk result (λ made. IsWhole (P.part made.1)) };

    /// One turn of one of the crowd. Each has a number, 0, 1 and so on, and counts its turns from 0.
    fn turn<
        R: Wait + Clock,
        B: Platform + Drop,
        W: Fn(&WaitWord, &u64) -> WaitAction + Copy,
        K: Fn(&WaitWord) + Copy,
        V: Fn(&WaitWord) + Copy,
    >(&self, rt: &R, pass: &mut P, number: u64, turn: u64, by: &Means<B, W, K, V>)
        requires idle { P.idle self.now pass.old }
        requires may { W.IsAlwaysCallable by.now.wait × K.IsAlwaysCallable by.now.wake_one × V.IsAlwaysCallable by.now.wake_all }
        ensures idle { P.idle self.now pass.new }
        ensures same { P.part pass.new ≡ P.part pass.old };

    /// Ends the object: how much was lost, and its word where it has a `close`.
    fn end<R: Wait + Clock>(self, rt: &R, pass: P, tally: &Tally) -> (u64, Option<u64>)
        requires idle { P.idle self pass }
        requires whole { IsWhole (P.part pass) };
}

/// What the storm of so many threads at an object came to.
pub fn storm<
    O: Object<P> + Sync + Drop,
    P: Shares<O> + Send + Drop,
    B: Platform + Sync + Drop,
    R: Threads + Wait + Clock + Sync,
>(
    rt: &R,
    alloc: Global,
    name: &'static str,
    how: &'static str,
    crowd: usize,
    turns: u64,
) -> Result<Outcome, AllocError> {
    let (object, pass) = O::make(alloc)?;
    let tally = Tally::new(turns);
    let at = Platforms {
        one: B::new(),
        all: B::new(),
    };
    let pass = in_threads(
        rt,
        &object,
        pass,
        crowd,
        &|pass| { take_turns(rt, &object, pass, &tally, &at) },
    );
    let (lost, word) = object.end(rt, pass, &tally);
    Ok(tally.outcome(name, how, crowd, lost, word))
}

/// One of the crowd takes its turns.
fn take_turns<O: Object<P>, P: Shares<O> + Drop, B: Platform + Drop, R: Wait + Clock>(
    rt: &R,
    object: &O,
    mut pass: P,
    tally: &Tally,
    at: &Platforms<B>,
) -> P
    requires idle { P.idle object.now pass }
    ensures idle { P.idle object.now result }
    ensures same { P.part result ≡ P.part pass }
{
    let number = tally.number();
    let own = at.of(number < O::WOKEN_ALONE);
    let by = Means {
        tally,
        at,
        wait: |word: &WaitWord, seen: &u64| own.wait(rt, tally, word, *seen, Tally::patience()),
        wake_one: |word: &WaitWord| at.one.wake_one(word),
        wake_all: |word: &WaitWord| at.all.wake_all(word),
    };
    for turn in 0..tally.turns {
        object.turn(rt, &mut pass, number, turn, &by);
    }
    pass
}
