//! The ends of atomics, one for each type: a caller of a function that is generic in the integer, and takes an atomic by value, is one that
//! the borrow checker does not cover, since the bound of its `Stage` names the places, a type made of the integer.
ghost use Rattle.model_events.specs.Integers.{u64_arithmetic, u128_arithmetic, i64_arithmetic, i128_arithmetic};

use crate::calls::Atomic;
use crate::pass::AtomicPass;
use model_events::atomic::internal::AtomicInteger;
use std::alloc::Allocator;

impl<A: Allocator> Atomic<u64, A> {
    ghost use Rattle.running_atomic.specs.AtomicShown.{IsAtomicPass, opening_of, IsLastOf, IsLastInRun};

    /// Ends the atomic, and answers its value. With the whole pass that is the register's after the pass's own acts, which are all: those
    /// of a run of the model in which it alone is the parties, one for one and in order.
    pub fn into_inner(self, pass: AtomicPass<u64>) -> u64
        requires own { IsAtomicPass self pass }
        ensures last { IsLastOf u64_arithmetic (opening_of self) pass result }
        ensures in_run { IsLastInRun u64_arithmetic (opening_of self) pass result }
    {
        let Atomic { stage } = self;
        let AtomicPass { pass } = pass;
        let (low, high) = stage.close_two(pass, 1, 2);
        u64::from_words(low, high)
    }
}

impl<A: Allocator> Atomic<u128, A> {
    ghost use Rattle.running_atomic.specs.AtomicShown.{IsAtomicPass, opening_of, IsLastOf, IsLastInRun};

    /// Ends the atomic, and answers its value. With the whole pass that is the register's after the pass's own acts, which are all: those
    /// of a run of the model in which it alone is the parties, one for one and in order.
    pub fn into_inner(self, pass: AtomicPass<u128>) -> u128
        requires own { IsAtomicPass self pass }
        ensures last { IsLastOf u128_arithmetic (opening_of self) pass result }
        ensures in_run { IsLastInRun u128_arithmetic (opening_of self) pass result }
    {
        let Atomic { stage } = self;
        let AtomicPass { pass } = pass;
        let (low, high) = stage.close_two(pass, 1, 2);
        u128::from_words(low, high)
    }
}

impl<A: Allocator> Atomic<i64, A> {
    ghost use Rattle.running_atomic.specs.AtomicShown.{IsAtomicPass, opening_of, IsLastOf, IsLastInRun};

    /// Ends the atomic, and answers its value. With the whole pass that is the register's after the pass's own acts, which are all: those
    /// of a run of the model in which it alone is the parties, one for one and in order.
    pub fn into_inner(self, pass: AtomicPass<i64>) -> i64
        requires own { IsAtomicPass self pass }
        ensures last { IsLastOf i64_arithmetic (opening_of self) pass result }
        ensures in_run { IsLastInRun i64_arithmetic (opening_of self) pass result }
    {
        let Atomic { stage } = self;
        let AtomicPass { pass } = pass;
        let (low, high) = stage.close_two(pass, 1, 2);
        i64::from_words(low, high)
    }
}

impl<A: Allocator> Atomic<i128, A> {
    ghost use Rattle.running_atomic.specs.AtomicShown.{IsAtomicPass, opening_of, IsLastOf, IsLastInRun};

    /// Ends the atomic, and answers its value. With the whole pass that is the register's after the pass's own acts, which are all: those
    /// of a run of the model in which it alone is the parties, one for one and in order.
    pub fn into_inner(self, pass: AtomicPass<i128>) -> i128
        requires own { IsAtomicPass self pass }
        ensures last { IsLastOf i128_arithmetic (opening_of self) pass result }
        ensures in_run { IsLastInRun i128_arithmetic (opening_of self) pass result }
    {
        let Atomic { stage } = self;
        let AtomicPass { pass } = pass;
        let (low, high) = stage.close_two(pass, 1, 2);
        i128::from_words(low, high)
    }
}
