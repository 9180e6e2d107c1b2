//! The words of an object under its rule, and single steps on them.
ghost use Rattle.std.specs.Prelude.{◌≡◌, ◌<◌, ◌+◌, ◌-◌, ◌%◌, ◌^◌, ◌==◌, [], length, IfOk};
ghost use prog.Atomic.{either};

use crate::deed::Deed;
use crate::origin::Origin;
use crate::pass::Pass;
use crate::rule::{Rule, SumRule};
use crate::view::View;
use crate::watched::{Watched, low_half};
use atomic_table::{Play, Shared, Table};
use std::alloc::{AllocError, Allocator, Global};
use std::marker::Brand;
use std::ops::Deref;
use std::sync::Wait;
use std::time::Duration;

/// The words of an object under its rule. A step on one tells what its `Deed` says, where it keeps the rule. A type keeps them to
/// itself: who has them can make steps that tell what is not so, though none that breaks the rule.
#[derive(Drop)]
pub struct Words<K, T: Rule<(), K>, A: Allocator = Global> {
    origin: Origin<K, T, A>,
}

/// What the passes of these words come from.
impl<K, T: Rule<(), K>, A: Allocator> Deref for Words<K, T, A> {
    ghost use Rattle.running_passes.specs.Objects.{origin};

    type Target = Origin<K, T, A>;

    #[inline(always)]
    fn deref(&self) -> &Origin<K, T, A>
        ensures { result.now ≡ origin self.now }
    {
        &self.origin
    }
}

/// One of the words, which can be loaded and slept on, and no more.
#[derive(Drop)]
pub struct Word<'t, K, T: Rule<(), K>> {
    pub(crate) shared: &'t Shared<(), View<T>, K, SumRule<T>>,
    pub(crate) index: usize,
    ghost inside: { index < shared.now.table_id.words },
}

impl<K, T: Rule<(), K>> Word<'_, K, T> {
    /// The word as it is now. Another party may write it right after, so the answer promises nothing.
    #[inline(always)]
    pub fn load(&self) -> u64 {
        self.shared.peek(self.index)
    }
}

impl<K, T: Rule<(), K>> Watched for Word<'_, K, T> {
    #[inline(always)]
    fn load(&self) -> u64 {
        Word::load(self)
    }

    fn park<R: Wait>(&self, rt: &R, seen: u64) {
        self.shared.park(rt, self.index, low_half(seen));
    }

    fn park_timeout<R: Wait>(&self, rt: &R, seen: u64, most: Duration) {
        self.shared
            .park_timeout(rt, self.index, low_half(seen), most);
    }

    fn wake_one(&self) {
        self.shared.wake_one(self.index);
    }

    fn wake_all(&self) {
        self.shared.wake_all(self.index);
    }
}

// What a step tells of the seat; each step picks it.
impl<T> Play<(), View<T>> for Brand {
    ghost then = { λ _ _ _ _. Unit {0} };
}

impl<K, T: Rule<(), K>, A: Allocator> Words<K, T, A> {
    ghost use Rattle.running_passes.specs.Views.{first_view, Updates};
    ghost use Rattle.running_passes.specs.Passes.{view, part_of, tally_of, IsSamePass};
    ghost use Rattle.running_passes.specs.Parts.{IsWhole};
    ghost use Rattle.running_passes.specs.Objects.{IsPassOf, IsWordOf, key_of, count_of, HasClosed, HaveClosed};

    /// Words under this key, and the pass that is whole. `Err` where there was no memory; then nothing was made.
    pub fn new(alloc: A, words: &[u64], key: &K) -> Result<(Words<K, T, A>, Pass<T>), AllocError>
        requires some { 0 < length words.now }
        requires rule { T.agrees key.now words.now [] (T.first key.now) }
        ensures own { IfOk result (λ made. IsPassOf made.0 made.1) }
        ensures key { IfOk result (λ made. key_of made.0 ≡ key.now) }
        ensures count { IfOk result (λ made. count_of made.0 ≡ length words.now) }
        ensures first { IfOk result (λ made. view made.1 ≡ first_view (T.first key.now)) }
    {
        let (table, seat) = Table::of_words(alloc, words, key)?;
        let origin = Origin { table };
        Ok((Words { origin }, Pass { seat }))
    }

    /// The word at this index, as closures see it.
    #[inline(always)]
    pub fn word(&self, index: usize) -> Word<'_, K, T>
        requires inside { index < count_of self.now }
        ensures which { IsWordOf self.now index result }
    {
        Word {
            shared: &self.origin.table.shared,
            index,
        }
    }

    /// Loads a word.
    #[inline(always)]
    pub fn load<D: Deed<K, T>>(&self, pass: &mut Pass<T>, word: usize) -> u64
        requires own { IsPassOf self.now pass.old }
        requires inside { word < count_of self.now }
        requires update { Updates T.none T.add (T.agrees (key_of self.now)) (view pass.old) word (λ n. n) (D.tells (key_of self.now) 0 0 (view pass.old)) }
        ensures same { IsSamePass pass.old pass.new }
        ensures told { D.tells (key_of self.now) 0 0 (view pass.old) result (view pass.new) }
    {
        let shared = &self.origin.table.shared;
        shared.load::<Brand>(&mut pass.seat, word)
    }

    /// Stores a word. It tells of what was stored, and not of what it found.
    #[inline(always)]
    pub fn store<D: Deed<K, T>>(&self, pass: &mut Pass<T>, word: usize, new: u64)
        requires own { IsPassOf self.now pass.old }
        requires inside { word < count_of self.now }
        requires update { Updates T.none T.add (T.agrees (key_of self.now)) (view pass.old) word (λ _. new) (λ _. D.tells (key_of self.now) new 0 (view pass.old) new) }
        ensures same { IsSamePass pass.old pass.new }
        ensures told { D.tells (key_of self.now) new 0 (view pass.old) new (view pass.new) }
    {
        let shared = &self.origin.table.shared;
        shared.store::<Brand>(&mut pass.seat, word, new);
    }

    /// Stores `new` where it finds `old`, and answers what it found.
    #[inline(always)]
    pub fn compare_exchange<D: Deed<K, T>>(
        &self,
        pass: &mut Pass<T>,
        word: usize,
        old: u64,
        new: u64,
    ) -> u64
        requires own { IsPassOf self.now pass.old }
        requires inside { word < count_of self.now }
        requires update { Updates T.none T.add (T.agrees (key_of self.now)) (view pass.old) word (λ n. either (n == old) new n) (D.tells (key_of self.now) old new (view pass.old)) }
        ensures same { IsSamePass pass.old pass.new }
        ensures told { D.tells (key_of self.now) old new (view pass.old) result (view pass.new) }
    {
        let shared = &self.origin.table.shared;
        shared.compare_exchange::<Brand>(&mut pass.seat, word, old, new)
    }

    /// Adds to a word, wrapping at 2^64, and answers what it found.
    #[inline(always)]
    pub fn fetch_add<D: Deed<K, T>>(&self, pass: &mut Pass<T>, word: usize, more: u64) -> u64
        requires own { IsPassOf self.now pass.old }
        requires inside { word < count_of self.now }
        requires update { Updates T.none T.add (T.agrees (key_of self.now)) (view pass.old) word (λ n. (n + more) % 2 ^ 64) (D.tells (key_of self.now) more 0 (view pass.old)) }
        ensures same { IsSamePass pass.old pass.new }
        ensures told { D.tells (key_of self.now) more 0 (view pass.old) result (view pass.new) }
    {
        let shared = &self.origin.table.shared;
        shared.fetch_add::<Brand>(&mut pass.seat, word, more)
    }

    /// Subtracts from a word, wrapping at 2^64, and answers what it found.
    #[inline(always)]
    pub fn fetch_sub<D: Deed<K, T>>(&self, pass: &mut Pass<T>, word: usize, less: u64) -> u64
        requires own { IsPassOf self.now pass.old }
        requires inside { word < count_of self.now }
        requires update { Updates T.none T.add (T.agrees (key_of self.now)) (view pass.old) word (λ n. (n + (2 ^ 64 - less)) % 2 ^ 64) (D.tells (key_of self.now) less 0 (view pass.old)) }
        ensures same { IsSamePass pass.old pass.new }
        ensures told { D.tells (key_of self.now) less 0 (view pass.old) result (view pass.new) }
    {
        let shared = &self.origin.table.shared;
        shared.fetch_sub::<Brand>(&mut pass.seat, word, less)
    }

    /// Ends the object, and answers a word. With the whole pass the rule holds of it and of what that pass counted.
    pub fn close(self, pass: Pass<T>, word: usize) -> u64
        requires own { IsPassOf self pass }
        requires inside { word < count_of self }
        ensures exact { IsWhole (part_of pass) → HasClosed (T.agrees (key_of self)) (tally_of pass) word result }
    {
        let Origin { table } = self.origin;
        let Pass { seat } = pass;
        let closed = table.close_with(seat);
        let found = closed.word(word);
        closed.free();
        found
    }

    /// Ends the object, and answers two of its words. With the whole pass the rule holds of them and of what that pass counted.
    pub fn close_two(self, pass: Pass<T>, word: usize, second: usize) -> (u64, u64)
        requires own { IsPassOf self pass }
        requires inside { word < count_of self }
        requires also { second < count_of self }
        ensures exact { IsWhole (part_of pass) → HaveClosed (T.agrees (key_of self)) (tally_of pass) word result.0 second result.1 }
    {
        let Origin { table } = self.origin;
        let Pass { seat } = pass;
        let closed = table.close_with(seat);
        let one = closed.word(word);
        let other = closed.word(second);
        closed.free();
        (one, other)
    }
}
