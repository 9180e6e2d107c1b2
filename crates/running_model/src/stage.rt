//! The words of an object that plays a model.
ghost use Rattle.std.specs.Prelude.{◌≡◌, ◌<◌, [], length, IfOk};

use crate::counts::Counts;
use crate::played::Played;
use crate::script::Script;
use crate::wait::{OfWord, Sealed};
use running_passes::{Deed, Origin, Pass, Word, Words};
use std::alloc::{AllocError, Allocator, Global};
use std::marker::PhantomData;
use std::ops::Deref;

/// A load that is no step of the model.
struct Look<M, P, V> {
    of: PhantomData<M>,
    at: PhantomData<P>,
    over: PhantomData<V>,
}

impl<K, P, V, M: Script<K, P, V>, C: Counts<K, V>> Deed<K, Played<M, P, V, C>> for Look<M, P, V> {
    ghost use Rattle.running_model.specs.Passes.{Learned};

    ghost tells = { λ key _ _ before _ after. Learned (M.model key) C.add C.core (C.follow key) before after };
}

/// The words of an object that plays a model. A pass makes the step that the table has at the place of its call, and no other.
#[derive(Drop)]
pub struct Stage<K, M: Script<K, P, V>, P, V, C: Counts<K, V>, A: Allocator = Global> {
    pub(crate) words: Words<K, Played<M, P, V, C>, A>,
}

/// What the passes of these words come from.
impl<K, M: Script<K, P, V>, P, V, C: Counts<K, V>, A: Allocator> Deref for Stage<K, M, P, V, C, A> {
    ghost use Rattle.running_model.specs.Stages.{origin};

    type Target = Origin<K, Played<M, P, V, C>, A>;

    #[inline(always)]
    fn deref(&self) -> &Origin<K, Played<M, P, V, C>, A>
        ensures { result.now ≡ origin self.now }
    {
        &self.words
    }
}

impl<K, M: Script<K, P, V>, P, V, C: Counts<K, V>, A: Allocator> Stage<K, M, P, V, C, A> {
    ghost use Rattle.running_passes.specs.Parts.{IsWhole};
    ghost use Rattle.running_passes.specs.Passes.{view, part_of, tally_of, IsSamePass};
    ghost use Rattle.running_passes.specs.Views.{first_view};
    ghost use Rattle.running_passes.specs.Objects.{HasClosed, HaveClosed};
    ghost use Rattle.running_model.specs.Slots.{no_parties};
    ghost use Rattle.running_model.specs.Words.{AllHold};
    ghost use Rattle.running_model.specs.Passes.{played, PlaysAndCounts, Learned};
    ghost use Rattle.running_model.specs.Stages.{IsPassOf, id_of, key_of, count_of};

    /// The words of an object that nobody has called, and the pass that is whole. `Err` where there was no memory; then nothing was made.
    pub fn new(
        alloc: A,
        words: &[u64],
        key: &K,
    ) -> Result<(Stage<K, M, P, V, C, A>, Pass<Played<M, P, V, C>>), AllocError>
        requires some { 0 < length words.now }
        requires opening { AllHold M.names words.now (M.model key.now).table.opening }
        requires rule { C.agrees key.now words.now [] (C.first key.now) }
        ensures own { IfOk result (λ made. IsPassOf made.0 made.1) }
        ensures key { IfOk result (λ made. key_of made.0 ≡ key.now) }
        ensures count { IfOk result (λ made. count_of made.0 ≡ length words.now) }
        ensures first { IfOk result (λ made. view made.1 ≡ first_view (played no_parties (C.first key.now))) }
    {
        let (words, pass) = Words::new(alloc, words, key)?;
        Ok((Stage { words }, pass))
    }

    /// The word at this index, as closures see it, sealed.
    #[inline(always)]
    pub fn shown<'t, X: OfWord<Word<'t, K, Played<M, P, V, C>>>>(
        &'t self,
        index: usize,
    ) -> Sealed<X>
        requires inside { index < count_of self.now }
        ensures object { X.Shown.object result.shown ≡ id_of self.now }
        ensures index { X.Shown.index result.shown ≡ index }
    {
        Sealed {
            shown: X::of(self.words.word(index)),
        }
    }

    /// A load that is no step of the model: the pass has made and seen nothing by it, and knows then what all passes know together.
    #[inline(always)]
    pub fn learn(&self, pass: &mut Pass<Played<M, P, V, C>>, word: usize)
        requires own { IsPassOf self.now pass.old }
        requires inside { word < count_of self.now }
        ensures same { IsSamePass pass.old pass.new }
        ensures learned { Learned (M.model (key_of self.now)) C.add C.core (C.follow (key_of self.now)) (view pass.old) (view pass.new) }
    {
        self.words.load::<Look<M, P, V>>(pass, word);
    }

    /// Ends the object, and answers a word. With the whole pass, that word is of a run in which only the pass's own parties are.
    pub fn close(self, pass: Pass<Played<M, P, V, C>>, word: usize) -> u64
        requires own { IsPassOf self pass }
        requires inside { word < count_of self }
        ensures exact { IsWhole (part_of pass) → HasClosed (PlaysAndCounts (M.model (key_of self)) M.names (C.agrees (key_of self)) (C.follow (key_of self))) (tally_of pass) word result }
    {
        self.words.close(pass, word)
    }

    /// Ends the object, and answers two of its words. With the whole pass, those words are of a run in which only the pass's own parties
    /// are.
    pub fn close_two(self, pass: Pass<Played<M, P, V, C>>, word: usize, second: usize) -> (u64, u64)
        requires own { IsPassOf self pass }
        requires inside { word < count_of self }
        requires also { second < count_of self }
        ensures exact { IsWhole (part_of pass) → HaveClosed (PlaysAndCounts (M.model (key_of self)) M.names (C.agrees (key_of self)) (C.follow (key_of self))) (tally_of pass) word result.0 second result.1 }
    {
        self.words.close_two(pass, word, second)
    }
}
