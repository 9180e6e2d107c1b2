//! The steps of a call under way, as the table has them. What its pass counts, the act says.
ghost use Rattle.std.specs.Prelude.{◌≡◌, ◌<◌};

use crate::counts::CountsByActs;
use crate::played::Played;
use crate::script::Script;
use crate::stage::Stage;
use crate::turn::{Goes, Turn, Way};
use running_passes::{Deed, Pass};
use std::alloc::Allocator;
use std::marker::PhantomData;

/// A step that the table has, of a call that comes to it by `W`: its act says what the pass counts.
struct StepByAct<M, P, V, W> {
    of: PhantomData<M>,
    at: PhantomData<P>,
    over: PhantomData<V>,
    by: PhantomData<W>,
}

impl<K, P, V, M: Script<K, P, V>, C: CountsByActs<K, M, P, V>, W: Way<V>> Deed<
    K,
    Played<M, P, V, C>,
> for StepByAct<M, P, V, W> {
    ghost use Rattle.running_model.specs.Passes.{SteppedByAct};

    ghost tells = { λ key _ _ before found after. SteppedByAct (M.model key) C.add (C.follow key) C.sees (C.after key) W.coming before found after };
}

impl<'p, M, P, V, C, W> Turn<'p, Pass<Played<M, P, V, C>>, W> {
    ghost use Rattle.model_events.specs.declared.row.Intent.TheVariants as intents;
    ghost use Rattle.running_passes.specs.Passes.{IsSamePass};
    ghost use Rattle.running_model.specs.Plays.{MayStep};
    ghost use Rattle.running_model.specs.Passes.{parties_of, counts_of, HasNeeds};
    ghost use Rattle.running_model.specs.Stages.{IsPassOf, SteppedOn, key_of, count_of};

    /// The load that the table has.
    #[inline(always)]
    pub fn load<K, A: Allocator>(
        self,
        at: &Stage<K, M, P, V, C, A>,
        word: usize,
    ) -> (u64, Turn<'p, Pass<Played<M, P, V, C>>, Goes>)
    where
        M: Script<K, P, V>,
        C: CountsByActs<K, M, P, V>,
        W: Way<V>,
        requires own { IsPassOf at.now self.pass.now }
        requires inside { word < count_of at.now }
        requires may { MayStep (M.model (key_of at.now)) M.names W.coming word (λ w. intents.Load w) (parties_of self.pass.now) }
        requires needs { HasNeeds M.names word C.needs (λ w. intents.Load w) (counts_of self.pass.now) }
        ensures same_borrow { result.1.pass.ghost_name ≡ self.entry.pass.ghost_name }
        ensures same { IsSamePass self.entry.pass.now result.1.pass.now }
        ensures stepped { SteppedOn M.model C.add C.follow C.sees C.after W.coming at.now self.entry.pass.now result.0 result.1.pass.now }
    {
        let Turn { pass, by: _ } = self;
        let found = at.words.load::<StepByAct<M, P, V, W>>(pass, word);
        let next = Turn {
            pass,
            by: PhantomData,
        };
        (found, next)
    }

    /// The store that the table has.
    #[inline(always)]
    pub fn store<K, A: Allocator>(
        self,
        at: &Stage<K, M, P, V, C, A>,
        word: usize,
        put: u64,
    ) -> Turn<'p, Pass<Played<M, P, V, C>>, Goes>
    where
        M: Script<K, P, V>,
        C: CountsByActs<K, M, P, V>,
        W: Way<V>,
        requires own { IsPassOf at.now self.pass.now }
        requires inside { word < count_of at.now }
        requires may { MayStep (M.model (key_of at.now)) M.names W.coming word (λ w. intents.Store w put) (parties_of self.pass.now) }
        requires needs { HasNeeds M.names word C.needs (λ w. intents.Store w put) (counts_of self.pass.now) }
        ensures same_borrow { result.pass.ghost_name ≡ self.entry.pass.ghost_name }
        ensures same { IsSamePass self.entry.pass.now result.pass.now }
        ensures stepped { SteppedOn M.model C.add C.follow C.sees C.after W.coming at.now self.entry.pass.now put result.pass.now }
    {
        let Turn { pass, by: _ } = self;
        at.words.store::<StepByAct<M, P, V, W>>(pass, word, put);
        Turn {
            pass,
            by: PhantomData,
        }
    }

    /// The compare-exchange that the table has: it puts `to` where it finds `from`, and answers what it found.
    #[inline(always)]
    pub fn exchange<K, A: Allocator>(
        self,
        at: &Stage<K, M, P, V, C, A>,
        word: usize,
        from: u64,
        to: u64,
    ) -> (u64, Turn<'p, Pass<Played<M, P, V, C>>, Goes>)
    where
        M: Script<K, P, V>,
        C: CountsByActs<K, M, P, V>,
        W: Way<V>,
        requires own { IsPassOf at.now self.pass.now }
        requires inside { word < count_of at.now }
        requires may { MayStep (M.model (key_of at.now)) M.names W.coming word (λ w. intents.Exchange w from to) (parties_of self.pass.now) }
        requires needs { HasNeeds M.names word C.needs (λ w. intents.Exchange w from to) (counts_of self.pass.now) }
        ensures same_borrow { result.1.pass.ghost_name ≡ self.entry.pass.ghost_name }
        ensures same { IsSamePass self.entry.pass.now result.1.pass.now }
        ensures stepped { SteppedOn M.model C.add C.follow C.sees C.after W.coming at.now self.entry.pass.now result.0 result.1.pass.now }
    {
        let Turn { pass, by: _ } = self;
        let found = at
            .words
            .compare_exchange::<StepByAct<M, P, V, W>>(pass, word, from, to);
        let next = Turn {
            pass,
            by: PhantomData,
        };
        (found, next)
    }

    /// The add that the table has, which wraps. It answers what it found.
    #[inline(always)]
    pub fn add<K, A: Allocator>(
        self,
        at: &Stage<K, M, P, V, C, A>,
        word: usize,
        more: u64,
    ) -> (u64, Turn<'p, Pass<Played<M, P, V, C>>, Goes>)
    where
        M: Script<K, P, V>,
        C: CountsByActs<K, M, P, V>,
        W: Way<V>,
        requires own { IsPassOf at.now self.pass.now }
        requires inside { word < count_of at.now }
        requires may { MayStep (M.model (key_of at.now)) M.names W.coming word (λ w. intents.Add w more) (parties_of self.pass.now) }
        requires needs { HasNeeds M.names word C.needs (λ w. intents.Add w more) (counts_of self.pass.now) }
        ensures same_borrow { result.1.pass.ghost_name ≡ self.entry.pass.ghost_name }
        ensures same { IsSamePass self.entry.pass.now result.1.pass.now }
        ensures stepped { SteppedOn M.model C.add C.follow C.sees C.after W.coming at.now self.entry.pass.now result.0 result.1.pass.now }
    {
        let Turn { pass, by: _ } = self;
        let found = at
            .words
            .fetch_add::<StepByAct<M, P, V, W>>(pass, word, more);
        let next = Turn {
            pass,
            by: PhantomData,
        };
        (found, next)
    }

    /// The subtraction that the table has, which wraps. It answers what it found.
    #[inline(always)]
    pub fn subtract<K, A: Allocator>(
        self,
        at: &Stage<K, M, P, V, C, A>,
        word: usize,
        less: u64,
    ) -> (u64, Turn<'p, Pass<Played<M, P, V, C>>, Goes>)
    where
        M: Script<K, P, V>,
        C: CountsByActs<K, M, P, V>,
        W: Way<V>,
        requires own { IsPassOf at.now self.pass.now }
        requires inside { word < count_of at.now }
        requires may { MayStep (M.model (key_of at.now)) M.names W.coming word (λ w. intents.Subtract w less) (parties_of self.pass.now) }
        requires needs { HasNeeds M.names word C.needs (λ w. intents.Subtract w less) (counts_of self.pass.now) }
        ensures same_borrow { result.1.pass.ghost_name ≡ self.entry.pass.ghost_name }
        ensures same { IsSamePass self.entry.pass.now result.1.pass.now }
        ensures stepped { SteppedOn M.model C.add C.follow C.sees C.after W.coming at.now self.entry.pass.now result.0 result.1.pass.now }
    {
        let Turn { pass, by: _ } = self;
        let found = at
            .words
            .fetch_sub::<StepByAct<M, P, V, W>>(pass, word, less);
        let next = Turn {
            pass,
            by: PhantomData,
        };
        (found, next)
    }
}
