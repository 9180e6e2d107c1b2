//! How a call under way calls its closures, and how it is over.
ghost use Rattle.std.specs.Prelude.{◌≡◌};
ghost use Rattle.std.specs.Fn.{FnOnceTakesAtMut, FnOnceReturnsAtMut, CalledAt};
ghost use Rattle.running_model.specs.Asked.{AskedOnce};
ghost use Rattle.running_model.specs.Passes.{parties_of};
ghost use Rattle.running_model.specs.Stages.{IsPassOf, id_of, key_of};
ghost use Rattle.running_model.specs.Tries.{IsToEnd, IsToWake, StandsToWait};
ghost use Rattle.running_model.specs.Turns.{IsToWakeAgain, IsOver, IsOverAside, IsOverAfterTwo, action_in, given_by, pass_in};

use crate::counts::Counts;
use crate::played::Played;
use crate::script::Script;
use crate::stage::Stage;
use crate::turn::{AfterAside, AfterTwo, Answered, Continued, Goes, Turn, hear};
use crate::wait::{Sealed, Shown};
use model_events::WaitAction;
use running_passes::Pass;
use std::alloc::Allocator;
use std::marker::PhantomData;

/// What a closure gave that a call ran where it stood to end it. Nothing but `run` makes one.
#[derive(Drop)]
pub struct Ran<Y> {
    given: Y,
}

impl<Y> Ran<Y> {
    /// What the closure gave.
    #[inline(always)]
    pub fn given(&self) -> &Y
        ensures { result.now ≡ given_by self.now }
    {
        &self.given
    }
}

impl<'p, M, P, V, C> Turn<'p, Pass<Played<M, P, V, C>>, Goes> {
    /// Calls a wait closure that answers whether the call may give up, at which the call stands: once, of the word that the model names
    /// for that place, and told what the model tells it there. Gives the closure back.
    #[inline(always)]
    pub fn ask<K, A: Allocator, X: Shown, W: FnMut(&X, &u64) -> WaitAction>(
        self,
        at: &Stage<K, M, P, V, C, A>,
        word: &Sealed<X>,
        told: u64,
        wait: W,
    ) -> (Answered<'p, Pass<Played<M, P, V, C>>>, W)
    where
        M: Script<K, P, V>,
        C: Counts<K, V>,
        requires own { IsPassOf at.now self.pass.now }
        requires word { X.object word.now.shown ≡ id_of at.now }
        requires stands { StandsToWait (M.model (key_of at.now)) M.names M.handed (X.index word.now.shown) told (parties_of self.pass.now) }
        requires may { W.IsAlwaysCallable wait }
        ensures same_borrow { (pass_in result.0).ghost_name ≡ self.entry.pass.ghost_name }
        ensures still { (pass_in result.0).now ≡ self.entry.pass.now }
        ensures may_again { W.IsAlwaysCallable result.1 }
        ensures asked { AskedOnce W.FnMut word.now.shown wait told (action_in result.0) result.1 }
    {
        let _at = at;
        hear(self, &word.shown, told, wait)
    }

    /// The same of a wait closure that answers nothing.
    #[inline(always)]
    pub fn tell<K, A: Allocator, X: Shown, W: FnMut(&X, &u64)>(
        self,
        at: &Stage<K, M, P, V, C, A>,
        word: &Sealed<X>,
        told: u64,
        wait: W,
    ) -> (Turn<'p, Pass<Played<M, P, V, C>>, Continued>, W)
    where
        M: Script<K, P, V>,
        C: Counts<K, V>,
        requires own { IsPassOf at.now self.pass.now }
        requires word { X.object word.now.shown ≡ id_of at.now }
        requires stands { StandsToWait (M.model (key_of at.now)) M.names M.handed (X.index word.now.shown) told (parties_of self.pass.now) }
        requires may { W.IsAlwaysCallable wait }
        ensures same_borrow { result.0.pass.ghost_name ≡ self.entry.pass.ghost_name }
        ensures still { result.0.pass.now ≡ self.entry.pass.now }
        ensures may_again { W.IsAlwaysCallable result.1 }
        ensures told { AskedOnce W.FnMut word.now.shown wait told tt result.1 }
    {
        let _at = at;
        let Turn { pass, by: _ } = self;
        let ((), asked) = answer(&word.shown, told, wait);
        let next = Turn {
            pass,
            by: PhantomData,
        };
        (next, asked)
    }

    /// Calls the wake closure that the call is to call next, once, of the word that the model names for that place. Gives the closure back.
    #[inline(always)]
    pub fn wake<K, A: Allocator, X: Shown, W: FnMut(&X)>(
        self,
        at: &Stage<K, M, P, V, C, A>,
        word: &Sealed<X>,
        wake: W,
    ) -> (Turn<'p, Pass<Played<M, P, V, C>>, AfterAside>, W)
    where
        M: Script<K, P, V>,
        C: Counts<K, V>,
        requires own { IsPassOf at.now self.pass.now }
        requires word { X.object word.now.shown ≡ id_of at.now }
        requires wakes { IsToWake (M.model (key_of at.now)) M.names M.handed (X.index word.now.shown) (parties_of self.pass.now) }
        requires may { W.IsAlwaysCallable wake }
        ensures same_borrow { result.0.pass.ghost_name ≡ self.entry.pass.ghost_name }
        ensures still { result.0.pass.now ≡ self.entry.pass.now }
        ensures woke { CalledAt W.FnMut wake word.now.shown tt result.1 }
    {
        let _at = at;
        let Turn { pass, by: _ } = self;
        let woken = call(wake, &word.shown);
        let next = Turn {
            pass,
            by: PhantomData,
        };
        (next, woken)
    }

    /// Calls the closure that the call is to end next, which is lent `on`.
    #[inline(always)]
    pub fn run<K, A: Allocator, X, Y, F: FnOnce(&mut X) -> Y>(
        self,
        at: &Stage<K, M, P, V, C, A>,
        on: &mut X,
        f: F,
    ) -> (Ran<Y>, Turn<'p, Pass<Played<M, P, V, C>>, AfterAside>)
    where
        M: Script<K, P, V>,
        C: Counts<K, V>,
        requires own { IsPassOf at.now self.pass.now }
        requires ends { IsToEnd (M.model (key_of at.now)) (parties_of self.pass.now) }
        requires may { FnOnceTakesAtMut F.FnOnce f on.old }
        ensures same_borrow { result.1.pass.ghost_name ≡ self.entry.pass.ghost_name }
        ensures still { result.1.pass.now ≡ self.entry.pass.now }
        ensures gave { FnOnceReturnsAtMut F.FnOnce f on.old (given_by result.0) on.new }
    {
        let _at = at;
        let Turn { pass, by: _ } = self;
        let given = f(on);
        let next = Turn {
            pass,
            by: PhantomData,
        };
        (Ran { given }, next)
    }

    /// The call has been answered. Gives the pass back.
    #[inline(always)]
    pub fn end<K, A: Allocator>(
        self,
        at: &Stage<K, M, P, V, C, A>,
    ) -> &'p mut Pass<Played<M, P, V, C>>
    where
        M: Script<K, P, V>,
        C: Counts<K, V>,
        requires own { IsPassOf at.now self.pass.now }
        requires over { IsOver (M.model (key_of at.now)) (parties_of self.pass.now) }
        ensures same_borrow { result.ghost_name ≡ self.entry.pass.ghost_name }
        ensures still { result.now ≡ self.entry.pass.now }
    {
        let _at = at;
        let Turn { pass, by: _ } = self;
        pass
    }
}

impl<'p, M, P, V, C> Turn<'p, Pass<Played<M, P, V, C>>, AfterAside> {
    /// Calls the wake closure that the call is to call next, once it has called another: once, of the word that the model
    /// names for that place. Gives the closure back.
    #[inline(always)]
    pub fn wake_again<K, A: Allocator, X: Shown, W: FnMut(&X)>(
        self,
        at: &Stage<K, M, P, V, C, A>,
        word: &Sealed<X>,
        second: W,
    ) -> (Turn<'p, Pass<Played<M, P, V, C>>, AfterTwo>, W)
    where
        M: Script<K, P, V>,
        C: Counts<K, V>,
        requires own { IsPassOf at.now self.pass.now }
        requires word { X.object word.now.shown ≡ id_of at.now }
        requires wakes { IsToWakeAgain (M.model (key_of at.now)) M.names M.handed (X.index word.now.shown) (parties_of self.pass.now) }
        requires may { W.IsAlwaysCallable second }
        ensures same_borrow { result.0.pass.ghost_name ≡ self.entry.pass.ghost_name }
        ensures still { result.0.pass.now ≡ self.entry.pass.now }
        ensures woke { CalledAt W.FnMut second word.now.shown tt result.1 }
    {
        let _at = at;
        let Turn { pass, by: _ } = self;
        let woken = call(second, &word.shown);
        let next = Turn {
            pass,
            by: PhantomData,
        };
        (next, woken)
    }

    /// The call has been answered, once it has woken, or its closure has ended. Gives the pass back.
    #[inline(always)]
    pub fn end_aside<K, A: Allocator>(
        self,
        at: &Stage<K, M, P, V, C, A>,
    ) -> &'p mut Pass<Played<M, P, V, C>>
    where
        M: Script<K, P, V>,
        C: Counts<K, V>,
        requires own { IsPassOf at.now self.pass.now }
        requires over { IsOverAside (M.model (key_of at.now)) (parties_of self.pass.now) }
        ensures same_borrow { result.ghost_name ≡ self.entry.pass.ghost_name }
        ensures still { result.now ≡ self.entry.pass.now }
    {
        let _at = at;
        let Turn { pass, by: _ } = self;
        pass
    }
}

impl<'p, M, P, V, C> Turn<'p, Pass<Played<M, P, V, C>>, AfterTwo> {
    /// The call has been answered, once it has woken twice. Gives the pass back.
    #[inline(always)]
    pub fn end_after_two<K, A: Allocator>(
        self,
        at: &Stage<K, M, P, V, C, A>,
    ) -> &'p mut Pass<Played<M, P, V, C>>
    where
        M: Script<K, P, V>,
        C: Counts<K, V>,
        requires own { IsPassOf at.now self.pass.now }
        requires over { IsOverAfterTwo (M.model (key_of at.now)) (parties_of self.pass.now) }
        ensures same_borrow { result.ghost_name ≡ self.entry.pass.ghost_name }
        ensures still { result.now ≡ self.entry.pass.now }
    {
        let _at = at;
        let Turn { pass, by: _ } = self;
        pass
    }
}

/// Calls a wake closure, once, of this word. Gives it back.
#[inline(always)]
pub(crate) fn call<X, W: FnMut(&X)>(wake: W, word: &X) -> W
    requires may { W.IsAlwaysCallable wake }
    ensures woke { CalledAt W.FnMut wake word.now tt result }
{
    let mut woken = wake;
    woken(word);
    woken
}

/// Calls a wait closure, once, of this word, and says what it has answered. Gives it back.
#[inline(always)]
pub(crate) fn answer<X, R, W: FnMut(&X, &u64) -> R>(word: &X, told: u64, wait: W) -> (R, W)
    requires may { W.IsAlwaysCallable wait }
    ensures may_again { W.IsAlwaysCallable result.1 }
    ensures asked { AskedOnce W.FnMut word.now wait told result.0 result.1 }
{
    let mut asked = wait;
    let action = asked(word, &told);
    (action, asked)
}
