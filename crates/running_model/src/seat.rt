//! A call under way of a pass that is out with its seat, as where a value lies in a slot beside the word.
ghost use Rattle.std.specs.Prelude.{◌≡◌, ◌<◌};
ghost use Rattle.std.specs.Fn.{CalledAt};
ghost use Rattle.model_events.specs.declared.row.Intent.TheVariants as intents;
ghost use Rattle.running_model.specs.Asked.{AskedOnce};
ghost use Rattle.running_model.specs.Passes.{HasNeeds, SteppedByAct};
ghost use Rattle.running_model.specs.Plays.{MayStep};
ghost use Rattle.running_model.specs.Tries.{IsToWake, StandsToWait};
ghost use Rattle.running_model.specs.Turns.{IsOver, IsOverAside, action_heard, seat_in};

use crate::calling::{answer, call};
use crate::carries::{Carries, CarryRule};
use crate::played::Played;
use crate::script::Script;
use crate::turn::{Aborted, AfterAside, Begins, Continued, Continues, Goes, Way};
use crate::wait::{Sealed, Shown};
use atomic_table::{Play, Seat, Shared};
use model_events::WaitAction;
use running_passes::{Tally, View};
use std::marker::PhantomData;

/// A call under way, which comes to its next step by `W`, as a `Turn` is. It has the seat of its pass, and the call's last turn gives it
/// back. It cannot be let go.
pub struct SeatTurn<S, T, W> {
    pub(crate) seat: Seat<S, View<T>>,
    pub(crate) by: PhantomData<W>,
}

/// What a wait closure has answered such a call, as the way by which it comes to its next step.
pub enum SeatAnswered<S, T> {
    Continue(SeatTurn<S, T, Continued>),
    Abort(SeatTurn<S, T, Aborted>),
}

/// Begins a call, by a party that is new.
#[inline(always)]
pub fn begin_new<L, S, T>(seat: Seat<S, View<T>>) -> SeatTurn<S, T, Begins<L>>
    ensures still { result.seat ≡ seat }
{
    SeatTurn {
        seat,
        by: PhantomData,
    }
}

/// Begins a call, by the party that has its hold.
#[inline(always)]
pub fn begin_held<L, S, T>(seat: Seat<S, View<T>>) -> SeatTurn<S, T, Continues<L>>
    ensures still { result.seat ≡ seat }
{
    SeatTurn {
        seat,
        by: PhantomData,
    }
}

/// A step that the table of the model has, of a call that comes to it by `W`: its act says what the pass counts, and that which slots its
/// seat carries.
struct StepByAct<M, P, V, W, G> {
    of: PhantomData<M>,
    at: PhantomData<P>,
    over: PhantomData<V>,
    by: PhantomData<W>,
    carries: PhantomData<G>,
}

impl<S, P, V, M: Script<(), P, V>, C: Tally, W: Way<V>, G: Carries<S, M, P, V, C>> Play<
    S,
    View<Played<M, P, V, C>>,
> for StepByAct<M, P, V, W, G> {
    ghost then = { λ _ before found after. SteppedByAct (M.model tt) C.add G.follow G.sees (λ _ _. G.after) W.coming before.0 found after.0 × G.carries after.0.tally.counts after.1 };
}

impl<S, M, P, V, C, W> SeatTurn<S, Played<M, P, V, C>, W> {
    /// The swap that the table has: it puts `to`, and answers what it found.
    #[inline(always)]
    pub fn swap<G>(
        self,
        at: &Shared<S, View<Played<M, P, V, C>>, (), CarryRule<G>>,
        word: usize,
        to: u64,
    ) -> (u64, SeatTurn<S, Played<M, P, V, C>, Goes>)
    where
        M: Script<(), P, V>,
        C: Tally,
        W: Way<V>,
        G: Carries<S, M, P, V, C>,
        requires own { self.seat.table_id ≡ at.now.table_id }
        requires inside { word < at.now.table_id.words }
        requires may { MayStep (M.model tt) M.names W.coming word (λ w. intents.Swap w to) self.seat.me.0.tally.parties }
        requires needs { HasNeeds M.names word G.needs (λ w. intents.Swap w to) self.seat.me.0.tally.counts }
        requires alive { 0 < self.seat.me.0.part.share }
        requires carries { G.carries self.seat.me.0.tally.counts self.seat.me.1 }
        ensures same { (result.1.seat.table_id ≡ self.seat.table_id) × (result.1.seat.id ≡ self.seat.id) }
        ensures stepped { SteppedByAct (M.model tt) C.add G.follow G.sees (λ _ _. G.after) W.coming self.seat.me.0 result.0 result.1.seat.me.0 }
        ensures carries { G.carries result.1.seat.me.0.tally.counts result.1.seat.me.1 }
    {
        let SeatTurn { mut seat, by: _ } = self;
        let found = at.swap::<StepByAct<M, P, V, W, G>>(&mut seat, word, to);
        let next = SeatTurn {
            seat,
            by: PhantomData,
        };
        (found, next)
    }

    /// The compare-exchange that the table has: it puts `to` where it finds `from`, and answers what it found.
    #[inline(always)]
    pub fn exchange<G>(
        self,
        at: &Shared<S, View<Played<M, P, V, C>>, (), CarryRule<G>>,
        word: usize,
        from: u64,
        to: u64,
    ) -> (u64, SeatTurn<S, Played<M, P, V, C>, Goes>)
    where
        M: Script<(), P, V>,
        C: Tally,
        W: Way<V>,
        G: Carries<S, M, P, V, C>,
        requires own { self.seat.table_id ≡ at.now.table_id }
        requires inside { word < at.now.table_id.words }
        requires may { MayStep (M.model tt) M.names W.coming word (λ w. intents.Exchange w from to) self.seat.me.0.tally.parties }
        requires needs { HasNeeds M.names word G.needs (λ w. intents.Exchange w from to) self.seat.me.0.tally.counts }
        requires alive { 0 < self.seat.me.0.part.share }
        requires carries { G.carries self.seat.me.0.tally.counts self.seat.me.1 }
        ensures same { (result.1.seat.table_id ≡ self.seat.table_id) × (result.1.seat.id ≡ self.seat.id) }
        ensures stepped { SteppedByAct (M.model tt) C.add G.follow G.sees (λ _ _. G.after) W.coming self.seat.me.0 result.0 result.1.seat.me.0 }
        ensures carries { G.carries result.1.seat.me.0.tally.counts result.1.seat.me.1 }
    {
        let SeatTurn { mut seat, by: _ } = self;
        let found = at.compare_exchange::<StepByAct<M, P, V, W, G>>(&mut seat, word, from, to);
        let next = SeatTurn {
            seat,
            by: PhantomData,
        };
        (found, next)
    }

    /// The store that the table has.
    #[inline(always)]
    pub fn store<G>(
        self,
        at: &Shared<S, View<Played<M, P, V, C>>, (), CarryRule<G>>,
        word: usize,
        put: u64,
    ) -> SeatTurn<S, Played<M, P, V, C>, Goes>
    where
        M: Script<(), P, V>,
        C: Tally,
        W: Way<V>,
        G: Carries<S, M, P, V, C>,
        requires own { self.seat.table_id ≡ at.now.table_id }
        requires inside { word < at.now.table_id.words }
        requires may { MayStep (M.model tt) M.names W.coming word (λ w. intents.Store w put) self.seat.me.0.tally.parties }
        requires needs { HasNeeds M.names word G.needs (λ w. intents.Store w put) self.seat.me.0.tally.counts }
        requires alive { 0 < self.seat.me.0.part.share }
        requires carries { G.carries self.seat.me.0.tally.counts self.seat.me.1 }
        ensures same { (result.seat.table_id ≡ self.seat.table_id) × (result.seat.id ≡ self.seat.id) }
        ensures stepped { SteppedByAct (M.model tt) C.add G.follow G.sees (λ _ _. G.after) W.coming self.seat.me.0 put result.seat.me.0 }
        ensures carries { G.carries result.seat.me.0.tally.counts result.seat.me.1 }
    {
        let SeatTurn { mut seat, by: _ } = self;
        at.store::<StepByAct<M, P, V, W, G>>(&mut seat, word, put);
        SeatTurn {
            seat,
            by: PhantomData,
        }
    }
}

impl<S, M, P, V, C> SeatTurn<S, Played<M, P, V, C>, Goes> {
    /// Calls a wait closure that answers whether the call may give up, at which the call stands: once, of the word that the model names
    /// for that place, and told what the model tells it there. Gives the closure back.
    #[inline(always)]
    pub fn ask<X: Shown, W: FnMut(&X, &u64) -> WaitAction>(
        self,
        word: &Sealed<X>,
        told: u64,
        wait: W,
    ) -> (SeatAnswered<S, Played<M, P, V, C>>, W)
    where
        M: Script<(), P, V>,
        requires word { X.object word.now.shown ≡ self.seat.table_id }
        requires stands { StandsToWait (M.model tt) M.names M.handed (X.index word.now.shown) told self.seat.me.0.tally.parties }
        requires may { W.IsAlwaysCallable wait }
        ensures still { seat_in result.0 ≡ self.seat }
        ensures may_again { W.IsAlwaysCallable result.1 }
        ensures asked { AskedOnce W.FnMut word.now.shown wait told (action_heard result.0) result.1 }
    {
        let SeatTurn { seat, by: _ } = self;
        let (action, asked) = answer(&word.shown, told, wait);
        match action {
            WaitAction::Continue => (
                SeatAnswered::Continue(SeatTurn {
                    seat,
                    by: PhantomData,
                }),
                asked,
            ),
            WaitAction::Abort => (
                SeatAnswered::Abort(SeatTurn {
                    seat,
                    by: PhantomData,
                }),
                asked,
            ),
        }
    }

    /// Calls the wake closure that the call is to call next, once, of the word that the model names for that place. Gives the closure back.
    #[inline(always)]
    pub fn wake<X: Shown, W: FnMut(&X)>(
        self,
        word: &Sealed<X>,
        wake: W,
    ) -> (SeatTurn<S, Played<M, P, V, C>, AfterAside>, W)
    where
        M: Script<(), P, V>,
        requires word { X.object word.now.shown ≡ self.seat.table_id }
        requires wakes { IsToWake (M.model tt) M.names M.handed (X.index word.now.shown) self.seat.me.0.tally.parties }
        requires may { W.IsAlwaysCallable wake }
        ensures still { result.0.seat ≡ self.seat }
        ensures woke { CalledAt W.FnMut wake word.now.shown tt result.1 }
    {
        let SeatTurn { seat, by: _ } = self;
        let woken = call(wake, &word.shown);
        let next = SeatTurn {
            seat,
            by: PhantomData,
        };
        (next, woken)
    }

    /// The call has been answered. Gives the seat back.
    #[inline(always)]
    pub fn end(self) -> Seat<S, View<Played<M, P, V, C>>>
    where
        M: Script<(), P, V>,
        requires over { IsOver (M.model tt) self.seat.me.0.tally.parties }
        ensures still { result ≡ self.seat }
    {
        let SeatTurn { seat, by: _ } = self;
        seat
    }
}

impl<S, M, P, V, C> SeatTurn<S, Played<M, P, V, C>, AfterAside> {
    /// The call has been answered, once it has woken. Gives the seat back.
    #[inline(always)]
    pub fn end_aside(self) -> Seat<S, View<Played<M, P, V, C>>>
    where
        M: Script<(), P, V>,
        requires over { IsOverAside (M.model tt) self.seat.me.0.tally.parties }
        ensures still { result ≡ self.seat }
    {
        let SeatTurn { seat, by: _ } = self;
        seat
    }
}
