//! A barrier: each call waits until as many have come as it was made for. Its word is the epoch, which is the number of rounds that
//! were opened, modulo 2^32, in the upper half, and the number of arrivals of the round that fills in the lower half.
//!
//! It does what `strategy::barrier` of the Rust crate does, but that the arrival that fills a round opens the next by the same
//! exchange, and that a barrier of 0 refuses each call.
#![tactic(auto)]

ghost use Rattle.std.specs.Prelude.{◌≡◌, ℕ, ◌≢◌, ◌<◌, ◌+◌, IfOk, MatchBool};
ghost use Rattle.running_model.specs.Passes.{parties_of, counts_of as tally_of, counted};
ghost use Rattle.running_model.specs.Stages.{count_of as words_of, key_of};
ghost use Rattle.running_barrier.specs.BarrierSteps.{ArrivalsAreOfARun, OpenRoundsAreFull, WordCountsArrivals};
ghost use Rattle.model_barrier.specs.Rounds.{epoch_of, count_of};

mod rounds;
mod shares;

use model_barrier::{BarrierPlace, arrived, count_of, epoch_of};
use model_events::SPIN_REPETITIONS;
pub use rounds::{Arrivals, BarrierScript, PlayedBarrier, Rounds};
use running_model::calls::WaitCall;
use running_model::turn::{Goes, Turn, Way, begin_new};
use running_model::{OfWord, OwnWords, Sealed, Shown, Shows, Stage};
use running_passes::{Origin, Pass, Word};
use std::alloc::{AllocError, Allocator, Global};
use std::hint::spin_loop;
use std::marker::PhantomData;
use std::ops::Deref;
use std::sync::Wait;

/// A barrier for a fixed number of waiters.
#[derive(Drop)]
pub struct Barrier<A: Allocator = Global, S = OwnWords> {
    stage: Stage<u32, BarrierScript, BarrierPlace, u64, Rounds, A>,
    number_of_waiters: u32,
    shows: PhantomData<S>,
    ghost one_word: { words_of stage ≡ 1 },
    ghost waiters: { key_of stage ≡ number_of_waiters },
}

/// What the passes of a barrier come from, at which they are split and joined.
impl<A: Allocator, S> Deref for Barrier<A, S> {
    ghost use Rattle.running_model.specs.Stages.{origin};

    type Target = Origin<u32, PlayedBarrier, A>;

    #[inline(always)]
    fn deref(&self) -> &Origin<u32, PlayedBarrier, A>
        ensures { result.now ≡ origin self.now.stage }
    {
        &self.stage
    }
}

/// The word of a barrier, as wait and wake closures see it. It can be loaded and slept on, and no more.
pub type BarrierWord<'t> = Word<'t, u32, PlayedBarrier>;

/// The right to call a barrier, and what its owner did and saw there.
pub type BarrierPass = Pass<PlayedBarrier>;

/// No more can arrive: the barrier was made for 0.
#[derive(Clone, Copy, Debug, PartialEq, Eq)]
pub struct BarrierFull;

impl<A: Allocator, S> Barrier<A, S> {
    ghost use Rattle.std.specs.Prelude.{true, false, ◌+◌, ◌%◌, ◌^◌, ◌≢◌, ◌≤◌, [], ◌∷◌, MatchBool, IfErr, is_ok, Some, List};
    ghost use Rattle.model_events.specs.declared.event.Word.TheVariants as words;
    ghost use Rattle.model_events.specs.declared.event.Call.TheVariants as calls;
    ghost use Rattle.model_events.specs.declared.event.Answer.TheVariants as answers;
    ghost use Rattle.model_events.specs.declared.row.Intent.TheVariants as intents;
    ghost use Rattle.running_barrier.specs.Barrier.{barrier_model, no_rounds, word_of};
    ghost use Rattle.running_model.specs.Asked.{HasWokenOf};
    ghost use Rattle.running_passes.specs.Parts.{IsWhole};
    ghost use Rattle.running_passes.specs.Views.{first_view};
    ghost use Rattle.running_passes.specs.Passes.{view, part_of, sights_of, IsSamePass};
    ghost use Rattle.running_model.specs.Slots.{Slot, no_parties};
    ghost use Rattle.running_model.specs.Plays.{MayStep, Went, Beginning};
    ghost use Rattle.running_model.specs.Passes.{played};
    ghost use Rattle.running_model.specs.Counts.{HasSeen};
    ghost use Rattle.running_passes.specs.Sights.{stale};
    ghost use Rattle.running_barrier.specs.BarrierSteps.{Loaded, Exchanged, HasAll};
    ghost use Rattle.running_barrier.specs.BarrierParties.{HasLooked, HasJoined, ComesToStay, Looks, HasLeft, OnceLooked, OnceToStay, OnceLooking};
    ghost use Rattle.running_barrier.specs.BarrierShown.{IsBarrierPass, IsItsWord, waiters_of, reached_of, opened_of, HasArrived, HasLookedOnce, HasStayed, HasPassed, IsNextWord, HasPlayed, HasFilled, AskedEach, AskedLater};

    /// A barrier for so many waiters, and the pass that is whole. `Err` where there was no memory; then nothing was made.
    pub fn new(alloc: A, number_of_waiters: u32) -> Result<(Barrier<A, S>, BarrierPass), AllocError>
        ensures own { IfOk result (λ made. IsBarrierPass made.0 made.1) }
        ensures waiters { IfOk result (λ made. waiters_of made.0 ≡ number_of_waiters) }
        ensures first { IfOk result (λ made. view made.1 ≡ first_view (played no_parties no_rounds)) }
    {
        let (stage, pass) = Stage::new(alloc, &[0], &number_of_waiters)?;
        Ok((
            Barrier {
                stage,
                number_of_waiters,
                shows: PhantomData,
            },
            pass,
        ))
    }

    /// Arrives at the round that fills, and waits until it is full. The arrival that fills it opens the next round by the same
    /// exchange, and then calls `wake_all` once. The others look until the epoch is another: the first 10000 looks that see the same
    /// epoch are followed by the next at once, and each later one by a call of `wait`. `BarrierFull` where the barrier was made for
    /// 0; then this call has not arrived. A waiter that sleeps through 2^32 rounds sees its own epoch again, and stays.
    #[inline(always)]
    pub fn wait<
        't,
        R: Wait,
        W: Fn(&<S as Shows<'t, BarrierWord<'t>>>::As, &u64),
        K: Fn(&<S as Shows<'t, BarrierWord<'t>>>::As),
    >(&'t self, rt: &R, pass: &mut BarrierPass, wait: W, wake_all: K) -> Result<(), BarrierFull>
    where
        S: Shows<'t, BarrierWord<'t>>,
        requires own { IsBarrierPass self.now pass.old }
        requires may { W.IsAlwaysCallable wait × K.IsAlwaysCallable wake_all }
        ensures passed { IfOk result (λ _. HasPassed pass.old pass.new) }
        ensures all { IfOk result (λ _. HasAll (waiters_of self.now) (counted pass.new)) }
        ensures once { IfOk result (λ _. IsWhole (part_of pass.old) → waiters_of self.now ≡ 1 → HasLookedOnce pass.old pass.new) }
        ensures played { IfOk result (λ _. opened_of pass.new ≡ opened_of pass.old → HasPlayed (waiters_of self.now) answers.Ok pass.old pass.new) }
        ensures filled { IfOk result (λ _. opened_of pass.old < opened_of pass.new → HasFilled (waiters_of self.now) pass.old pass.new) }
        ensures refused { IfErr result (λ _. HasSeen 0 pass.old pass.new) }
        ensures full { IfErr result (λ _. HasPlayed (waiters_of self.now) answers.Full pass.old pass.new) }
        ensures some { 0 < waiters_of self.now → is_ok result ≡ true }
        ensures none { waiters_of self.now ≡ 0 → is_ok result ≡ false }
        ensures woke { IfOk result (λ _. opened_of pass.old < opened_of pass.new → HasWokenOf K.Fn (λ word. IsItsWord self.now (S.As.Shown.object word) (S.As.Shown.index word)) wake_all) }
    {
        // Read once: it would be loaded again after the exchange.
        let number_of_waiters = self.number_of_waiters;
        let (seen, turn) = self.first_look(pass);
        let Some(next) = arrived(seen, number_of_waiters) else {
            let _pass = turn.end(&self.stage);
            return Err(BarrierFull);
        };
        let (from, joined) = self.arrive(rt, turn, seen, next);
        let word = self.word();
        if fills(from, number_of_waiters) {
            let (woken, _wake_all) = joined.wake(&self.stage, &word, wake_all);
            let _pass = woken.end_aside(&self.stage);
            return Ok(());
        }
        let (left, _wait) = self.stay(rt, joined, epoch_of(from), &word, wait);
        let _pass = left.end(&self.stage);
        Ok(())
    }

    /// Arrives from the value that was seen, or from the one that an exchange found which failed. The value that the arrival was made
    /// from.
    #[inline(always)]
    fn arrive<'p, R: Wait>(
        &self,
        rt: &R,
        turn: Turn<'p, BarrierPass, Goes>,
        seen: u64,
        next: u64,
    ) -> (u64, Turn<'p, BarrierPass, Goes>)
        requires own { IsBarrierPass self.now turn.pass.now }
        requires next { IsNextWord (waiters_of self.now) seen next }
        requires last { (sights_of turn.pass.now).last ≡ seen }
        requires alone { IsWhole (part_of turn.pass.now) → seen ≡ word_of (waiters_of self.now) (tally_of turn.pass.now) }
        requires looked { (done : List (Slot ℕ)) × HasLooked (waiters_of self.now) seen done (parties_of turn.pass.now) }
        ensures same_borrow { result.1.pass.ghost_name ≡ turn.entry.pass.ghost_name }
        ensures arrived { HasArrived (waiters_of self.now) result.0 turn.entry.pass.now result.1.pass.now }
        ensures all { HasAll (waiters_of self.now) (counted result.1.pass.now) }
        ensures once { IsWhole (part_of turn.entry.pass.now) → sights_of result.1.pass.now ≡ stale (sights_of turn.entry.pass.now) }
        ensures joined { OnceLooked (waiters_of self.now) seen (parties_of turn.entry.pass.now) (λ done. HasJoined (waiters_of self.now) result.0 done (parties_of result.1.pass.now)) }
    {
        let (found, after) = self.exchange(turn, seen, next);
        if found == seen {
            return (seen, after);
        }
        self.arrive_later(rt, after, found)
    }

    /// Arrives after an exchange that failed, which found this: the value that the arrival was made from.
    fn arrive_later<'p, R: Wait>(
        &self,
        rt: &R,
        turn: Turn<'p, BarrierPass, Goes>,
        found: u64,
    ) -> (u64, Turn<'p, BarrierPass, Goes>)
        requires own { IsBarrierPass self.now turn.pass.now }
        requires room { count_of found < waiters_of self.now }
        requires last { (sights_of turn.pass.now).last ≡ found }
        requires looked { (done : List (Slot ℕ)) × HasLooked (waiters_of self.now) found done (parties_of turn.pass.now) }
        ensures same_borrow { result.1.pass.ghost_name ≡ turn.entry.pass.ghost_name }
        ensures arrived { HasArrived (waiters_of self.now) result.0 turn.entry.pass.now result.1.pass.now }
        ensures all { HasAll (waiters_of self.now) (counted result.1.pass.now) }
        ensures joined { OnceLooked (waiters_of self.now) found (parties_of turn.entry.pass.now) (λ done. HasJoined (waiters_of self.now) result.0 done (parties_of result.1.pass.now)) }
    {
        let mut seen = found;
        let mut missed = turn;
        for _ in rt.forever() {
            let Some(next) = arrived(seen, self.number_of_waiters) else {
                unreachable!()
            };
            let (found, after) = self.exchange(missed, seen, next);
            if found == seen {
                return (seen, after);
            }
            seen = found;
            missed = after;
        }
        unreachable!()
    }

    /// Waits until the epoch is another than this one, which was that of the last look or arrival. Gives the wait closure back.
    fn stay<'p, X: Shown, R: Wait, W: FnMut(&X, &u64)>(
        &self,
        rt: &R,
        turn: Turn<'p, BarrierPass, Goes>,
        own_epoch: u64,
        word: &Sealed<X>,
        wait: W,
    ) -> (Turn<'p, BarrierPass, Goes>, W)
        requires own { IsBarrierPass self.now turn.pass.now }
        requires own_epoch { own_epoch ≡ reached_of turn.pass.now % 2 ^ 32 }
        requires comes { (done : List (Slot ℕ)) × ComesToStay (waiters_of self.now) own_epoch done (parties_of turn.pass.now) }
        requires its { IsItsWord self.now (X.object word.now.shown) (X.index word.now.shown) }
        requires may { W.IsAlwaysCallable wait }
        ensures same_borrow { result.0.pass.ghost_name ≡ turn.entry.pass.ghost_name }
        ensures stayed { HasStayed turn.entry.pass.now result.0.pass.now }
        ensures reached { reached_of turn.entry.pass.now < reached_of result.0.pass.now }
        ensures all { HasAll (waiters_of self.now) (counted result.0.pass.now) }
        ensures asked { AskedLater W.FnMut word.now.shown own_epoch wait result.1 (sights_of turn.entry.pass.now).count (sights_of result.0.pass.now).count }
        ensures left { OnceToStay (waiters_of self.now) own_epoch (parties_of turn.entry.pass.now) (λ done. HasLeft (waiters_of self.now) done (parties_of result.0.pass.now)) }
    {
        let (seen, spun) = self.spin(turn, own_epoch);
        self.ask(rt, spun, own_epoch, seen, word, wait)
    }

    /// Looks, up to 10000 times more while the epoch is this one. The value seen last.
    fn spin<'p>(
        &self,
        turn: Turn<'p, BarrierPass, Goes>,
        own_epoch: u64,
    ) -> (u64, Turn<'p, BarrierPass, Goes>)
        requires own { IsBarrierPass self.now turn.pass.now }
        requires comes { (done : List (Slot ℕ)) × ComesToStay (waiters_of self.now) own_epoch done (parties_of turn.pass.now) }
        ensures same_borrow { result.1.pass.ghost_name ≡ turn.entry.pass.ghost_name }
        ensures stayed { HasStayed turn.entry.pass.now result.1.pass.now }
        ensures epoch { epoch_of result.0 ≡ reached_of result.1.pass.now % 2 ^ 32 }
        ensures spun { epoch_of result.0 ≡ own_epoch → (sights_of result.1.pass.now).count ≡ (sights_of turn.entry.pass.now).count + 10001 }
        ensures at_most { (sights_of result.1.pass.now).count ≤ (sights_of turn.entry.pass.now).count + 10001 }
        ensures all { HasAll (waiters_of self.now) (counted result.1.pass.now) }
        ensures looks { OnceToStay (waiters_of self.now) own_epoch (parties_of turn.entry.pass.now) (λ done. Looks (waiters_of self.now) own_epoch 10000 result.0 done (parties_of result.1.pass.now)) }
    {
        let (first, after) = self.look(turn);
        let mut seen = first;
        let mut next = after;
        for _ in 0..SPIN_REPETITIONS {
            if epoch_of(seen) != own_epoch {
                return (seen, next);
            }
            spin_loop();
            let (found, again) = self.look(next);
            seen = found;
            next = again;
        }
        (seen, next)
    }

    /// The wait closure before each further look, until the epoch is another than this one. Gives it back.
    fn ask<'p, X: Shown, R: Wait, W: FnMut(&X, &u64)>(
        &self,
        rt: &R,
        turn: Turn<'p, BarrierPass, Goes>,
        own_epoch: u64,
        seen: u64,
        word: &Sealed<X>,
        wait: W,
    ) -> (Turn<'p, BarrierPass, Goes>, W)
        requires own { IsBarrierPass self.now turn.pass.now }
        requires epoch { epoch_of seen ≡ reached_of turn.pass.now % 2 ^ 32 }
        requires all { HasAll (waiters_of self.now) (counted turn.pass.now) }
        requires looks { (done : List (Slot ℕ)) × Looks (waiters_of self.now) own_epoch 10000 seen done (parties_of turn.pass.now) }
        requires its { IsItsWord self.now (X.object word.now.shown) (X.index word.now.shown) }
        requires may { W.IsAlwaysCallable wait }
        ensures same_borrow { result.0.pass.ghost_name ≡ turn.entry.pass.ghost_name }
        ensures stayed { HasStayed turn.entry.pass.now result.0.pass.now }
        ensures other { reached_of result.0.pass.now % 2 ^ 32 ≢ own_epoch }
        ensures all { HasAll (waiters_of self.now) (counted result.0.pass.now) }
        ensures asked { AskedEach W.FnMut word.now.shown own_epoch wait result.1 (sights_of turn.entry.pass.now).count (sights_of result.0.pass.now).count }
        ensures left { OnceLooking (waiters_of self.now) own_epoch 10000 seen (parties_of turn.entry.pass.now) (λ done. HasLeft (waiters_of self.now) done (parties_of result.0.pass.now)) }
    {
        let mut seen = seen;
        let mut next = turn;
        let mut wait = wait;
        for _ in rt.forever() {
            if epoch_of(seen) != own_epoch {
                return (next, wait);
            }
            let (continued, asked) = next.tell(&self.stage, word, seen, wait);
            wait = asked;
            let (found, again) = self.look(continued);
            seen = found;
            next = again;
        }
        unreachable!()
    }

    /// A load.
    #[inline(always)]
    fn look<'p, W: Way<u64>>(
        &self,
        turn: Turn<'p, BarrierPass, W>,
    ) -> (u64, Turn<'p, BarrierPass, Goes>)
        requires own { IsBarrierPass self.now turn.pass.now }
        requires may { MayStep (barrier_model (waiters_of self.now)) (words.State ∷ []) W.coming 0 (λ w. intents.Load w) (parties_of turn.pass.now) }
        ensures same_borrow { result.1.pass.ghost_name ≡ turn.entry.pass.ghost_name }
        ensures same { IsSamePass turn.entry.pass.now result.1.pass.now }
        ensures told { Loaded (waiters_of self.now) (counted turn.entry.pass.now) result.0 (counted result.1.pass.now) }
        ensures went { Went (barrier_model (waiters_of self.now)) W.coming (parties_of turn.entry.pass.now) result.0 (parties_of result.1.pass.now) }
    {
        turn.load(&self.stage, 0)
    }

    /// The load with which a `Wait` begins.
    #[inline(always)]
    fn first_look<'p>(&self, pass: &'p mut BarrierPass) -> (u64, Turn<'p, BarrierPass, Goes>)
        requires own { IsBarrierPass self.now pass.old }
        ensures same_borrow { result.1.pass.ghost_name ≡ pass.entry.ghost_name }
        ensures same { IsSamePass pass.old result.1.pass.now }
        ensures told { Loaded (waiters_of self.now) (counted pass.old) result.0 (counted result.1.pass.now) }
        ensures went { Went (barrier_model (waiters_of self.now)) (Beginning calls.Wait) (parties_of pass.old) result.0 (parties_of result.1.pass.now) }
    {
        let begun = begin_new::<WaitCall, BarrierPass>(pass);
        self.look(begun)
    }

    /// An exchange of the value seen for the one after an arrival, and the value that it found.
    #[inline(always)]
    fn exchange<'p>(
        &self,
        turn: Turn<'p, BarrierPass, Goes>,
        seen: u64,
        next: u64,
    ) -> (u64, Turn<'p, BarrierPass, Goes>)
        requires own { IsBarrierPass self.now turn.pass.now }
        requires next { IsNextWord (waiters_of self.now) seen next }
        requires looked { (done : List (Slot ℕ)) × HasLooked (waiters_of self.now) seen done (parties_of turn.pass.now) }
        ensures same_borrow { result.1.pass.ghost_name ≡ turn.entry.pass.ghost_name }
        ensures same { IsSamePass turn.entry.pass.now result.1.pass.now }
        ensures told { Exchanged (waiters_of self.now) seen (counted turn.entry.pass.now) result.0 (counted result.1.pass.now) }
        ensures joined { result.0 ≡ seen → OnceLooked (waiters_of self.now) seen (parties_of turn.entry.pass.now) (λ done. HasJoined (waiters_of self.now) seen done (parties_of result.1.pass.now)) }
        ensures again { result.0 ≢ seen → OnceLooked (waiters_of self.now) seen (parties_of turn.entry.pass.now) (λ done. HasLooked (waiters_of self.now) result.0 done (parties_of result.1.pass.now)) }
    {
        turn.exchange(&self.stage, 0, seen, next)
    }

    /// The barrier's word, as closures see it.
    #[inline(always)]
    fn word<'t, X: OfWord<BarrierWord<'t>>>(&'t self) -> Sealed<X>
        ensures its { IsItsWord self.now (X.Shown.object result.shown) (X.Shown.index result.shown) }
    {
        self.stage.shown(0)
    }
}

/// Whether an arrival from this value fills a round of so many.
#[inline(always)]
fn fills(from: u64, number_of_waiters: u32) -> bool
    ensures { MatchBool result (count_of from + 1 ≡ number_of_waiters) (count_of from + 1 ≢ number_of_waiters) }
{
    count_of(from) + 1 == u64::from(number_of_waiters)
}

/// Whenever the rule of a barrier holds, a round that a pass knows to be open is full. Says so of the rule alone, and does nothing.
#[tactic(auto, using(crate::proofs::BarrierKeeps::open_rounds_are_full))]
pub fn open_rounds_are_full()
    ensures { OpenRoundsAreFull }
{}

/// Whenever the rule of a barrier holds, its passes are the parties of a run of the model, and all together arrived in each round as often as
/// calls did in it. Says so of the rule alone, and does nothing.
#[tactic(auto, using(crate::proofs::BarrierKeeps::arrivals_are_of_a_run))]
pub fn arrivals_are_of_a_run()
    ensures { ArrivalsAreOfARun }
{}

/// Whenever the rule of a barrier holds, its word is what all passes counted together come to: the rounds that they opened, modulo 2^32, and the
/// arrivals of the next. Says so of the rule alone, and does nothing.
#[tactic(auto, using(crate::proofs::BarrierKeeps::word_counts))]
pub fn word_counts_arrivals()
    ensures { WordCountsArrivals }
{}
