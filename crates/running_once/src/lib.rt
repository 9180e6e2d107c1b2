//! A closure that runs once. The word is 0 where none has begun, 1 while it runs, and 2 once it has ended.
//!
//! It does what `once` of the Rust crate does: calls that meet spin until the closure of one of them has ended. It plays its model: a pass
//! makes the steps that the model's table has.
#![tactic(auto)]

ghost use Rattle.std.specs.Prelude.{◌≡◌, ℕ, IfOk};
ghost use Rattle.running_model.specs.Passes.{counts_of};
ghost use Rattle.running_model.specs.Stages.{count_of};
ghost use Rattle.running_once.specs.Once.{ClosuresAreOfARun, OneClosure, KnownHasEnded, WordTellsClosures};
ghost use Rattle.running_once.specs.OnceLaws.{DoneComesAfterTheEnd, TrueComesAfterTheEnd};

mod shares;

use model_once::{OncePlace, begun};
use running_model::calls::{CallOnceCall, IsCompletedCall};
pub use running_model::turn::Ran;
use running_model::turn::{Called, Goes, Turn, Way, begin_new};
use running_model::{Counts, CountsByActs, Played, Script, Stage};
use running_passes::{Pass, Rule, Tally};
use std::alloc::{AllocError, Allocator, Global};
use std::hint::spin_loop;
use std::sync::Wait;

/// The model that a once plays: its one word is the once's.
pub struct OnceScript;

impl Script<(), OncePlace, u64> for OnceScript {
    ghost use Rattle.std.specs.Prelude.{[], ◌∷◌};
    ghost use Rattle.model_events.specs.declared.event.Word.TheVariants as words;
    ghost use Rattle.running_once.specs.Once.{once_model, once_lawful};

    ghost model = { λ _. once_model };

    ghost lawful = { λ _. once_lawful };

    ghost names = { words.State ∷ [] };

    ghost apart = { (tt, tt) };

    ghost handed = { λ _. words.State };
}

/// What a pass of a once is in its model, and counts and knows beside.
pub type PlayedOnce = Played<OnceScript, OncePlace, u64, Runs>;

/// What a pass of a once counts and knows. No value of it is made.
pub struct Runs {
    /// How many closures of its owner run: 0 or 1, and 0 between its calls.
    pub running: u64,
    /// How many closures its owner ran to their end: 0 or 1.
    pub ended: u64,
    /// Whether it knows that a closure has ended.
    pub complete: bool,
}

impl Tally for Runs {
    ghost use Rattle.running_once.specs.Once.{no_runs, both_runs, known_runs, runs_add_up};

    ghost none = { no_runs };

    ghost add = { both_runs };

    ghost core = { known_runs };

    ghost adds_up = { runs_add_up };
}

/// The run alone says what all passes count and know.
impl Rule<(), ()> for Runs {
    ghost use Rattle.running_once.specs.Once.{no_runs};

    ghost first = { λ _. no_runs };

    ghost agrees = { λ _ _ _ _. Unit {0} };
}

/// All passes together began as many closures as the run has, and completed as many.
impl Counts<(), u64> for Runs {
    ghost use Rattle.running_once.specs.Once.{AreRunsIn, runs_open, runs_stay};

    ghost follow = { λ _. AreRunsIn };

    ghost stays = { λ _. runs_stay };

    ghost opens = { λ _ _ _. runs_open };
}

impl CountsByActs<(), OnceScript, OncePlace, u64> for Runs {
    ghost use Rattle.std.proofs.Common.{refl};
    ghost use Rattle.running_model.specs.Sees.{sights_after};
    ghost use Rattle.running_once.specs.Once.{runs_after, runs_needed, runs_go_on};

    ghost free = { λ _ _ _ _ _ _. tt };

    ghost sees = { sights_after };

    ghost after = { λ _ _ _. runs_after };

    ghost same = { λ _ _ _ _ _ _ _ _. refl };

    ghost needs = { runs_needed };

    ghost goes_on = { λ _. runs_go_on };
}

/// A closure that runs once.
#[derive(Drop)]
pub struct Once<A: Allocator = Global> {
    stage: Stage<(), OnceScript, OncePlace, u64, Runs, A>,
    ghost one_word: { count_of stage ≡ 1 },
}

/// The right to call a once, and what its owner did and saw there. No closure of its owner runs.
#[derive(Drop)]
pub struct OncePass {
    pass: Pass<PlayedOnce>,
    ghost settled: { (counts_of pass).running ≡ 0 },
}

impl OncePass {
    ghost use Rattle.std.specs.Prelude.{true, is_ok};
    ghost use Rattle.running_passes.specs.declared.part.Part.{Part};
    ghost use Rattle.running_passes.specs.Parts.{half, IsAgain, IsSamePart, AddUp};
    ghost use Rattle.running_passes.specs.Views.{left_view, right_view, joined_view};
    ghost use Rattle.running_model.specs.Slots.{no_parties, both_parties};
    ghost use Rattle.running_once.specs.Once.{both_runs, known_runs};
    ghost use Rattle.running_once.specs.OnceShown.{IsOncePass, known_by, parties_of_once, part_of_once};

    /// Two passes of the same once. What they counted adds up to what this one had counted, and both know what it knew; they weigh
    /// together what it weighed. `Err`, which never comes today, would hand the pass back.
    pub fn split<A: Allocator>(self, of: &Once<A>) -> Result<(OncePass, OncePass), OncePass>
        requires own { IsOncePass of.now self }
        ensures never_refused { is_ok result ≡ true }
        ensures own { IfOk result (λ parts. IsOncePass of.now parts.0 × IsOncePass of.now parts.1) }
        ensures views { IfOk result (λ parts. (known_by parts.0 ≡ left_view (known_by self)) × (known_by parts.1 ≡ right_view known_runs (known_by self))) }
        ensures parties { IfOk result (λ parts. (parties_of_once parts.0 ≡ parties_of_once self) × (parties_of_once parts.1 ≡ no_parties)) }
        ensures weights { IfOk result (λ parts. AddUp (part_of_once self) (part_of_once parts.0) (part_of_once parts.1)) }
    {
        let OncePass { pass } = self;
        let Ok((one, other)) = pass.split(&of.stage) else {
            unreachable!()
        };
        Ok((OncePass { pass: one }, OncePass { pass: other }))
    }

    /// One pass from two of the same once, which counted and knows what both did, and weighs what both weighed. `Err`, which never
    /// comes today, would hand both back.
    pub fn join<A: Allocator>(
        a: OncePass,
        b: OncePass,
        of: &Once<A>,
    ) -> Result<OncePass, (OncePass, OncePass)>
        requires own { IsOncePass of.now a × IsOncePass of.now b }
        ensures never_refused { is_ok result ≡ true }
        ensures own { IfOk result (IsOncePass of.now) }
        ensures views { IfOk result (λ both. known_by both ≡ joined_view both_runs (known_by a) (known_by b)) }
        ensures parties { IfOk result (λ both. parties_of_once both ≡ both_parties (parties_of_once a) (parties_of_once b)) }
        ensures weights { IfOk result (λ both. AddUp (part_of_once both) (part_of_once a) (part_of_once b)) }
        ensures again { (p : Part) → IsSamePart (part_of_once a) (half p) → IsSamePart (part_of_once b) (half p) → IfOk result (λ both. IsAgain p (part_of_once both)) }
    {
        let OncePass { pass: one } = a;
        let OncePass { pass: other } = b;
        let Ok(pass) = Pass::join(one, other, &of.stage) else {
            unreachable!()
        };
        Ok(OncePass { pass })
    }
}

impl<A: Allocator> Once<A> {
    ghost use Rattle.std.specs.Fn.{FnOnceTakesAtMut, FnOnceReturnsAtMut};
    ghost use Rattle.std.specs.Prelude.{IfSome, IfNone, None, true, false, ◌<◌, ◌≢◌, MatchBool, List, [], ◌∷◌};
    ghost use Rattle.model_events.specs.declared.event.Word.TheVariants as words;
    ghost use Rattle.model_events.specs.declared.event.Call.TheVariants as calls;
    ghost use Rattle.model_events.specs.declared.event.Answer.TheVariants as answers;
    ghost use Rattle.model_events.specs.declared.row.Intent.TheVariants as intents;
    ghost use Rattle.running_once.specs.Once.{once_model, no_runs, ended, Amounts, Loaded};
    ghost use Rattle.running_passes.specs.Parts.{IsWhole};
    ghost use Rattle.running_passes.specs.Views.{first_view};
    ghost use Rattle.running_passes.specs.Sights.{HasLooked};
    ghost use Rattle.running_passes.specs.Passes.{part_of, sights_of, IsSamePass};
    ghost use Rattle.running_model.specs.Slots.{Slot, no_parties};
    ghost use Rattle.running_model.specs.Plays.{Beginning, HasCalled, MayStep, Went};
    ghost use Rattle.running_model.specs.Passes.{parties_of, counted};
    ghost use Rattle.running_model.specs.Counts.{HasDone};
    ghost use Rattle.running_model.specs.Stages.{IsPassOf};
    ghost use Rattle.running_model.specs.Turns.{given_by};
    ghost use Rattle.running_once.specs.OnceParties.{ComesToBegin, IsRunning, ComesToStay, HasLeft, WhereBegins, WhereRuns, WhereStays};
    ghost use Rattle.running_once.specs.OnceShown.{CompletesWithin, SeesOnceWithin, IsOncePass, IsComplete, HasSeenOnce, HasCompleted, HasBegun, HasOnlyWaited, HasPlayed, IsTaken, known_by, parties_of_once, part_of_once, sights_of_once, ended_of};

    /// A once whose closure has not run, and the pass that is whole. `Err` where there was no memory; then nothing was made.
    pub fn new(alloc: A) -> Result<(Once<A>, OncePass), AllocError>
        ensures own { IfOk result (λ made. IsOncePass made.0 made.1) }
        ensures first { IfOk result (λ made. known_by made.1 ≡ first_view no_runs) }
        ensures nobody { IfOk result (λ made. parties_of_once made.1 ≡ no_parties) }
    {
        let (stage, pass) = Stage::new(alloc, &[0], &())?;
        Ok((Once { stage }, OncePass { pass }))
    }

    /// Runs the closure, if no other has begun; else lets it go, and comes back once the one that began has ended. A closure that
    /// calls this once itself waits for ever.
    #[inline(always)]
    pub fn call_once<R: Wait, F: FnOnce()>(&self, rt: &R, pass: &mut OncePass, f: F)
        requires own { IsOncePass self.now pass.old }
        requires may { F.IsAlwaysCallable f }
        ensures completed { HasCompleted pass.old pass.new }
        ensures ran { ended_of pass.old < ended_of pass.new → F.post f tt }
        ensures kept { IsComplete pass.old → HasSeenOnce pass.old pass.new }
        ensures exact { IsWhole (part_of_once pass.old) → ended_of pass.new ≡ 1 }
        ensures played { HasPlayed calls.CallOnce answers.Done pass.old pass.new }
    {
        self.run_or_wait(
            rt,
            &mut pass.pass,
            &mut (),
            |_: &mut ()|
                requires { F.IsAlwaysCallable f }
                ensures { F.post f tt }
            {
                f();
            },
        );
    }

    /// What `call_once` does, with a closure that is lent `on`, and what that gave if this call ran it. For a closure that has to change
    /// what its caller lends: captured, it would be gone at the end of the call.
    #[inline(always)]
    pub fn call_once_on<X, Y, R: Wait, F: FnOnce(&mut X) -> Y>(
        &self,
        rt: &R,
        pass: &mut OncePass,
        on: &mut X,
        f: F,
    ) -> Option<Ran<Y>>
        requires own { IsOncePass self.now pass.old }
        requires may { FnOnceTakesAtMut F.FnOnce f on.old }
        ensures completed { HasCompleted pass.old pass.new }
        ensures ran { IfSome result (λ ran. FnOnceReturnsAtMut F.FnOnce f on.old (given_by ran) on.new) }
        ensures counted { IfSome result (λ _. ended_of pass.old < ended_of pass.new) }
        ensures let_go { IfNone result ((ended_of pass.new ≡ ended_of pass.old) × (on.new ≡ on.old)) }
        ensures kept { IsComplete pass.old → HasSeenOnce pass.old pass.new }
        ensures exact { IsWhole (part_of_once pass.old) → ended_of pass.new ≡ 1 }
        ensures played { HasPlayed calls.CallOnce answers.Done pass.old pass.new }
    {
        self.run_or_wait(rt, &mut pass.pass, on, f)
    }

    /// Whether a closure has ended: one load.
    #[inline(always)]
    pub fn is_completed(&self, pass: &mut OncePass) -> bool
        requires own { IsOncePass self.now pass.old }
        ensures saw { HasSeenOnce pass.old pass.new }
        ensures tells { MatchBool result ((sights_of_once pass.new).last ≡ 2) ((sights_of_once pass.new).last ≢ 2) }
        ensures complete { result ≡ true → IsComplete pass.new }
        ensures known { IsComplete pass.old → result ≡ true }
        ensures exact { IsWhole (part_of_once pass.old) → MatchBool result (ended_of pass.old ≡ 1) (ended_of pass.old ≡ 0) }
        ensures played { HasPlayed calls.IsCompleted (answers.Flag result) pass.old pass.new }
    {
        self.look_once(&mut pass.pass) == COMPLETE
    }

    /// What `call_once_on` does.
    #[inline(always)]
    fn run_or_wait<X, Y, R: Wait, F: FnOnce(&mut X) -> Y>(
        &self,
        rt: &R,
        pass: &mut Pass<PlayedOnce>,
        on: &mut X,
        f: F,
    ) -> Option<Ran<Y>>
        requires own { IsPassOf self.now.stage pass.old }
        requires settled { (counts_of pass.old).running ≡ 0 }
        requires may { FnOnceTakesAtMut F.FnOnce f on.old }
        ensures settled { (counts_of pass.new).running ≡ 0 }
        ensures completed { CompletesWithin pass.old pass.new }
        ensures ran { IfSome result (λ ran. FnOnceReturnsAtMut F.FnOnce f on.old (given_by ran) on.new) }
        ensures counted { IfSome result (λ _. (counts_of pass.old).ended < (counts_of pass.new).ended) }
        ensures let_go { IfNone result (((counts_of pass.new).ended ≡ (counts_of pass.old).ended) × (on.new ≡ on.old)) }
        ensures kept { (counts_of pass.old).complete ≡ true → SeesOnceWithin pass.old pass.new }
        ensures exact { IsWhole (part_of pass.old) → (counts_of pass.new).ended ≡ 1 }
        ensures played { HasCalled once_model calls.CallOnce answers.Done None (parties_of pass.old) (parties_of pass.new) }
    {
        let (seen, turn) = self.first_look::<CallOnceCall>(pass);
        if seen == COMPLETE {
            let _pass = turn.end(&self.stage);
            return None;
        }
        let (is_first, tried) = self.begin(turn);
        if is_first {
            let (ran, done) = self.run(tried, on, f);
            let _pass = done.end(&self.stage);
            return Some(ran);
        }
        let left = self.stay(rt, tried);
        let _pass = left.end(&self.stage);
        None
    }

    /// The load of `is_completed`, and what it found.
    #[inline(always)]
    fn look_once(&self, pass: &mut Pass<PlayedOnce>) -> u64
        requires own { IsPassOf self.now.stage pass.old }
        ensures same { IsSamePass pass.old pass.new }
        ensures told { Loaded (counted pass.old) result (counted pass.new) }
        ensures went { Went once_model (Beginning calls.IsCompleted) (parties_of pass.old) result (parties_of pass.new) }
    {
        let (seen, turn) = self.first_look::<IsCompletedCall>(pass);
        let _pass = turn.end(&self.stage);
        seen
    }

    /// Looks until the word says that a closure has ended. Out of line, so that a loop of a caller's has no loop inside.
    #[inline(never)]
    fn stay<'p, R: Wait>(
        &self,
        rt: &R,
        turn: Turn<'p, Pass<PlayedOnce>, Goes>,
    ) -> Turn<'p, Pass<PlayedOnce>, Goes>
        requires own { IsPassOf self.now.stage turn.pass.now }
        requires comes { (done : List (Slot ℕ)) × ComesToStay done (parties_of turn.pass.now) }
        ensures same_borrow { result.pass.ghost_name ≡ turn.entry.pass.ghost_name }
        ensures stayed { HasOnlyWaited turn.entry.pass.now result.pass.now }
        ensures complete { (counts_of result.pass.now).complete ≡ true }
        ensures alone { IsWhole (part_of turn.entry.pass.now) → Amounts 2 (counts_of turn.entry.pass.now) }
        ensures left { WhereStays (parties_of turn.entry.pass.now) (λ done. HasLeft done (parties_of result.pass.now)) }
    {
        let mut next = turn;
        for _ in rt.forever() {
            let (seen, again) = self.look(next);
            if seen == COMPLETE {
                return again;
            }
            spin_loop();
            next = again;
        }
        unreachable!()
    }

    /// A load.
    #[inline(always)]
    fn look<'p, W: Way<u64>>(
        &self,
        turn: Turn<'p, Pass<PlayedOnce>, W>,
    ) -> (u64, Turn<'p, Pass<PlayedOnce>, Goes>)
        requires own { IsPassOf self.now.stage turn.pass.now }
        requires may { MayStep once_model (words.State ∷ []) W.coming 0 (λ w. intents.Load w) (parties_of turn.pass.now) }
        ensures same_borrow { result.1.pass.ghost_name ≡ turn.entry.pass.ghost_name }
        ensures same { IsSamePass turn.entry.pass.now result.1.pass.now }
        ensures told { Loaded (counted turn.entry.pass.now) result.0 (counted result.1.pass.now) }
        ensures went { Went once_model W.coming (parties_of turn.entry.pass.now) result.0 (parties_of result.1.pass.now) }
    {
        turn.load(&self.stage, 0)
    }

    /// The load with which a call begins.
    #[inline(always)]
    fn first_look<'p, L: Called<u64>>(
        &self,
        pass: &'p mut Pass<PlayedOnce>,
    ) -> (u64, Turn<'p, Pass<PlayedOnce>, Goes>)
        requires own { IsPassOf self.now.stage pass.old }
        requires may { MayStep once_model (words.State ∷ []) (Beginning L.call) 0 (λ w. intents.Load w) (parties_of pass.old) }
        ensures same_borrow { result.1.pass.ghost_name ≡ pass.entry.ghost_name }
        ensures same { IsSamePass pass.old result.1.pass.now }
        ensures told { Loaded (counted pass.old) result.0 (counted result.1.pass.now) }
        ensures went { Went once_model (Beginning L.call) (parties_of pass.old) result.0 (parties_of result.1.pass.now) }
    {
        let begun = begin_new::<L, Pass<PlayedOnce>>(pass);
        self.look(begun)
    }

    /// An exchange of 0 for 1, and whether it was done.
    #[inline(always)]
    fn begin<'p>(
        &self,
        turn: Turn<'p, Pass<PlayedOnce>, Goes>,
    ) -> (bool, Turn<'p, Pass<PlayedOnce>, Goes>)
        requires own { IsPassOf self.now.stage turn.pass.now }
        requires comes { (done : List (Slot ℕ)) × ComesToBegin done (parties_of turn.pass.now) }
        ensures same_borrow { result.1.pass.ghost_name ≡ turn.entry.pass.ghost_name }
        ensures begun { MatchBool result.0 (HasBegun turn.entry.pass.now result.1.pass.now) (HasOnlyWaited turn.entry.pass.now result.1.pass.now) }
        ensures refused { result.0 ≡ false → HasLooked IsTaken 1 (sights_of turn.entry.pass.now) (sights_of result.1.pass.now) }
        ensures runs { result.0 ≡ true → WhereBegins (parties_of turn.entry.pass.now) (λ done. IsRunning done (parties_of result.1.pass.now)) }
        ensures stays { result.0 ≡ false → WhereBegins (parties_of turn.entry.pass.now) (λ done. ComesToStay done (parties_of result.1.pass.now)) }
    {
        let (found, next) = turn.exchange(&self.stage, 0, 0, running());
        (found == 0, next)
    }

    /// Runs the closure that has begun, and then stores 2.
    #[inline(always)]
    fn run<'p, X, Y, F: FnOnce(&mut X) -> Y>(
        &self,
        turn: Turn<'p, Pass<PlayedOnce>, Goes>,
        on: &mut X,
        f: F,
    ) -> (Ran<Y>, Turn<'p, Pass<PlayedOnce>, Goes>)
        requires own { IsPassOf self.now.stage turn.pass.now }
        requires on { (counts_of turn.pass.now).running ≡ 1 }
        requires runs { (done : List (Slot ℕ)) × IsRunning done (parties_of turn.pass.now) }
        requires may { FnOnceTakesAtMut F.FnOnce f on.old }
        ensures same_borrow { result.1.pass.ghost_name ≡ turn.entry.pass.ghost_name }
        ensures ran { FnOnceReturnsAtMut F.FnOnce f on.old (given_by result.0) on.new }
        ensures ended { HasDone ended turn.entry.pass.now result.1.pass.now }
        ensures left { WhereRuns (parties_of turn.entry.pass.now) (λ done. HasLeft done (parties_of result.1.pass.now)) }
    {
        let (ran, over) = turn.run(&self.stage, on, f);
        let done = over.store(&self.stage, 0, COMPLETE);
        (ran, done)
    }
}

/// The word once a closure has ended.
const COMPLETE: u64 = 2;

/// The word while a closure runs.
#[inline(always)]
fn running() -> u64
    ensures { result ≡ 1 }
{
    match begun(0) {
        Some(word) => word,
        None => unreachable!(),
    }
}

/// Whenever the rule of a once holds, all its passes together began one closure at most; where one of them knows that a closure ended, one
/// did; and the word is 0 where none began, 1 while one runs, 2 once it has ended. Says so of the rule alone, and does nothing.
#[tactic(auto, using(crate::proofs::OnceKeeps::one_closure, crate::proofs::OnceKeeps::known_has_ended, crate::proofs::OnceKeeps::word_tells))]
pub fn one_closure_at_most()
    ensures one { OneClosure }
    ensures known { KnownHasEnded }
    ensures word { WordTellsClosures }
{}

/// In the run in which a `CallOnce` was answered `Done`, or an `IsCompleted` `true`, the closure had ended before. Says so of the model
/// alone, and does nothing.
#[tactic(auto, using(crate::proofs::OnceAnswers::done_comes_after, crate::proofs::OnceAnswers::true_comes_after))]
pub fn answers_come_after_the_end()
    ensures done { DoneComesAfterTheEnd }
    ensures flag { TrueComesAfterTheEnd }
{}

/// Whenever the rule of a once holds, its passes are the parties of a run of the model, and all together began as many closures as calls did
/// in it, and completed as many. Says so of the rule alone, and does nothing.
pub fn closures_are_of_a_run()
    ensures { ClosuresAreOfARun }
{}
