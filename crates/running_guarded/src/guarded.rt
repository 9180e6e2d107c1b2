//! The guarded value itself.
ghost use Rattle.std.specs.Prelude.{◌≡◌, ℕ, ◌<◌, ◌+◌, List, [], ◌∷◌, IfOk, IfErr, Some, None, true, false, MatchBool};
ghost use Rattle.running_passes.specs.Parts.{IsWhole};
ghost use Rattle.running_passes.specs.Views.{first_view};
ghost use Rattle.running_passes.specs.Answers.{MayAnswerAbort};
ghost use Rattle.model_events.specs.declared.event.Word.TheVariants as words;
ghost use Rattle.model_events.specs.declared.event.Call.TheVariants as calls;
ghost use Rattle.model_events.specs.declared.event.Answer.TheVariants as answers;
ghost use Rattle.model_events.specs.declared.hold.HoldKind.TheVariants as kinds;
ghost use Rattle.model_events.specs.declared.row.Intent.TheVariants as intents;
ghost use Rattle.model_events.specs.declared.WaitAction.TheVariants as actions;
ghost use Rattle.model_mutex.specs.declared.MutexPlace.TheVariants as places;
ghost use Rattle.running_mutex.specs.Mutex.{mutex_model};
ghost use Rattle.running_model.specs.Asked.{Asked, WokeOnce, HasWokenOf};
ghost use Rattle.running_model.specs.Slots.{Slot};
ghost use Rattle.running_model.specs.Plays.{Beginning, MayStep};
ghost use Rattle.running_model.specs.Tries.{spun, IsRefused, IsStanding, IsGranted, HasGivenUp as HasEndedRefused, OnceRefused, OnceStanding};
ghost use Rattle.running_mutex.specs.MutexParties.{HasMutex};
ghost use Rattle.running_mutex.specs.MutexShown.{IsLocked};
ghost use Rattle.running_spin_lock.specs.ValueRule.{none_held};
ghost use Rattle.running_spin_lock.specs.ValueSteps.{Locks, Lets, Enters, HasValue, has_vacant_slot};
ghost use Rattle.running_guarded.specs.GuardedWord.{object_shown};
ghost use Rattle.running_guarded.specs.GuardedRule.{GrantsAreOfARun, OneHolderAtMost};
ghost use Rattle.running_guarded.specs.GuardedSteps.{SeesLocked, Tries, SeesLockedOften, StaysLocked, GivesUp, Plays, PlaysUnlock, PlaysBoth, Acts};

use crate::guard::Guard;
use crate::pass::GuardedPass;
use crate::word::GuardedWord;
use atomic_table::{Seat, Table};
use model_events::{SPIN_REPETITIONS, WaitAction};
use model_mutex::MutexPlace;
use running_model::calls::{LockCall, TryLockCall, UnlockCall};
use running_model::seat::{SeatAnswered, SeatTurn, begin_new};
use running_model::turn::{Called, Goes, Way};
use running_model::{Sealed, pause_before};
use running_mutex::{MutexScript, PlayedMutex};
use running_passes::{View, WaitResult};
use running_spin_lock::ValueRule;
use running_spin_lock::slot::{self, FREE, LOCKED};
use std::alloc::{AllocError, Allocator, Global};
use std::sync::Wait;
use std::thread;

/// A lock with one holder at most, which guards a value. It may be shared by threads where the value may go from one to another.
#[derive(Drop)]
pub struct Guarded<T, A: Allocator = Global> {
    pub(crate) table: Table<Option<T>, View<PlayedMutex>, (), ValueRule, A>,
    ghost one_word: { table.shared.table_id.words ≡ 1 },
    ghost one_slot: { table.shared.table_id.slots ≡ 1 },
}

impl<T, A: Allocator> Guarded<T, A> {
    ghost use Rattle.running_guarded.specs.GuardedShown.{id_of, object_of, number_of, view};

    /// One exchange of 0 for 1, and whether it was done. Then the value is out with the seat.
    #[inline(always)]
    fn exchange<W: Way<u64>>(
        &self,
        turn: SeatTurn<Option<T>, PlayedMutex, W>,
    ) -> (bool, SeatTurn<Option<T>, PlayedMutex, Goes>)
        requires own { turn.seat.table_id ≡ id_of self.now }
        requires off { turn.seat.me.0.tally.counts.holds ≡ 0 }
        requires no_slot { turn.seat.me.1 ≡ [] }
        requires alive { 0 < turn.seat.me.0.part.share }
        requires may { MayStep mutex_model (words.State ∷ []) W.coming 0 (λ w. intents.Exchange w 0 1) turn.seat.me.0.tally.parties }
        ensures same { (result.1.seat.table_id ≡ turn.seat.table_id) × (result.1.seat.id ≡ turn.seat.id) }
        ensures locked { MatchBool result.0 (Locks turn.seat.me.0 result.1.seat.me.0) (SeesLocked turn.seat.me.0 result.1.seat.me.0) }
        ensures slot { MatchBool result.0 (HasValue result.1.seat.me.1) (result.1.seat.me.1 ≡ []) }
        ensures tried { Tries W.coming result.0 turn.seat.me.0 result.1.seat.me.0 }
        ensures exact { IsWhole turn.seat.me.0.part → result.0 ≡ true }
    {
        let (found, next) = turn.exchange(&self.table.shared, 0, FREE, LOCKED);
        (found == FREE, next)
    }

    /// The first exchange of a call, which begins with it.
    #[inline(always)]
    fn first<L: Called<u64>>(
        &self,
        seat: Seat<Option<T>, View<PlayedMutex>>,
    ) -> (bool, SeatTurn<Option<T>, PlayedMutex, Goes>)
        requires own { seat.table_id ≡ id_of self.now }
        requires off { seat.me.0.tally.counts.holds ≡ 0 }
        requires no_slot { seat.me.1 ≡ [] }
        requires alive { 0 < seat.me.0.part.share }
        requires may { MayStep mutex_model (words.State ∷ []) (Beginning L.call) 0 (λ w. intents.Exchange w 0 1) seat.me.0.tally.parties }
        ensures same { (result.1.seat.table_id ≡ seat.table_id) × (result.1.seat.id ≡ seat.id) }
        ensures locked { MatchBool result.0 (Locks seat.me.0 result.1.seat.me.0) (SeesLocked seat.me.0 result.1.seat.me.0) }
        ensures slot { MatchBool result.0 (HasValue result.1.seat.me.1) (result.1.seat.me.1 ≡ []) }
        ensures tried { Tries (Beginning L.call) result.0 seat.me.0 result.1.seat.me.0 }
        ensures exact { IsWhole seat.me.0.part → result.0 ≡ true }
    {
        self.exchange(begin_new::<L, Option<T>, PlayedMutex>(seat))
    }

    /// Further exchanges, as many as a call makes by itself, until one is done.
    fn spin(
        &self,
        turn: SeatTurn<Option<T>, PlayedMutex, Goes>,
    ) -> (bool, SeatTurn<Option<T>, PlayedMutex, Goes>)
        requires own { turn.seat.table_id ≡ id_of self.now }
        requires off { turn.seat.me.0.tally.counts.holds ≡ 0 }
        requires no_slot { turn.seat.me.1 ≡ [] }
        requires alive { 0 < turn.seat.me.0.part.share }
        requires seen { IsLocked turn.seat.me.0.sights.last }
        requires at { (done : List (Slot ℕ)) × IsRefused mutex_model calls.Lock places.Lock (spun 0) 1 done turn.seat.me.0.tally.parties }
        ensures same { (result.1.seat.table_id ≡ turn.seat.table_id) × (result.1.seat.id ≡ turn.seat.id) }
        ensures entered { MatchBool result.0 (Enters turn.seat.me.0 result.1.seat.me.0) (SeesLockedOften 10000 turn.seat.me.0 result.1.seat.me.0) }
        ensures slot { MatchBool result.0 (HasValue result.1.seat.me.1) (result.1.seat.me.1 ≡ []) }
        ensures over { OnceRefused mutex_model calls.Lock places.Lock 1 turn.seat.me.0.tally.parties (λ done. MatchBool result.0 (IsGranted mutex_model calls.Lock places.Lock (Some kinds.Write) done result.1.seat.me.0.tally.parties) (IsStanding mutex_model calls.Lock places.Lock 1 done result.1.seat.me.0.tally.parties)) }
    {
        let mut next = turn;
        for tries in 0..SPIN_REPETITIONS {
            pause_before(tries);
            let (free, again) = self.exchange(next);
            if free {
                return (true, again);
            }
            next = again;
        }
        (false, next)
    }

    /// The wait closure before each further exchange, until one is done, or fails after the closure answered `Abort`. It is handed the
    /// word, and told 1. Gives the closure back.
    fn ask_and_try<R: Wait, W: FnMut(&GuardedWord<'_, T>, &u64) -> WaitAction>(
        &self,
        turn: SeatTurn<Option<T>, PlayedMutex, Goes>,
        rt: &R,
        word: &Sealed<GuardedWord<'_, T>>,
        wait: W,
    ) -> (bool, SeatTurn<Option<T>, PlayedMutex, Goes>, W)
        requires own { turn.seat.table_id ≡ id_of self.now }
        requires off { turn.seat.me.0.tally.counts.holds ≡ 0 }
        requires no_slot { turn.seat.me.1 ≡ [] }
        requires alive { 0 < turn.seat.me.0.part.share }
        requires word { object_shown word.now.shown ≡ id_of self.now }
        requires may { W.IsAlwaysCallable wait }
        requires seen { IsLocked turn.seat.me.0.sights.last }
        requires at { (done : List (Slot ℕ)) × IsStanding mutex_model calls.Lock places.Lock 1 done turn.seat.me.0.tally.parties }
        ensures same { (result.1.seat.table_id ≡ turn.seat.table_id) × (result.1.seat.id ≡ turn.seat.id) }
        ensures entered { MatchBool result.0 (Enters turn.seat.me.0 result.1.seat.me.0) (StaysLocked turn.seat.me.0 result.1.seat.me.0) }
        ensures slot { MatchBool result.0 (HasValue result.1.seat.me.1) (result.1.seat.me.1 ≡ []) }
        ensures asked { Asked W.FnMut word.now.shown IsLocked 1 wait result.2 result.0 (Unit {0}) turn.seat.me.0.sights.count result.1.seat.me.0.sights.count }
        ensures over { OnceStanding mutex_model calls.Lock places.Lock 1 turn.seat.me.0.tally.parties (λ done. MatchBool result.0 (IsGranted mutex_model calls.Lock places.Lock (Some kinds.Write) done result.1.seat.me.0.tally.parties) (HasEndedRefused mutex_model calls.Lock places.Lock done result.1.seat.me.0.tally.parties)) }
    {
        let mut next = turn;
        let mut wait = wait;
        for _ in rt.forever() {
            let (answer, asked) = next.ask(word, LOCKED, wait);
            match answer {
                SeatAnswered::Continue(continued) => {
                    let (free, again) = self.exchange(continued);
                    if free {
                        return (true, again, asked);
                    }
                    next = again;
                    wait = asked;
                }
                SeatAnswered::Abort(aborted) => {
                    let (done, last) = self.exchange(aborted);
                    return (done, last, asked);
                }
            }
        }
        unreachable!()
    }

    /// What `lock` does, and whether the value is out with the seat.
    #[inline(always)]
    fn enter<R: Wait, W: Fn(&GuardedWord<'_, T>, &u64) -> WaitAction>(
        &self,
        seat: Seat<Option<T>, View<PlayedMutex>>,
        rt: &R,
        wait: W,
    ) -> (bool, Seat<Option<T>, View<PlayedMutex>>)
        requires own { seat.table_id ≡ id_of self.now }
        requires off { seat.me.0.tally.counts.holds ≡ 0 }
        requires no_slot { seat.me.1 ≡ [] }
        requires alive { 0 < seat.me.0.part.share }
        requires may { W.IsAlwaysCallable wait }
        ensures same { (result.1.table_id ≡ seat.table_id) × (result.1.id ≡ seat.id) }
        ensures entered { MatchBool result.0 (Enters seat.me.0 result.1.me.0) (GivesUp 10001 W.Fn wait seat.me.0 result.1.me.0) }
        ensures slot { MatchBool result.0 (HasValue result.1.me.1) (result.1.me.1 ≡ []) }
        ensures played { MatchBool result.0 (Plays calls.Lock answers.Success (Some kinds.Write) seat.me.0 result.1.me.0) (Plays calls.Lock answers.Interrupted None seat.me.0 result.1.me.0) }
        ensures has { result.0 ≡ true → HasMutex result.1.me.0.tally.parties }
        ensures exact { IsWhole seat.me.0.part → result.0 ≡ true }
        ensures aborted { result.0 ≡ false → MayAnswerAbort W.Fn wait IsLocked }
    {
        let (free, turn) = self.first::<LockCall>(seat);
        if free {
            return (true, turn.end());
        }
        let (soon, spun) = self.spin(turn);
        if soon {
            return (true, spun.end());
        }
        let (granted, last, _) = self.ask_and_try(spun, rt, &self.word(), wait);
        (granted, last.end())
    }

    /// What `try_lock` does, and whether the value is out with the seat.
    #[inline(always)]
    fn try_enter(
        &self,
        seat: Seat<Option<T>, View<PlayedMutex>>,
    ) -> (bool, Seat<Option<T>, View<PlayedMutex>>)
        requires own { seat.table_id ≡ id_of self.now }
        requires off { seat.me.0.tally.counts.holds ≡ 0 }
        requires no_slot { seat.me.1 ≡ [] }
        requires alive { 0 < seat.me.0.part.share }
        ensures same { (result.1.table_id ≡ seat.table_id) × (result.1.id ≡ seat.id) }
        ensures locked { MatchBool result.0 (Locks seat.me.0 result.1.me.0) (SeesLocked seat.me.0 result.1.me.0) }
        ensures slot { MatchBool result.0 (HasValue result.1.me.1) (result.1.me.1 ≡ []) }
        ensures played { MatchBool result.0 (Plays calls.TryLock answers.Success (Some kinds.Write) seat.me.0 result.1.me.0) (Plays calls.TryLock answers.Interrupted None seat.me.0 result.1.me.0) }
        ensures has { result.0 ≡ true → HasMutex result.1.me.0.tally.parties }
        ensures exact { IsWhole seat.me.0.part → result.0 ≡ true }
    {
        let (free, turn) = self.first::<TryLockCall>(seat);
        (free, turn.end())
    }

    /// What `unlock` does, by the seat that has the slot and a closure that counts its calls. Gives it back.
    #[inline(always)]
    pub(crate) fn leave<W: FnMut(&GuardedWord<'_, T>)>(
        &self,
        seat: Seat<Option<T>, View<PlayedMutex>>,
        value: T,
        wake_one: W,
    ) -> (Seat<Option<T>, View<PlayedMutex>>, W)
        requires own { seat.table_id ≡ id_of self.now }
        requires on { seat.me.0.tally.counts.holds ≡ 1 }
        requires has { HasMutex seat.me.0.tally.parties }
        requires alive { 0 < seat.me.0.part.share }
        requires vacant { has_vacant_slot seat.me.1 ≡ true }
        requires may { W.IsAlwaysCallable wake_one }
        ensures may_again { W.IsAlwaysCallable result.1 }
        ensures same { (result.0.table_id ≡ seat.table_id) × (result.0.id ≡ seat.id) }
        ensures off { Lets seat.me.0 result.0.me.0 }
        ensures played { PlaysUnlock seat.me.0 result.0.me.0 }
        ensures no_slot { result.0.me.1 ≡ [] }
        ensures woke { WokeOnce W.FnMut (λ word. object_shown word ≡ id_of self.now) wake_one result.1 }
    {
        let shared = &self.table.shared;
        let turn = slot::release::<T, MutexScript, MutexPlace, UnlockCall>(shared, seat, value);
        let (woken, wake) = turn.wake(&self.word(), wake_one);
        (woken.end_aside(), wake)
    }

    /// Locks the value, yielding until it is there, and takes it out of its slot.
    pub(crate) fn enter_soon<R: Wait>(
        &self,
        seat: Seat<Option<T>, View<PlayedMutex>>,
        rt: &R,
    ) -> (Seat<Option<T>, View<PlayedMutex>>, T)
        requires own { seat.table_id ≡ id_of self.now }
        requires off { seat.me.0.tally.counts.holds ≡ 0 }
        requires no_slot { seat.me.1 ≡ [] }
        requires alive { 0 < seat.me.0.part.share }
        ensures same { (result.0.table_id ≡ seat.table_id) × (result.0.id ≡ seat.id) }
        ensures entered { Enters seat.me.0 result.0.me.0 }
        ensures played { Plays calls.Lock answers.Success (Some kinds.Write) seat.me.0 result.0.me.0 }
        ensures has { HasMutex result.0.me.0.tally.parties }
        ensures vacant { has_vacant_slot result.0.me.1 ≡ true }
    {
        let (granted, mut seat) = self.enter(seat, rt, |_, _| go_on());
        if !granted {
            unreachable!()
        }
        let value = slot::take(&self.table.shared, &mut seat);
        (seat, value)
    }

    /// What `unlock` does, by the seat of a guard that was taken apart; and the pass of it.
    #[inline(always)]
    pub fn sit<W: Fn(&GuardedWord<'_, T>)>(
        &self,
        seat: Seat<Option<T>, View<PlayedMutex>>,
        value: T,
        wake_one: W,
    ) -> GuardedPass
        requires own { seat.table_id ≡ id_of self.now }
        requires on { seat.me.0.tally.counts.holds ≡ 1 }
        requires has { HasMutex seat.me.0.tally.parties }
        requires alive { 0 < seat.me.0.part.share }
        requires vacant { has_vacant_slot seat.me.1 ≡ true }
        requires may { W.IsAlwaysCallable wake_one }
        ensures same { (object_of result ≡ seat.table_id) × (number_of result ≡ seat.id) }
        ensures off { Lets seat.me.0 (view result) }
        ensures played { PlaysUnlock seat.me.0 (view result) }
        ensures woke { HasWokenOf W.Fn (λ word. object_shown word ≡ id_of self.now) wake_one }
    {
        let (left, _wake) = self.leave(seat, value, wake_one);
        GuardedPass::seated(left)
    }

    /// The word, as closures see it.
    #[inline(always)]
    fn word(&self) -> Sealed<GuardedWord<'_, T>>
        ensures object { object_shown result.shown ≡ id_of self.now }
    {
        GuardedWord::sealed(&self.table.shared)
    }
}

impl<T, A: Allocator> Guarded<T, A> {
    ghost use Rattle.std.specs.Borrow.{sem};
    ghost use Rattle.running_passes.specs.Answers.{IfSuccess, IfInterrupted, IsSuccess, RestsIfInterrupted};
    ghost use Rattle.running_guarded.specs.contracts.pass.GuardedPass.{the_row};
    ghost use Rattle.running_guarded.specs.GuardedShown.{IsGuardedPass, IsAlone, part_of, view, view_with, id_of, id_in, borrow_of, HasLocked, HasEntered, HasSeenLocked, HasGivenUp, HasUnlocked, HasStayed, HasLockedOnce};

    /// Locks the value as `Mutex::lock` locks a mutex: one exchange of 0 for 1, up to 10000 more, and then the wait closure, told 1,
    /// before each further one. `Interrupted` where an exchange failed after the closure had answered `Abort`; then this call has nothing.
    #[inline(always)]
    pub fn lock<'p, R: Wait, W: Fn(&GuardedWord<'_, T>, &u64) -> WaitAction>(
        pass: &'p mut GuardedPass,
        this: &'p Self,
        rt: &R,
        wait: W,
    ) -> WaitResult<Guard<'p, T, A>>
        requires own { IsGuardedPass this.now pass.old }
        requires may { W.IsAlwaysCallable wait }
        ensures* refused { sem 𝓛 (RestsIfInterrupted the_row pass.entry borrow_of result (λ q. HasGivenUp W.Fn wait pass.old q × Plays calls.Lock answers.Interrupted None (view pass.old) (view q))) }
        ensures same_borrow { IfSuccess result (λ guard. borrow_of guard ≡ pass.entry.ghost_name) }
        ensures granted { IfSuccess result (HasEntered pass.old) }
        ensures played { IfSuccess result (λ guard. Plays calls.Lock answers.Success (Some kinds.Write) (view pass.old) (view_with guard)) }
        ensures exact { IsAlone pass.old → IsSuccess result }
        ensures aborted { IfInterrupted result (MayAnswerAbort W.Fn wait IsLocked) }
    {
        let (granted, mut seat) = this.enter(pass.rise(), rt, wait);
        if granted {
            let value = slot::take(&this.table.shared, &mut seat);
            WaitResult::Success(Guard {
                of: this,
                pass,
                seat,
                value,
            })
        } else {
            *pass = GuardedPass::seated(seat);
            WaitResult::Interrupted
        }
    }

    /// One exchange of 0 for 1. `Success` where the lock was free; `Interrupted` where it was seen locked, and then this call has nothing.
    #[inline(always)]
    pub fn try_lock<'p>(pass: &'p mut GuardedPass, this: &'p Self) -> WaitResult<Guard<'p, T, A>>
        requires own { IsGuardedPass this.now pass.old }
        ensures* refused { sem 𝓛 (RestsIfInterrupted the_row pass.entry borrow_of result (λ q. HasSeenLocked pass.old q × Plays calls.TryLock answers.Interrupted None (view pass.old) (view q))) }
        ensures same_borrow { IfSuccess result (λ guard. borrow_of guard ≡ pass.entry.ghost_name) }
        ensures granted { IfSuccess result (HasLocked pass.old) }
        ensures played { IfSuccess result (λ guard. Plays calls.TryLock answers.Success (Some kinds.Write) (view pass.old) (view_with guard)) }
        ensures exact { IsAlone pass.old → IsSuccess result }
    {
        let (free, mut seat) = this.try_enter(pass.rise());
        if free {
            let value = slot::take(&this.table.shared, &mut seat);
            WaitResult::Success(Guard {
                of: this,
                pass,
                seat,
                value,
            })
        } else {
            *pass = GuardedPass::seated(seat);
            WaitResult::Interrupted
        }
    }

    /// Puts the value back, stores 0, and then calls the wake closure once. Gives the pass back.
    #[inline(always)]
    pub fn unlock<'p, W: Fn(&GuardedWord<'_, T>)>(
        guard: Guard<'p, T, A>,
        wake_one: W,
    ) -> &'p mut GuardedPass
        requires may { W.IsAlwaysCallable wake_one }
        ensures same_borrow { result.ghost_name ≡ borrow_of guard.entry }
        ensures released { HasUnlocked guard.entry result.now }
        ensures played { PlaysUnlock (view_with guard.entry) (view result.now) }
        ensures woke { HasWokenOf W.Fn (λ word. object_shown word ≡ id_in guard.entry) wake_one }
    {
        let Guard {
            of,
            pass,
            seat,
            value,
        } = guard;
        let (left, _) = of.leave(seat, value, wake_one);
        *pass = GuardedPass::seated(left);
        pass
    }

    /// Locks the value as `lock` does, calls `act` with it, and unlocks as `unlock` does. `Interrupted` where `lock` is; then `act` was not
    /// called. It borrows nothing, so it serves a method of a struct that owns the value and its pass.
    #[inline(always)]
    pub fn with<
        X,
        R: Wait,
        W: Fn(&GuardedWord<'_, T>, &u64) -> WaitAction,
        K: Fn(&GuardedWord<'_, T>),
        F: FnOnce(&mut T) -> X,
    >(&self, rt: &R, pass: &mut GuardedPass, wait: W, wake_one: K, act: F) -> WaitResult<X>
        requires own { IsGuardedPass self.now pass.old }
        requires may { W.IsAlwaysCallable wait × K.IsAlwaysCallable wake_one × F.IsAlwaysCallable act }
        ensures stayed { HasStayed pass.old pass.new }
        ensures granted { IfSuccess result (λ _. HasLockedOnce pass.old pass.new) }
        ensures refused { IfInterrupted result (HasGivenUp W.Fn wait pass.old pass.new) }
        ensures played { IfSuccess result (λ _. PlaysBoth (view pass.old) (view pass.new)) }
        ensures gave_up { IfInterrupted result (Plays calls.Lock answers.Interrupted None (view pass.old) (view pass.new)) }
        ensures exact { IsAlone pass.old → IsSuccess result }
        ensures acted { IfSuccess result (λ x. Acts F.FnOnce act x) }
        ensures aborted { IfInterrupted result (MayAnswerAbort W.Fn wait IsLocked) }
        ensures woke { IfSuccess result (λ _. HasWokenOf K.Fn (λ word. object_shown word ≡ id_of self.now) wake_one) }
    {
        let (granted, mut seat) = self.enter(pass.rise(), rt, wait);
        if !granted {
            *pass = GuardedPass::seated(seat);
            return WaitResult::Interrupted;
        }
        let mut value = slot::take(&self.table.shared, &mut seat);
        let given = act(&mut value);
        let (left, _) = self.leave(seat, value, wake_one);
        *pass = GuardedPass::seated(left);
        WaitResult::Success(given)
    }

    /// Ends the lock, and gives the value. The whole pass is spent, so that nobody has a guard and nobody waits.
    pub fn into_inner(self, pass: GuardedPass) -> T
        requires own { IsGuardedPass self pass }
        requires whole { IsWhole (part_of pass) }
    {
        let mut pass = pass;
        let seat = pass.rise();
        let Guarded { table } = self;
        let mut closed = table.close_with(seat);
        let slot = closed.take(0);
        closed.free();
        slot.unwrap()
    }
}

impl<T, A: Allocator + Clone> Guarded<T, A> {
    ghost use Rattle.running_guarded.specs.GuardedShown.{IsGuardedPass, view};

    /// A lock that is free and guards this value, and the pass that is whole. `Err` where there was no memory; then nothing was made,
    /// and the value comes back.
    pub fn new(alloc: A, value: T) -> Result<(Guarded<T, A>, GuardedPass), (AllocError, T)>
        ensures own { IfOk result (λ made. IsGuardedPass made.0 made.1) }
        ensures first { IfOk result (λ made. view made.1 ≡ first_view none_held) }
        ensures refused { IfErr result (λ refused. refused.1 ≡ value) }
    {
        let (table, seat) = slot::new(alloc, value)?;
        Ok((Guarded { table }, GuardedPass::seated(seat)))
    }
}

/// The answer of a wait that always goes on. It yields first, so that whoever has the value can run, also where there are more threads
/// than processors.
pub(crate) fn go_on() -> WaitAction
    ensures { result ≡ actions.Continue }
{
    thread::yield_now();
    WaitAction::Continue
}

/// Whenever the rule of a guarded value holds, its word is how many of its passes have a guard, which no two have, and while one has, the
/// value is out of its slot. Says so of the rule alone, and does nothing.
pub fn one_holder_at_most<T>()
    ensures { OneHolderAtMost T }
{}

/// Whenever the rule of a guarded value holds, its passes are the parties of a run of the mutex's model, and all together were granted as
/// often as calls were in it. Says so of the rule alone, and does nothing.
pub fn grants_are_of_a_run<T>()
    ensures { GrantsAreOfARun T }
{}
