//! The lock itself.
ghost use Rattle.std.specs.Prelude.{◌≡◌, ℕ, ◌<◌, List, [], ◌∷◌, IfOk, IfErr, IfSome, IsSome, Some, None, is_ok, true, MatchBool};
ghost use Rattle.model_events.specs.declared.event.Word.TheVariants as words;
ghost use Rattle.model_events.specs.declared.event.Call.TheVariants as calls;
ghost use Rattle.model_events.specs.declared.event.Answer.TheVariants as answers;
ghost use Rattle.model_events.specs.declared.hold.HoldKind.TheVariants as kinds;
ghost use Rattle.model_events.specs.declared.row.Intent.TheVariants as intents;
ghost use Rattle.running_spin_lock.specs.Spin.{spin_model, GrantsAreOfARun, OneHolderAtMost};
ghost use Rattle.running_passes.specs.Parts.{IsWhole};
ghost use Rattle.running_passes.specs.Views.{first_view};
ghost use Rattle.running_model.specs.Slots.{Slot};
ghost use Rattle.running_model.specs.Plays.{Beginning, MayStep};
ghost use Rattle.running_spin_lock.specs.ValueRule.{none_held};
ghost use Rattle.running_spin_lock.specs.ValueSteps.{Locks, Lets, Enters, Tries, HasValue, has_vacant_slot};
ghost use Rattle.running_spin_lock.specs.SpinParties.{IsWaiting, IsSpinning, IsGranted, HasLock};
ghost use Rattle.running_spin_lock.specs.SpinSteps.{SeesLocked, HasPlayed, HasPlayedUnlock};

use crate::guard::SpinLockGuard;
use crate::pass::SpinPass;
use crate::poison::LockResult;
use crate::rule::ValueRule;
use crate::script::{PlayedSpin, SpinScript};
use crate::slot::{self, FREE, LOCKED};
use atomic_table::{Seat, Table};
use model_spin::SpinPlace;
use running_model::calls::{BlockingLockCall, LockCall, TryLockCall, UnlockCall};
use running_model::pause_before;
use running_model::seat::{SeatTurn, begin_new};
use running_model::turn::{Called, Goes, Way};
use running_passes::View;
use std::alloc::{AllocError, Allocator, Global};
use std::sync::Wait;

/// A lock with one holder at most, which guards a value. It may be shared by threads where the value may go from one to another.
#[derive(Drop)]
pub struct SpinLock<T, A: Allocator = Global> {
    pub(crate) table: Table<Option<T>, View<PlayedSpin>, (), ValueRule, A>,
    ghost one_word: { table.shared.table_id.words ≡ 1 },
    ghost one_slot: { table.shared.table_id.slots ≡ 1 },
}

/// A call that swaps until it has the lock.
trait Waiting: Called<u64> {
    ghost waits: { IsWaiting Self.Called.call };
}

impl Waiting for LockCall {
    ghost use Rattle.std.proofs.Common.{refl, inl};

    ghost waits = { inl refl };
}

impl Waiting for BlockingLockCall {
    ghost use Rattle.std.proofs.Common.{refl, inr};

    ghost waits = { inr refl };
}

impl<T, A: Allocator> SpinLock<T, A> {
    ghost use Rattle.std.specs.Borrow.{sem, RestsIfNone};
    ghost use Rattle.running_spin_lock.specs.contracts.pass.SpinPass.{the_row};
    ghost use Rattle.running_spin_lock.specs.SpinShown.{IsSpinPass, IsAlone, id_of, borrow_of, view, view_with, HasLocked, HasEntered, HasSeenLocked};

    /// One swap of 1. The guard where the lock was free; `None` where it was seen locked, and then this call holds nothing.
    #[inline(always)]
    pub fn try_lock<'p>(pass: &'p mut SpinPass, this: &'p Self) -> Option<SpinLockGuard<'p, T, A>>
        requires own { IsSpinPass this.now pass.old }
        ensures* refused { sem 𝓛 (RestsIfNone the_row pass.entry borrow_of result (λ q. HasSeenLocked pass.old q × HasPlayed calls.TryLock answers.Interrupted None (view pass.old) (view q))) }
        ensures same_borrow { IfSome result (λ guard. borrow_of guard ≡ pass.entry.ghost_name) }
        ensures granted { IfSome result (HasLocked pass.old) }
        ensures played { IfSome result (λ guard. HasPlayed calls.TryLock answers.Success (Some kinds.Write) (view pass.old) (view_with guard)) }
        ensures exact { IsAlone pass.old → IsSome result }
    {
        let (free, mut seat) = this.try_enter(pass.rise());
        if free {
            let value = slot::take(&this.table.shared, &mut seat);
            Some(SpinLockGuard {
                lock: this,
                pass,
                seat,
                value,
            })
        } else {
            *pass = SpinPass::seated(seat);
            None
        }
    }

    /// Swaps 1 in until the lock was found free.
    #[inline(always)]
    pub fn blocking_lock<'p, R: Wait>(
        pass: &'p mut SpinPass,
        this: &'p Self,
        rt: &R,
    ) -> SpinLockGuard<'p, T, A>
        requires own { IsSpinPass this.now pass.old }
        ensures same_borrow { borrow_of result ≡ pass.entry.ghost_name }
        ensures granted { HasEntered pass.old result }
        ensures played { HasPlayed calls.BlockingLock answers.Success (Some kinds.Write) (view pass.old) (view_with result) }
        ensures exact { IsAlone pass.old → HasLocked pass.old result }
    {
        SpinLock::wait_for::<BlockingLockCall, R>(pass, this, rt)
    }

    /// What `blocking_lock` does. Always `Ok`, since nothing panics.
    #[inline(always)]
    pub fn lock<'p, R: Wait>(
        pass: &'p mut SpinPass,
        this: &'p Self,
        rt: &R,
    ) -> LockResult<SpinLockGuard<'p, T, A>>
        requires own { IsSpinPass this.now pass.old }
        ensures never_poisoned { is_ok result ≡ true }
        ensures same_borrow { IfOk result (λ guard. borrow_of guard ≡ pass.entry.ghost_name) }
        ensures granted { IfOk result (HasEntered pass.old) }
        ensures played { IfOk result (λ guard. HasPlayed calls.Lock answers.Success (Some kinds.Write) (view pass.old) (view_with guard)) }
        ensures exact { IsAlone pass.old → IfOk result (HasLocked pass.old) }
    {
        Ok(SpinLock::wait_for::<LockCall, R>(pass, this, rt))
    }

    /// The guard of a call that swaps until it has the lock.
    #[inline(always)]
    fn wait_for<'p, C: Waiting, R: Wait>(
        pass: &'p mut SpinPass,
        this: &'p Self,
        rt: &R,
    ) -> SpinLockGuard<'p, T, A>
        requires own { IsSpinPass this.now pass.old }
        ensures same_borrow { borrow_of result ≡ pass.entry.ghost_name }
        ensures granted { HasEntered pass.old result }
        ensures played { HasPlayed C.call answers.Success (Some kinds.Write) (view pass.old) (view_with result) }
        ensures exact { IsAlone pass.old → HasLocked pass.old result }
    {
        let mut seat = this.enter::<C, R>(rt, pass.rise());
        let value = slot::take(&this.table.shared, &mut seat);
        SpinLockGuard {
            lock: this,
            pass,
            seat,
            value,
        }
    }

    /// A swap of 1, and whether it found 0. Then the value is out with the seat.
    #[inline(always)]
    fn swap<W: Way<u64>>(
        &self,
        turn: SeatTurn<Option<T>, PlayedSpin, W>,
    ) -> (bool, SeatTurn<Option<T>, PlayedSpin, Goes>)
        requires own { turn.seat.table_id ≡ id_of self.now }
        requires off { turn.seat.me.0.tally.counts.holds ≡ 0 }
        requires no_slot { turn.seat.me.1 ≡ [] }
        requires alive { 0 < turn.seat.me.0.part.share }
        requires may { MayStep spin_model (words.State ∷ []) W.coming 0 (λ w. intents.Swap w 1) turn.seat.me.0.tally.parties }
        ensures same { (result.1.seat.table_id ≡ turn.seat.table_id) × (result.1.seat.id ≡ turn.seat.id) }
        ensures locked { MatchBool result.0 (Locks turn.seat.me.0 result.1.seat.me.0) (SeesLocked turn.seat.me.0 result.1.seat.me.0) }
        ensures slot { MatchBool result.0 (HasValue result.1.seat.me.1) (result.1.seat.me.1 ≡ []) }
        ensures tried { Tries spin_model W.coming result.0 turn.seat.me.0 result.1.seat.me.0 }
        ensures exact { IsWhole turn.seat.me.0.part → result.0 ≡ true }
    {
        let (found, next) = turn.swap(&self.table.shared, 0, LOCKED);
        (found == FREE, next)
    }

    /// The first swap of a call, which begins with it.
    #[inline(always)]
    fn first<L: Called<u64>>(
        &self,
        seat: Seat<Option<T>, View<PlayedSpin>>,
    ) -> (bool, SeatTurn<Option<T>, PlayedSpin, Goes>)
        requires own { seat.table_id ≡ id_of self.now }
        requires off { seat.me.0.tally.counts.holds ≡ 0 }
        requires no_slot { seat.me.1 ≡ [] }
        requires alive { 0 < seat.me.0.part.share }
        requires may { MayStep spin_model (words.State ∷ []) (Beginning L.call) 0 (λ w. intents.Swap w 1) seat.me.0.tally.parties }
        ensures same { (result.1.seat.table_id ≡ seat.table_id) × (result.1.seat.id ≡ seat.id) }
        ensures locked { MatchBool result.0 (Locks seat.me.0 result.1.seat.me.0) (SeesLocked seat.me.0 result.1.seat.me.0) }
        ensures slot { MatchBool result.0 (HasValue result.1.seat.me.1) (result.1.seat.me.1 ≡ []) }
        ensures tried { Tries spin_model (Beginning L.call) result.0 seat.me.0 result.1.seat.me.0 }
        ensures exact { IsWhole seat.me.0.part → result.0 ≡ true }
    {
        self.swap(begin_new::<L, Option<T>, PlayedSpin>(seat))
    }

    /// What `try_lock` does, and whether the value is out with the seat.
    #[inline(always)]
    fn try_enter(
        &self,
        seat: Seat<Option<T>, View<PlayedSpin>>,
    ) -> (bool, Seat<Option<T>, View<PlayedSpin>>)
        requires own { seat.table_id ≡ id_of self.now }
        requires off { seat.me.0.tally.counts.holds ≡ 0 }
        requires no_slot { seat.me.1 ≡ [] }
        requires alive { 0 < seat.me.0.part.share }
        ensures same { (result.1.table_id ≡ seat.table_id) × (result.1.id ≡ seat.id) }
        ensures locked { MatchBool result.0 (Locks seat.me.0 result.1.me.0) (SeesLocked seat.me.0 result.1.me.0) }
        ensures slot { MatchBool result.0 (HasValue result.1.me.1) (result.1.me.1 ≡ []) }
        ensures played { MatchBool result.0 (HasPlayed calls.TryLock answers.Success (Some kinds.Write) seat.me.0 result.1.me.0) (HasPlayed calls.TryLock answers.Interrupted None seat.me.0 result.1.me.0) }
        ensures has { result.0 ≡ true → HasLock result.1.me.0.tally.parties }
        ensures exact { IsWhole seat.me.0.part → result.0 ≡ true }
    {
        let (free, turn) = self.first::<TryLockCall>(seat);
        (free, turn.end())
    }

    /// What a waiting call does, after which the value is out with the seat.
    #[inline(always)]
    fn enter<C: Waiting, R: Wait>(
        &self,
        rt: &R,
        seat: Seat<Option<T>, View<PlayedSpin>>,
    ) -> Seat<Option<T>, View<PlayedSpin>>
        requires own { seat.table_id ≡ id_of self.now }
        requires off { seat.me.0.tally.counts.holds ≡ 0 }
        requires no_slot { seat.me.1 ≡ [] }
        requires alive { 0 < seat.me.0.part.share }
        ensures same { (result.table_id ≡ seat.table_id) × (result.id ≡ seat.id) }
        ensures entered { Enters seat.me.0 result.me.0 }
        ensures took { HasValue result.me.1 }
        ensures played { HasPlayed C.call answers.Success (Some kinds.Write) seat.me.0 result.me.0 }
        ensures has { HasLock result.me.0.tally.parties }
        ensures exact { IsWhole seat.me.0.part → Locks seat.me.0 result.me.0 }
    {
        let (free, turn) = self.first::<C>(seat);
        if free {
            return turn.end();
        }
        let granted = self.spin::<C, R>(rt, turn);
        granted.end()
    }

    /// Swaps 1 in again until that finds 0.
    fn spin<C: Waiting, R: Wait>(
        &self,
        rt: &R,
        turn: SeatTurn<Option<T>, PlayedSpin, Goes>,
    ) -> SeatTurn<Option<T>, PlayedSpin, Goes>
        requires own { turn.seat.table_id ≡ id_of self.now }
        requires off { turn.seat.me.0.tally.counts.holds ≡ 0 }
        requires no_slot { turn.seat.me.1 ≡ [] }
        requires alive { 0 < turn.seat.me.0.part.share }
        requires at { (done : List (Slot ℕ)) × IsSpinning C.call done turn.seat.me.0.tally.parties }
        ensures same { (result.seat.table_id ≡ turn.seat.table_id) × (result.seat.id ≡ turn.seat.id) }
        ensures entered { Enters turn.seat.me.0 result.seat.me.0 }
        ensures took { HasValue result.seat.me.1 }
        ensures over { (done : List (Slot ℕ)) → IsSpinning C.call done turn.seat.me.0.tally.parties → IsGranted C.call done result.seat.me.0.tally.parties }
    {
        let mut next = turn;
        let mut tries: u64 = 0;
        for _ in rt.forever() {
            pause_before(tries);
            tries = tries.saturating_add(1);
            let (free, again) = self.swap(next);
            if free {
                return again;
            }
            next = again;
        }
        unreachable!()
    }

    /// Puts the value back into its slot, and stores 0.
    #[inline(always)]
    pub(crate) fn leave(
        &self,
        seat: Seat<Option<T>, View<PlayedSpin>>,
        value: T,
    ) -> Seat<Option<T>, View<PlayedSpin>>
        requires own { seat.table_id ≡ id_of self.now }
        requires on { seat.me.0.tally.counts.holds ≡ 1 }
        requires has { HasLock seat.me.0.tally.parties }
        requires alive { 0 < seat.me.0.part.share }
        requires vacant { has_vacant_slot seat.me.1 ≡ true }
        ensures same { (result.table_id ≡ seat.table_id) × (result.id ≡ seat.id) }
        ensures off { Lets seat.me.0 result.me.0 }
        ensures played { HasPlayedUnlock seat.me.0 result.me.0 }
        ensures no_slot { result.me.1 ≡ [] }
    {
        let shared = &self.table.shared;
        let turn = slot::release::<T, SpinScript, SpinPlace, UnlockCall>(shared, seat, value);
        turn.end()
    }
}

impl<T, A: Allocator + Clone> SpinLock<T, A> {
    ghost use Rattle.running_spin_lock.specs.SpinShown.{IsSpinPass, view};

    /// A lock that is free and guards this value, and the pass that is whole. `Err` where there was no memory; then nothing was made,
    /// and the value comes back.
    pub fn new(alloc: A, value: T) -> Result<(SpinLock<T, A>, SpinPass), (AllocError, T)>
        ensures own { IfOk result (λ made. IsSpinPass made.0 made.1) }
        ensures first { IfOk result (λ made. view made.1 ≡ first_view none_held) }
        ensures refused { IfErr result (λ refused. refused.1 ≡ value) }
    {
        let (table, seat) = slot::new(alloc, value)?;
        Ok((SpinLock { table }, SpinPass::seated(seat)))
    }
}

/// Whenever the rule of a spin lock holds, its word is how many of its passes have a guard, which no two have, and while one has, the
/// value is out of its slot. Says so of the rule alone, and does nothing.
pub fn one_holder_at_most<T>()
    ensures { OneHolderAtMost T }
{}

/// Whenever the rule of a spin lock holds, its passes are the parties of a run of the model, and all together were granted as often as calls
/// were in it. Says so of the rule alone, and does nothing.
pub fn grants_are_of_a_run<T>()
    ensures { GrantsAreOfARun T }
{}
