//! What each call does: it takes the lock, reads, acts, and leaves.
ghost use Rattle.std.specs.Prelude.{◌≡◌, List, false, MatchBool, IfOk, IfErr, Some, None};
ghost use Rattle.model_events.specs.declared.event.Call.TheVariants as calls;
ghost use Rattle.model_events.specs.declared.event.Answer.TheVariants as answers;
ghost use Rattle.model_events.specs.declared.hold.HoldKind.TheVariants as kinds;
ghost use Rattle.model_events.specs.declared.row.After.TheVariants as afters;
ghost use Rattle.model_events.specs.Arithmetic.{IsValue};
ghost use Rattle.model_events.specs.Moves.{CallValues};
ghost use Rattle.model_atomic.specs.declared.AtomicPlace.TheVariants as places;
ghost use Rattle.model_atomic.specs.Table.{atomic_grant, inside, compares, knows};
ghost use Rattle.running_rw_hold.specs.declared.held.Held.TheVariants.{Free};
ghost use Rattle.running_passes.specs.Passes.{IsSamePass};
ghost use Rattle.running_model.specs.Slots.{Slot};
ghost use Rattle.running_model.specs.Plays.{HasCalled, HasEnded};
ghost use Rattle.running_model.specs.Passes.{played, parties_of, counts_of, counted};
ghost use Rattle.running_model.specs.Stages.{IsPassOf, key_of};
ghost use Rattle.running_atomic.specs.AtomicParties.{Writes, AsksNobody, IsNext, Reads, GoesOnKnowing, ActsAtOther, Knows, Puts, MayPut, HasPut, HasReplaced};
ghost use Rattle.running_atomic.specs.AtomicModel.{atomic_model};
ghost use Rattle.model_atomic.specs.Register.{act_of as outcome_of, compared, plain, update, value_after, answer_to};
ghost use Rattle.running_atomic.specs.AtomicRule.{act_in, value_of, IsWritten};
ghost use Rattle.running_atomic.specs.AtomicSteps.{IsReading, IsSettled, IfWriting, IsStoring, ActsAt};

use crate::calls::Atomic;
use crate::history::{AtomicAct, Content};
use crate::steps::{Comparison, Going, PlayedPass};
use model_events::atomic::internal::AtomicInteger;
use model_events::event::Call;
use running_model::calls::FetchUpdateCall;
use running_model::turn::{Called, Choice, Chooses, Chosen, Nothing, Turn, TurnWith, Way};
use std::alloc::Allocator;
use std::marker::Brand;
use std::sync::Wait;

/// The words of a value.
#[inline(always)]
fn content<T: AtomicInteger>(value: T) -> Content
    ensures value { value_of T.arithmetic result ≡ value }
    ensures is_value { IsValue T.arithmetic value }
{
    let (low, high) = value.to_words();
    Content { low, high }
}

/// Whether a value is the one that a call compares with.
#[inline(always)]
fn is_same<T: AtomicInteger>(old: T, current: T) -> bool
    ensures { result ≡ T.arithmetic.same old current }
{
    old == current
}

/// What a call that asks nobody makes of a value.
#[inline(always)]
fn new_value<T: AtomicInteger>(call: &Call<T>, old: T) -> T
    ensures { result ≡ value_after T.arithmetic (plain call.now) old }
{
    match call {
        Call::Store(value) | Call::Swap(value) => *value,
        Call::CompareExchange(current, new) | Call::CompareExchangeWeak(current, new) => {
            if old == *current { *new } else { old }
        }
        Call::FetchAdd(value) => old.overflowing_add(*value).0,
        Call::FetchSub(value) => old.overflowing_sub(*value).0,
        Call::FetchAnd(value) => old & *value,
        Call::FetchOr(value) => old | *value,
        Call::FetchXor(value) => old ^ *value,
        Call::FetchNand(value) => !(old & *value),
        Call::FetchMax(value) => old.max(*value),
        Call::FetchMin(value) => old.min(*value),
        _ => old,
    }
}

/// The act of a call that writes and asks nobody.
#[inline(always)]
fn act_of<T: AtomicInteger>(call: &Call<T>) -> AtomicAct
    requires writes { atomic_grant call.now ≡ Some kinds.Write }
    requires asks_nobody { AsksNobody call.now }
    ensures act { act_in T.arithmetic result ≡ plain call.now }
    ensures values { CallValues T.arithmetic call.now }
{
    match call {
        Call::Store(value) => AtomicAct::Store(content(*value)),
        Call::Swap(value) => AtomicAct::Swap(content(*value)),
        Call::CompareExchange(current, new) => {
            AtomicAct::CompareExchange(content(*current), content(*new))
        }
        Call::CompareExchangeWeak(current, new) => {
            AtomicAct::CompareExchangeWeak(content(*current), content(*new))
        }
        Call::FetchAdd(value) => AtomicAct::FetchAdd(content(*value)),
        Call::FetchSub(value) => AtomicAct::FetchSub(content(*value)),
        Call::FetchAnd(value) => AtomicAct::FetchAnd(content(*value)),
        Call::FetchOr(value) => AtomicAct::FetchOr(content(*value)),
        Call::FetchXor(value) => AtomicAct::FetchXor(content(*value)),
        Call::FetchNand(value) => AtomicAct::FetchNand(content(*value)),
        Call::FetchMax(value) => AtomicAct::FetchMax(content(*value)),
        Call::FetchMin(value) => AtomicAct::FetchMin(content(*value)),
        _ => unreachable!(),
    }
}

impl<T: AtomicInteger, A: Allocator> Atomic<T, A> {
    ghost use Rattle.running_atomic.specs.AtomicShown.{HasActedAt, HasTaken, HasCompared, IsHolding};

    /// Loads under a read hold.
    #[inline(always)]
    pub(crate) fn load_by<R: Wait>(&self, rt: &R, pass: &mut PlayedPass<T>) -> T
        requires own { IsPassOf self.now.stage pass.old }
        requires rest { (counts_of pass.old).hold ≡ Free }
        ensures acted { HasActedAt T.arithmetic (key_of self.now.stage) (plain calls.Load) (answers.Value result) pass.old pass.new }
        ensures rest { (counts_of pass.new).hold ≡ Free }
        ensures played { HasCalled (atomic_model T.arithmetic (key_of self.now.stage)) calls.Load (answers.Value result) None (parties_of pass.old) (parties_of pass.new) }
    {
        let (seen, looked) = self.first_look(pass);
        let (is_in, last, tried) = self.try_read(looked, seen);
        if is_in {
            let (value, left) = self.read(tried);
            let _pass = left.end(&self.stage);
            return value;
        }
        let locked = self.read_from(rt, tried, last);
        let (value, left) = self.read(locked);
        let _pass = left.end(&self.stage);
        value
    }

    /// Reads the value under a read hold, and leaves the lock.
    #[inline(always)]
    fn read<'p>(&self, turn: Going<'p, T>) -> (T, Going<'p, T>)
        requires own { IsPassOf self.now.stage turn.pass.now }
        requires on { IsReading (counts_of turn.pass.now).hold }
        requires at { (done : List (Slot T)) × IsNext T.arithmetic (key_of self.now.stage) calls.Load (places.Low calls.Load) (Some kinds.Read) done (parties_of turn.pass.now) }
        ensures same_borrow { result.1.pass.ghost_name ≡ turn.entry.pass.ghost_name }
        ensures acted { HasActedAt T.arithmetic (key_of self.now.stage) (plain calls.Load) (answers.Value result.0) turn.entry.pass.now result.1.pass.now }
        ensures rest { (counts_of result.1.pass.now).hold ≡ Free }
        ensures ended { (done : List (Slot T)) → IsNext T.arithmetic (key_of self.now.stage) calls.Load (places.Low calls.Load) (Some kinds.Read) done (parties_of turn.entry.pass.now) → HasEnded (atomic_model T.arithmetic (key_of self.now.stage)) calls.Load (answers.Value result.0) None done (parties_of result.1.pass.now) }
    {
        let (low, read) = self.read_low(turn);
        let (high, acted) = self.end_load(read);
        let last = self.leave_read(acted);
        (T::from_words(low, high), last)
    }

    /// What `store` does.
    #[inline(always)]
    pub(crate) fn store_by<R: Wait>(&self, rt: &R, pass: &mut PlayedPass<T>, value: T)
        requires own { IsPassOf self.now.stage pass.old }
        requires rest { (counts_of pass.old).hold ≡ Free }
        ensures acted { HasActedAt T.arithmetic (key_of self.now.stage) (plain (calls.Store value)) answers.Done pass.old pass.new }
        ensures rest { (counts_of pass.new).hold ≡ Free }
        ensures played { HasCalled (atomic_model T.arithmetic (key_of self.now.stage)) (calls.Store value) answers.Done None (parties_of pass.old) (parties_of pass.new) }
    {
        let call = Call::Store(value);
        let act = act_of(&call);
        let (found, tried) = self.first_enter::<Brand>(pass, &call);
        if found == 0 {
            let last = self.put(tried, value, &act);
            let _pass = last.end(&self.stage);
            return;
        }
        let locked = self.write_later::<R, Brand>(rt, tried, &call);
        let last = self.put(locked, value, &act);
        let _pass = last.end(&self.stage);
    }

    /// What `fetch_update` does.
    #[inline(always)]
    pub(crate) fn update_by<R: Wait, F: FnMut(T) -> Option<T>>(
        &self,
        rt: &R,
        pass: &mut PlayedPass<T>,
        f: F,
    ) -> Result<T, T>
        requires own { IsPassOf self.now.stage pass.old }
        requires rest { (counts_of pass.old).hold ≡ Free }
        requires may { (value : T) → F.pre f value }
        ensures changed { IfOk result (λ old. (new : T) × F.post f old (Some new) × HasActedAt T.arithmetic (key_of self.now.stage) (update (Some new)) (answers.OkOld old) pass.old pass.new) }
        ensures kept { IfErr result (λ old. F.post f old None × HasActedAt T.arithmetic (key_of self.now.stage) (update None) (answers.ErrOld old) pass.old pass.new) }
        ensures rest { (counts_of pass.new).hold ≡ Free }
        ensures played_changed { IfOk result (λ old. HasCalled (atomic_model T.arithmetic (key_of self.now.stage)) calls.FetchUpdate (answers.OkOld old) None (parties_of pass.old) (parties_of pass.new)) }
        ensures played_kept { IfErr result (λ old. HasCalled (atomic_model T.arithmetic (key_of self.now.stage)) calls.FetchUpdate (answers.ErrOld old) None (parties_of pass.old) (parties_of pass.new)) }
    {
        let locked = self.write_lock::<R, FetchUpdateCall>(rt, pass, &Call::FetchUpdate);
        let (old, taken) = self.take::<FetchUpdateCall>(locked, &Call::FetchUpdate);
        match taken.choose(&self.stage, old, f) {
            Choice::Value(chosen) => {
                let last = self.put_chosen::<Brand>(chosen);
                let _pass = last.end(&self.stage);
                Ok(old)
            }
            Choice::Nothing(chosen) => {
                let last = self.keep(chosen);
                let _pass = last.end(&self.stage);
                Err(old)
            }
        }
    }

    /// Puts a new value in the place of the old one, as this call says, and answers the old one.
    #[inline(always)]
    pub(crate) fn fetch<R: Wait>(&self, rt: &R, pass: &mut PlayedPass<T>, call: &Call<T>) -> T
        requires own { IsPassOf self.now.stage pass.old }
        requires rest { (counts_of pass.old).hold ≡ Free }
        requires writes { Writes T.arithmetic (key_of self.now.stage) call.now }
        requires reads { Reads T.arithmetic call.now }
        requires asks_nobody { AsksNobody call.now }
        requires goes_on { GoesOnKnowing T.arithmetic call.now }
        requires puts { (old : T) → Puts T.arithmetic call.now old (value_after T.arithmetic (plain call.now) old) (answers.Value old) }
        requires tells { (old : T) → answer_to T.arithmetic (plain call.now) old ≡ answers.Value old }
        ensures acted { HasActedAt T.arithmetic (key_of self.now.stage) (plain call.now) (answers.Value result) pass.old pass.new }
        ensures rest { (counts_of pass.new).hold ≡ Free }
        ensures played { HasCalled (atomic_model T.arithmetic (key_of self.now.stage)) call.now (answers.Value result) None (parties_of pass.old) (parties_of pass.new) }
    {
        let act = act_of(call);
        let locked = self.write_lock::<R, Brand>(rt, pass, call);
        let (old, taken) = self.take::<Brand>(locked, call);
        let last = self.replace(taken, old, new_value(call, old), &act, call);
        let _pass = last.end(&self.stage);
        old
    }

    /// Writes `new` where the value is `current`, as this call says, and answers the old value: `Ok` where it has written.
    #[inline(always)]
    pub(crate) fn exchange<R: Wait>(
        &self,
        rt: &R,
        pass: &mut PlayedPass<T>,
        call: &Call<T>,
        current: T,
        new: T,
    ) -> Result<T, T>
        requires own { IsPassOf self.now.stage pass.old }
        requires rest { (counts_of pass.old).hold ≡ Free }
        requires writes { Writes T.arithmetic (key_of self.now.stage) call.now }
        requires reads { Reads T.arithmetic call.now }
        requires asks_nobody { AsksNobody call.now }
        requires other { ActsAtOther T.arithmetic call.now current }
        requires compares { (old : T) → knows T.arithmetic call.now old ≡ afters.At (compares T.arithmetic (T.arithmetic.same old current) old new) }
        requires acts { (old : T) → outcome_of T.arithmetic call.now None old ≡ compared (T.arithmetic.same old current) old new }
        ensures changed { IfOk result (λ old. HasActedAt T.arithmetic (key_of self.now.stage) (plain call.now) (answers.OkOld old) pass.old pass.new) }
        ensures kept { IfErr result (λ old. HasActedAt T.arithmetic (key_of self.now.stage) (plain call.now) (answers.ErrOld old) pass.old pass.new) }
        ensures rest { (counts_of pass.new).hold ≡ Free }
        ensures played_changed { IfOk result (λ old. HasCalled (atomic_model T.arithmetic (key_of self.now.stage)) call.now (answers.OkOld old) None (parties_of pass.old) (parties_of pass.new)) }
        ensures played_kept { IfErr result (λ old. HasCalled (atomic_model T.arithmetic (key_of self.now.stage)) call.now (answers.ErrOld old) None (parties_of pass.old) (parties_of pass.new)) }
    {
        let by = Comparison {
            act: act_of(call),
            current,
        };
        let locked = self.write_lock::<R, Brand>(rt, pass, call);
        let (old, taken) = self.compare::<Brand>(locked, call, &by);
        if is_same(old, current) {
            let last = self.replace(taken, old, new, &by.act, call);
            let _pass = last.end(&self.stage);
            Ok(old)
        } else {
            let last = self.leave_write(taken);
            let _pass = last.end(&self.stage);
            Err(old)
        }
    }

    /// Reads the value, in this call, which its caller picks.
    #[inline(always)]
    pub(crate) fn take<'p, L: Called<T>>(
        &self,
        turn: Going<'p, T>,
        _call: &Call<T>,
    ) -> (T, Going<'p, T>)
        requires own { IsPassOf self.now.stage turn.pass.now }
        requires on { IsSettled (counts_of turn.pass.now).hold }
        requires at { (done : List (Slot T)) × IsNext T.arithmetic (key_of self.now.stage) L.call (inside T.arithmetic L.call) (Some kinds.Write) done (parties_of turn.pass.now) }
        requires reads { Reads T.arithmetic L.call }
        requires goes_on { GoesOnKnowing T.arithmetic L.call }
        ensures same_borrow { result.1.pass.ghost_name ≡ turn.entry.pass.ghost_name }
        ensures taken { HasTaken T.arithmetic result.0 turn.entry.pass.now result.1.pass.now }
        ensures knows { (done : List (Slot T)) → IsNext T.arithmetic (key_of self.now.stage) L.call (inside T.arithmetic L.call) (Some kinds.Write) done (parties_of turn.entry.pass.now) → Knows T.arithmetic (key_of self.now.stage) L.call result.0 done (parties_of result.1.pass.now) }
    {
        let (low, read) = self.read_low(turn);
        let (high, next) = self.read_high(read);
        (T::from_words(low, high), next)
    }

    /// Compares the value, in this call, which its caller picks. Where it is another than the one compared with, the call has acted.
    #[inline(always)]
    pub(crate) fn compare<'p, L: Called<T>>(
        &self,
        turn: Going<'p, T>,
        _call: &Call<T>,
        by: &Comparison<T>,
    ) -> (T, Going<'p, T>)
        requires own { IsPassOf self.now.stage turn.pass.now }
        requires on { IsSettled (counts_of turn.pass.now).hold }
        requires at { (done : List (Slot T)) × IsNext T.arithmetic (key_of self.now.stage) L.call (inside T.arithmetic L.call) (Some kinds.Write) done (parties_of turn.pass.now) }
        requires reads { Reads T.arithmetic L.call }
        requires right { (old : T) → T.arithmetic.same old by.now.current ≡ false → value_after T.arithmetic (plain L.call) old ≡ old }
        requires other { ActsAtOther T.arithmetic L.call by.now.current }
        requires acts { act_in T.arithmetic by.now.act ≡ plain L.call }
        requires written { IsWritten T.arithmetic (plain L.call) }
        ensures same_borrow { result.1.pass.ghost_name ≡ turn.entry.pass.ghost_name }
        ensures compared { MatchBool (T.arithmetic.same result.0 by.now.current) (HasTaken T.arithmetic result.0 turn.entry.pass.now result.1.pass.now) (HasCompared T.arithmetic (key_of self.now.stage) by.now.act result.0 turn.entry.pass.now result.1.pass.now) }
        ensures knows { (done : List (Slot T)) → IsNext T.arithmetic (key_of self.now.stage) L.call (inside T.arithmetic L.call) (Some kinds.Write) done (parties_of turn.entry.pass.now) → Knows T.arithmetic (key_of self.now.stage) L.call result.0 done (parties_of result.1.pass.now) }
    {
        let (low, read) = self.read_low(turn);
        let (high, next) = self.compare_high::<Brand>(read, by);
        (T::from_words(low, high), next)
    }

    /// Writes a value by this act, and leaves the lock.
    #[inline(always)]
    pub(crate) fn put<'p, W: Way<T>>(
        &self,
        turn: Turn<'p, PlayedPass<T>, W>,
        new: T,
        act: &AtomicAct,
    ) -> Going<'p, T>
        requires own { IsPassOf self.now.stage turn.pass.now }
        requires on { IsSettled (counts_of turn.pass.now).hold }
        requires right { IfWriting (counts_of turn.pass.now).hold (λ _ found. value_after T.arithmetic (act_in T.arithmetic act.now) (value_of T.arithmetic found) ≡ new) }
        requires stores { IsStoring act.now }
        requires written { IsWritten T.arithmetic (act_in T.arithmetic act.now) }
        requires may { MayPut T.arithmetic (key_of self.now.stage) W.coming (act_in T.arithmetic act.now).call new (parties_of turn.pass.now) }
        ensures same_borrow { result.pass.ghost_name ≡ turn.entry.pass.ghost_name }
        ensures same { IsSamePass turn.entry.pass.now result.pass.now }
        ensures acted { IfWriting (counts_of turn.entry.pass.now).hold (λ _ found. ActsAt T.arithmetic (key_of self.now.stage) act.now found (counted turn.entry.pass.now) (counted result.pass.now)) }
        ensures rest { (counts_of result.pass.now).hold ≡ Free }
        ensures put { HasPut T.arithmetic (key_of self.now.stage) W.coming new (parties_of turn.entry.pass.now) (parties_of result.pass.now) }
    {
        let (low, high) = new.to_words();
        let stored = self.store_low(turn, low);
        let acted = self.end_store::<Brand>(stored, high, act);
        self.leave_write(acted)
    }

    /// Writes a value in place of the one that was read, by this act of this call, and leaves the lock.
    #[inline(always)]
    pub(crate) fn replace<'p>(
        &self,
        turn: Going<'p, T>,
        old: T,
        new: T,
        act: &AtomicAct,
        call: &Call<T>,
    ) -> Going<'p, T>
        requires own { IsPassOf self.now.stage turn.pass.now }
        requires holding { IsHolding T.arithmetic old turn.pass.now }
        requires right { value_after T.arithmetic (plain call.now) old ≡ new }
        requires knows { (done : List (Slot T)) × Knows T.arithmetic (key_of self.now.stage) call.now old done (parties_of turn.pass.now) }
        requires puts { Puts T.arithmetic call.now old new (answer_to T.arithmetic (plain call.now) old) }
        requires acts { act_in T.arithmetic act.now ≡ plain call.now }
        requires written { IsWritten T.arithmetic (plain call.now) }
        ensures same_borrow { result.pass.ghost_name ≡ turn.entry.pass.ghost_name }
        ensures acted { HasActedAt T.arithmetic (key_of self.now.stage) (plain call.now) (answer_to T.arithmetic (plain call.now) old) turn.entry.pass.now result.pass.now }
        ensures rest { (counts_of result.pass.now).hold ≡ Free }
        ensures played { HasReplaced T.arithmetic (key_of self.now.stage) call.now old (answer_to T.arithmetic (plain call.now) old) (parties_of turn.entry.pass.now) (parties_of result.pass.now) }
    {
        let _call = call;
        let _old = old;
        self.put(turn, new, act)
    }

    /// Writes the value that the closure of a `fetch_update` has chosen, which its caller picks, and leaves the lock.
    #[inline(always)]
    pub(crate) fn put_chosen<'p, L: Chosen<T>>(
        &self,
        turn: TurnWith<'p, PlayedPass<T>, T>,
    ) -> Going<'p, T>
        requires own { IsPassOf self.now.stage turn.pass.now }
        requires on { IsSettled (counts_of turn.pass.now).hold }
        requires named { L.choice ≡ Some turn.value }
        requires knows { (old : T) × (done : List (Slot T)) × Knows T.arithmetic (key_of self.now.stage) calls.FetchUpdate old done (parties_of turn.pass.now) }
        ensures same_borrow { result.pass.ghost_name ≡ turn.entry.pass.ghost_name }
        ensures same { IsSamePass turn.entry.pass.now result.pass.now }
        ensures acted { (old : T) → IsHolding T.arithmetic old turn.entry.pass.now → HasActedAt T.arithmetic (key_of self.now.stage) (update (Some turn.entry.value)) (answers.OkOld old) turn.entry.pass.now result.pass.now }
        ensures rest { (counts_of result.pass.now).hold ≡ Free }
        ensures played { (old : T) → HasReplaced T.arithmetic (key_of self.now.stage) calls.FetchUpdate old (answers.OkOld old) (parties_of turn.entry.pass.now) (parties_of result.pass.now) }
    {
        let (new, next) = turn.take::<L>();
        let words = content(new);
        let act = AtomicAct::FetchUpdate(Some(words));
        self.put(next, new, &act)
    }

    /// Keeps the value, in a `fetch_update` whose closure has chosen nothing, and leaves the lock.
    #[inline(always)]
    pub(crate) fn keep<'p>(&self, turn: Turn<'p, PlayedPass<T>, Chooses<Nothing>>) -> Going<'p, T>
        requires own { IsPassOf self.now.stage turn.pass.now }
        requires on { IsSettled (counts_of turn.pass.now).hold }
        requires knows { (old : T) × (done : List (Slot T)) × Knows T.arithmetic (key_of self.now.stage) calls.FetchUpdate old done (parties_of turn.pass.now) }
        ensures same_borrow { result.pass.ghost_name ≡ turn.entry.pass.ghost_name }
        ensures same { IsSamePass turn.entry.pass.now result.pass.now }
        ensures acted { (old : T) → IsHolding T.arithmetic old turn.entry.pass.now → HasActedAt T.arithmetic (key_of self.now.stage) (update None) (answers.ErrOld old) turn.entry.pass.now result.pass.now }
        ensures rest { (counts_of result.pass.now).hold ≡ Free }
        ensures played { (old : T) → HasReplaced T.arithmetic (key_of self.now.stage) calls.FetchUpdate old (answers.ErrOld old) (parties_of turn.entry.pass.now) (parties_of result.pass.now) }
    {
        let acted = self.end_unchanged(turn);
        self.leave_write(acted)
    }
}
