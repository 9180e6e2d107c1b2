//! The steps on the words of an atomic, one atomic step each.
ghost use Rattle.std.specs.Prelude.{◌≡◌, ◌<◌, ◌-◌, ◌^◌, ◌+◌, ℕ, None};
ghost use Rattle.running_rw_hold.specs.declared.held.Held.TheVariants.{Free};
ghost use Rattle.running_passes.specs.Passes.{IsSamePass};
ghost use Rattle.running_model.specs.Plays.{Beginning, Choosing, Going, MayStep, Went};
ghost use Rattle.running_model.specs.Passes.{parties_of, counts_of, counted};
ghost use Rattle.running_model.specs.Stages.{IsPassOf, key_of};
ghost use Rattle.running_atomic.specs.AtomicModel.{atomic_model, atomic_names};
ghost use Rattle.running_atomic.specs.AtomicParties.{Writes, IsAtHigh, IsAtLook, ComesAgain, IsAtPutHigh};
ghost use Rattle.running_atomic.specs.declared.history.AtomicAct.TheVariants as act;
ghost use Rattle.running_atomic.specs.AtomicRule.{act_in, IsWritten};
ghost use Rattle.model_events.specs.declared.event.Call.TheVariants as calls;
ghost use Rattle.model_events.specs.Moves.{CallValues};
ghost use Rattle.running_passes.specs.Views.{looked};
ghost use Rattle.running_atomic.specs.AtomicSteps.{EntersRead, EntersWrite, Leaves, ReadsLow, ReadsHigh, EndsLoad, EndsStore, EndsUnchanged, StoresLow, Settles, IsReading, IsSettled, IsWriting, IsOn, IsRight, KeepsOthers, ComparesHigh, IsComparing, IsStoring};

use crate::begins::{Acts, Compares};
use crate::calls::Atomic;
use crate::history::AtomicAct;
use crate::script::PlayedAtomic;
use model_events::atomic::internal::AtomicInteger;
use model_events::event::Call;
use running_model::calls::LoadCall;
use running_model::turn::{Called, Chooses, Goes, Nothing, Turn, Way, begin_new};
use running_passes::Pass;
use std::alloc::Allocator;

/// The pass inside.
pub(crate) type PlayedPass<T> = Pass<PlayedAtomic<T>>;

/// A call under way that has made a step.
pub(crate) type Going<'p, T> = Turn<'p, PlayedPass<T>, Goes>;

/// A call that compares: its act, and the value that it compares with.
#[derive(Drop)]
pub(crate) struct Comparison<T> {
    pub(crate) act: AtomicAct,
    pub(crate) current: T,
}

/// The lock's word.
const STATE: usize = 0;

/// The low data word.
const LOW: usize = 1;

/// The high data word.
const HIGH: usize = 2;

/// The lock's word while a writer has it.
const WRITTEN: u64 = u64::MAX;

impl<T: AtomicInteger, A: Allocator> Atomic<T, A> {
    ghost use Rattle.model_events.specs.declared.row.Intent.TheVariants as intents;

    /// A load of the lock's word.
    #[inline(always)]
    pub(crate) fn look<'p, W: Way<T>>(
        &self,
        turn: Turn<'p, PlayedPass<T>, W>,
    ) -> (u64, Going<'p, T>)
        requires own { IsPassOf self.now.stage turn.pass.now }
        requires may { MayStep (atomic_model T.arithmetic (key_of self.now.stage)) atomic_names W.coming 0 (λ w. intents.Load w) (parties_of turn.pass.now) }
        ensures same_borrow { result.1.pass.ghost_name ≡ turn.entry.pass.ghost_name }
        ensures same { IsSamePass turn.entry.pass.now result.1.pass.now }
        ensures went { Went (atomic_model T.arithmetic (key_of self.now.stage)) W.coming (parties_of turn.entry.pass.now) result.0 (parties_of result.1.pass.now) }
        ensures saw { counted result.1.pass.now ≡ looked (counted turn.entry.pass.now) result.0 }
    {
        turn.load(&self.stage, STATE)
    }

    /// The load with which a `load` begins.
    #[inline(always)]
    pub(crate) fn first_look<'p>(&self, pass: &'p mut PlayedPass<T>) -> (u64, Going<'p, T>)
        requires own { IsPassOf self.now.stage pass.old }
        ensures same_borrow { result.1.pass.ghost_name ≡ pass.entry.ghost_name }
        ensures same { IsSamePass pass.old result.1.pass.now }
        ensures went { Went (atomic_model T.arithmetic (key_of self.now.stage)) (Beginning calls.Load) (parties_of pass.old) result.0 (parties_of result.1.pass.now) }
        ensures saw { counted result.1.pass.now ≡ looked (counted pass.old) result.0 }
    {
        let begun = begin_new::<LoadCall, PlayedPass<T>>(pass);
        self.look(begun)
    }

    /// An exchange of the lock's word for one more.
    #[inline(always)]
    pub(crate) fn enter_read<'p>(
        &self,
        turn: Going<'p, T>,
        from: u64,
        to: u64,
    ) -> (u64, Going<'p, T>)
        requires own { IsPassOf self.now.stage turn.pass.now }
        requires free { (counts_of turn.pass.now).hold ≡ Free }
        requires room { from < 2 ^ 64 - 2 }
        requires next { to ≡ from + 1 }
        requires may { MayStep (atomic_model T.arithmetic (key_of self.now.stage)) atomic_names Going 0 (λ w. intents.Exchange w from to) (parties_of turn.pass.now) }
        ensures same_borrow { result.1.pass.ghost_name ≡ turn.entry.pass.ghost_name }
        ensures same { IsSamePass turn.entry.pass.now result.1.pass.now }
        ensures went { Went (atomic_model T.arithmetic (key_of self.now.stage)) Going (parties_of turn.entry.pass.now) result.0 (parties_of result.1.pass.now) }
        ensures tried { EntersRead from (counted turn.entry.pass.now) result.0 (counted result.1.pass.now) }
    {
        turn.exchange(&self.stage, STATE, from, to)
    }

    /// An exchange of the lock's word, from 0, for the writer's.
    #[inline(always)]
    pub(crate) fn enter_write<'p, W: Way<T>>(
        &self,
        turn: Turn<'p, PlayedPass<T>, W>,
    ) -> (u64, Going<'p, T>)
        requires own { IsPassOf self.now.stage turn.pass.now }
        requires free { (counts_of turn.pass.now).hold ≡ Free }
        requires may { MayStep (atomic_model T.arithmetic (key_of self.now.stage)) atomic_names W.coming 0 (λ w. intents.Exchange w 0 (2 ^ 64 - 1)) (parties_of turn.pass.now) }
        ensures same_borrow { result.1.pass.ghost_name ≡ turn.entry.pass.ghost_name }
        ensures same { IsSamePass turn.entry.pass.now result.1.pass.now }
        ensures went { Went (atomic_model T.arithmetic (key_of self.now.stage)) W.coming (parties_of turn.entry.pass.now) result.0 (parties_of result.1.pass.now) }
        ensures tried { EntersWrite (counted turn.entry.pass.now) result.0 (counted result.1.pass.now) }
    {
        turn.exchange(&self.stage, STATE, 0, WRITTEN)
    }

    /// The one with which another call begins, which its caller picks.
    #[inline(always)]
    pub(crate) fn first_enter<'p, L: Called<T>>(
        &self,
        pass: &'p mut PlayedPass<T>,
        _call: &Call<T>,
    ) -> (u64, Going<'p, T>)
        requires own { IsPassOf self.now.stage pass.old }
        requires free { (counts_of pass.old).hold ≡ Free }
        requires writes { Writes T.arithmetic (key_of self.now.stage) L.call }
        requires values { CallValues T.arithmetic L.call }
        ensures same_borrow { result.1.pass.ghost_name ≡ pass.entry.ghost_name }
        ensures same { IsSamePass pass.old result.1.pass.now }
        ensures went { Went (atomic_model T.arithmetic (key_of self.now.stage)) (Beginning L.call) (parties_of pass.old) result.0 (parties_of result.1.pass.now) }
        ensures tried { EntersWrite (counted pass.old) result.0 (counted result.1.pass.now) }
    {
        let begun = begin_new::<L, PlayedPass<T>>(pass);
        self.enter_write(begun)
    }

    /// The end of a read hold.
    #[inline(always)]
    pub(crate) fn leave_read<'p>(&self, turn: Going<'p, T>) -> Going<'p, T>
        requires own { IsPassOf self.now.stage turn.pass.now }
        requires on { IsReading (counts_of turn.pass.now).hold }
        requires may { MayStep (atomic_model T.arithmetic (key_of self.now.stage)) atomic_names Going 0 (λ w. intents.Subtract w 1) (parties_of turn.pass.now) }
        ensures same_borrow { result.pass.ghost_name ≡ turn.entry.pass.ghost_name }
        ensures same { IsSamePass turn.entry.pass.now result.pass.now }
        ensures went { (found : ℕ) × Went (atomic_model T.arithmetic (key_of self.now.stage)) Going (parties_of turn.entry.pass.now) found (parties_of result.pass.now) }
        ensures left { Leaves (counted turn.entry.pass.now) (counted result.pass.now) }
    {
        let (_, next) = turn.subtract(&self.stage, STATE, 1);
        next
    }

    /// The end of a write hold.
    #[inline(always)]
    pub(crate) fn leave_write<'p>(&self, turn: Going<'p, T>) -> Going<'p, T>
        requires own { IsPassOf self.now.stage turn.pass.now }
        requires on { IsSettled (counts_of turn.pass.now).hold }
        requires may { MayStep (atomic_model T.arithmetic (key_of self.now.stage)) atomic_names Going 0 (λ w. intents.Store w 0) (parties_of turn.pass.now) }
        ensures same_borrow { result.pass.ghost_name ≡ turn.entry.pass.ghost_name }
        ensures same { IsSamePass turn.entry.pass.now result.pass.now }
        ensures went { Went (atomic_model T.arithmetic (key_of self.now.stage)) Going (parties_of turn.entry.pass.now) 0 (parties_of result.pass.now) }
        ensures left { Leaves (counted turn.entry.pass.now) (counted result.pass.now) }
    {
        turn.store(&self.stage, STATE, 0)
    }

    /// A load of the low word.
    #[inline(always)]
    pub(crate) fn read_low<'p>(&self, turn: Going<'p, T>) -> (u64, Going<'p, T>)
        requires own { IsPassOf self.now.stage turn.pass.now }
        requires on { IsOn (counts_of turn.pass.now).hold }
        requires may { MayStep (atomic_model T.arithmetic (key_of self.now.stage)) atomic_names Going 1 (λ w. intents.Load w) (parties_of turn.pass.now) }
        ensures same_borrow { result.1.pass.ghost_name ≡ turn.entry.pass.ghost_name }
        ensures same { IsSamePass turn.entry.pass.now result.1.pass.now }
        ensures went { Went (atomic_model T.arithmetic (key_of self.now.stage)) Going (parties_of turn.entry.pass.now) result.0 (parties_of result.1.pass.now) }
        ensures read { ReadsLow (counted turn.entry.pass.now) result.0 (counted result.1.pass.now) }
    {
        turn.load(&self.stage, LOW)
    }

    /// A load of the high word, after which the call goes on.
    #[inline(always)]
    pub(crate) fn read_high<'p>(&self, turn: Going<'p, T>) -> (u64, Going<'p, T>)
        requires own { IsPassOf self.now.stage turn.pass.now }
        requires on { IsOn (counts_of turn.pass.now).hold }
        requires may { MayStep (atomic_model T.arithmetic (key_of self.now.stage)) atomic_names Going 2 (λ w. intents.Load w) (parties_of turn.pass.now) }
        requires goes_on { IsAtLook T.arithmetic (key_of self.now.stage) (parties_of turn.pass.now) }
        ensures same_borrow { result.1.pass.ghost_name ≡ turn.entry.pass.ghost_name }
        ensures same { IsSamePass turn.entry.pass.now result.1.pass.now }
        ensures went { Went (atomic_model T.arithmetic (key_of self.now.stage)) Going (parties_of turn.entry.pass.now) result.0 (parties_of result.1.pass.now) }
        ensures read { ReadsHigh (counted turn.entry.pass.now) result.0 (counted result.1.pass.now) }
    {
        turn.load(&self.stage, HIGH)
    }

    /// The load of the high word by which a `load` acts.
    #[inline(always)]
    pub(crate) fn end_load<'p>(&self, turn: Going<'p, T>) -> (u64, Going<'p, T>)
        requires own { IsPassOf self.now.stage turn.pass.now }
        requires on { IsReading (counts_of turn.pass.now).hold }
        requires may { MayStep (atomic_model T.arithmetic (key_of self.now.stage)) atomic_names Going 2 (λ w. intents.Load w) (parties_of turn.pass.now) }
        requires loads { (low : ℕ) × IsAtHigh T.arithmetic (key_of self.now.stage) calls.Load low (parties_of turn.pass.now) }
        ensures same_borrow { result.1.pass.ghost_name ≡ turn.entry.pass.ghost_name }
        ensures same { IsSamePass turn.entry.pass.now result.1.pass.now }
        ensures went { Went (atomic_model T.arithmetic (key_of self.now.stage)) Going (parties_of turn.entry.pass.now) result.0 (parties_of result.1.pass.now) }
        ensures ended { EndsLoad T.arithmetic (key_of self.now.stage) (counted turn.entry.pass.now) result.0 (counted result.1.pass.now) }
    {
        turn.load(&self.stage, HIGH)
    }

    /// The store of the low word.
    #[inline(always)]
    pub(crate) fn store_low<'p, W: Way<T>>(
        &self,
        turn: Turn<'p, PlayedPass<T>, W>,
        new: u64,
    ) -> Going<'p, T>
        requires own { IsPassOf self.now.stage turn.pass.now }
        requires on { IsWriting (counts_of turn.pass.now).hold }
        requires may { MayStep (atomic_model T.arithmetic (key_of self.now.stage)) atomic_names W.coming 1 (λ w. intents.Store w new) (parties_of turn.pass.now) }
        ensures same_borrow { result.pass.ghost_name ≡ turn.entry.pass.ghost_name }
        ensures same { IsSamePass turn.entry.pass.now result.pass.now }
        ensures went { Went (atomic_model T.arithmetic (key_of self.now.stage)) W.coming (parties_of turn.entry.pass.now) new (parties_of result.pass.now) }
        ensures stored { StoresLow (counted turn.entry.pass.now) new (counted result.pass.now) }
    {
        turn.store(&self.stage, LOW, new)
    }

    /// The store of the high word, by which a call acts that stores: this act, which its caller picks.
    #[inline(always)]
    pub(crate) fn end_store<'p, L: Acts>(
        &self,
        turn: Going<'p, T>,
        new: u64,
        _act: &AtomicAct,
    ) -> Going<'p, T>
        requires own { IsPassOf self.now.stage turn.pass.now }
        requires on { IsWriting (counts_of turn.pass.now).hold }
        requires right { IsRight T.arithmetic L.act new (counts_of turn.pass.now).hold }
        requires may { MayStep (atomic_model T.arithmetic (key_of self.now.stage)) atomic_names Going 2 (λ w. intents.Store w new) (parties_of turn.pass.now) }
        requires stores { IsStoring L.act }
        requires written { IsWritten T.arithmetic (act_in T.arithmetic L.act) }
        requires puts { IsAtPutHigh T.arithmetic (key_of self.now.stage) (act_in T.arithmetic L.act).call new (parties_of turn.pass.now) }
        ensures same_borrow { result.pass.ghost_name ≡ turn.entry.pass.ghost_name }
        ensures same { IsSamePass turn.entry.pass.now result.pass.now }
        ensures went { Went (atomic_model T.arithmetic (key_of self.now.stage)) Going (parties_of turn.entry.pass.now) new (parties_of result.pass.now) }
        ensures ended { EndsStore T.arithmetic (key_of self.now.stage) L.act (counted turn.entry.pass.now) new (counted result.pass.now) }
    {
        turn.store(&self.stage, HIGH, new)
    }

    /// The load of the high word by which a `fetch_update` acts whose closure has chosen nothing.
    #[inline(always)]
    pub(crate) fn end_unchanged<'p>(
        &self,
        turn: Turn<'p, PlayedPass<T>, Chooses<Nothing>>,
    ) -> Going<'p, T>
        requires own { IsPassOf self.now.stage turn.pass.now }
        requires on { IsSettled (counts_of turn.pass.now).hold }
        requires may { MayStep (atomic_model T.arithmetic (key_of self.now.stage)) atomic_names (Choosing None) 2 (λ w. intents.Load w) (parties_of turn.pass.now) }
        requires again { ComesAgain T.arithmetic (key_of self.now.stage) (Choosing None) (parties_of turn.pass.now) }
        ensures same_borrow { result.pass.ghost_name ≡ turn.entry.pass.ghost_name }
        ensures same { IsSamePass turn.entry.pass.now result.pass.now }
        ensures went { (found : ℕ) × Went (atomic_model T.arithmetic (key_of self.now.stage)) (Choosing None) (parties_of turn.entry.pass.now) found (parties_of result.pass.now) }
        ensures ended { EndsUnchanged T.arithmetic (key_of self.now.stage) (act.FetchUpdate None) (counted turn.entry.pass.now) (counted result.pass.now) }
    {
        let (_, next) = turn.load(&self.stage, HIGH);
        next
    }

    /// The load of the high word of a call that compares. Where the value is another than the one compared with, the call acts by it.
    #[inline(always)]
    pub(crate) fn compare_high<'p, L: Compares<T>>(
        &self,
        turn: Going<'p, T>,
        _by: &Comparison<T>,
    ) -> (u64, Going<'p, T>)
        requires own { IsPassOf self.now.stage turn.pass.now }
        requires on { IsSettled (counts_of turn.pass.now).hold }
        requires right { KeepsOthers T.arithmetic L.act (L.current T.arithmetic) (counts_of turn.pass.now).hold }
        requires may { MayStep (atomic_model T.arithmetic (key_of self.now.stage)) atomic_names Going 2 (λ w. intents.Load w) (parties_of turn.pass.now) }
        requires written { IsWritten T.arithmetic (act_in T.arithmetic L.act) }
        requires compares { IsComparing T.arithmetic (key_of self.now.stage) L.act (L.current T.arithmetic) (counts_of turn.pass.now).hold (parties_of turn.pass.now) }
        ensures same_borrow { result.1.pass.ghost_name ≡ turn.entry.pass.ghost_name }
        ensures same { IsSamePass turn.entry.pass.now result.1.pass.now }
        ensures went { Went (atomic_model T.arithmetic (key_of self.now.stage)) Going (parties_of turn.entry.pass.now) result.0 (parties_of result.1.pass.now) }
        ensures compared { ComparesHigh T.arithmetic (key_of self.now.stage) L.act (L.current T.arithmetic) (counted turn.entry.pass.now) result.0 (counted result.1.pass.now) }
    {
        turn.load(&self.stage, HIGH)
    }

    /// A load by which a pass sees all of the history.
    #[inline(always)]
    pub(crate) fn settle(&self, pass: &mut PlayedPass<T>)
        requires own { IsPassOf self.now.stage pass.old }
        ensures same { IsSamePass pass.old pass.new }
        ensures stayed { parties_of pass.new ≡ parties_of pass.old }
        ensures settled { Settles T.arithmetic (key_of self.now.stage) (counted pass.old) (counted pass.new) }
    {
        self.stage.learn(pass, STATE);
    }
}
