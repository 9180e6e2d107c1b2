//! The atomic, and its calls.
ghost use Rattle.std.specs.Prelude.{◌≡◌, IfOk, IfErr, Some, None};
ghost use Rattle.model_events.specs.declared.event.Call.TheVariants as calls;
ghost use Rattle.model_events.specs.declared.event.Answer.TheVariants as answers;
ghost use Rattle.running_passes.specs.Passes.{view};
ghost use Rattle.running_passes.specs.Views.{first_view};
ghost use Rattle.running_model.specs.Slots.{no_parties};
ghost use Rattle.running_model.specs.Passes.{played};
ghost use Rattle.running_model.specs.Stages.{count_of};
ghost use Rattle.model_atomic.specs.Register.{plain, update};
ghost use Rattle.running_atomic.specs.History.{no_acts};
ghost use Rattle.running_atomic.specs.AtomicSteps.{OneHistory};

use crate::history::AtomicTally;
use crate::pass::AtomicPass;
use crate::script::AtomicScript;
use crate::shown::AtomicShown;
use model_atomic::{AtomicPlace, closed};
use model_events::atomic::internal::AtomicInteger;
use model_events::event::Call;
use running_model::Stage;
use std::alloc::{AllocError, Allocator, Global};
use std::sync::Wait;
use std::sync::atomic::Ordering;

/// An integer that threads read and write whole, as one register. Each call acts once, under a lock inside; `load` and `shown` hold it
/// with other readers, the others alone. A call that finds it taken tries again by itself, and after 10000
/// tries yields before each; it wakes nobody. Orderings change nothing:
/// every step is sequentially consistent.
#[derive(Drop)]
pub struct Atomic<T: AtomicInteger, A: Allocator = Global> {
    pub(crate) stage: Stage<T, AtomicScript, AtomicPlace<T>, T, AtomicTally, A>,
    ghost three_words: { count_of stage ≡ 3 },
}

impl<T: AtomicInteger, A: Allocator> Atomic<T, A> {
    ghost use Rattle.running_atomic.specs.AtomicShown.{IsAtomicPass, opening_of, loaded_in, pass_in, HasActed, HasPlayed};

    /// An atomic of this value, and the pass that is whole. `Err` where there was no memory; then nothing was made.
    pub fn new(alloc: A, value: T) -> Result<(Atomic<T, A>, AtomicPass<T>), AllocError>
        ensures own { IfOk result (λ made. IsAtomicPass made.0 made.1) }
        ensures opening { IfOk result (λ made. opening_of made.0 ≡ value) }
        ensures first { IfOk result (λ made. view (pass_in made.1) ≡ first_view (played no_parties no_acts)) }
    {
        closed::<T>();
        let (low, high) = value.to_words();
        let (stage, pass) = Stage::new(alloc, &[0, low, high], &value)?;
        Ok((Atomic { stage }, AtomicPass { pass }))
    }

    /// The value.
    #[inline]
    pub fn load<R: Wait>(&self, rt: &R, pass: &mut AtomicPass<T>, _order: Ordering) -> T
        requires own { IsAtomicPass self.now pass.old }
        ensures acted { HasActed T.arithmetic (opening_of self.now) (plain calls.Load) (answers.Value result) pass.old pass.new }
        ensures played { HasPlayed T.arithmetic (opening_of self.now) calls.Load (answers.Value result) pass.old pass.new }
    {
        self.load_by(rt, &mut pass.pass)
    }

    /// Writes the value.
    #[inline]
    pub fn store<R: Wait>(&self, rt: &R, pass: &mut AtomicPass<T>, value: T, _order: Ordering)
        requires own { IsAtomicPass self.now pass.old }
        ensures acted { HasActed T.arithmetic (opening_of self.now) (plain (calls.Store value)) answers.Done pass.old pass.new }
        ensures played { HasPlayed T.arithmetic (opening_of self.now) (calls.Store value) answers.Done pass.old pass.new }
    {
        self.store_by(rt, &mut pass.pass, value);
    }

    /// Writes the value, and answers the old one.
    #[inline]
    pub fn swap<R: Wait>(&self, rt: &R, pass: &mut AtomicPass<T>, value: T, _order: Ordering) -> T
        requires own { IsAtomicPass self.now pass.old }
        ensures acted { HasActed T.arithmetic (opening_of self.now) (plain (calls.Swap value)) (answers.Value result) pass.old pass.new }
        ensures played { HasPlayed T.arithmetic (opening_of self.now) (calls.Swap value) (answers.Value result) pass.old pass.new }
    {
        self.fetch(rt, &mut pass.pass, &Call::Swap(value))
    }

    /// Writes `new` where the value is `current`, and answers `Ok` with the old value; else `Err` with it, and nothing is written.
    #[inline]
    pub fn compare_exchange<R: Wait>(
        &self,
        rt: &R,
        pass: &mut AtomicPass<T>,
        current: T,
        new: T,
        _success: Ordering,
        _failure: Ordering,
    ) -> Result<T, T>
        requires own { IsAtomicPass self.now pass.old }
        ensures changed { IfOk result (λ old. HasActed T.arithmetic (opening_of self.now) (plain (calls.CompareExchange current new)) (answers.OkOld old) pass.old pass.new) }
        ensures kept { IfErr result (λ old. HasActed T.arithmetic (opening_of self.now) (plain (calls.CompareExchange current new)) (answers.ErrOld old) pass.old pass.new) }
        ensures played_changed { IfOk result (λ old. HasPlayed T.arithmetic (opening_of self.now) (calls.CompareExchange current new) (answers.OkOld old) pass.old pass.new) }
        ensures played_kept { IfErr result (λ old. HasPlayed T.arithmetic (opening_of self.now) (calls.CompareExchange current new) (answers.ErrOld old) pass.old pass.new) }
    {
        self.exchange(
            rt,
            &mut pass.pass,
            &Call::CompareExchange(current, new),
            current,
            new,
        )
    }

    /// The same: it fails only where the value differs.
    #[inline]
    pub fn compare_exchange_weak<R: Wait>(
        &self,
        rt: &R,
        pass: &mut AtomicPass<T>,
        current: T,
        new: T,
        _success: Ordering,
        _failure: Ordering,
    ) -> Result<T, T>
        requires own { IsAtomicPass self.now pass.old }
        ensures changed { IfOk result (λ old. HasActed T.arithmetic (opening_of self.now) (plain (calls.CompareExchangeWeak current new)) (answers.OkOld old) pass.old pass.new) }
        ensures kept { IfErr result (λ old. HasActed T.arithmetic (opening_of self.now) (plain (calls.CompareExchangeWeak current new)) (answers.ErrOld old) pass.old pass.new) }
        ensures played_changed { IfOk result (λ old. HasPlayed T.arithmetic (opening_of self.now) (calls.CompareExchangeWeak current new) (answers.OkOld old) pass.old pass.new) }
        ensures played_kept { IfErr result (λ old. HasPlayed T.arithmetic (opening_of self.now) (calls.CompareExchangeWeak current new) (answers.ErrOld old) pass.old pass.new) }
    {
        self.exchange(
            rt,
            &mut pass.pass,
            &Call::CompareExchangeWeak(current, new),
            current,
            new,
        )
    }

    /// Adds, wrapping, and answers the old value.
    #[inline]
    pub fn fetch_add<R: Wait>(
        &self,
        rt: &R,
        pass: &mut AtomicPass<T>,
        value: T,
        _order: Ordering,
    ) -> T
        requires own { IsAtomicPass self.now pass.old }
        ensures acted { HasActed T.arithmetic (opening_of self.now) (plain (calls.FetchAdd value)) (answers.Value result) pass.old pass.new }
        ensures played { HasPlayed T.arithmetic (opening_of self.now) (calls.FetchAdd value) (answers.Value result) pass.old pass.new }
    {
        self.fetch(rt, &mut pass.pass, &Call::FetchAdd(value))
    }

    /// Subtracts, wrapping, and answers the old value.
    #[inline]
    pub fn fetch_sub<R: Wait>(
        &self,
        rt: &R,
        pass: &mut AtomicPass<T>,
        value: T,
        _order: Ordering,
    ) -> T
        requires own { IsAtomicPass self.now pass.old }
        ensures acted { HasActed T.arithmetic (opening_of self.now) (plain (calls.FetchSub value)) (answers.Value result) pass.old pass.new }
        ensures played { HasPlayed T.arithmetic (opening_of self.now) (calls.FetchSub value) (answers.Value result) pass.old pass.new }
    {
        self.fetch(rt, &mut pass.pass, &Call::FetchSub(value))
    }

    /// Writes the bits that both have, and answers the old value.
    #[inline]
    pub fn fetch_and<R: Wait>(
        &self,
        rt: &R,
        pass: &mut AtomicPass<T>,
        value: T,
        _order: Ordering,
    ) -> T
        requires own { IsAtomicPass self.now pass.old }
        ensures acted { HasActed T.arithmetic (opening_of self.now) (plain (calls.FetchAnd value)) (answers.Value result) pass.old pass.new }
        ensures played { HasPlayed T.arithmetic (opening_of self.now) (calls.FetchAnd value) (answers.Value result) pass.old pass.new }
    {
        self.fetch(rt, &mut pass.pass, &Call::FetchAnd(value))
    }

    /// Writes the bits that one of them has, and answers the old value.
    #[inline]
    pub fn fetch_or<R: Wait>(
        &self,
        rt: &R,
        pass: &mut AtomicPass<T>,
        value: T,
        _order: Ordering,
    ) -> T
        requires own { IsAtomicPass self.now pass.old }
        ensures acted { HasActed T.arithmetic (opening_of self.now) (plain (calls.FetchOr value)) (answers.Value result) pass.old pass.new }
        ensures played { HasPlayed T.arithmetic (opening_of self.now) (calls.FetchOr value) (answers.Value result) pass.old pass.new }
    {
        self.fetch(rt, &mut pass.pass, &Call::FetchOr(value))
    }

    /// Writes the bits that only one of them has, and answers the old value.
    #[inline]
    pub fn fetch_xor<R: Wait>(
        &self,
        rt: &R,
        pass: &mut AtomicPass<T>,
        value: T,
        _order: Ordering,
    ) -> T
        requires own { IsAtomicPass self.now pass.old }
        ensures acted { HasActed T.arithmetic (opening_of self.now) (plain (calls.FetchXor value)) (answers.Value result) pass.old pass.new }
        ensures played { HasPlayed T.arithmetic (opening_of self.now) (calls.FetchXor value) (answers.Value result) pass.old pass.new }
    {
        self.fetch(rt, &mut pass.pass, &Call::FetchXor(value))
    }

    /// Writes the bits that not both have, and answers the old value.
    #[inline]
    pub fn fetch_nand<R: Wait>(
        &self,
        rt: &R,
        pass: &mut AtomicPass<T>,
        value: T,
        _order: Ordering,
    ) -> T
        requires own { IsAtomicPass self.now pass.old }
        ensures acted { HasActed T.arithmetic (opening_of self.now) (plain (calls.FetchNand value)) (answers.Value result) pass.old pass.new }
        ensures played { HasPlayed T.arithmetic (opening_of self.now) (calls.FetchNand value) (answers.Value result) pass.old pass.new }
    {
        self.fetch(rt, &mut pass.pass, &Call::FetchNand(value))
    }

    /// Writes the greater of the two, and answers the old value.
    #[inline]
    pub fn fetch_max<R: Wait>(
        &self,
        rt: &R,
        pass: &mut AtomicPass<T>,
        value: T,
        _order: Ordering,
    ) -> T
        requires own { IsAtomicPass self.now pass.old }
        ensures acted { HasActed T.arithmetic (opening_of self.now) (plain (calls.FetchMax value)) (answers.Value result) pass.old pass.new }
        ensures played { HasPlayed T.arithmetic (opening_of self.now) (calls.FetchMax value) (answers.Value result) pass.old pass.new }
    {
        self.fetch(rt, &mut pass.pass, &Call::FetchMax(value))
    }

    /// Writes the lesser of the two, and answers the old value.
    #[inline]
    pub fn fetch_min<R: Wait>(
        &self,
        rt: &R,
        pass: &mut AtomicPass<T>,
        value: T,
        _order: Ordering,
    ) -> T
        requires own { IsAtomicPass self.now pass.old }
        ensures acted { HasActed T.arithmetic (opening_of self.now) (plain (calls.FetchMin value)) (answers.Value result) pass.old pass.new }
        ensures played { HasPlayed T.arithmetic (opening_of self.now) (calls.FetchMin value) (answers.Value result) pass.old pass.new }
    {
        self.fetch(rt, &mut pass.pass, &Call::FetchMin(value))
    }

    /// Asks `f` once, under the write lock, what to write in place of the old value, and writes that; answers `Ok` with the old value.
    /// Where it chooses nothing, nothing is written, and the answer is `Err` with the old value. An `f` that calls this atomic waits for
    /// ever.
    #[inline]
    pub fn fetch_update<R: Wait, F: FnMut(T) -> Option<T>>(
        &self,
        rt: &R,
        pass: &mut AtomicPass<T>,
        _set_order: Ordering,
        _fetch_order: Ordering,
        f: F,
    ) -> Result<T, T>
        requires own { IsAtomicPass self.now pass.old }
        requires may { (value : T) → F.pre f value }
        ensures changed { IfOk result (λ old. (new : T) × F.post f old (Some new) × HasActed T.arithmetic (opening_of self.now) (update (Some new)) (answers.OkOld old) pass.old pass.new) }
        ensures kept { IfErr result (λ old. F.post f old None × HasActed T.arithmetic (opening_of self.now) (update None) (answers.ErrOld old) pass.old pass.new) }
        ensures played_changed { IfOk result (λ old. HasPlayed T.arithmetic (opening_of self.now) calls.FetchUpdate (answers.OkOld old) pass.old pass.new) }
        ensures played_kept { IfErr result (λ old. HasPlayed T.arithmetic (opening_of self.now) calls.FetchUpdate (answers.ErrOld old) pass.old pass.new) }
    {
        self.update_by(rt, &mut pass.pass, f)
    }

    /// The value, to be printed. It is loaded here, and not when it is printed.
    pub fn shown<R: Wait>(&self, rt: &R, pass: &mut AtomicPass<T>) -> AtomicShown<T>
        requires own { IsAtomicPass self.now pass.old }
        ensures acted { HasActed T.arithmetic (opening_of self.now) (plain calls.Load) (answers.Value (loaded_in result)) pass.old pass.new }
        ensures played { HasPlayed T.arithmetic (opening_of self.now) calls.Load (answers.Value (loaded_in result)) pass.old pass.new }
    {
        let value = self.load(rt, pass, Ordering::SeqCst);
        AtomicShown { value }
    }
}

/// Whenever the rule of an atomic holds there is one history: what each pass has seen begins it, each act in it is one pass's own, and
/// while no write hold stands the data words are the register after it. It is, act for act and in order, that of a run of the model in
/// which all passes are the parties. Says so of the rule alone, and does nothing.
#[tactic(auto, using(crate::proofs::Runs::one_history))]
pub fn one_history<T: AtomicInteger>()
    ensures one { OneHistory T.arithmetic }
{}
