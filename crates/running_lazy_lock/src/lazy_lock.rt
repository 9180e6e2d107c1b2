//! The lazy value itself.
ghost use Rattle.std.specs.Prelude.{◌≡◌, ◌<◌, IfOk, IfErr, IfSome, IfNone};
ghost use Rattle.running_lazy_lock.specs.Given.{IsGiven};

use crate::gives::Gives;
use crate::init::{Given, Init};
use crate::pass::LazyPass;
use boxcar::slot::{OnceSlot, Written};
use boxcar::tag::Tag;
use running_once::{Once, Ran};
use running_spin_lock::{SpinLock, SpinPass};
use std::alloc::{AllocError, Allocator, Global};
use std::hint::spin_loop;
use std::marker::{Brand, PhantomData};
use std::sync::Wait;

/// A value that is made when it is first asked for. It may be shared by threads where the closure may go from one to another, and the
/// value may go and be shared.
#[derive(Drop)]
pub struct LazyLock<T, F = fn() -> T, G: Gives<T, F> = Brand, A: Allocator = Global> {
    pub(crate) once: Once<A>,
    pub(crate) init: SpinLock<Option<Init<T, F, G>>, A>,
    pub(crate) value: OnceSlot<T, Given<F, G>>,
}

impl<T: Drop, F: Drop, A: Allocator + Clone> LazyLock<T, F, Brand, A> {
    ghost use Rattle.running_lazy_lock.specs.LazyShown.{IsLazyPass, known_by, known_of_init};
    ghost use Rattle.running_passes.specs.Views.{first_view};
    ghost use Rattle.running_once.specs.Once.{no_runs};
    ghost use Rattle.running_spin_lock.specs.ValueRule.{none_held};

    /// A lazy value with this closure, of which nothing is kept, and the pass that is whole. `Err` where there was no memory; then
    /// nothing was made, and the closure comes back.
    pub fn new(alloc: A, init: F) -> Result<(LazyLock<T, F, Brand, A>, LazyPass), (AllocError, F)>
        ensures own { IfOk result (λ made. IsLazyPass made.0 made.1) }
        ensures first { IfOk result (λ made. (known_by made.1 ≡ first_view no_runs) × (known_of_init made.1 ≡ first_view none_held)) }
        ensures refused { IfErr result (λ refused. refused.1 ≡ init) }
    {
        LazyLock::keeping(alloc, init)
    }
}

impl<T: Drop, F: Drop, G: Gives<T, F>, A: Allocator + Clone> LazyLock<T, F, G, A> {
    ghost use Rattle.running_lazy_lock.specs.LazyShown.{IsLazyPass, known_by, known_of_init};
    ghost use Rattle.running_passes.specs.Views.{first_view};
    ghost use Rattle.running_once.specs.Once.{no_runs};
    ghost use Rattle.running_spin_lock.specs.ValueRule.{none_held};

    /// The same, where `may` is kept of the closure, and so `gives` is known of the value.
    pub fn keeping(alloc: A, init: F) -> Result<(LazyLock<T, F, G, A>, LazyPass), (AllocError, F)>
        requires kept { G.may init }
        ensures own { IfOk result (λ made. IsLazyPass made.0 made.1) }
        ensures first { IfOk result (λ made. (known_by made.1 ≡ first_view no_runs) × (known_of_init made.1 ≡ first_view none_held)) }
        ensures refused { IfErr result (λ refused. refused.1 ≡ init) }
    {
        let Ok(for_once) = alloc.clone() else {
            return Err((AllocError, init));
        };
        let Ok((once, once_pass)) = Once::new(for_once) else {
            return Err((AllocError, init));
        };
        let closure = Init {
            make: init,
            by: PhantomData,
        };
        match SpinLock::new(alloc, Some(closure)) {
            Ok((init, init_pass)) => Ok((
                LazyLock {
                    once,
                    init,
                    value: OnceSlot::new(&Tag::empty()),
                },
                LazyPass {
                    once: once_pass,
                    init: init_pass,
                },
            )),
            Err((error, slot)) => Err((error, slot.unwrap().into_closure())),
        }
    }
}

impl<T: Drop, F: FnOnce() -> T + Drop, G: Gives<T, F>, A: Allocator> LazyLock<T, F, G, A> {
    ghost use Rattle.running_passes.specs.Parts.{IsWhole};
    ghost use Rattle.running_spin_lock.specs.SpinShown.{IsSpinPass, HasLockedOnce, view};
    ghost use Rattle.running_spin_lock.specs.SpinSteps.{HasPlayedBoth};
    ghost use Rattle.model_events.specs.declared.event.Call.TheVariants as calls;
    ghost use Rattle.running_model.specs.Turns.{given_by};
    ghost use Rattle.running_lazy_lock.specs.LazyShown.{IsLazyPass, IsComplete, IsWritten, HasForced, HasSeenOnce, HasPlayed, ended_of, part_of, init_in};

    /// What `force` does, and where this call ran the closure, what shows that its value lay there before the once's run ended.
    #[inline(always)]
    pub fn force_shown<'t, R: Wait>(
        this: &'t Self,
        rt: &R,
        pass: &mut LazyPass,
    ) -> (&'t T, Option<Ran<Written<T>>>)
        requires own { IsLazyPass this.now pass.old }
        requires keeps { (f : F) → G.may f → F.IsAlwaysCallable f × ((value : T) → F.post f value → G.gives f value) }
        ensures given { IsGiven G.may G.gives result.0.now }
        ensures forced { HasForced pass.old pass.new }
        ensures made { ended_of pass.old < ended_of pass.new → IsGiven G.may F.post result.0.now }
        ensures called { ended_of pass.old < ended_of pass.new → HasPlayedBoth calls.BlockingLock (view (init_in pass.old)) (view (init_in pass.new)) }
        ensures ran { IfSome result.1 (λ ran. ended_of pass.old < ended_of pass.new × IsWritten this.now result.0.now (given_by ran)) }
        ensures waited { IfNone result.1 (ended_of pass.new ≡ ended_of pass.old) }
        ensures kept { IsComplete pass.old → HasSeenOnce pass.old pass.new }
        ensures exact { IsWhole (part_of pass.old) → ended_of pass.new ≡ 1 }
        ensures played { HasPlayed pass.old pass.new }
    {
        let made = this.once.call_once_on(
            rt,
            &mut pass.once,
            &mut pass.init,
            |init: &mut SpinPass| -> Written<T>
                requires own { IsSpinPass this.now.init init.old }
                requires keeps { (f : F) → G.may f → F.IsAlwaysCallable f × ((value : T) → F.post f value → G.gives f value) }
                ensures locked { HasLockedOnce init.old init.new }
                ensures called { HasPlayedBoth calls.BlockingLock (view init.old) (view init.new) }
                ensures of { result.of ≡ this.entry.now.value.id }
                ensures made { IsGiven G.may F.post result.value }
            { this.make(rt, init) },
        );
        let value = match &made {
            Some(ran) => this.value.value(ran.given()),
            None => match this.value.get() {
                Some(value) => value,
                None => never(rt),
            },
        };
        (value, made)
    }

    /// Calls the closure, and puts its value where all can read it. What shows that it is there.
    pub(crate) fn make<R: Wait>(&self, rt: &R, pass: &mut SpinPass) -> Written<T>
        requires own { IsSpinPass self.now.init pass.old }
        requires keeps { (f : F) → G.may f → F.IsAlwaysCallable f × ((value : T) → F.post f value → G.gives f value) }
        ensures locked { HasLockedOnce pass.old pass.new }
        ensures called { HasPlayedBoth calls.BlockingLock (view pass.old) (view pass.new) }
        ensures of { result.of ≡ self.now.value.id }
        ensures made { IsGiven G.may F.post result.value }
    {
        let value = self.take(rt, pass).call(pass);
        match self.value.set_written(value) {
            Ok(written) => written,
            Err(_) => never(rt),
        }
    }

    /// The closure, out of its lock.
    fn take<R: Wait>(&self, rt: &R, pass: &mut SpinPass) -> Init<T, F, G>
        requires own { IsSpinPass self.now.init pass.old }
        ensures locked { HasLockedOnce pass.old pass.new }
        ensures called { HasPlayedBoth calls.BlockingLock (view pass.old) (view pass.new) }
    {
        let taken = {
            let mut guard = SpinLock::blocking_lock(pass, &self.init, rt);
            guard.take()
        };
        match taken {
            Some(init) => init,
            None => never(rt),
        }
    }
}

/// For what does not come about, as no clause says: one party alone takes the closure and sets the value.
pub(crate) fn never<X, R: Wait>(rt: &R) -> X
    ensures { ⊥ }
{
    for _ in rt.forever() {
        spin_loop();
    }
    unreachable!()
}
