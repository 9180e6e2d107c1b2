//! The value alone. It is no call of `force_shown`, since behind each call that may wait there is a test.
ghost use Rattle.std.specs.Prelude.{◌≡◌, ◌<◌};
ghost use Rattle.running_lazy_lock.specs.Given.{IsGiven};

use crate::gives::Gives;
use crate::lazy_lock::{LazyLock, never};
use crate::pass::LazyPass;
use boxcar::slot::Written;
use running_spin_lock::SpinPass;
use std::alloc::Allocator;
use std::sync::Wait;

impl<T: Drop, F: FnOnce() -> T + Drop, G: Gives<T, F>, A: Allocator> LazyLock<T, F, G, A> {
    ghost use Rattle.running_passes.specs.Parts.{IsWhole};
    ghost use Rattle.running_spin_lock.specs.SpinShown.{IsSpinPass, HasLockedOnce, view};
    ghost use Rattle.running_spin_lock.specs.SpinSteps.{HasPlayedBoth};
    ghost use Rattle.model_events.specs.declared.event.Call.TheVariants as calls;
    ghost use Rattle.running_lazy_lock.specs.LazyShown.{IsLazyPass, IsComplete, HasForced, HasSeenOnce, HasPlayed, ended_of, part_of, init_in};

    /// The value. Calls the closure for it, if no other call has begun to; else comes back once that has ended. A closure that forces
    /// this value itself waits for ever.
    #[inline(always)]
    pub fn force<'t, R: Wait>(this: &'t Self, rt: &R, pass: &mut LazyPass) -> &'t T
        requires own { IsLazyPass this.now pass.old }
        requires keeps { (f : F) → G.may f → F.IsAlwaysCallable f × ((value : T) → F.post f value → G.gives f value) }
        ensures given { IsGiven G.may G.gives result.now }
        ensures forced { HasForced pass.old pass.new }
        ensures made { ended_of pass.old < ended_of pass.new → IsGiven G.may F.post result.now }
        ensures called { ended_of pass.old < ended_of pass.new → HasPlayedBoth calls.BlockingLock (view (init_in pass.old)) (view (init_in pass.new)) }
        ensures kept { IsComplete pass.old → HasSeenOnce pass.old pass.new }
        ensures exact { IsWhole (part_of pass.old) → ended_of pass.new ≡ 1 }
        ensures played { HasPlayed pass.old pass.new }
    {
        let made = this.once.call_once_on(
            rt,
            &mut pass.once,
            &mut pass.init,
            |init: &mut SpinPass| -> Written<T>
                requires own { IsSpinPass this.now.init init.old }
                requires keeps { (f : F) → G.may f → F.IsAlwaysCallable f × ((value : T) → F.post f value → G.gives f value) }
                ensures locked { HasLockedOnce init.old init.new }
                ensures called { HasPlayedBoth calls.BlockingLock (view init.old) (view init.new) }
                ensures of { result.of ≡ this.entry.now.value.id }
                ensures made { IsGiven G.may F.post result.value }
            { this.make(rt, init) },
        );
        let Some(written) = this.value.witness() else {
            return never(rt);
        };
        let value = this.value.value(&written);
        match made {
            Some(ran) => {
                written.agrees(ran.given());
                value
            }
            None => value,
        }
    }
}
