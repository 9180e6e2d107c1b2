//! The right to force a lazy value.
ghost use Rattle.std.specs.Prelude.{◌≡◌, IfOk, is_ok, true};

use crate::gives::Gives;
use crate::lazy_lock::LazyLock;
use running_once::OncePass;
use running_spin_lock::SpinPass;
use std::alloc::Allocator;

/// The right to force a lazy value, and what its owner did and saw there: a pass of the once and one of the closure's lock. It has no
/// bytes, and may go to another thread.
#[derive(Drop)]
pub struct LazyPass {
    pub(crate) once: OncePass,
    pub(crate) init: SpinPass,
}

impl LazyPass {
    ghost use Rattle.running_passes.specs.declared.part.Part.{Part};
    ghost use Rattle.running_passes.specs.Parts.{half, IsAgain, IsSamePart, AddUp};
    ghost use Rattle.running_passes.specs.Views.{left_view, right_view, joined_view};
    ghost use Rattle.running_model.specs.Slots.{both_parties};
    ghost use Rattle.running_once.specs.Once.{known_runs, both_runs};
    ghost use Rattle.running_once.specs.OnceShown.{parties_of_once};
    ghost use Rattle.running_spin_lock.specs.ValueRule.{core_held, both_held};
    ghost use Rattle.running_lazy_lock.specs.LazyShown.{IsLazyPass, once_in, known_by, known_of_init, part_of, part_of_init};

    /// Two passes of the same lazy value. What they counted adds up to what this one had counted, of the once and of the closure's lock,
    /// and both know what it knew; they weigh together what it weighed. `Err`, which never comes today, would hand the pass back.
    pub fn split<T, F, G: Gives<T, F>, A: Allocator>(
        self,
        of: &LazyLock<T, F, G, A>,
    ) -> Result<(LazyPass, LazyPass), LazyPass>
        requires own { IsLazyPass of.now self }
        ensures never_refused { is_ok result ≡ true }
        ensures own { IfOk result (λ parts. IsLazyPass of.now parts.0 × IsLazyPass of.now parts.1) }
        ensures first { IfOk result (λ parts. (known_by parts.0 ≡ left_view (known_by self)) × (known_of_init parts.0 ≡ left_view (known_of_init self))) }
        ensures second { IfOk result (λ parts. (known_by parts.1 ≡ right_view known_runs (known_by self)) × (known_of_init parts.1 ≡ right_view core_held (known_of_init self))) }
        ensures weights { IfOk result (λ parts. AddUp (part_of self) (part_of parts.0) (part_of parts.1) × AddUp (part_of_init self) (part_of_init parts.0) (part_of_init parts.1)) }
    {
        let LazyPass { once, init } = self;
        let Ok((once, other_once)) = once.split(&of.once) else {
            unreachable!()
        };
        let Ok((init, other_init)) = init.split(&of.init) else {
            unreachable!()
        };
        Ok((
            LazyPass { once, init },
            LazyPass {
                once: other_once,
                init: other_init,
            },
        ))
    }

    /// One pass from two of the same lazy value, which counted and knows what both did, of the once and of the closure's lock, and weighs
    /// what both weighed. `Err`, which never comes today, would hand both back.
    pub fn join<T, F, G: Gives<T, F>, A: Allocator>(
        a: LazyPass,
        b: LazyPass,
        of: &LazyLock<T, F, G, A>,
    ) -> Result<LazyPass, (LazyPass, LazyPass)>
        requires own { IsLazyPass of.now a × IsLazyPass of.now b }
        ensures never_refused { is_ok result ≡ true }
        ensures own { IfOk result (IsLazyPass of.now) }
        ensures views { IfOk result (λ both. (known_by both ≡ joined_view both_runs (known_by a) (known_by b)) × (known_of_init both ≡ joined_view both_held (known_of_init a) (known_of_init b))) }
        ensures parties { IfOk result (λ both. parties_of_once (once_in both) ≡ both_parties (parties_of_once (once_in a)) (parties_of_once (once_in b))) }
        ensures weights { IfOk result (λ both. AddUp (part_of both) (part_of a) (part_of b) × AddUp (part_of_init both) (part_of_init a) (part_of_init b)) }
        ensures again { (p : Part) → IsSamePart (part_of a) (half p) → IsSamePart (part_of b) (half p) → IfOk result (λ both. IsAgain p (part_of both)) }
        ensures init_again { (p : Part) → IsSamePart (part_of_init a) (half p) → IsSamePart (part_of_init b) (half p) → IfOk result (λ both. IsAgain p (part_of_init both)) }
    {
        let LazyPass { once, init } = a;
        let LazyPass {
            once: other_once,
            init: other_init,
        } = b;
        let Ok(once) = OncePass::join(once, other_once, &of.once) else {
            unreachable!()
        };
        let Ok(init) = SpinPass::join(init, other_init, &of.init) else {
            unreachable!()
        };
        Ok(LazyPass { once, init })
    }
}
