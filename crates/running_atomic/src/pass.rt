//! The right to call an atomic.
ghost use Rattle.std.specs.Prelude.{◌≡◌, true, [], IfOk, is_ok};
ghost use Rattle.running_model.specs.Slots.{no_parties, both_parties};
ghost use Rattle.running_model.specs.Passes.{counts_of};
ghost use Rattle.running_passes.specs.Parts.{half, IsAgain, IsSamePart, AddUp};
ghost use Rattle.running_passes.specs.declared.part.Part.{Part};
ghost use Rattle.running_rw_hold.specs.declared.held.Held.TheVariants.{Free};

use crate::calls::Atomic;
use crate::script::PlayedAtomic;
use model_events::atomic::internal::AtomicInteger;
use running_passes::Pass;
use std::alloc::Allocator;

/// The right to call an atomic, what its owner has seen of the history, and which acts in it are its owner's. Between calls it has no
/// hold of the lock inside.
#[derive(Drop)]
pub struct AtomicPass<T> {
    pub(crate) pass: Pass<PlayedAtomic<T>>,
    pub(crate) ghost resting: { (counts_of pass).hold ≡ Free },
}

impl<T: AtomicInteger> AtomicPass<T> {
    ghost use Rattle.running_atomic.specs.AtomicShown.{IsAtomicPass, part_of_atomic, parties_in, history_of, own_of, HasJoined};

    /// Two passes of the same atomic. Both have seen what this one had; the own acts stay with the first. They weigh together what it
    /// weighed. `Err`, which never comes today, would hand the pass back.
    pub fn split<A: Allocator>(
        self,
        of: &Atomic<T, A>,
    ) -> Result<(AtomicPass<T>, AtomicPass<T>), AtomicPass<T>>
        requires own { IsAtomicPass of.now self }
        ensures never_refused { is_ok result ≡ true }
        ensures own { IfOk result (λ parts. IsAtomicPass of.now parts.0 × IsAtomicPass of.now parts.1) }
        ensures seen { IfOk result (λ parts. (history_of T.arithmetic parts.0 ≡ history_of T.arithmetic self) × (history_of T.arithmetic parts.1 ≡ history_of T.arithmetic self)) }
        ensures acts { IfOk result (λ parts. (own_of parts.0 ≡ own_of self) × (own_of parts.1 ≡ [])) }
        ensures parties { IfOk result (λ parts. (parties_in parts.0 ≡ parties_in self) × (parties_in parts.1 ≡ no_parties)) }
        ensures halves { IfOk result (λ parts. (part_of_atomic parts.0 ≡ half (part_of_atomic self)) × (part_of_atomic parts.1 ≡ half (part_of_atomic self))) }
        ensures weights { IfOk result (λ parts. AddUp (part_of_atomic self) (part_of_atomic parts.0) (part_of_atomic parts.1)) }
    {
        let AtomicPass { pass } = self;
        let Ok((one, other)) = pass.split(&of.stage) else {
            unreachable!()
        };
        Ok((AtomicPass { pass: one }, AtomicPass { pass: other }))
    }

    /// One pass from two of the same atomic. It has seen one history, which begins with what each of them had seen; the own acts of both
    /// are its own, and it weighs what both weighed. `Err`, which never comes today, would hand both back.
    #[tactic(auto, using(crate::proofs::Runs::joins))]
    pub fn join<A: Allocator>(
        a: AtomicPass<T>,
        b: AtomicPass<T>,
        of: &Atomic<T, A>,
    ) -> Result<AtomicPass<T>, (AtomicPass<T>, AtomicPass<T>)>
        requires own { IsAtomicPass of.now a × IsAtomicPass of.now b }
        ensures never_refused { is_ok result ≡ true }
        ensures own { IfOk result (IsAtomicPass of.now) }
        ensures joined { IfOk result (HasJoined T.arithmetic a b) }
        ensures parties { IfOk result (λ both. parties_in both ≡ both_parties (parties_in a) (parties_in b)) }
        ensures weights { IfOk result (λ both. AddUp (part_of_atomic both) (part_of_atomic a) (part_of_atomic b)) }
        ensures again { (p : Part) → IsSamePart (part_of_atomic a) (half p) → IsSamePart (part_of_atomic b) (half p) → IfOk result (λ both. IsAgain p (part_of_atomic both)) }
    {
        let AtomicPass { pass: one } = a;
        let AtomicPass { pass: other } = b;
        let Ok(mut both) = Pass::join(one, other, &of.stage) else {
            unreachable!()
        };
        of.settle(&mut both);
        Ok(AtomicPass { pass: both })
    }
}
