//! The pass of a writer-preferring lock.
ghost use Rattle.std.specs.Prelude.{◌≡◌, IfOk};
ghost use Rattle.running_model.specs.Passes.{parties_of, counts_of};

use crate::{PlayedRwWriter, RwLockWriterPreference};
use running_passes::Pass;
use running_rw_hold::RwPass;
use std::alloc::Allocator;

/// The right to call a writer-preferring lock, and what its owner did and saw there. No mark of its owner stands: its flag is down.
#[derive(Drop)]
pub struct RwWriterPass {
    pub(crate) pass: Pass<PlayedRwWriter>,
    ghost unflagged: { (counts_of pass).flags ≡ 0 },
}

// What its holds come to, and which of them its party has.
impl RwPass for RwWriterPass {
    ghost use Rattle.model_events.specs.declared.hold.HoldKind.TheVariants as kinds;
    ghost use Rattle.running_rw_hold.specs.Held.{read_holds, write_holds};
    ghost use Rattle.running_rw_writer.specs.RwWriterParties.{has_hold};

    ghost reads = { λ p. read_holds (counts_of p.pass).held };

    ghost writes = { λ p. write_holds (counts_of p.pass).held };

    ghost has_read = { λ p. has_hold kinds.Read (parties_of p.pass) };

    ghost has_write = { λ p. has_hold kinds.Write (parties_of p.pass) };
}

impl RwWriterPass {
    ghost use Rattle.std.specs.Prelude.{true, is_ok};
    ghost use Rattle.running_passes.specs.declared.part.Part.{Part};
    ghost use Rattle.running_passes.specs.Parts.{half, IsAgain, IsSamePart, AddUp};
    ghost use Rattle.running_passes.specs.Views.{left_view, right_view, joined_view};
    ghost use Rattle.running_model.specs.Passes.{none_played, both_played};
    ghost use Rattle.running_rw_writer.specs.RwWriter.{nothing_marked, both_marked};
    ghost use Rattle.running_rw_writer.specs.RwWriterShown.{IsRwWriterPass, known_by, part_in};

    /// Two passes of the same lock. What they counted adds up to what this one had counted, and both know what it knew; they weigh
    /// together what it weighed. `Err`, which never comes today, would hand the pass back.
    pub fn split<A: Allocator, S>(
        self,
        of: &RwLockWriterPreference<A, S>,
    ) -> Result<(RwWriterPass, RwWriterPass), RwWriterPass>
        requires own { IsRwWriterPass of.now self }
        ensures never_refused { is_ok result ≡ true }
        ensures own { IfOk result (λ parts. IsRwWriterPass of.now parts.0 × IsRwWriterPass of.now parts.1) }
        ensures views { IfOk result (λ parts. (known_by parts.0 ≡ left_view (known_by self)) × (known_by parts.1 ≡ right_view (λ _. none_played nothing_marked) (known_by self))) }
        ensures weights { IfOk result (λ parts. AddUp (part_in self) (part_in parts.0) (part_in parts.1)) }
    {
        let RwWriterPass { pass } = self;
        let Ok((one, other)) = pass.split(&of.stage) else {
            unreachable!()
        };
        Ok((RwWriterPass { pass: one }, RwWriterPass { pass: other }))
    }

    /// One pass from two of the same lock, which counted and knows what both did, and weighs what both weighed. `Err`, which never
    /// comes today, would hand both back.
    pub fn join<A: Allocator, S>(
        a: RwWriterPass,
        b: RwWriterPass,
        of: &RwLockWriterPreference<A, S>,
    ) -> Result<RwWriterPass, (RwWriterPass, RwWriterPass)>
        requires own { IsRwWriterPass of.now a × IsRwWriterPass of.now b }
        ensures never_refused { is_ok result ≡ true }
        ensures own { IfOk result (IsRwWriterPass of.now) }
        ensures views { IfOk result (λ both. known_by both ≡ joined_view (both_played both_marked) (known_by a) (known_by b)) }
        ensures weights { IfOk result (λ both. AddUp (part_in both) (part_in a) (part_in b)) }
        ensures again { (p : Part) → IsSamePart (part_in a) (half p) → IsSamePart (part_in b) (half p) → IfOk result (λ both. IsAgain p (part_in both)) }
    {
        let RwWriterPass { pass: one } = a;
        let RwWriterPass { pass: other } = b;
        let Ok(pass) = Pass::join(one, other, &of.stage) else {
            unreachable!()
        };
        Ok(RwWriterPass { pass })
    }
}
