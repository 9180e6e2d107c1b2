//! The right to call an object.
ghost use Rattle.std.specs.Prelude.{◌≡◌, ◌<◌, []};

use crate::origin::Origin;
use crate::rule::Rule;
use crate::tally::Tally;
use crate::view::View;
use atomic_table::{Join, Seat, Split};
use std::alloc::Allocator;

/// The right to call an object, and what its owner did and saw there. It has no bytes, and may go to another thread. A pass that is
/// dropped takes its part with it, so that no other is ever whole again.
#[derive(Drop)]
pub struct Pass<T> {
    pub(crate) seat: Seat<(), View<T>>,
    ghost no_slot: { seat.me.1 ≡ [] },
    ghost alive: { 0 < seat.me.0.part.share },
}

/// How a pass is parted.
struct Cut;

impl<T: Tally> Split<View<T>> for Cut {
    ghost use Rattle.running_passes.specs.Views.{left_view, right_view};

    ghost left = { left_view };

    ghost right = { right_view T.core };
}

impl<T: Tally> Join<View<T>> for Cut {
    ghost use Rattle.running_passes.specs.Views.{joined_view, spent_view};

    ghost both = { joined_view T.add };

    ghost spent = { spent_view T.none };
}

impl<T: Tally> Pass<T> {
    ghost use Rattle.std.specs.Prelude.{true, IfOk, is_ok};
    ghost use Rattle.running_passes.specs.declared.part.Part.{Part};
    ghost use Rattle.running_passes.specs.Parts.{half, IsAgain, IsSamePart, AddUp};
    ghost use Rattle.running_passes.specs.Views.{left_view, right_view, joined_view};
    ghost use Rattle.running_passes.specs.Passes.{part_of, view};
    ghost use Rattle.running_passes.specs.Objects.{IsPassFrom};

    /// Two passes of the same object. What they counted adds up to what this one had counted, and both know what it knew; they weigh
    /// together what it weighed. `Err`, which never comes today, would hand the pass back.
    pub fn split<K, A: Allocator>(self, of: &Origin<K, T, A>) -> Result<(Pass<T>, Pass<T>), Pass<T>>
    where
        T: Rule<(), K>,
        requires own { IsPassFrom of.now self }
        ensures never_refused { is_ok result ≡ true }
        ensures own { IfOk result (λ parts. IsPassFrom of.now parts.0 × IsPassFrom of.now parts.1) }
        ensures views { IfOk result (λ parts. (view parts.0 ≡ left_view (view self)) × (view parts.1 ≡ right_view T.core (view self))) }
        ensures weights { IfOk result (λ parts. AddUp (part_of self) (part_of parts.0) (part_of parts.1)) }
    {
        let Pass { mut seat } = self;
        let other = of.table.shared.split_seat::<Cut>(&mut seat);
        Ok((Pass { seat }, Pass { seat: other }))
    }

    /// One pass from two of the same object, which counted and knows what both did, and weighs what both weighed. `Err`, which never
    /// comes today, would hand both back.
    pub fn join<K, A: Allocator>(
        a: Pass<T>,
        b: Pass<T>,
        of: &Origin<K, T, A>,
    ) -> Result<Pass<T>, (Pass<T>, Pass<T>)>
    where
        T: Rule<(), K>,
        requires own { IsPassFrom of.now a × IsPassFrom of.now b }
        ensures never_refused { is_ok result ≡ true }
        ensures own { IfOk result (IsPassFrom of.now) }
        ensures views { IfOk result (λ both. view both ≡ joined_view T.add (view a) (view b)) }
        ensures weights { IfOk result (λ both. AddUp (part_of both) (part_of a) (part_of b)) }
        ensures again { (p : Part) → IsSamePart (part_of a) (half p) → IsSamePart (part_of b) (half p) → IfOk result (λ both. IsAgain p (part_of both)) }
    {
        let Pass { mut seat } = a;
        let Pass { seat: other } = b;
        of.table.shared.join_seat::<Cut>(&mut seat, other);
        Ok(Pass { seat })
    }
}
