//! The right to call a spin lock.
ghost use Rattle.std.specs.Prelude.{◌≡◌, ◌≤◌, ◌<◌, [], length, IfOk, is_ok, true};
ghost use Rattle.running_passes.specs.declared.part.Part.{Part};
ghost use Rattle.running_passes.specs.Parts.{half, IsAgain, IsSamePart, AddUp};
ghost use Rattle.running_passes.specs.Views.{left_view, right_view, joined_view, spent_view};
ghost use Rattle.running_spin_lock.specs.ValueRule.{none_held, both_held, core_held, view_in};

use crate::script::PlayedSpin;
use crate::spin_lock::SpinLock;
use atomic_table::{Badge, Join, Seat, Split};
use running_passes::View;
use std::alloc::Allocator;
use std::mem;

/// The right to call a spin lock, and what its owner did and saw there. It has no bytes, names no type of the value, and may go to
/// another thread. A pass that is dropped takes its part with it, so that no other is ever whole again.
#[derive(Drop)]
pub struct SpinPass {
    // Blank while a guard has what it stands for.
    pub(crate) badge: Badge<View<PlayedSpin>>,
    ghost one: { length badge.views ≤ 1 },
    ghost off: { (view_in badge.views).tally.counts.holds ≡ 0 },
}

/// How a pass is parted.
struct Cut;

impl Split<View<PlayedSpin>> for Cut {
    ghost left = { left_view };

    ghost right = { right_view core_held };
}

impl Join<View<PlayedSpin>> for Cut {
    ghost both = { joined_view both_held };

    ghost spent = { spent_view none_held };
}

impl SpinPass {
    ghost use Rattle.running_spin_lock.specs.SpinShown.{IsSpinPass, IsHere, view, part_of, object_of, number_of};

    /// Two passes of the same lock. What they counted adds up to what this one had counted, and they weigh together what it weighed.
    /// `Err`, which never comes today, would hand the pass back.
    pub fn split<T, A: Allocator>(
        self,
        of: &SpinLock<T, A>,
    ) -> Result<(SpinPass, SpinPass), SpinPass>
        requires own { IsSpinPass of.now self }
        ensures never_refused { is_ok result ≡ true }
        ensures own { IfOk result (λ parts. IsSpinPass of.now parts.0 × IsSpinPass of.now parts.1) }
        ensures views { IfOk result (λ parts. (view parts.0 ≡ left_view (view self)) × (view parts.1 ≡ right_view core_held (view self))) }
        ensures weights { IfOk result (λ parts. AddUp (part_of self) (part_of parts.0) (part_of parts.1)) }
    {
        let mut pass = self;
        let mut seat = pass.rise::<T>();
        let other = of.table.shared.split_seat::<Cut>(&mut seat);
        Ok((SpinPass::seated(seat), SpinPass::seated(other)))
    }

    /// One pass from two of the same lock, which counted and knows what both did, and weighs what both weighed. `Err`, which never
    /// comes today, would hand both back.
    pub fn join<T, A: Allocator>(
        a: SpinPass,
        b: SpinPass,
        of: &SpinLock<T, A>,
    ) -> Result<SpinPass, (SpinPass, SpinPass)>
        requires own { IsSpinPass of.now a × IsSpinPass of.now b }
        ensures never_refused { is_ok result ≡ true }
        ensures own { IfOk result (IsSpinPass of.now) }
        ensures views { IfOk result (λ both. view both ≡ joined_view both_held (view a) (view b)) }
        ensures weights { IfOk result (λ both. AddUp (part_of both) (part_of a) (part_of b)) }
        ensures again { (p : Part) → IsSamePart (part_of a) (half p) → IsSamePart (part_of b) (half p) → IfOk result (λ both. IsAgain p (part_of both)) }
    {
        let mut one = a;
        let mut two = b;
        let mut seat = one.rise::<T>();
        let other = two.rise::<T>();
        of.table.shared.join_seat::<Cut>(&mut seat, other);
        Ok(SpinPass::seated(seat))
    }

    /// Takes the seat out of the pass, which is blank until it sits again.
    #[inline(always)]
    pub(crate) fn rise<T>(&mut self) -> Seat<Option<T>, View<PlayedSpin>>
        requires here { IsHere self.old }
        ensures from { (result.table_id ≡ object_of self.old) × (result.id ≡ number_of self.old) }
        ensures view { result.me.0 ≡ view self.old }
        ensures no_slot { result.me.1 ≡ [] }
    {
        mem::replace(&mut self.badge, Badge::blank()).into_seat()
    }

    /// A pass with this seat.
    #[inline(always)]
    pub(crate) fn seated<T>(seat: Seat<Option<T>, View<PlayedSpin>>) -> SpinPass
        requires off { seat.me.0.tally.counts.holds ≡ 0 }
        requires no_slot { seat.me.1 ≡ [] }
        ensures from { (object_of result ≡ seat.table_id) × (number_of result ≡ seat.id) }
        ensures view { view result ≡ seat.me.0 }
    {
        SpinPass {
            badge: seat.into_badge(),
        }
    }
}
