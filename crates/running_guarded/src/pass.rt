//! The right to call a guarded value.
ghost use Rattle.std.specs.Prelude.{◌≡◌, ◌≤◌, ◌<◌, [], length, IfOk, is_ok, true};
ghost use Rattle.running_passes.specs.declared.part.Part.{Part};
ghost use Rattle.running_passes.specs.Parts.{half, IsAgain, IsSamePart, AddUp};
ghost use Rattle.running_passes.specs.Views.{left_view, right_view, joined_view, spent_view};
ghost use Rattle.running_model.specs.Passes.{core_played};
ghost use Rattle.running_for_one.specs.ForOne.{no_holds};
ghost use Rattle.running_spin_lock.specs.ValueRule.{none_held, both_held, view_in};

use crate::guarded::Guarded;
use atomic_table::{Badge, Join, Seat, Split};
use running_mutex::PlayedMutex;
use running_passes::View;
use std::alloc::Allocator;
use std::mem;

/// The right to call a guarded value, and what its owner did and saw there. It has no bytes, names no type of the value, and may go to
/// another thread. A pass that is dropped takes its part with it, so that no other is ever whole again.
#[derive(Drop)]
pub struct GuardedPass {
    // Blank while a guard has what it stands for.
    pub(crate) badge: Badge<View<PlayedMutex>>,
    ghost one: { length badge.views ≤ 1 },
    ghost off: { (view_in badge.views).tally.counts.holds ≡ 0 },
}

/// How a pass is parted.
struct Cut;

impl Split<View<PlayedMutex>> for Cut {
    ghost left = { left_view };

    ghost right = { right_view (core_played (λ _. no_holds)) };
}

impl Join<View<PlayedMutex>> for Cut {
    ghost both = { joined_view both_held };

    ghost spent = { spent_view none_held };
}

impl GuardedPass {
    ghost use Rattle.running_guarded.specs.GuardedShown.{IsGuardedPass, IsHere, view, part_of, object_of, number_of};

    /// Two passes of the same value. What they counted adds up to what this one had counted, and they weigh together what it weighed.
    /// `Err`, which never comes today, would hand the pass back.
    pub fn split<T, A: Allocator>(
        self,
        of: &Guarded<T, A>,
    ) -> Result<(GuardedPass, GuardedPass), GuardedPass>
        requires own { IsGuardedPass of.now self }
        ensures never_refused { is_ok result ≡ true }
        ensures own { IfOk result (λ parts. IsGuardedPass of.now parts.0 × IsGuardedPass of.now parts.1) }
        ensures views { IfOk result (λ parts. (view parts.0 ≡ left_view (view self)) × (view parts.1 ≡ right_view (core_played (λ _. no_holds)) (view self))) }
        ensures weights { IfOk result (λ parts. AddUp (part_of self) (part_of parts.0) (part_of parts.1)) }
    {
        let mut pass = self;
        let other = pass.part_off(of);
        Ok((pass, other))
    }

    /// One pass from two of the same value, which counted and knows what both did, and weighs what both weighed. `Err`, which never
    /// comes today, would hand both back.
    pub fn join<T, A: Allocator>(
        a: GuardedPass,
        b: GuardedPass,
        of: &Guarded<T, A>,
    ) -> Result<GuardedPass, (GuardedPass, GuardedPass)>
        requires own { IsGuardedPass of.now a × IsGuardedPass of.now b }
        ensures never_refused { is_ok result ≡ true }
        ensures own { IfOk result (IsGuardedPass of.now) }
        ensures views { IfOk result (λ both. view both ≡ joined_view both_held (view a) (view b)) }
        ensures weights { IfOk result (λ both. AddUp (part_of both) (part_of a) (part_of b)) }
        ensures again { (p : Part) → IsSamePart (part_of a) (half p) → IsSamePart (part_of b) (half p) → IfOk result (λ both. IsAgain p (part_of both)) }
    {
        let mut pass = a;
        pass.absorb(b, of);
        Ok(pass)
    }

    /// Half of this pass, which keeps the other half.
    #[inline(always)]
    pub fn part_off<T, A: Allocator>(&mut self, of: &Guarded<T, A>) -> GuardedPass
        requires own { IsGuardedPass of.now self.old }
        ensures own { IsGuardedPass of.now self.new × IsGuardedPass of.now result }
        ensures views { (view self.new ≡ left_view (view self.old)) × (view result ≡ right_view (core_played (λ _. no_holds)) (view self.old)) }
    {
        let mut seat = self.rise::<T>();
        let half = of.table.shared.split_seat::<Cut>(&mut seat);
        *self = GuardedPass::seated(seat);
        GuardedPass::seated(half)
    }

    /// This pass and another of the same value, as one.
    #[inline(always)]
    pub fn absorb<T, A: Allocator>(&mut self, other: GuardedPass, of: &Guarded<T, A>)
        requires own { IsGuardedPass of.now self.old × IsGuardedPass of.now other }
        ensures own { IsGuardedPass of.now self.new }
        ensures views { view self.new ≡ joined_view both_held (view self.old) (view other) }
    {
        let mut other = other;
        let mut seat = self.rise::<T>();
        let rest = other.rise::<T>();
        of.table.shared.join_seat::<Cut>(&mut seat, rest);
        *self = GuardedPass::seated(seat);
    }

    /// Takes the seat out of the pass, which is blank until it sits again.
    #[inline(always)]
    pub(crate) fn rise<T>(&mut self) -> Seat<Option<T>, View<PlayedMutex>>
        requires here { IsHere self.old }
        ensures from { (result.table_id ≡ object_of self.old) × (result.id ≡ number_of self.old) }
        ensures view { result.me.0 ≡ view self.old }
        ensures no_slot { result.me.1 ≡ [] }
    {
        mem::replace(&mut self.badge, Badge::blank()).into_seat()
    }

    /// A pass with this seat.
    #[inline(always)]
    pub(crate) fn seated<T>(seat: Seat<Option<T>, View<PlayedMutex>>) -> GuardedPass
        requires off { seat.me.0.tally.counts.holds ≡ 0 }
        requires no_slot { seat.me.1 ≡ [] }
        ensures from { (object_of result ≡ seat.table_id) × (number_of result ≡ seat.id) }
        ensures view { view result ≡ seat.me.0 }
    {
        GuardedPass {
            badge: seat.into_badge(),
        }
    }
}
