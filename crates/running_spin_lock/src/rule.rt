//! The rule over all passes of a lock that guards a value.
ghost use Rattle.running_model.specs.Sees.{sights_after};
ghost use Rattle.running_for_one.specs.ForOne.{AreHoldsIn, holds_after, holds_needed, holds_go_on, holds_stay};
ghost use Rattle.running_spin_lock.specs.ValueRule.{LiesByHolds, CarriesByHolds};
ghost use Rattle.running_spin_lock.specs.ValueMoves.{value_moves};

use running_for_one::{ForOne, Holds};
use running_model::{Carries, CarryRule};

/// The value of a lock with one holder at most: it is with the pass that has the hold, and in its slot where nobody has one.
pub struct HeldValue;

impl<T, P, M: ForOne<P>> Carries<Option<T>, M, P, u64, Holds> for HeldValue {
    ghost follow = { AreHoldsIn (M.model tt).table };

    ghost stays = { holds_stay (M.model tt).table };

    ghost sees = { sights_after };

    ghost after = { holds_after };

    ghost needs = { holds_needed };

    ghost goes_on = { holds_go_on (M.model tt) M.for_one };

    ghost lies = { LiesByHolds };

    ghost carries = { CarriesByHolds };

    ghost moves = { value_moves (M.model tt).table };
}

/// The rule of the table that a lock with a value lies in: its word is that of a run of the lock's model, in which the passes are parties
/// and which says what they count; and the value lies where their holds say.
pub type ValueRule = CarryRule<HeldValue>;
