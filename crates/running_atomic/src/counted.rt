//! What a pass of an atomic counts and knows of its acts, and what the run says of it.

use crate::history::AtomicTally;
use crate::script::AtomicScript;
use model_atomic::AtomicPlace;
use model_events::atomic::internal::AtomicInteger;
use running_model::{Counts, CountsByActs};
use running_passes::Rule;

/// The rule says of the type and the opening value alone; the run says the rest.
impl<T: AtomicInteger> Rule<(), T> for AtomicTally {
    ghost use Rattle.model_events.specs.Arithmetic.{IsValue, IsClosed};
    ghost use Rattle.running_atomic.specs.History.{no_acts};

    ghost first = { λ _. no_acts };

    ghost agrees = { λ key _ _ _. IsClosed T.arithmetic × IsValue T.arithmetic key };
}

/// The history that all passes know together is, act for act, that of the run, and the data words are the register after it, unless a write
/// hold stands.
impl<T: AtomicInteger> Counts<T, T> for AtomicTally {
    ghost use Rattle.running_atomic.specs.AtomicRule.{IsRegister};
    ghost use Rattle.running_atomic.specs.AtomicGoesOn.{register_stays, register_opens};

    ghost follow = { IsRegister T.arithmetic };

    ghost stays = { register_stays T.arithmetic };

    ghost opens = { λ key _. register_opens T.arithmetic key };
}

impl<T: AtomicInteger> CountsByActs<T, AtomicScript, AtomicPlace<T>, T> for AtomicTally {
    ghost use Rattle.running_atomic.specs.AtomicRule.{lock_sights, tally_after, tally_needs};
    ghost use Rattle.running_atomic.specs.AtomicGoesOn.{register_same, register_goes_on};

    ghost free = { λ _ _ _ _ _ is. (is.closed, is.opening_is) };

    ghost sees = { lock_sights };

    ghost after = { tally_after T.arithmetic };

    ghost same = { register_same T.arithmetic };

    ghost needs = { tally_needs };

    ghost goes_on = { register_goes_on T.arithmetic };
}
