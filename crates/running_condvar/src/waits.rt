//! The model that the count of a condition variable plays, and what its passes count beside.

use model_waiters::WaitersPlace;
use running_model::{Counts, CountsByActs, Played, Script};
use running_passes::{Rule, Tally};

/// The model that the count plays: its one word is that of those that wait.
pub struct WaitersScript;

impl Script<(), WaitersPlace, u64> for WaitersScript {
    ghost use Rattle.std.specs.Prelude.{[], ◌∷◌};
    ghost use Rattle.model_events.specs.declared.event.Word.TheVariants as words;
    ghost use Rattle.running_condvar.specs.Cond.{waiters_model, waiters_lawful};

    ghost model = { λ _. waiters_model };

    ghost lawful = { λ _. waiters_lawful };

    ghost names = { words.Waiters ∷ [] };

    ghost apart = { (tt, tt) };

    ghost handed = { λ _. words.Waiters };
}

/// What a pass of the count is in its model, and counts beside.
pub type PlayedWaits = Played<WaitersScript, WaitersPlace, u64, Waits>;

/// What a pass of the count counts. No value of it is made, and its numbers have no limit.
pub struct Waits {
    /// How many waits its owner began, each counted in.
    pub begun: u64,
    /// How many of them were counted out.
    pub ended: u64,
}

impl Tally for Waits {
    ghost use Rattle.running_condvar.specs.Cond.{no_waits, both_waits, waits_add_up};

    ghost none = { no_waits };

    ghost add = { both_waits };

    ghost core = { λ _. no_waits };

    ghost adds_up = { waits_add_up };
}

/// The run alone says what all passes count.
impl Rule<(), ()> for Waits {
    ghost use Rattle.running_condvar.specs.Cond.{no_waits};

    ghost first = { λ _. no_waits };

    ghost agrees = { λ _ _ _ _. Unit {0} };
}

/// All passes counted in and out what the acts of the run did.
impl Counts<(), u64> for Waits {
    ghost use Rattle.std.proofs.Common.{refl};
    ghost use Rattle.running_condvar.specs.Cond.{AreWaitsIn, waits_stay};

    ghost follow = { λ _. AreWaitsIn };

    ghost stays = { λ _. waits_stay };

    ghost opens = { λ _ _ _. record { begun = refl; ended = refl } };
}

impl CountsByActs<(), WaitersScript, WaitersPlace, u64> for Waits {
    ghost use Rattle.std.proofs.Common.{refl};
    ghost use Rattle.running_model.specs.Sees.{sights_after};
    ghost use Rattle.running_condvar.specs.Cond.{waits_after, waits_go_on};

    ghost free = { λ _ _ _ _ _ _. tt };

    ghost sees = { sights_after };

    ghost after = { λ _ _ _. waits_after };

    ghost same = { λ _ _ _ _ _ _ _ _. refl };

    ghost needs = { λ _ _. Unit {0} };

    ghost goes_on = { λ _. waits_go_on };
}
