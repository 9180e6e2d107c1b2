//! The model that a semaphore plays, and what its pass counts beside.

use model_semaphore::SemaphorePlace;
use running_model::{Counts, CountsByActs, Played, Script};
use running_passes::{Rule, Tally};

/// The model that a semaphore plays: its one word is that of the permits. The key is the initial value, as a word.
pub struct SemaphoreScript;

impl Script<u64, SemaphorePlace, u64> for SemaphoreScript {
    ghost use Rattle.std.specs.Prelude.{[], ◌∷◌, ◌%◌, ◌^◌};
    ghost use Rattle.model_events.specs.declared.event.Word.TheVariants as words;
    ghost use Rattle.running_semaphore.specs.Semaphore.{semaphore_model, semaphore_lawful};

    ghost model = { λ key. semaphore_model (key % 2 ^ 64) };

    ghost lawful = { semaphore_lawful };

    ghost names = { words.State ∷ [] };

    ghost apart = { (tt, tt) };

    ghost handed = { λ _. words.State };
}

/// What a pass of a semaphore is in its model, and counts beside.
pub type PlayedSemaphore = Played<SemaphoreScript, SemaphorePlace, u64, Permits>;

/// What a pass of a semaphore counts. No value of it is made, and its numbers have no limit.
pub struct Permits {
    /// The initial value, if this pass was made with the semaphore, and all that its owner posted.
    pub given: u64,
    /// How many permits its owner took.
    pub taken: u64,
}

impl Tally for Permits {
    ghost use Rattle.running_semaphore.specs.Semaphore.{no_permits, both_permits, permits_add_up};

    ghost none = { no_permits };

    ghost add = { both_permits };

    ghost core = { λ _. no_permits };

    ghost adds_up = { permits_add_up };
}

/// The run alone says what all passes count.
impl Rule<(), u64> for Permits {
    ghost use Rattle.std.specs.Prelude.{◌%◌, ◌^◌};
    ghost use Rattle.running_semaphore.specs.Semaphore.{first_permits};

    ghost first = { λ key. first_permits (key % 2 ^ 64) };

    ghost agrees = { λ _ _ _ _. Unit {0} };
}

/// What all passes gave and took is what the acts of the run did. The key is the initial value.
impl Counts<u64, u64> for Permits {
    ghost use Rattle.std.specs.Prelude.{◌%◌, ◌^◌};
    ghost use Rattle.running_semaphore.specs.Semaphore.{ArePermitsOf, permits_open, permits_stay};

    ghost follow = { λ key. ArePermitsOf (key % 2 ^ 64) };

    ghost stays = { λ key. permits_stay (key % 2 ^ 64) };

    ghost opens = { λ key _ _. permits_open (key % 2 ^ 64) };
}

impl CountsByActs<u64, SemaphoreScript, SemaphorePlace, u64> for Permits {
    ghost use Rattle.std.proofs.Common.{refl};
    ghost use Rattle.std.specs.Prelude.{◌%◌, ◌^◌};
    ghost use Rattle.running_model.specs.Sees.{sights_after};
    ghost use Rattle.running_semaphore.specs.Semaphore.{permits_after, permits_go_on};

    ghost free = { λ _ _ _ _ _ _. tt };

    ghost sees = { sights_after };

    ghost after = { λ _ _ _. permits_after };

    ghost same = { λ _ _ _ _ _ _ _ _. refl };

    ghost needs = { λ _ _. Unit {0} };

    ghost goes_on = { λ key. permits_go_on (key % 2 ^ 64) };
}
