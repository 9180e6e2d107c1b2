//! The model that a barrier plays, and what its pass counts and knows beside.

use model_barrier::BarrierPlace;
use running_model::{Counts, CountsByActs, Played, Script};
use running_passes::{Rule, Tally};
use std::marker::Model;

/// The model that a barrier plays: its one word is that of the rounds. The key is the number of waiters, a `u32`.
pub struct BarrierScript;

impl Script<u32, BarrierPlace, u64> for BarrierScript {
    ghost use Rattle.std.specs.Prelude.{[], ◌∷◌, ◌%◌, ◌^◌};
    ghost use Rattle.model_events.specs.declared.event.Word.TheVariants as words;
    ghost use Rattle.running_barrier.specs.Barrier.{barrier_model, barrier_lawful};

    ghost model = { λ key. barrier_model (key % 2 ^ 32) };

    ghost lawful = { barrier_lawful };

    ghost names = { words.State ∷ [] };

    ghost apart = { (tt, tt) };

    ghost handed = { λ _. words.State };
}

/// What a pass of a barrier is in its model, and counts and knows beside.
pub type PlayedBarrier = Played<BarrierScript, BarrierPlace, u64, Rounds>;

/// How often a pass arrived in each round, the first round first. No value of it is made.
#[derive(Drop)]
pub struct Arrivals {
    in_rounds: Vec<u64>,
}

impl Model for Arrivals {
    ghost use Rattle.std.specs.Prelude.{List, ℕ};

    ghost Value = { List ℕ };

    ghost view = { λ a. a.in_rounds.items };
}

/// What a pass of a barrier counts and knows. No value of it is made, and its numbers have no limit.
#[derive(Drop)]
pub struct Rounds {
    /// How often its owner arrived in each round.
    pub arrivals: Arrivals,
    /// Each round below this one is known to be open.
    pub reached: u64,
    /// How many rounds its owner opened.
    pub opened: u64,
}

impl Tally for Rounds {
    ghost use Rattle.running_barrier.specs.Barrier.{no_rounds, both_rounds, known_rounds, rounds_add_up};

    ghost none = { no_rounds };

    ghost add = { both_rounds };

    ghost core = { known_rounds };

    ghost adds_up = { rounds_add_up };
}

/// The run alone says what all passes count and know.
impl Rule<(), u32> for Rounds {
    ghost use Rattle.running_barrier.specs.Barrier.{no_rounds};

    ghost first = { λ _. no_rounds };

    ghost agrees = { λ _ _ _ _. Unit {0} };
}

/// All passes together arrived in each round as often as calls did in the run, and opened the rounds that it fills. The key is the number
/// of waiters.
impl Counts<u32, u64> for Rounds {
    ghost use Rattle.std.specs.Prelude.{◌%◌, ◌^◌};
    ghost use Rattle.running_barrier.specs.Barrier.{AreRoundsIn, rounds_stay, no_rounds_first};

    ghost follow = { λ key. AreRoundsIn (key % 2 ^ 32) };

    ghost stays = { λ key. rounds_stay (key % 2 ^ 32) };

    ghost opens = { λ key _ _. no_rounds_first (key % 2 ^ 32) };
}

impl CountsByActs<u32, BarrierScript, BarrierPlace, u64> for Rounds {
    ghost use Rattle.std.specs.Prelude.{◌%◌, ◌^◌};
    ghost use Rattle.running_model.specs.Sees.{sights_after};
    ghost use Rattle.running_barrier.specs.Barrier.{rounds_after, rounds_same, rounds_go_on, waiters_fit};

    ghost free = { λ _ _ _ _ _ _. tt };

    ghost sees = { sights_after };

    ghost after = { λ key past _. rounds_after (key % 2 ^ 32) past };

    ghost same = { λ key. rounds_same (key % 2 ^ 32) };

    ghost needs = { λ _ _. Unit {0} };

    ghost goes_on = { λ key. rounds_go_on (key % 2 ^ 32) (waiters_fit key) };
}
