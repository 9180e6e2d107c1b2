//! What the passes of a lock with one holder at most count, of which one hold stands at most, and the model of such a lock.
#![tactic(auto)]

use running_model::Script;
use running_passes::{Rule, Tally};

/// The model of a lock with one holder at most: its one word is 1 where somebody holds it, and 0 where nobody does.
pub trait ForOne<P>: Script<(), P, u64> {
    ghost use Rattle.std.specs.Prelude.{◌≡◌, [], ◌∷◌};
    ghost use Rattle.model_events.specs.declared.event.Word.TheVariants as words;
    ghost use Rattle.running_for_one.specs.ForOne.{IsForOne};

    ghost one_word: { Self.Script.names ≡ words.State ∷ [] };

    ghost for_one: { IsForOne (Self.Script.model tt) };
}

/// What a pass of a lock with one holder at most counts. No value of it is made.
pub struct Holds {
    /// How many of the pass's holds stand: 0 or 1.
    pub holds: u64,
    /// How often a lock was granted to it.
    pub grants: u64,
}

impl Tally for Holds {
    ghost use Rattle.running_for_one.specs.ForOne.{no_holds, both_holds, holds_add_up};

    ghost none = { no_holds };

    ghost add = { both_holds };

    ghost core = { λ _. no_holds };

    ghost adds_up = { holds_add_up };
}

/// The run alone says what all passes count.
impl<K> Rule<(), K> for Holds {
    ghost use Rattle.running_for_one.specs.ForOne.{no_holds};

    ghost first = { λ _. no_holds };

    ghost agrees = { λ _ _ _ _. Unit {0} };
}
