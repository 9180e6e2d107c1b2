//! The model that a spin lock plays, and what its pass counts beside.

use model_spin::SpinPlace;
use running_for_one::{ForOne, Holds};
use running_model::{Played, Script};

/// The model that a spin lock plays: its one word is the lock's.
pub struct SpinScript;

impl Script<(), SpinPlace, u64> for SpinScript {
    ghost use Rattle.std.specs.Prelude.{[], ◌∷◌};
    ghost use Rattle.model_events.specs.declared.event.Word.TheVariants as words;
    ghost use Rattle.running_spin_lock.specs.Spin.{spin_model, spin_lawful};

    ghost model = { λ _. spin_model };

    ghost lawful = { λ _. spin_lawful };

    ghost names = { words.State ∷ [] };

    ghost apart = { (tt, tt) };

    // No call of a spin lock asks a closure.
    ghost handed = { λ _. words.State };
}

impl ForOne<SpinPlace> for SpinScript {
    ghost use Rattle.std.proofs.Common.{refl};
    ghost use Rattle.running_spin_lock.specs.Spin.{spin_is_for_one};

    ghost one_word = { refl };

    ghost for_one = { spin_is_for_one };
}

/// What a pass of a spin lock is in its model, and counts beside.
pub type PlayedSpin = Played<SpinScript, SpinPlace, u64, Holds>;
