//! The model that an atomic plays.

use crate::history::AtomicTally;
use model_atomic::AtomicPlace;
use model_events::atomic::internal::AtomicInteger;
use running_model::{Played, Script};

/// The model that an atomic plays: its words are the lock's and the two data words, and its key is the value that it opens with.
pub struct AtomicScript;

impl<T: AtomicInteger> Script<T, AtomicPlace<T>, T> for AtomicScript {
    ghost use Rattle.std.proofs.Common.{refl};
    ghost use Rattle.model_events.specs.declared.event.Word.TheVariants as words;
    ghost use Rattle.running_atomic.specs.AtomicModel.{atomic_model, atomic_lawful, atomic_names};

    ghost model = { atomic_model T.arithmetic };

    ghost lawful = { atomic_lawful T.arithmetic };

    ghost names = { atomic_names };

    ghost apart = { ((refl, refl, (refl, refl, tt)), ((refl, refl, tt), (tt, tt))) };

    ghost handed = { λ _. words.State };
}

/// What a pass of an atomic is in its model, and counts beside.
pub type PlayedAtomic<T> = Played<AtomicScript, AtomicPlace<T>, T, AtomicTally>;
