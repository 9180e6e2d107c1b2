//! The model that a reader-preferring lock plays; what its pass counts beside are its holds.

use crate::held::Held;
use model_rw_reader::RwReaderPlace;
use running_model::{Played, Script};

/// The model that a reader-preferring lock plays: its one word is the lock's.
pub struct RwReaderScript;

impl Script<(), RwReaderPlace, u64> for RwReaderScript {
    ghost use Rattle.std.specs.Prelude.{[], ◌∷◌};
    ghost use Rattle.model_events.specs.declared.event.Word.TheVariants as words;
    ghost use Rattle.running_rw_hold.specs.RwReader.{rw_reader_model, rw_reader_lawful};

    ghost model = { λ _. rw_reader_model };

    ghost lawful = { λ _. rw_reader_lawful };

    ghost names = { words.State ∷ [] };

    ghost apart = { (tt, tt) };

    ghost handed = { λ _. words.State };
}

/// What a pass of a reader-preferring lock is in its model, and counts beside.
pub type PlayedRwReader = Played<RwReaderScript, RwReaderPlace, u64, Held<()>>;
