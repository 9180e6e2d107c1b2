//! The model that a mutex plays, and what its pass counts beside.

use model_mutex::MutexPlace;
use running_for_one::{ForOne, Holds};
use running_model::{Counts, CountsByActs, Played, Script};

/// The key of a mutex, of which there is one.
pub struct MutexKey;

/// The model that a mutex plays: its one word is the lock's.
pub struct MutexScript;

impl<K> Script<K, MutexPlace, u64> for MutexScript {
    ghost use Rattle.std.specs.Prelude.{[], ◌∷◌};
    ghost use Rattle.model_events.specs.declared.event.Word.TheVariants as words;
    ghost use Rattle.running_mutex.specs.Mutex.{mutex_model, mutex_lawful};

    ghost model = { λ _. mutex_model };

    ghost lawful = { λ _. mutex_lawful };

    ghost names = { words.State ∷ [] };

    ghost apart = { (tt, tt) };

    ghost handed = { λ _. words.State };
}

impl ForOne<MutexPlace> for MutexScript {
    ghost use Rattle.std.proofs.Common.{refl};
    ghost use Rattle.running_mutex.specs.Mutex.{mutex_is_for_one};

    ghost one_word = { refl };

    ghost for_one = { mutex_is_for_one };
}

/// What a pass of a mutex is in its model, and counts beside.
pub type PlayedMutex = Played<MutexScript, MutexPlace, u64, Holds>;

/// All passes together have as many holds as stand after the run, and were granted as often as calls were in it.
impl Counts<MutexKey, u64> for Holds {
    ghost use Rattle.model_mutex.specs.Table.{mutex_table};
    ghost use Rattle.running_for_one.specs.ForOne.{AreHoldsIn, holds_stay, no_holds_first};

    ghost follow = { λ _. AreHoldsIn mutex_table };

    ghost stays = { λ _. holds_stay mutex_table };

    ghost opens = { λ _ _ _. no_holds_first mutex_table };
}

impl CountsByActs<MutexKey, MutexScript, MutexPlace, u64> for Holds {
    ghost use Rattle.std.proofs.Common.{refl};
    ghost use Rattle.running_model.specs.Sees.{sights_after};
    ghost use Rattle.running_for_one.specs.ForOne.{holds_after, holds_needed, holds_go_on};
    ghost use Rattle.running_mutex.specs.Mutex.{mutex_model, mutex_is_for_one};

    ghost free = { λ _ _ _ _ _ _. tt };

    ghost sees = { sights_after };

    ghost after = { λ _ _ _. holds_after };

    ghost same = { λ _ _ _ _ _ _ _ _. refl };

    ghost needs = { holds_needed };

    ghost goes_on = { λ _. holds_go_on mutex_model mutex_is_for_one };
}
