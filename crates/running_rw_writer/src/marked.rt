//! The model that a writer-preferring lock plays, and what its pass counts beside.

use model_rw_writer::RwWriterPlace;
use running_model::{Counts, CountsByActs, Played, Script};
use running_passes::{Rule, Tally};
use running_rw_hold::Held;

/// The model that a writer-preferring lock plays: its words are the lock's and the wake counter.
pub struct RwWriterScript;

impl Script<(), RwWriterPlace, u64> for RwWriterScript {
    ghost use Rattle.std.specs.Prelude.{[], ◌∷◌};
    ghost use Rattle.std.proofs.Common.{refl};
    ghost use Rattle.model_events.specs.declared.event.Word.TheVariants as words;
    ghost use Rattle.running_rw_writer.specs.RwWriter.{rw_writer_model, rw_writer_lawful, rw_writer_handed};

    ghost model = { λ _. rw_writer_model };

    ghost lawful = { λ _. rw_writer_lawful };

    ghost names = { words.State ∷ words.Counter ∷ [] };

    ghost apart = { ((refl, refl, tt), (tt, tt)) };

    ghost handed = { rw_writer_handed };
}

/// What a pass of a writer-preferring lock is in its model, and counts beside.
pub type PlayedRwWriter = Played<RwWriterScript, RwWriterPlace, u64, MarkedHolds>;

/// What a pass of a writer-preferring lock counts. No value of it is made, and its numbers have no limit.
pub struct MarkedHolds {
    /// Its holds.
    pub held: Held<()>,
    /// Its flag, as a number: 1 from when its owner set the mark until it entered, took a mark away or saw that none was set, else 0.
    pub flags: u64,
    /// How often a read hold was granted to it.
    pub read_grants: u64,
    /// How often a write hold was granted to it.
    pub write_grants: u64,
}

impl Tally for MarkedHolds {
    ghost use Rattle.running_rw_writer.specs.RwWriter.{nothing_marked, both_marked, marked_add_up};

    ghost none = { nothing_marked };

    ghost add = { both_marked };

    ghost core = { λ _. nothing_marked };

    ghost adds_up = { marked_add_up };
}

/// The run alone says what all passes count.
impl Rule<(), ()> for MarkedHolds {
    ghost use Rattle.running_rw_writer.specs.RwWriter.{nothing_marked};

    ghost first = { λ _. nothing_marked };

    ghost agrees = { λ _ _ _ _. Unit {0} };
}

/// All passes together have as many holds of each kind as stand after the run, and were granted as many as calls were in it. Where the mark
/// is set, some pass has its flag up.
impl Counts<(), u64> for MarkedHolds {
    ghost use Rattle.running_rw_writer.specs.RwWriter.{AreMarkedIn, marks_stay, marks_open};

    ghost follow = { λ _. AreMarkedIn };

    ghost stays = { λ _. marks_stay };

    ghost opens = { λ _ _ _. marks_open };
}

impl CountsByActs<(), RwWriterScript, RwWriterPlace, u64> for MarkedHolds {
    ghost use Rattle.std.proofs.Common.{refl};
    ghost use Rattle.running_rw_writer.specs.RwWriter.{marked_sees, marked_after, marked_needed, marks_go_on};

    ghost free = { λ _ _ _ _ _ _. tt };

    ghost sees = { marked_sees };

    ghost after = { λ _ _ _. marked_after };

    ghost same = { λ _ _ _ _ _ _ _ _. refl };

    ghost needs = { marked_needed };

    ghost goes_on = { λ _. marks_go_on };
}
