//! What a pass of a reader-writer lock counts.
ghost use Rattle.std.specs.Prelude.{Bool};

use crate::rw_reader::RwReaderScript;
use model_rw_reader::RwReaderPlace;
use running_model::{Counts, CountsByActs};
use running_passes::{Rule, Tally};

/// What a hold knows of what is kept under its lock, as plain data of which no value is made. It can be told whether two holds know
/// the same.
pub trait Known {
    ghost use Rattle.running_rw_hold.specs.Held.{TellsSame};

    // Whether both are the same.
    ghost same: { Self → Self → Bool };

    ghost tells: { TellsSame same };
}

/// Nothing is kept under the lock that its holds know of.
impl Known for () {
    ghost use Rattle.running_rw_hold.specs.Held.{same_nothing, tells_same_nothing};

    ghost same = { same_nothing };

    ghost tells = { tells_same_nothing };
}

/// What a pass of a reader-writer lock counts: its holds, with what each of them knows. No value of it is made.
pub enum Held<X> {
    /// No hold stands.
    Free,
    /// One read hold more than this stands, and each knows this.
    Reading(u64, X),
    /// One write hold stands, which knows what is kept, and what was kept when it came in.
    Writing(X, X),
    /// More stands than may: a write hold beside another hold, or holds that know different things.
    Torn,
}

impl<X: Known> Tally for Held<X> {
    ghost use Rattle.running_rw_hold.specs.declared.held.Held.TheVariants.{Free};
    ghost use Rattle.running_rw_hold.specs.Held.{both_held, held_adds_up};

    ghost none = { Free };

    ghost add = { both_held X.same };

    ghost core = { λ _. Free };

    ghost adds_up = { held_adds_up X.same X.tells };
}

/// The run alone says what all passes count.
impl Rule<(), ()> for Held<()> {
    ghost use Rattle.running_rw_hold.specs.RwReader.{no_holds};

    ghost first = { λ _. no_holds };

    ghost agrees = { λ _ _ _ _. Unit {0} };
}

/// All passes together have as many holds of each kind as the parties of the run.
impl Counts<(), u64> for Held<()> {
    ghost use Rattle.std.proofs.Common.{refl};
    ghost use Rattle.model_rw_reader.specs.Table.{rw_reader_table};
    ghost use Rattle.running_rw_hold.specs.RwReader.{AreHoldsIn, holds_stay};

    ghost follow = { λ _. AreHoldsIn rw_reader_table };

    ghost stays = { λ _. holds_stay rw_reader_table };

    ghost opens = { λ _ _ _. record { reads = refl; writes = refl } };
}

impl CountsByActs<(), RwReaderScript, RwReaderPlace, u64> for Held<()> {
    ghost use Rattle.std.proofs.Common.{refl};
    ghost use Rattle.running_model.specs.Sees.{sights_after};
    ghost use Rattle.running_rw_hold.specs.RwReader.{held_after, held_needed, holds_go_on};

    ghost free = { λ _ _ _ _ _ _. tt };

    ghost sees = { sights_after };

    ghost after = { λ _ _ _. held_after };

    ghost same = { λ _ _ _ _ _ _ _ _. refl };

    ghost needs = { held_needed };

    ghost goes_on = { λ _. holds_go_on };
}
