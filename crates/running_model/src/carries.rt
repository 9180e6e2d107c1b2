//! What a pass counts whose seat carries slots.
ghost use Rattle.std.specs.Prelude.{ℕ, List};
ghost use mathlib.Core.Option as maybe;
ghost use Rattle.model_events.specs.declared.event.Act.{Act};
ghost use Rattle.model_events.specs.declared.event.Call.{Call};
ghost use Rattle.model_events.specs.declared.event.Event.{Event};
ghost use Rattle.running_passes.specs.declared.part.Sights.{Sights};
ghost use Rattle.running_passes.specs.Views.{first_view, IsCounted};
ghost use Rattle.running_model.specs.Passes.{StaysOnNoWord, GoesOnByActs, none_played, both_played};
ghost use Rattle.running_model.specs.Carrying.{MovesByCounts, PlaysAndCarries};

use crate::played::Played;
use crate::script::Script;
use atomic_table::TableRule;
use running_passes::{Tally, View};
use std::marker::PhantomData;

/// What a pass counts as a function of the acts of its own steps, and which slots its seat carries as a function of that.
pub trait Carries<S, M: Script<(), P, V>, P, V, C: Tally> {
    // What the run says of what all passes count, of which acts on no word change nothing.
    ghost follow: { List (Event V) → C → Type 0 };

    ghost stays: { StaysOnNoWord follow };

    // What an act makes of what its pass saw and counts, and what it needs of this: so the run says of the sum again.
    ghost sees: { Act V → Sights → Sights };

    ghost after: { Act V → Call V → C → C };

    ghost needs: { Act V → C → Type 0 };

    ghost goes_on: { GoesOnByActs (M.model tt) C.add follow (λ _ _. after) needs };

    // Which slots are at home by what all passes count, and which a seat carries by what its own pass counts.
    ghost lies: { C → List (maybe.Option S) → Type 0 };

    ghost carries: { C → List (ℕ × S) → Type 0 };

    ghost moves: { MovesByCounts C.add follow lies carries };
}

/// The rule of a table whose passes play a model: its words are those of a run, in which the passes are parties and which says what they
/// count; and that says where its slots are.
pub struct CarryRule<G> {
    of: PhantomData<G>,
}

impl<S, P, V, M: Script<(), P, V>, C: Tally, G: Carries<S, M, P, V, C>> TableRule<
    S,
    View<Played<M, P, V, C>>,
    (),
> for CarryRule<G> {
    ghost holds = { λ _. IsCounted (none_played C.none) (both_played C.add) (PlaysAndCarries (M.model tt) M.names G.follow G.lies) };

    ghost first = { λ _. first_view (none_played C.none) };
}
