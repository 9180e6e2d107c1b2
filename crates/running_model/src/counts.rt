//! What a pass counts beside its parties.
ghost use Rattle.std.specs.Prelude.{ℕ, List, []};
ghost use Rattle.model_events.specs.declared.event.Event.{Event};
ghost use mathlib.Core.Option as maybe;
ghost use Rattle.model_events.specs.declared.event.Act.{Act};
ghost use Rattle.model_events.specs.declared.event.Call.{Call};
ghost use Rattle.running_passes.specs.declared.part.Sights.{Sights};
ghost use Rattle.running_model.specs.Passes.{StaysOnNoWord, SameOnNoWord, GoesOnByActs};

use crate::script::Script;
use running_passes::Rule;

/// What a pass of an object that plays a model counts beside its parties. The sum over all passes agrees with the words, as the rule of
/// the tally says, and is what the run says of it.
pub trait Counts<K, V>: Rule<(), K> {
    ghost follow: { K → List (Event V) → Self → Type 0 };

    // Acts on no word change nothing of it.
    ghost stays: { (key : K) → StaysOnNoWord (follow key) };

    // It is so of a run in which nobody has made anything, where the rule is.
    ghost opens: { (key : K) (words : List ℕ) → Self.Rule.agrees key words [] (Self.Rule.first key) → follow key [] (Self.Rule.first key) };
}

/// What a pass counts as a function of the acts of its own steps and of the runs before them, of an object whose rule says nothing
/// beside.
pub trait CountsByActs<K, M: Script<K, P, V>, P, V>: Counts<K, V> {
    // The rule says nothing that the run does not.
    ghost free: { (key : K) (past : List (Event V)) (words : List ℕ) (homes : List (maybe.Option (Unit {0}))) (counts : Self) → Self.Counts.follow key past counts → Self.Counts.agrees key words homes counts };

    // What an act makes of what its pass saw, and what an act of a call, after a run and at a place, makes of what its pass counts.
    ghost sees: { Act V → Sights → Sights };

    ghost after: { K → List (Event V) → P → Act V → Call V → Self → Self };

    // Acts on no word before it change nothing of that.
    ghost same: { (key : K) → SameOnNoWord (after key) };

    // What an act needs of what its pass counts: one that ends a hold needs the hold.
    ghost needs: { Act V → Self → Type 0 };

    // What the run says of the sum goes on with what each act counts.
    ghost goes_on: { (key : K) → GoesOnByActs (M.model key) Self.Counts.add (Self.Counts.follow key) (after key) needs };
}
