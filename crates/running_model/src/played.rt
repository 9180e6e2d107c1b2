//! What a pass is in the model, and counts beside.
use crate::counts::Counts;
use crate::script::Script;
use running_passes::{Rule, Tally};
use std::marker::{Model, PhantomData};

/// Which parties of the model a pass is, and what each of them has made. No value of it is made.
pub struct Parties<M, P, V> {
    of: PhantomData<M>,
    at: PhantomData<P>,
    over: PhantomData<V>,
}

impl<M, P, V> Model for Parties<M, P, V> {
    ghost use Rattle.running_model.specs.Slots.{Parties, no_parties};

    ghost Value = { Parties V };

    ghost view = { λ _. no_parties };
}

/// What a pass is in the model, and what it counts beside.
pub struct Played<M, P, V, C> {
    pub parties: Parties<M, P, V>,
    pub counts: C,
}

impl<M, P, V, C: Tally> Tally for Played<M, P, V, C> {
    ghost use Rattle.running_model.specs.Passes.{none_played, both_played, core_played, played_add_up};

    ghost none = { none_played C.none };

    ghost add = { both_played C.add };

    ghost core = { core_played C.core };

    ghost adds_up = { played_add_up C.none C.add C.core C.adds_up };
}

/// The words of an object are those of a run of its model, and what all passes count beside is what they and the run say.
impl<K, P, V, M: Script<K, P, V>, C: Counts<K, V>> Rule<(), K> for Played<M, P, V, C> {
    ghost use Rattle.running_model.specs.Slots.{no_parties};
    ghost use Rattle.running_model.specs.Passes.{played, PlaysAndCounts};

    ghost first = { λ key. played no_parties (C.first key) };

    ghost agrees = { λ key. PlaysAndCounts (M.model key) M.names (C.agrees key) (C.follow key) };
}
