//! The model that an object plays.
ghost use Rattle.std.specs.Prelude.{ℕ, List};
ghost use Rattle.model_events.specs.declared.event.Word.{Word};
ghost use Rattle.model_events.specs.declared.event.Event.{Event};
ghost use Rattle.model_events.specs.Runs.{IsPast};
ghost use Rattle.running_model.specs.Models.{Model};
ghost use Rattle.running_model.specs.Words.{AreApart};

/// The model that an object plays, under a key that is fixed when the object is made. `P` is the type of the places of its table, `V`
/// that of its values.
pub trait Script<K, P, V> {
    // Its arithmetic, the table of its steps, and what holds at every prefix of every run.
    ghost model: { K → Model V P };

    ghost lawful: { (key : K) (parties : ℕ) (past : List (Event V)) → IsPast (model key).arithmetic (model key).table parties past → (model key).law past };

    // The names of the object's words in the model, in their order.
    ghost names: { List Word };

    ghost apart: { AreApart names };

    // The word that a wait or wake closure is handed which is called at a place.
    ghost handed: { P → Word };
}
