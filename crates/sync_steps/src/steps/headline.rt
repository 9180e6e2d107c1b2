//! The law of every run.
ghost use Rattle.std.specs.Prelude.{◌≡◌, ℕ, true, List, Option, None};
ghost use Rattle.model_events.specs.declared.event.Call.{Call as ACall};
ghost use Rattle.model_events.specs.declared.event.Event.{Event as AnEvent};
ghost use Rattle.model_events.specs.declared.event.Object.{Object as AnObject};
ghost use Rattle.model_events.specs.declared.hold.HoldKind.{HoldKind};
ghost use Rattle.model_events.specs.Moves.{begin_fault};
ghost use Rattle.sync_steps.specs.Objects.{table_of, Headline, has_call};
ghost use Rattle.sync_steps.specs.Runs.{IsPast};
ghost use Rattle.sync_steps.specs.declared.steps.place.Place.{Place as APlace};
ghost use Rattle.sync_steps.specs.Machine.Places.{IsWoken, TellsWatched, watched_word};

use model_events::atomic::internal::AtomicInteger;

/// At every prefix of every run, of any object and any number of parties, the headline holds: each lock has one writer or
/// only readers, a writer-preferring lock loses no count and leaves no mark, no more permits are taken than given, a wait at a
/// condition variable tells whether it was signalled, a barrier's call passes only once its round is full, a once's one
/// closure ends before any call tells of it, and every refusal has its cause. It says so of the definitions alone, and
/// does nothing.
#[tactic(auto, using(crate::proofs::Objects::headline))]
pub fn at_every_prefix<T: AtomicInteger>()
    ensures { (object : AnObject T) (parties : ℕ) (past : List (AnEvent T)) →
        IsPast T.arithmetic object parties past → Headline T.arithmetic object past }
{}

/// Each call that an object has can be begun by a party that has none under way, with a hold or without: what is said of it is not said
/// of nothing. It says so of the definitions alone, and does nothing.
#[tactic(auto, using(crate::proofs::Objects::can_begin))]
pub fn each_call_can_begin<T: AtomicInteger>()
    ensures { (object : AnObject T) (call : ACall T) →
        has_call object call ≡ true → (hold : Option HoldKind) × (begin_fault (table_of T.arithmetic object) None hold call ≡ None) }
{}

/// At every prefix of every run, what a wait closure is told is what its call saw last of the word that it watches (`watched_word`): so a
/// closure that sleeps on that word as long as it is what it was told sleeps at the right one. It says so of the definitions alone, and
/// does nothing.
#[tactic(auto, using(crate::proofs::Objects::tells_watched))]
pub fn closures_watch_what_they_are_told<T: AtomicInteger>()
    ensures { (object : AnObject T) (parties : ℕ) (past : List (AnEvent T)) →
        IsPast T.arithmetic object parties past → TellsWatched T.arithmetic object past }
{}

/// Whatever word a wait closure watches, some call of its object wakes who waits at that word. It says so of the definitions alone, and does
/// nothing.
#[tactic(auto, using(crate::proofs::Objects::watched_is_woken))]
pub fn what_is_watched_is_woken<T: AtomicInteger>()
    ensures { (object : AnObject T) (place : APlace T) → IsWoken object (watched_word object place) }
{}
