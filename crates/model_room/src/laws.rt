//! The laws of every run of several objects. They say so of the definitions alone, and do nothing.
ghost use Rattle.std.specs.Prelude.{ℕ, List};
ghost use Rattle.model_events.specs.declared.event.Object.{Object as AnObject};
ghost use Rattle.model_room.specs.declared.event.RoomEvent.{RoomEvent as ARoomEvent};
ghost use Rattle.model_room.specs.Runs.{IsPast, EachRuns, EachKeeps, CallsAtOne, CallsAsOne};

use model_events::atomic::internal::AtomicInteger;

/// The events of each object, told apart, are a run of its table, whatever happens at the others.
pub fn each_object_runs<T: AtomicInteger>()
    ensures { (objects : List (AnObject T)) (parties : ℕ) (past : List (ARoomEvent T)) →
        IsPast T.arithmetic objects parties past → EachRuns T.arithmetic objects parties past }
{}

/// So at every prefix of every run the headline of each object holds.
pub fn at_every_prefix<T: AtomicInteger>()
    ensures { (objects : List (AnObject T)) (parties : ℕ) (past : List (ARoomEvent T)) →
        IsPast T.arithmetic objects parties past → EachKeeps T.arithmetic objects past }
{}

/// A party has at most one call under way, at all objects together.
#[tactic(auto, using(crate::proofs::Runs::calls_at_one))]
pub fn one_call_at_a_time<T: AtomicInteger>()
    ensures { (objects : List (AnObject T)) (parties : ℕ) (past : List (ARoomEvent T)) →
        IsPast T.arithmetic objects parties past → CallsAtOne past }
{}

/// The call that a party has under way among all events is the one at its object: what is read of a party's calls alone, its answers, its
/// waits, is read of all events as of those of one object.
#[tactic(auto, using(crate::proofs::Merged::calls_as_one))]
pub fn calls_are_as_of_one<T: AtomicInteger>()
    ensures { (objects : List (AnObject T)) (parties : ℕ) (past : List (ARoomEvent T)) →
        IsPast T.arithmetic objects parties past → CallsAsOne past }
{}
