//! The count of those that wait at a condition variable, by itself. It has two calls. A `Wait` counts itself in, ends what it does while it
//! is counted, and counts itself out. A `Value`, the look of a notify, is answered the count.
//!
//! What a wait does while it is counted is its mutex's and its semaphore's affair. The whole of it is `model_condvar`.
#![tactic(auto)]

ghost use Rattle.std.specs.Prelude.{◌≡◌, ℕ, List, None};
ghost use Rattle.model_events.specs.declared.event.Call.{Call as ACall};
ghost use Rattle.model_events.specs.declared.event.Event.{Event as AnEvent};
ghost use Rattle.model_events.specs.Arithmetic.{Arithmetic};
ghost use Rattle.model_events.specs.Moves.{begin_fault};
ghost use Rattle.model_events.specs.Runs.{IsPast};
ghost use Rattle.model_waiters.specs.Table.{waiters_table};
ghost use Rattle.model_waiters.specs.Law.{KeepsWaiters};

/// Where a party is in a call at the count; each place is named for its next step.
#[derive(Clone, Copy)]
pub enum WaitersPlace {
    /// The load of `Value`.
    Look,
    /// The add with which a `Wait` begins.
    CountIn,
    /// The end of what it does while it is counted.
    Inside,
    /// The subtraction with which it is over.
    CountOut,
}

/// What holds at every prefix of every run of the count, of any number of parties. It says so of the definitions alone, and does nothing.
pub fn at_every_prefix<T>()
    ensures { (z : Arithmetic T) (parties : ℕ) (past : List (AnEvent T)) →
        IsPast z waiters_table parties past → KeepsWaiters past }
{}

/// Both calls of the count can be begun by a party that has none under way, and no hold: what is said of them is not said of nothing. It says so
/// of the definitions alone, and does nothing.
pub fn each_call_can_begin<T>()
    ensures wait { begin_fault (waiters_table {T = T}) None None ACall.Wait ≡ None }
    ensures value { begin_fault (waiters_table {T = T}) None None ACall.Value ≡ None }
{}
