//! One try of a call that may be refused, and the loops that try again.
ghost use Rattle.std.specs.Prelude.{◌≡◌, ℕ, ◌+◌, List, Option, false, MatchBool, IfOk, IfErr};
ghost use Rattle.atomic_table.specs.Seated.{TableId};
ghost use Rattle.model_events.specs.declared.WaitAction.{WaitAction};
ghost use Rattle.model_events.specs.declared.event.Call.{Call};
ghost use Rattle.model_events.specs.declared.hold.HoldKind.{HoldKind};
ghost use Rattle.model_events.specs.declared.patience.Patience.{Patience};
ghost use Rattle.model_events.specs.Rows.{answered};
ghost use Rattle.running_passes.specs.declared.part.Part.{Part};
ghost use Rattle.running_passes.specs.Passes.{object_of, part_of, sights_of};
ghost use Rattle.running_passes.specs.Answers.{MayAnswerAbort, HasAsked};
ghost use Rattle.running_model.specs.Passes.{parties_of, counts_of};
ghost use Rattle.running_model.specs.Counts.{HasMoved, WasRefused, WasRefusedAt};
ghost use Rattle.running_model.specs.Slots.{Slot};
ghost use Rattle.running_model.specs.Words.{IsNamed};
ghost use Rattle.running_model.specs.Turns.{action_in, pass_in};
ghost use Rattle.running_model.specs.Asked.{AskedOnce, Asked, AskedAfter};
ghost use Rattle.running_model.specs.Tries.{spun, MayTry, Tried, IsRefused, IsStanding, IsGranted, HasGivenUp, OnceRefused, OnceStanding, StandsToWait};

use crate::pauses::pause_before;
use crate::played::Played;
use crate::script::Script;
use crate::turn::{Aborted, Answered, Continued, Goes, Turn, Way, hear};
use crate::wait::{Sealed, Shown};
use model_events::{SPIN_REPETITIONS, WaitAction};
use running_passes::Pass;
use std::sync::Wait;

/// One try of a call that may be refused. Where it is, its model spins, stands at its wait closure or gives up, as its patience says.
pub trait Attempt<K, M: Script<K, P, V>, P, V, C> {
    // The object at which it is made, and its key.
    ghost object: { Self → TableId };

    ghost key: { Self → K };

    // The call of the model, where it is before a try, and the hold that it takes.
    ghost call: { Call V };

    ghost place: { Patience → P };

    ghost takes: { Option HoldKind };

    // What it does to what a pass counts where it is not refused: of its part, its counts before and after, and the value seen last.
    ghost moves: { Part → C → C → ℕ → Type 0 };

    // The values of the word at which it is refused.
    ghost refuses: { ℕ → Type 0 };

    // The passes, by part and counts, with which a try that is refused looks once.
    ghost looks_once: { Part → C → Type 0 };

    /// Tries once. `Err` with the value that refused it, which is the one seen last.
    fn attempt<'p, W: Way<V>, R: Wait>(
        &self,
        turn: Turn<'p, Pass<Played<M, P, V, C>>, W>,
        rt: &R,
    ) -> Result<
        Turn<'p, Pass<Played<M, P, V, C>>, Goes>,
        (u64, Turn<'p, Pass<Played<M, P, V, C>>, Goes>),
    >
        requires own { object_of turn.pass.now ≡ object self.now }
        requires comes { MayTry (M.model (key self.now)) call place W.coming (parties_of turn.pass.now) }
        ensures same_borrow { IfOk result (λ next. next.pass.ghost_name ≡ turn.entry.pass.ghost_name) }
        ensures same_borrow_too { IfErr result (λ missed. missed.1.pass.ghost_name ≡ turn.entry.pass.ghost_name) }
        ensures moved { IfOk result (λ next. HasMoved moves turn.entry.pass.now next.pass.now) }
        ensures refused { IfErr result (λ missed. WasRefusedAt refuses missed.0 1 turn.entry.pass.now missed.1.pass.now) }
        ensures once { IfErr result (λ missed. looks_once (part_of turn.entry.pass.now) (counts_of turn.entry.pass.now) → (sights_of missed.1.pass.now).count ≡ (sights_of turn.entry.pass.now).count + 1) }
        ensures granted { IfOk result (λ next. Tried (M.model (key self.now)) call place W.coming (parties_of turn.entry.pass.now) (λ _ done. IsGranted (M.model (key self.now)) call place takes done (parties_of next.pass.now))) }
        ensures failed { IfErr result (λ missed. Tried (M.model (key self.now)) call place W.coming (parties_of turn.entry.pass.now) (λ patience done. IsRefused (M.model (key self.now)) call place patience missed.0 done (parties_of missed.1.pass.now))) };

    // An answer of the wait closure changes its patience alone.
    ghost answers: { (key : K) (p : Patience) (action : WaitAction) → (M.model key).table.answered (place p) action ≡ place (answered p action) };
}

/// Further tries, as many as a call makes by itself, until one is not refused. `seen` is the value that refused the first.
fn spin<'p, K, M: Script<K, P, V>, P, V, C, B: Attempt<K, M, P, V, C>, R: Wait>(
    rt: &R,
    turn: Turn<'p, Pass<Played<M, P, V, C>>, Goes>,
    by: &B,
    seen: u64,
) -> Result<
    Turn<'p, Pass<Played<M, P, V, C>>, Goes>,
    (u64, Turn<'p, Pass<Played<M, P, V, C>>, Goes>),
>
    requires own { object_of turn.pass.now ≡ B.object by.now }
    requires seen { (sights_of turn.pass.now).last ≡ seen }
    requires refused { B.refuses seen }
    requires at { (done : List (Slot V)) × IsRefused (M.model (B.key by.now)) B.call B.place (spun 0) seen done (parties_of turn.pass.now) }
    ensures same_borrow { IfOk result (λ next. next.pass.ghost_name ≡ turn.entry.pass.ghost_name) }
    ensures same_borrow_too { IfErr result (λ missed. missed.1.pass.ghost_name ≡ turn.entry.pass.ghost_name) }
    ensures moved { IfOk result (λ next. HasMoved B.moves turn.entry.pass.now next.pass.now) }
    ensures refused { IfErr result (λ missed. WasRefusedAt B.refuses missed.0 10000 turn.entry.pass.now missed.1.pass.now) }
    ensures once { IfErr result (λ missed. B.looks_once (part_of turn.entry.pass.now) (counts_of turn.entry.pass.now) → (sights_of missed.1.pass.now).count ≡ (sights_of turn.entry.pass.now).count + 10000) }
    ensures granted { IfOk result (λ next. OnceRefused (M.model (B.key by.now)) B.call B.place seen (parties_of turn.entry.pass.now) (λ done. IsGranted (M.model (B.key by.now)) B.call B.place B.takes done (parties_of next.pass.now))) }
    ensures stands { IfErr result (λ missed. OnceRefused (M.model (B.key by.now)) B.call B.place seen (parties_of turn.entry.pass.now) (λ done. IsStanding (M.model (B.key by.now)) B.call B.place missed.0 done (parties_of missed.1.pass.now))) }
{
    let mut last = seen;
    let mut next = turn;
    for tries in 0..SPIN_REPETITIONS {
        pause_before(tries);
        match by.attempt::<Goes, R>(next, rt) {
            Ok(granted) => return Ok(granted),
            Err((found, again)) => {
                last = found;
                next = again;
            }
        }
    }
    Err((last, next))
}

/// Calls the wait closure at which a call of the pass stands. It is handed the word that the model names for that place, and told what
/// the model tells it there.
#[inline(always)]
fn ask<
    'p,
    K,
    M: Script<K, P, V>,
    P,
    V,
    C,
    B: Attempt<K, M, P, V, C>,
    X: Shown,
    W: FnMut(&X, &u64) -> WaitAction,
>(
    turn: Turn<'p, Pass<Played<M, P, V, C>>, Goes>,
    by: &B,
    word: &Sealed<X>,
    told: u64,
    wait: W,
) -> (Answered<'p, Pass<Played<M, P, V, C>>>, W)
    requires own { object_of turn.pass.now ≡ B.object by.now }
    requires word { X.object word.now.shown ≡ B.object by.now }
    requires stands { StandsToWait (M.model (B.key by.now)) M.names M.handed (X.index word.now.shown) told (parties_of turn.pass.now) }
    requires may { W.IsAlwaysCallable wait }
    ensures same_borrow { (pass_in result.0).ghost_name ≡ turn.entry.pass.ghost_name }
    ensures still { (pass_in result.0).now ≡ turn.entry.pass.now }
    ensures may_again { W.IsAlwaysCallable result.1 }
    ensures asked { AskedOnce W.FnMut word.now.shown wait told (action_in result.0) result.1 }
{
    let _by = by;
    hear(turn, &word.shown, told, wait)
}

/// The wait closure before each further try, until one is not refused, or is refused after the closure answered `Abort`. The closure
/// is handed the word, and told the value that refused the try before; `told` is the first of these.
fn ask_and_try<
    'p,
    K,
    M: Script<K, P, V>,
    P,
    V,
    C,
    B: Attempt<K, M, P, V, C>,
    X: Shown,
    R: Wait,
    W: FnMut(&X, &u64) -> WaitAction,
>(
    rt: &R,
    turn: Turn<'p, Pass<Played<M, P, V, C>>, Goes>,
    by: &B,
    word: &Sealed<X>,
    told: u64,
    wait: W,
) -> (bool, Turn<'p, Pass<Played<M, P, V, C>>, Goes>, W)
    requires own { object_of turn.pass.now ≡ B.object by.now }
    requires may { W.IsAlwaysCallable wait }
    requires refused { B.refuses told }
    requires word { X.object word.now.shown ≡ B.object by.now }
    requires handed { (p : Patience) → IsNamed M.names (X.index word.now.shown) (M.handed (B.place p)) }
    requires at { (done : List (Slot V)) × IsStanding (M.model (B.key by.now)) B.call B.place told done (parties_of turn.pass.now) }
    ensures same_borrow { result.1.pass.ghost_name ≡ turn.entry.pass.ghost_name }
    ensures told { MatchBool result.0 (HasMoved B.moves turn.entry.pass.now result.1.pass.now) (WasRefused B.refuses 1 turn.entry.pass.now result.1.pass.now) }
    ensures asked { Asked W.FnMut word.now.shown B.refuses told wait result.2 result.0 (B.looks_once (part_of turn.entry.pass.now) (counts_of turn.entry.pass.now)) (sights_of turn.entry.pass.now).count (sights_of result.1.pass.now).count }
    ensures over { OnceStanding (M.model (B.key by.now)) B.call B.place told (parties_of turn.entry.pass.now) (λ done. MatchBool result.0 (IsGranted (M.model (B.key by.now)) B.call B.place B.takes done (parties_of result.1.pass.now)) (HasGivenUp (M.model (B.key by.now)) B.call B.place done (parties_of result.1.pass.now))) }
{
    let mut last = told;
    let mut next = turn;
    let mut wait = wait;
    for _ in rt.forever() {
        let (answer, asked) = ask(next, by, word, last, wait);
        wait = asked;
        match answer {
            Answered::Continue(continued) => match by.attempt::<Continued, R>(continued, rt) {
                Ok(granted) => return (true, granted, wait),
                Err((found, again)) => {
                    last = found;
                    next = again;
                }
            },
            Answered::Abort(aborted) => match by.attempt::<Aborted, R>(aborted, rt) {
                Ok(granted) => return (true, granted, wait),
                Err((_, refused)) => return (false, refused, wait),
            },
        }
    }
    unreachable!()
}

/// What a call that may wait does once its first try was refused: further tries by itself, and then the wait closure before each.
/// `seen` is the value that refused the first. Gives the closure back.
pub fn try_again_by<
    'p,
    K,
    M: Script<K, P, V>,
    P,
    V,
    C,
    B: Attempt<K, M, P, V, C>,
    X: Shown,
    R: Wait,
    W: FnMut(&X, &u64) -> WaitAction,
>(
    rt: &R,
    turn: Turn<'p, Pass<Played<M, P, V, C>>, Goes>,
    by: &B,
    word: &Sealed<X>,
    seen: u64,
    wait: W,
) -> (bool, Turn<'p, Pass<Played<M, P, V, C>>, Goes>, W)
    requires own { object_of turn.pass.now ≡ B.object by.now }
    requires may { W.IsAlwaysCallable wait }
    requires seen { (sights_of turn.pass.now).last ≡ seen }
    requires refused { B.refuses seen }
    requires word { X.object word.now.shown ≡ B.object by.now }
    requires handed { (p : Patience) → IsNamed M.names (X.index word.now.shown) (M.handed (B.place p)) }
    requires at { (done : List (Slot V)) × IsRefused (M.model (B.key by.now)) B.call B.place (spun 0) seen done (parties_of turn.pass.now) }
    ensures same_borrow { result.1.pass.ghost_name ≡ turn.entry.pass.ghost_name }
    ensures told { MatchBool result.0 (HasMoved B.moves turn.entry.pass.now result.1.pass.now) (WasRefused B.refuses 10001 turn.entry.pass.now result.1.pass.now) }
    ensures asked { AskedAfter W.FnMut word.now.shown B.refuses 10000 wait result.2 result.0 (B.looks_once (part_of turn.entry.pass.now) (counts_of turn.entry.pass.now)) (sights_of turn.entry.pass.now).count (sights_of result.1.pass.now).count }
    ensures over { OnceRefused (M.model (B.key by.now)) B.call B.place seen (parties_of turn.entry.pass.now) (λ done. MatchBool result.0 (IsGranted (M.model (B.key by.now)) B.call B.place B.takes done (parties_of result.1.pass.now)) (HasGivenUp (M.model (B.key by.now)) B.call B.place done (parties_of result.1.pass.now))) }
{
    match spin(rt, turn, by, seen) {
        Ok(granted) => (true, granted, wait),
        Err((last, next)) => ask_and_try(rt, next, by, word, last, wait),
    }
}

/// The same by a wait closure whose calls leave no trace: it is handed down itself.
#[inline]
pub fn try_again<
    'p,
    K,
    M: Script<K, P, V>,
    P,
    V,
    C,
    B: Attempt<K, M, P, V, C>,
    X: Shown,
    R: Wait,
    W: Fn(&X, &u64) -> WaitAction,
>(
    rt: &R,
    turn: Turn<'p, Pass<Played<M, P, V, C>>, Goes>,
    by: &B,
    word: &Sealed<X>,
    seen: u64,
    wait: W,
) -> (bool, Turn<'p, Pass<Played<M, P, V, C>>, Goes>)
    requires own { object_of turn.pass.now ≡ B.object by.now }
    requires may { W.IsAlwaysCallable wait }
    requires seen { (sights_of turn.pass.now).last ≡ seen }
    requires refused { B.refuses seen }
    requires word { X.object word.now.shown ≡ B.object by.now }
    requires handed { (p : Patience) → IsNamed M.names (X.index word.now.shown) (M.handed (B.place p)) }
    requires at { (done : List (Slot V)) × IsRefused (M.model (B.key by.now)) B.call B.place (spun 0) seen done (parties_of turn.pass.now) }
    ensures same_borrow { result.1.pass.ghost_name ≡ turn.entry.pass.ghost_name }
    ensures told { MatchBool result.0 (HasMoved B.moves turn.entry.pass.now result.1.pass.now) (WasRefused B.refuses 10001 turn.entry.pass.now result.1.pass.now) }
    ensures aborted { result.0 ≡ false → MayAnswerAbort W.Fn wait B.refuses }
    ensures asked { result.0 ≡ false → B.looks_once (part_of turn.entry.pass.now) (counts_of turn.entry.pass.now) → HasAsked W.Fn wait B.refuses 10000 turn.entry.pass.now result.1.pass.now }
    ensures over { OnceRefused (M.model (B.key by.now)) B.call B.place seen (parties_of turn.entry.pass.now) (λ done. MatchBool result.0 (IsGranted (M.model (B.key by.now)) B.call B.place B.takes done (parties_of result.1.pass.now)) (HasGivenUp (M.model (B.key by.now)) B.call B.place done (parties_of result.1.pass.now))) }
{
    let (granted, last, _) = try_again_by(rt, turn, by, word, seen, wait);
    (granted, last)
}
