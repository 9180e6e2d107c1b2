//! What a reader does at either lock.
ghost use Rattle.std.specs.Prelude.{◌≡◌, ◌≢◌, ◌+◌, ◌==◌, ℕ, true, false, List, Some, None, MatchBool, IfOk, IfErr, is_ok};
ghost use Rattle.atomic_table.specs.Seated.{TableId};
ghost use Rattle.model_events.specs.declared.WaitAction.{WaitAction};
ghost use Rattle.model_events.specs.declared.event.Call.TheVariants as calls;
ghost use Rattle.model_events.specs.declared.event.Answer.TheVariants as answers;
ghost use Rattle.model_events.specs.declared.hold.HoldKind.TheVariants as kinds;
ghost use Rattle.model_events.specs.declared.patience.Patience.{Patience};
ghost use Rattle.model_events.specs.Rows.{answered};
ghost use Rattle.running_passes.specs.declared.part.Part.{Part};
ghost use Rattle.running_passes.specs.Passes.{object_of, part_of, sights_of};
ghost use Rattle.running_passes.specs.Answers.{MayAnswerAbort, HasAsked};
ghost use Rattle.running_model.specs.Counts.{HasOnlySeen, HasMoved, WasRefused, WasRefusedAt};
ghost use Rattle.running_model.specs.Holding.{is_holding};
ghost use Rattle.running_model.specs.Passes.{parties_of, counts_of, counted};
ghost use Rattle.running_model.specs.Plays.{Beginning, HasCalled, HasEnded, MayBegin};
ghost use Rattle.running_model.specs.Slots.{Slot, Parties, all_of};
ghost use Rattle.running_model.specs.Tries.{spun, MayTry, Tried, IsGranted, IsRefused, HasGivenUp};
ghost use Rattle.running_model.specs.Turns.{IsOver};
ghost use Rattle.running_model.specs.Words.{IsNamed};
ghost use Rattle.running_rw_hold.specs.RwShown.{TurnsAway};
ghost use Rattle.running_rw_hold.specs.RwReading.{HasLookedOnce, HasLooked, MayLook, MayEnter, HasLookedAt, HasTriedToEnter, HasReadFrom, HasSeenLast};

use model_events::WaitAction;
use running_model::calls::{ReadCall, TryReadCall};
use running_model::turn::{Attempt, Called, Goes, Turn, Way, begin_new, try_again};
use running_model::{Played, Script, Sealed, Shown};
use running_passes::Pass;
use std::sync::Wait;

/// A lock as its readers see it: how they look at its word, and enter by an exchange of the value seen.
pub trait ReadSteps<M: Script<(), P, u64>, P, C> {
    ghost object: { Self → TableId };

    // Where a `TryReadLock` looks, and a `ReadLock`.
    ghost once: { P };

    ghost place: { Patience → P };

    // What a reader puts in the place of the value seen, and the values at which none enters.
    ghost opens: { ℕ → ℕ → Type 0 };

    ghost refuses: { ℕ → Type 0 };

    // What one more read hold makes of what a pass counts, and what is told of that: of its part, its counts before and after, and the
    // value seen last.
    ghost reads: { C → C };

    ghost moves: { Part → C → C → ℕ → Type 0 };

    // The passes, by part and counts, beside which nobody changes the word; what it is then; and those of them that have no hold.
    ghost only: { Part → C → Type 0 };

    ghost word_of: { C → ℕ };

    ghost free: { Part → C → Type 0 };

    /// The word after a reader entered, where one may.
    fn room(&self, seen: u64) -> Option<u64>
        ensures opens { (more : ℕ) → result ≡ Some more → opens seen more }
        ensures refuses { result ≡ None → refuses seen }
        ensures free { result ≡ None → (part : Part) (counts : C) → free part counts → seen ≢ word_of counts }
        ensures once { result ≡ None → (done : List (Slot ℕ)) (p : Parties ℕ) → HasLookedOnce (M.model tt) once place seen done p → HasEnded (M.model tt) calls.TryReadLock answers.Interrupted None done p }
        ensures shut { result ≡ None → (patience : Patience) (done : List (Slot ℕ)) (p : Parties ℕ) → HasLooked (M.model tt) once place patience seen done p → IsRefused (M.model tt) calls.ReadLock place patience seen done p };

    /// A load.
    fn look<'p, W: Way<u64>>(
        &self,
        turn: Turn<'p, Pass<Played<M, P, u64, C>>, W>,
    ) -> (u64, Turn<'p, Pass<Played<M, P, u64, C>>, Goes>)
        requires own { object_of turn.pass.now ≡ object self.now }
        requires may { MayLook (M.model tt) once place W.coming (parties_of turn.pass.now) }
        ensures same_borrow { result.1.pass.ghost_name ≡ turn.entry.pass.ghost_name }
        ensures looked { HasLookedAt (M.model tt) once place only word_of W.coming result.0 turn.entry.pass.now result.1.pass.now };

    /// An exchange of the value seen for that with one more reader, and the value that it found.
    fn enter<'p>(
        &self,
        turn: Turn<'p, Pass<Played<M, P, u64, C>>, Goes>,
        seen: u64,
        more: u64,
    ) -> (u64, Turn<'p, Pass<Played<M, P, u64, C>>, Goes>)
        requires own { object_of turn.pass.now ≡ object self.now }
        requires room { opens seen more }
        requires may { MayEnter (M.model tt) once place seen (parties_of turn.pass.now) }
        ensures same_borrow { result.1.pass.ghost_name ≡ turn.entry.pass.ghost_name }
        ensures tried { HasTriedToEnter (M.model tt) once place only word_of reads moves seen result.0 turn.entry.pass.now result.1.pass.now };

    /// The call has been answered. Gives the pass back.
    fn end<'p>(
        &self,
        turn: Turn<'p, Pass<Played<M, P, u64, C>>, Goes>,
    ) -> &'p mut Pass<Played<M, P, u64, C>>
        requires own { object_of turn.pass.now ≡ object self.now }
        requires over { IsOver (M.model tt) (parties_of turn.pass.now) }
        ensures same_borrow { result.ghost_name ≡ turn.entry.pass.ghost_name }
        ensures still { result.now ≡ turn.entry.pass.now };

    // How its calls begin, and that an answer of the wait closure changes the patience alone.
    ghost begins_once: { MayBegin (M.model tt) calls.TryReadLock once None };

    ghost begins: { MayBegin (M.model tt) calls.ReadLock (place (spun 0)) None };

    ghost patient: { (p : Patience) (action : WaitAction) → (M.model tt).table.answered (place p) action ≡ place (answered p action) };

    ghost has_none: { (part : Part) (counts : C) → free part counts → only part counts };
}

/// The look with which a call begins.
#[inline(always)]
fn first_look<'p, M: Script<(), P, u64>, P, C, L: ReadSteps<M, P, C>, B: Called<u64>>(
    lock: &L,
    pass: &'p mut Pass<Played<M, P, u64, C>>,
) -> (u64, Turn<'p, Pass<Played<M, P, u64, C>>, Goes>)
    requires own { object_of pass.old ≡ L.object lock.now }
    requires may { MayLook (M.model tt) L.once L.place (Beginning B.call) (parties_of pass.old) }
    ensures same_borrow { result.1.pass.ghost_name ≡ pass.entry.ghost_name }
    ensures looked { HasLookedAt (M.model tt) L.once L.place L.only L.word_of (Beginning B.call) result.0 pass.old result.1.pass.now }
{
    let begun = begin_new::<B, Pass<Played<M, P, u64, C>>>(pass);
    lock.look(begun)
}

/// What `try_read_lock` does, and whether the hold is on.
#[inline(always)]
pub fn try_to_read<M: Script<(), P, u64>, P, C, L: ReadSteps<M, P, C>>(
    lock: &L,
    pass: &mut Pass<Played<M, P, u64, C>>,
) -> bool
    requires own { object_of pass.old ≡ L.object lock.now }
    ensures entered { MatchBool result (HasMoved L.moves pass.old pass.new) (TurnsAway counted HasOnlySeen L.refuses pass.old pass.new) }
    ensures played { MatchBool result (HasCalled (M.model tt) calls.TryReadLock answers.Success (Some kinds.Read) (parties_of pass.old) (parties_of pass.new)) (HasCalled (M.model tt) calls.TryReadLock answers.Interrupted None (parties_of pass.old) (parties_of pass.new)) }
    ensures has { result ≡ true → is_holding (M.model tt).table kinds.Read (parties_of pass.new) ≡ true }
    ensures at_once { result ≡ true → HasReadFrom L.reads pass.old pass.new }
    ensures exact { L.free (part_of pass.old) (counts_of pass.old) → result ≡ true }
{
    let (seen, turn) = first_look::<M, P, C, L, TryReadCall>(lock, pass);
    match lock.room(seen) {
        Some(more) => {
            let (found, last) = lock.enter(turn, seen, more);
            let _pass = lock.end(last);
            found == seen
        }
        None => {
            let _pass = lock.end(turn);
            false
        }
    }
}

/// Turns a read hold on while there is room, from a value that it has just seen. `Err` with a value at which there was none.
#[inline(always)]
fn read_from<'p, M: Script<(), P, u64>, P, C, L: ReadSteps<M, P, C>, R: Wait>(
    lock: &L,
    turn: Turn<'p, Pass<Played<M, P, u64, C>>, Goes>,
    rt: &R,
    seen: u64,
) -> Result<
    Turn<'p, Pass<Played<M, P, u64, C>>, Goes>,
    (u64, Turn<'p, Pass<Played<M, P, u64, C>>, Goes>),
>
    requires own { object_of turn.pass.now ≡ L.object lock.now }
    requires last { (sights_of turn.pass.now).last ≡ seen }
    requires at { (patience : Patience) × (done : List (Slot ℕ)) × HasLooked (M.model tt) L.once L.place patience seen done (parties_of turn.pass.now) }
    ensures same_borrow { IfOk result (λ next. next.pass.ghost_name ≡ turn.entry.pass.ghost_name) }
    ensures same_borrow_too { IfErr result (λ missed. missed.1.pass.ghost_name ≡ turn.entry.pass.ghost_name) }
    ensures moved { IfOk result (λ next. HasMoved L.moves turn.entry.pass.now next.pass.now) }
    ensures refused { IfErr result (λ missed. HasOnlySeen turn.entry.pass.now missed.1.pass.now × ((sights_of missed.1.pass.now).last ≡ missed.0) × L.refuses missed.0) }
    ensures once { IfErr result (λ missed. (L.only (part_of turn.entry.pass.now) (counts_of turn.entry.pass.now) → seen ≡ L.word_of (counts_of turn.entry.pass.now)) → L.only (part_of turn.entry.pass.now) (counts_of turn.entry.pass.now) → (sights_of missed.1.pass.now).count ≡ (sights_of turn.entry.pass.now).count) }
    ensures granted { IfOk result (λ next. (patience : Patience) (done : List (Slot ℕ)) → HasLooked (M.model tt) L.once L.place patience seen done (parties_of turn.entry.pass.now) → IsGranted (M.model tt) calls.ReadLock L.place (Some kinds.Read) done (parties_of next.pass.now)) }
    ensures failed { IfErr result (λ missed. (patience : Patience) (done : List (Slot ℕ)) → HasLooked (M.model tt) L.once L.place patience seen done (parties_of turn.entry.pass.now) → IsRefused (M.model tt) calls.ReadLock L.place patience missed.0 done (parties_of missed.1.pass.now)) }
{
    let mut last = seen;
    let mut next = turn;
    for _ in rt.forever() {
        let Some(more) = lock.room(last) else {
            return Err((last, next));
        };
        let (found, again) = lock.enter(next, last, more);
        if found == last {
            return Ok(again);
        }
        last = found;
        next = again;
    }
    unreachable!()
}

/// The look with which a `ReadLock` begins, and one exchange where there is room: no loop, so that these are inlined. `Err` with the
/// value seen last, at which it has not entered.
#[inline(always)]
fn first_read<'p, M: Script<(), P, u64>, P, C, L: ReadSteps<M, P, C>>(
    lock: &L,
    pass: &'p mut Pass<Played<M, P, u64, C>>,
) -> Result<
    Turn<'p, Pass<Played<M, P, u64, C>>, Goes>,
    (u64, Turn<'p, Pass<Played<M, P, u64, C>>, Goes>),
>
    requires own { object_of pass.old ≡ L.object lock.now }
    ensures same_borrow { IfOk result (λ next. next.pass.ghost_name ≡ pass.entry.ghost_name) }
    ensures same_borrow_too { IfErr result (λ missed. missed.1.pass.ghost_name ≡ pass.entry.ghost_name) }
    ensures moved { IfOk result (λ next. HasMoved L.moves pass.old next.pass.now) }
    ensures looked { IfErr result (λ missed. HasSeenLast L.only L.word_of missed.0 pass.old missed.1.pass.now) }
    ensures granted { IfOk result (λ next. IsGranted (M.model tt) calls.ReadLock L.place (Some kinds.Read) (all_of (parties_of pass.old)) (parties_of next.pass.now)) }
    ensures goes_on { IfErr result (λ missed. HasLooked (M.model tt) L.once L.place (spun 0) missed.0 (all_of (parties_of pass.old)) (parties_of missed.1.pass.now)) }
    ensures exact { L.free (part_of pass.old) (counts_of pass.old) → is_ok result ≡ true }
{
    let (seen, turn) = first_look::<M, P, C, L, ReadCall>(lock, pass);
    let Some(more) = lock.room(seen) else {
        return Err((seen, turn));
    };
    let (found, next) = lock.enter(turn, seen, more);
    if found == seen {
        Ok(next)
    } else {
        Err((found, next))
    }
}

/// What `read_lock` does, and whether the hold is on.
#[inline(always)]
pub fn wait_to_read<
    M: Script<(), P, u64>,
    P,
    C,
    L: ReadSteps<M, P, C>,
    R: Wait,
    X: Shown,
    W: Fn(&X, &u64) -> WaitAction,
>(lock: &L, pass: &mut Pass<Played<M, P, u64, C>>, rt: &R, word: &Sealed<X>, wait: W) -> bool
    requires own { object_of pass.old ≡ L.object lock.now }
    requires word { X.object word.now.shown ≡ L.object lock.now }
    requires handed { (p : Patience) → IsNamed M.names (X.index word.now.shown) (M.handed (L.place p)) }
    requires may { W.IsAlwaysCallable wait }
    ensures entered { MatchBool result (HasMoved L.moves pass.old pass.new) (WasRefused L.refuses 10002 pass.old pass.new) }
    ensures played { MatchBool result (HasCalled (M.model tt) calls.ReadLock answers.Success (Some kinds.Read) (parties_of pass.old) (parties_of pass.new)) (HasCalled (M.model tt) calls.ReadLock answers.Interrupted None (parties_of pass.old) (parties_of pass.new)) }
    ensures has { result ≡ true → is_holding (M.model tt).table kinds.Read (parties_of pass.new) ≡ true }
    ensures exact { L.free (part_of pass.old) (counts_of pass.old) → result ≡ true }
    ensures aborted { result ≡ false → MayAnswerAbort W.Fn wait L.refuses }
    ensures asked { L.only (part_of pass.old) (counts_of pass.old) → result ≡ false → HasAsked W.Fn wait L.refuses 10001 pass.old pass.new }
{
    match first_read(lock, pass) {
        Ok(granted) => {
            let _pass = lock.end(granted);
            true
        }
        Err((seen, next)) => {
            let (entered, last) = read_later(lock, next, rt, word, seen, wait);
            let _pass = lock.end(last);
            entered
        }
    }
}

/// What it does from a value that it has just seen, once its first look, or its first exchange, did not let it in.
fn read_later<
    'p,
    M: Script<(), P, u64>,
    P,
    C,
    L: ReadSteps<M, P, C>,
    R: Wait,
    X: Shown,
    W: Fn(&X, &u64) -> WaitAction,
>(
    lock: &L,
    turn: Turn<'p, Pass<Played<M, P, u64, C>>, Goes>,
    rt: &R,
    word: &Sealed<X>,
    seen: u64,
    wait: W,
) -> (bool, Turn<'p, Pass<Played<M, P, u64, C>>, Goes>)
    requires own { object_of turn.pass.now ≡ L.object lock.now }
    requires word { X.object word.now.shown ≡ L.object lock.now }
    requires handed { (p : Patience) → IsNamed M.names (X.index word.now.shown) (M.handed (L.place p)) }
    requires may { W.IsAlwaysCallable wait }
    requires last { (sights_of turn.pass.now).last ≡ seen }
    requires at { (done : List (Slot ℕ)) × HasLooked (M.model tt) L.once L.place (spun 0) seen done (parties_of turn.pass.now) }
    ensures same_borrow { result.1.pass.ghost_name ≡ turn.entry.pass.ghost_name }
    ensures told { MatchBool result.0 (HasMoved L.moves turn.entry.pass.now result.1.pass.now) (WasRefused L.refuses 10001 turn.entry.pass.now result.1.pass.now) }
    ensures aborted { result.0 ≡ false → MayAnswerAbort W.Fn wait L.refuses }
    ensures asked { (L.only (part_of turn.entry.pass.now) (counts_of turn.entry.pass.now) → seen ≡ L.word_of (counts_of turn.entry.pass.now)) → L.only (part_of turn.entry.pass.now) (counts_of turn.entry.pass.now) → result.0 ≡ false → HasAsked W.Fn wait L.refuses 10000 turn.entry.pass.now result.1.pass.now }
    ensures over { (done : List (Slot ℕ)) → HasLooked (M.model tt) L.once L.place (spun 0) seen done (parties_of turn.entry.pass.now) → MatchBool result.0 (IsGranted (M.model tt) calls.ReadLock L.place (Some kinds.Read) done (parties_of result.1.pass.now)) (HasGivenUp (M.model tt) calls.ReadLock L.place done (parties_of result.1.pass.now)) }
{
    match read_from(lock, turn, rt, seen) {
        Ok(granted) => (true, granted),
        Err((shut, next)) => {
            let reader = Reader { lock };
            try_again(rt, next, &reader, word, shut, wait)
        }
    }
}

/// A lock, as `read_lock` tries it.
#[derive(Drop)]
struct Reader<'l, L> {
    lock: &'l L,
}

/// A look of `read_lock`, and its exchanges.
impl<M: Script<(), P, u64>, P, C, L: ReadSteps<M, P, C>> Attempt<(), M, P, u64, C>
    for Reader<'_, L> {
    ghost object = { λ r. L.object r.lock.now };

    ghost key = { λ _. tt };

    ghost call = { calls.ReadLock };

    ghost place = { L.place };

    ghost takes = { Some kinds.Read };

    ghost moves = { L.moves };

    ghost refuses = { L.refuses };

    ghost looks_once = { L.only };

    ghost answers = { λ _. L.patient };

    fn attempt<'p, W: Way<u64>, R: Wait>(
        &self,
        turn: Turn<'p, Pass<Played<M, P, u64, C>>, W>,
        rt: &R,
    ) -> Result<
        Turn<'p, Pass<Played<M, P, u64, C>>, Goes>,
        (u64, Turn<'p, Pass<Played<M, P, u64, C>>, Goes>),
    >
        requires own { object_of turn.pass.now ≡ L.object self.now.lock.now }
        requires comes { MayTry (M.model tt) calls.ReadLock L.place W.coming (parties_of turn.pass.now) }
        ensures same_borrow { IfOk result (λ next. next.pass.ghost_name ≡ turn.entry.pass.ghost_name) }
        ensures same_borrow_too { IfErr result (λ missed. missed.1.pass.ghost_name ≡ turn.entry.pass.ghost_name) }
        ensures moved { IfOk result (λ next. HasMoved L.moves turn.entry.pass.now next.pass.now) }
        ensures refused { IfErr result (λ missed. WasRefusedAt L.refuses missed.0 1 turn.entry.pass.now missed.1.pass.now) }
        ensures once { IfErr result (λ missed. L.only (part_of turn.entry.pass.now) (counts_of turn.entry.pass.now) → (sights_of missed.1.pass.now).count ≡ (sights_of turn.entry.pass.now).count + 1) }
        ensures granted { IfOk result (λ next. Tried (M.model tt) calls.ReadLock L.place W.coming (parties_of turn.entry.pass.now) (λ _ done. IsGranted (M.model tt) calls.ReadLock L.place (Some kinds.Read) done (parties_of next.pass.now))) }
        ensures failed { IfErr result (λ missed. Tried (M.model tt) calls.ReadLock L.place W.coming (parties_of turn.entry.pass.now) (λ patience done. IsRefused (M.model tt) calls.ReadLock L.place patience missed.0 done (parties_of missed.1.pass.now))) }
    {
        let (seen, looked) = self.lock.look(turn);
        match read_from(self.lock, looked, rt, seen) {
            Ok(entered) => Ok(entered),
            Err(shut) => Err(shut),
        }
    }
}
