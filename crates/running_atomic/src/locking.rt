//! How a call takes the lock.
ghost use Rattle.std.specs.Prelude.{◌≡◌, List, Some, None, true, false};
ghost use Rattle.model_events.specs.declared.event.Call.TheVariants as calls;
ghost use Rattle.model_events.specs.declared.hold.HoldKind.TheVariants as kinds;
ghost use Rattle.model_events.specs.Moves.{CallValues};
ghost use Rattle.model_atomic.specs.declared.AtomicPlace.TheVariants as places;
ghost use Rattle.model_atomic.specs.Table.{look_at, inside};
ghost use Rattle.running_rw_hold.specs.declared.held.Held.TheVariants.{Free};
ghost use Rattle.running_model.specs.Slots.{Slot, all_of};
ghost use Rattle.running_model.specs.Passes.{parties_of, counts_of};
ghost use Rattle.running_model.specs.Stages.{IsPassOf, key_of};
ghost use Rattle.running_atomic.specs.AtomicParties.{Writes, IsNext};
ghost use Rattle.running_atomic.specs.AtomicSteps.{IsReading, IsSettled};

use crate::calls::Atomic;
use crate::steps::{Going, PlayedPass};
use model_events::SPIN_REPETITIONS;
use model_events::atomic::internal::AtomicInteger;
use model_events::event::Call;
use model_rw_reader::reader_enters;
use running_model::pause_before;
use running_model::turn::Called;
use std::alloc::Allocator;
use std::sync::Wait;
use std::thread;

/// What a call does before it tries again, and how often it has then tried: it spins 10000 times, and from then on yields, so that whoever
/// has the lock can run.
#[inline(always)]
fn pause(tries: u64) -> u64 {
    if tries < SPIN_REPETITIONS {
        pause_before(tries);
        tries + 1
    } else {
        thread::yield_now();
        tries
    }
}

impl<T: AtomicInteger, A: Allocator> Atomic<T, A> {
    ghost use Rattle.running_atomic.specs.AtomicShown.{HasGot, IsStill};

    /// Tries once to take the lock for reading, in a call that has just seen this value: whether it has, and what it saw last. It cannot wait, so
    /// a `load` at a free lock tests no byte for it.
    #[inline(always)]
    pub(crate) fn try_read<'p>(&self, turn: Going<'p, T>, seen: u64) -> (bool, u64, Going<'p, T>)
        requires own { IsPassOf self.now.stage turn.pass.now }
        requires rest { (counts_of turn.pass.now).hold ≡ Free }
        requires at { (done : List (Slot T)) × IsNext T.arithmetic (key_of self.now.stage) calls.Load (look_at seen) None done (parties_of turn.pass.now) }
        ensures same_borrow { result.2.pass.ghost_name ≡ turn.entry.pass.ghost_name }
        ensures on { result.0 ≡ true → HasGot IsReading turn.entry.pass.now result.2.pass.now }
        ensures next { result.0 ≡ true → (done : List (Slot T)) → IsNext T.arithmetic (key_of self.now.stage) calls.Load (look_at seen) None done (parties_of turn.entry.pass.now) → IsNext T.arithmetic (key_of self.now.stage) calls.Load (places.Low calls.Load) (Some kinds.Read) done (parties_of result.2.pass.now) }
        ensures still { result.0 ≡ false → IsStill turn.entry.pass.now result.2.pass.now }
        ensures again { result.0 ≡ false → (done : List (Slot T)) → IsNext T.arithmetic (key_of self.now.stage) calls.Load (look_at seen) None done (parties_of turn.entry.pass.now) → IsNext T.arithmetic (key_of self.now.stage) calls.Load (look_at result.1) None done (parties_of result.2.pass.now) }
    {
        match reader_enters(seen) {
            Some(to) => {
                let (found, next) = self.enter_read(turn, seen, to);
                (found == seen, found, next)
            }
            None => (false, seen, turn),
        }
    }

    /// Takes the lock for reading, in a call that has just seen this value.
    #[inline(always)]
    pub(crate) fn read_from<'p, R: Wait>(
        &self,
        rt: &R,
        turn: Going<'p, T>,
        seen: u64,
    ) -> Going<'p, T>
        requires own { IsPassOf self.now.stage turn.pass.now }
        requires rest { (counts_of turn.pass.now).hold ≡ Free }
        requires at { (done : List (Slot T)) × IsNext T.arithmetic (key_of self.now.stage) calls.Load (look_at seen) None done (parties_of turn.pass.now) }
        ensures same_borrow { result.pass.ghost_name ≡ turn.entry.pass.ghost_name }
        ensures on { HasGot IsReading turn.entry.pass.now result.pass.now }
        ensures next { (done : List (Slot T)) → IsNext T.arithmetic (key_of self.now.stage) calls.Load (look_at seen) None done (parties_of turn.entry.pass.now) → IsNext T.arithmetic (key_of self.now.stage) calls.Load (places.Low calls.Load) (Some kinds.Read) done (parties_of result.pass.now) }
    {
        let mut last = seen;
        let mut next = turn;
        let mut tries = 0;
        for _ in rt.forever() {
            match reader_enters(last) {
                Some(to) => {
                    let (found, again) = self.enter_read(next, last, to);
                    if found == last {
                        return again;
                    }
                    last = found;
                    next = again;
                }
                None => {
                    tries = pause(tries);
                    let (found, again) = self.look(next);
                    last = found;
                    next = again;
                }
            }
        }
        unreachable!()
    }

    /// Takes the lock for writing, in this call, which its caller picks.
    #[inline(always)]
    pub(crate) fn write_lock<'p, R: Wait, L: Called<T>>(
        &self,
        rt: &R,
        pass: &'p mut PlayedPass<T>,
        call: &Call<T>,
    ) -> Going<'p, T>
        requires own { IsPassOf self.now.stage pass.old }
        requires rest { (counts_of pass.old).hold ≡ Free }
        requires writes { Writes T.arithmetic (key_of self.now.stage) L.call }
        requires values { CallValues T.arithmetic L.call }
        ensures same_borrow { result.pass.ghost_name ≡ pass.entry.ghost_name }
        ensures on { HasGot IsSettled pass.old result.pass.now }
        ensures next { IsNext T.arithmetic (key_of self.now.stage) L.call (inside T.arithmetic L.call) (Some kinds.Write) (all_of (parties_of pass.old)) (parties_of result.pass.now) }
    {
        let (found, tried) = self.first_enter::<L>(pass, call);
        if found == 0 {
            tried
        } else {
            self.write_later::<R, L>(rt, tried, call)
        }
    }

    /// The same once the first exchange has failed.
    #[inline(always)]
    pub(crate) fn write_later<'p, R: Wait, L: Called<T>>(
        &self,
        rt: &R,
        turn: Going<'p, T>,
        _call: &Call<T>,
    ) -> Going<'p, T>
        requires own { IsPassOf self.now.stage turn.pass.now }
        requires rest { (counts_of turn.pass.now).hold ≡ Free }
        requires writes { Writes T.arithmetic (key_of self.now.stage) L.call }
        requires at { (done : List (Slot T)) × IsNext T.arithmetic (key_of self.now.stage) L.call (places.Take L.call) None done (parties_of turn.pass.now) }
        ensures same_borrow { result.pass.ghost_name ≡ turn.entry.pass.ghost_name }
        ensures on { HasGot IsSettled turn.entry.pass.now result.pass.now }
        ensures next { (done : List (Slot T)) → IsNext T.arithmetic (key_of self.now.stage) L.call (places.Take L.call) None done (parties_of turn.entry.pass.now) → IsNext T.arithmetic (key_of self.now.stage) L.call (inside T.arithmetic L.call) (Some kinds.Write) done (parties_of result.pass.now) }
    {
        let mut next = turn;
        let mut tries = 0;
        for _ in rt.forever() {
            tries = pause(tries);
            let (found, again) = self.enter_write(next);
            if found == 0 {
                return again;
            }
            next = again;
        }
        unreachable!()
    }
}
