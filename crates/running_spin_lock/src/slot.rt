//! The slot of a lock that guards a value, whatever model its passes play.
ghost use Rattle.std.specs.Prelude.{◌≡◌, ◌<◌, [], ◌∷◌, Some, IfErr, IfOk, true};
ghost use Rattle.model_events.specs.declared.row.Intent.TheVariants as intents;
ghost use Rattle.running_passes.specs.Views.{first_view};
ghost use Rattle.running_spin_lock.specs.ValueRule.{none_held};
ghost use Rattle.running_model.specs.Plays.{Continuing, MayStep, Went};
ghost use Rattle.running_spin_lock.specs.ValueSteps.{HasValue, Lets, has_vacant_slot};

use crate::rule::ValueRule;
use atomic_table::{Refused, Seat, Shared, Table};
use running_for_one::{ForOne, Holds};
use running_model::Played;
use running_model::seat::{SeatTurn, begin_held};
use running_model::turn::{Called, Goes};
use running_passes::View;
use std::alloc::{AllocError, Allocator};

/// The word where it is locked, and where it is free.
pub const LOCKED: u64 = 1;

pub const FREE: u64 = 0;

/// A word that says that the lock is free, the slot with this value, and the seat of the pass that is whole. `Err` where there was no
/// memory; then nothing was made, and the value comes back.
pub fn new<T, M: ForOne<P>, P, A: Allocator + Clone>(
    alloc: A,
    value: T,
) -> Result<
    (
        Table<Option<T>, View<Played<M, P, u64, Holds>>, (), ValueRule, A>,
        Seat<Option<T>, View<Played<M, P, u64, Holds>>>,
    ),
    (AllocError, T),
>
    ensures own { IfOk result (λ made. made.1.table_id ≡ made.0.shared.table_id) }
    ensures one_word { IfOk result (λ made. made.0.shared.table_id.words ≡ 1) }
    ensures one_slot { IfOk result (λ made. made.0.shared.table_id.slots ≡ 1) }
    ensures first { IfOk result (λ made. made.1.me ≡ (first_view none_held, [])) }
    ensures refused { IfErr result (λ refused. refused.1 ≡ value) }
{
    let Ok(for_slots) = alloc.clone() else {
        return Err((AllocError, value));
    };
    let Ok(mut slots) = Vec::with_capacity(for_slots, 1) else {
        return Err((AllocError, value));
    };
    slots.push_reserved(Some(value));
    match Table::new(alloc, &[FREE], slots, &()) {
        Ok(made) => Ok(made),
        Err(Refused { slots }) => Err((AllocError, only(slots))),
    }
}

/// The value in this slot.
fn only<T, A: Allocator>(slots: Vec<Option<T>, A>) -> T
    requires { (x : T) × (slots.items ≡ Some x ∷ []) }
    ensures { slots.items ≡ Some result ∷ [] }
{
    let mut slots = slots;
    let Some(slot) = slots.pop() else {
        unreachable!()
    };
    slots.destroy_empty();
    slot.unwrap()
}

/// The value, out of the slot that a step took.
#[inline(always)]
pub fn take<T, M: ForOne<P>, P>(
    shared: &Shared<Option<T>, View<Played<M, P, u64, Holds>>, (), ValueRule>,
    seat: &mut Seat<Option<T>, View<Played<M, P, u64, Holds>>>,
) -> T
    requires own { seat.old.table_id ≡ shared.now.table_id }
    requires there { HasValue seat.old.me.1 }
    ensures same { (seat.new.table_id ≡ seat.old.table_id) × (seat.new.id ≡ seat.old.id) }
    ensures view { seat.new.me.0 ≡ seat.old.me.0 }
    ensures vacant { has_vacant_slot seat.new.me.1 ≡ true }
{
    shared.exchange(seat, 0, None).unwrap()
}

/// The value is in the slot again, and a store of 0, with which the call of `L` begins, lets the lock go.
#[inline(always)]
pub fn release<T, M: ForOne<P>, P, L: Called<u64>>(
    shared: &Shared<Option<T>, View<Played<M, P, u64, Holds>>, (), ValueRule>,
    seat: Seat<Option<T>, View<Played<M, P, u64, Holds>>>,
    value: T,
) -> SeatTurn<Option<T>, Played<M, P, u64, Holds>, Goes>
    requires own { seat.table_id ≡ shared.now.table_id }
    requires inside { 0 < shared.now.table_id.words }
    requires on { seat.me.0.tally.counts.holds ≡ 1 }
    requires alive { 0 < seat.me.0.part.share }
    requires vacant { has_vacant_slot seat.me.1 ≡ true }
    requires may { MayStep (M.model tt) M.names (Continuing L.call) 0 (λ w. intents.Store w 0) seat.me.0.tally.parties }
    ensures same { (result.seat.table_id ≡ seat.table_id) × (result.seat.id ≡ seat.id) }
    ensures off { Lets seat.me.0 result.seat.me.0 }
    ensures went { Went (M.model tt) (Continuing L.call) seat.me.0.tally.parties 0 result.seat.me.0.tally.parties }
    ensures no_slot { result.seat.me.1 ≡ [] }
{
    let mut seat = seat;
    match shared.exchange(&mut seat, 0, Some(value)) {
        None => {}
        Some(_) => unreachable!(),
    }
    let begun = begin_held::<L, Option<T>, Played<M, P, u64, Holds>>(seat);
    begun.store(shared, 0, FREE)
}
