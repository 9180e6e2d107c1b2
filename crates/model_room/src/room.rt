//! Several objects and the parties that they share.
ghost use Rattle.std.specs.Prelude.{◌≡◌, ◌<◌, ◌≤◌, [], IfOk, IfErr, OnErr};
ghost use Rattle.model_events.specs.declared.event.Input.TheVariants as inputs;
ghost use Rattle.sync_steps.specs.Machine.Strides.{IsQuiet};
ghost use Rattle.model_room.specs.Runs.{seat_left, begins_elsewhere};
ghost use Rattle.model_room.specs.Room.{StandsAt, Strides, Steps, RefusesStep, KeepsHeadlines, TellsSeat, TellsMachine};

use crate::event::{RoomEvent, RoomStride};
use crate::fault::RoomFault;
use model_events::atomic::internal::AtomicInteger;
use model_events::event::{Input, Object, StepFault, Then};
use std::alloc::{AllocError, Allocator, Global};
use std::marker::Model;
use sync_steps::steps::Machine;

/// Several objects and their parties, numbered from 0, each with at most one call under way at all of them together.
#[derive(Drop)]
pub struct Room<T, A: Allocator = Global> {
    machines: Vec<Machine<T, A>, A>,
    seats: Vec<Option<usize>, A>,
}

impl<T, A: Allocator> Model for Room<T, A> {
    ghost use Rattle.model_room.specs.Room.{Seating};

    ghost Value = { Seating T };

    ghost view = { λ m. record { machines = m.machines.items; seats = m.seats.items } };
}

/// Where a party's call at an object leaves it.
#[inline(always)]
fn seat_left<T>(object: usize, then: &Then<T>) -> Option<usize>
    ensures { result ≡ seat_left object then.now }
{
    match then {
        Then::Answers(_) => None,
        _ => Some(object),
    }
}

/// Whether a call would begin while its party has one under way at another object.
#[inline(always)]
fn begins_elsewhere<T>(input: &Input<T>, object: usize, seat: Option<usize>) -> bool
    ensures { result ≡ begins_elsewhere input.now object seat }
{
    match (input, seat) {
        (Input::Begin(_), Some(at)) => at != object,
        _ => false,
    }
}

impl<T: AtomicInteger, A: Allocator + Copy> Room<T, A> {
    /// A room of these objects, where no party has begun a call yet.
    ///
    /// It takes memory for the objects and the places of their parties, and answers `AllocError` where there is none.
    pub fn new(alloc: A, objects: &[Object<T>], parties: usize) -> Result<Room<T, A>, AllocError>
        ensures { IfOk result (StandsAt T.arithmetic objects.now parties []) }
    {
        let mut machines = Vec::with_capacity(alloc, objects.len())?;
        for object in objects {
            machines.push(Machine::new(alloc, *object, parties)?)?;
        }
        Ok(Room {
            machines,
            seats: vec![in alloc; None; parties]?,
        })
    }
}

impl<T: AtomicInteger, A: Allocator> Room<T, A> {
    /// The object at which a party has a call under way, if it has one; `None` also where there is no such party.
    pub fn seat(&self, party: usize) -> Option<usize>
        ensures { TellsSeat T.arithmetic self.now party result }
    {
        match self.seats.get(party) {
            Some(seat) => *seat,
            None => None,
        }
    }

    /// The machine of an object: its words, and what parties hold there; `None` where there is no such object.
    pub fn machine(&self, object: usize) -> Option<&Machine<T, A>>
        ensures { TellsMachine T.arithmetic self.now object result }
    {
        match self.machines.get(object) {
            Some(machine) => Some(machine),
            None => None,
        }
    }

    /// Plays one input of a party at an object: the event that it gives, or why it is refused.
    ///
    /// After a fault the room is unchanged. It takes no memory.
    #[inline(always)]
    pub fn step(
        &mut self,
        party: usize,
        object: usize,
        input: Input<T>,
    ) -> Result<RoomEvent<T>, RoomFault>
        // The event is the one that the input gives, or the fault is the first that applies.
        ensures next { IfOk result (λ told. Steps T.arithmetic self.old party object input told self.new) }
        ensures fault { IfErr result (RefusesStep T.arithmetic self.old party object input) }
        ensures err { OnErr result (self.new ≡ self.old) }

        // What holds at every prefix of every run of each object holds after the event.
        ensures headline { IfOk result (KeepsHeadlines T.arithmetic self.old) }
    {
        if object >= self.machines.len() {
            return Err(RoomFault::NoObject);
        }
        if party >= self.seats.len() {
            return Err(RoomFault::Step(StepFault::NoParty));
        }
        if begins_elsewhere(&input, object, self.seats[party]) {
            return Err(RoomFault::Step(StepFault::Busy));
        }
        match self.machines[object].step(party, input) {
            Ok(event) => {
                self.seats[party] = seat_left(object, &event.then);
                Ok(RoomEvent { object, event })
            }
            Err(fault) => Err(RoomFault::Step(fault)),
        }
    }

    /// Plays steps of a party at an object, at least one and at most `limit`, that all give the same event: a spin as one stride. Or why
    /// the first is refused.
    ///
    /// After a fault the room is unchanged. It takes no memory, and no longer for many tries than for one.
    #[inline(always)]
    pub fn stride(
        &mut self,
        party: usize,
        object: usize,
        limit: u64,
    ) -> Result<RoomStride<T>, RoomFault>
        requires { 0 < limit }

        // It is the run of so many steps, at each prefix of which the headline of each object holds.
        ensures run { IfOk result (λ stride. Strides T.arithmetic self.old party object stride.event stride.times self.new) }
        ensures some { IfOk result (λ stride. 0 < stride.times) }
        ensures within { IfOk result (λ stride. stride.times ≤ limit) }

        // Of several events each leaves all as it is.
        ensures quiet { IfOk result (λ stride. 1 < stride.times → IsQuiet stride.event.event) }
        ensures fault { IfErr result (RefusesStep T.arithmetic self.old party object inputs.Go) }
        ensures err { OnErr result (self.new ≡ self.old) }
    {
        if object >= self.machines.len() {
            return Err(RoomFault::NoObject);
        }
        if party >= self.seats.len() {
            return Err(RoomFault::Step(StepFault::NoParty));
        }
        match self.machines[object].stride(party, limit) {
            Ok(stride) => {
                self.seats[party] = seat_left(object, &stride.event.then);
                let event = RoomEvent {
                    object,
                    event: stride.event,
                };
                Ok(RoomStride {
                    event,
                    times: stride.times,
                })
            }
            Err(fault) => Err(RoomFault::Step(fault)),
        }
    }
}
