//! Several objects: each call of a room once, its faults in their order, schedules in pieces, and growths that are refused.
use super::schedules::Did::{self, Begins, Exchanges, Fails, Loads, Stores, WakesOne};
use super::schedules::{reads, tells};
use linked_list_allocator::LocalHeap;
use model_events::hold::HoldKind::{self, Write};
use model_room::event::{RoomEvent, RoomInput};
use model_room::fault::{RoomFault, RoomPlayFault};
use model_room::laws::{
    at_every_prefix, calls_are_as_of_one, each_object_runs, one_call_at_a_time,
};
use model_room::playing::play;
use model_room::room::Room;
use std::alloc::{AllocError, Global};
use std::test::Fail;
use sync_steps::steps::Answer::{Done, Number, Success};
use sync_steps::steps::Input::{Begin, Go};
use sync_steps::steps::Then::{Answers, GoesOn, Waits};
use sync_steps::steps::Word::State;
use sync_steps::steps::{Call, Input, Object, StepFault, Then};

const OBJECTS: [Object<u64>; 3] = [Object::Mutex, Object::Semaphore(5), Object::Mutex];

/// A party, an object, and what is asked of the party there; what the event did, how the call stands, and where the party then has one.
type Row = (usize, usize, Input<u64>, Did, Then<u64>, Option<usize>);

/// The first party takes both mutexes and leaves the first to the second party, which has looked at the semaphore.
const ROWS: [Row; 12] = [
    (0, 0, Begin(Call::TryLock), Begins, GoesOn, Some(0)),
    (0, 0, Go, Exchanges(State, 0, 1), Answers(Success), None),
    (1, 1, Begin(Call::Value), Begins, GoesOn, Some(1)),
    (0, 2, Begin(Call::TryLock), Begins, GoesOn, Some(2)),
    (0, 2, Go, Exchanges(State, 0, 1), Answers(Success), None),
    (1, 1, Go, Loads(State, 5), Answers(Number(5)), None),
    (1, 0, Begin(Call::Lock), Begins, GoesOn, Some(0)),
    (1, 0, Go, Fails(State, 0, 1, 1), GoesOn, Some(0)),
    (0, 0, Begin(Call::Unlock), Begins, GoesOn, Some(0)),
    (0, 0, Go, Stores(State, 0), GoesOn, Some(0)),
    (1, 0, Go, Exchanges(State, 0, 1), Answers(Success), None),
    (0, 0, Go, WakesOne, Answers(Done), None),
];

/// What each object then reads, and what the two parties hold there.
const READS: [([u64; 7], [Option<HoldKind>; 2]); 3] = [
    ([1, 0, 0, 0, 0, 0, 1], [None, Some(Write)]),
    ([5, 0, 0, 0, 0, 0, 0], [None, None]),
    ([1, 0, 0, 0, 0, 0, 0], [Some(Write), None]),
];

/// A party, an object and an input, and why the room refuses it.
type Refusal = (usize, usize, Input<u64>, RoomFault);

/// After all rows.
const REFUSED: [Refusal; 7] = [
    (9, 3, Go, RoomFault::NoObject),
    (0, 3, Begin(Call::Lock), RoomFault::NoObject),
    (2, 0, Go, RoomFault::Step(StepFault::NoParty)),
    (1, 0, Begin(Call::Lock), RoomFault::Step(StepFault::Holding)),
    (0, 2, Begin(Call::Lock), RoomFault::Step(StepFault::Holding)),
    (
        0,
        0,
        Begin(Call::Unlock),
        RoomFault::Step(StepFault::NoHold),
    ),
    (0, 2, Go, RoomFault::Step(StepFault::Idle)),
];

/// After four rows: the first party holds the first mutex and has a call at the other, the second party one at the semaphore.
const REFUSED_BUSY: [Refusal; 6] = [
    (0, 0, Begin(Call::Unlock), RoomFault::Step(StepFault::Busy)),
    (0, 1, Begin(Call::Value), RoomFault::Step(StepFault::Busy)),
    (0, 2, Begin(Call::Lock), RoomFault::Step(StepFault::Busy)),
    (1, 0, Begin(Call::Lock), RoomFault::Step(StepFault::Busy)),
    (0, 0, Go, RoomFault::Step(StepFault::Idle)),
    (1, 2, Go, RoomFault::Step(StepFault::Idle)),
];

/// Whether an event tells what the row says.
fn is_told(event: &RoomEvent<u64>, row: &Row) -> bool {
    let (party, object, _, did, then, _) = row;
    event.object == *object && tells(&event.event, *party, did, then)
}

/// The first row that a step does not tell, or after which the party's call is elsewhere.
fn stepped_otherwise(room: &mut Room<u64>, rows: &[Row]) -> Option<usize> {
    let mut at = 0usize;
    for row in rows {
        match room.step(row.0, row.1, row.2) {
            Ok(event) if is_told(&event, row) && room.seat(row.0) == row.5 => {}
            _ => return Some(at),
        }
        at = at.wrapping_add(1);
    }
    None
}

/// Whether the room refuses each of these. It stays as it is.
fn refuses(room: &mut Room<u64>, refusals: &[Refusal]) -> bool {
    for (party, object, input, fault) in refusals {
        match room.step(*party, *object, *input) {
            Err(found) if found == *fault => {}
            _ => return false,
        }
    }
    true
}

/// Whether each object reads so, and no other is there.
fn stands(room: &Room<u64>, objects: &[([u64; 7], [Option<HoldKind>; 2])]) -> bool {
    let mut at = 0usize;
    for (words, holds) in objects {
        match room.machine(at) {
            Some(machine)
                if reads(machine) == *words && [machine.hold(0), machine.hold(1)] == *holds => {}
            _ => return false,
        }
        at = at.wrapping_add(1);
    }
    room.machine(at).is_none() && room.seat(2).is_none()
}

#[test]
fn parties_share_several_objects(rt: HostRuntime) -> Result<(), Fail> {
    let mut room = Room::new(rt.alloc(), &OBJECTS, 2)?;
    assert_eq!(rt; stepped_otherwise(&mut room, &ROWS[..4]), None);
    assert!(rt; refuses(&mut room, &REFUSED_BUSY));
    assert_eq!(rt; stepped_otherwise(&mut room, &ROWS[4..]), None);
    assert!(rt; refuses(&mut room, &REFUSED));
    assert!(rt; stands(&room, &READS));
    each_object_runs::<u64>();
    at_every_prefix::<u64>();
    one_call_at_a_time::<u64>();
    calls_are_as_of_one::<u64>();
    Ok(())
}

/// The inputs of these rows.
fn inputs_of(alloc: Global, rows: &[Row]) -> Result<Vec<RoomInput<u64>>, AllocError> {
    let mut inputs = Vec::new(alloc);
    for (party, object, input, ..) in rows {
        inputs.push(RoomInput {
            party: *party,
            object: *object,
            input: *input,
        })?;
    }
    Ok(inputs)
}

/// Whether the events tell these rows, one for each.
fn are_told(events: &[RoomEvent<u64>], rows: &[Row]) -> bool {
    let mut all = events.len() == rows.len();
    for (event, row) in events.iter().zip(rows) {
        all = all && is_told(event, row);
    }
    all
}

/// Plays these rows in one call. Whether its events tell them.
fn plays(alloc: Global, room: &mut Room<u64>, rows: &[Row]) -> Result<bool, AllocError> {
    match play(alloc, room, &inputs_of(alloc, rows)?) {
        Ok(events) => Ok(are_told(&events, rows)),
        Err(_) => Ok(false),
    }
}

#[test]
fn a_schedule_of_several_is_played_in_pieces(rt: HostRuntime) -> Result<(), Fail> {
    for at in 0..=ROWS.len() {
        let (first, last) = ROWS.split_at(at);
        let mut room = Room::new(rt.alloc(), &OBJECTS, 2)?;
        assert!(rt; plays(rt.alloc(), &mut room, first)?);
        assert!(rt; plays(rt.alloc(), &mut room, last)?);
        assert!(rt; stands(&room, &READS));
    }
    Ok(())
}

#[test]
fn a_room_keeps_the_events_before_a_fault(rt: HostRuntime) -> Result<(), Fail> {
    let mut room = Room::new(rt.alloc(), &OBJECTS, 2)?;
    let mut inputs = inputs_of(rt.alloc(), &ROWS)?;
    inputs.push(RoomInput {
        party: 1,
        object: 2,
        input: Begin(Call::Unlock),
    })?;
    let Err(RoomPlayFault::Step { done, fault }) = play(rt.alloc(), &mut room, &inputs) else {
        return Err("no fault")?;
    };
    assert!(rt; are_told(&done, &ROWS));
    assert_eq!(rt; fault, RoomFault::Step(StepFault::NoHold));
    assert!(rt; stands(&room, &READS));
    Ok(())
}

/// Strides of the second party: the most steps, how many it makes, and how its call then stands.
const STRIDES: [(u64, u64, Then<u64>); 3] = [
    (3, 3, GoesOn),
    (20000, 9997, GoesOn),
    (20000, 1, Waits(1)),
];

/// Whether the second party makes these strides at the third object. Each step finds it locked.
fn makes(room: &mut Room<u64>) -> bool {
    for (limit, times, then) in &STRIDES {
        match room.stride(1, 2, *limit) {
            Ok(made)
                if made.times == *times
                    && is_told(
                        &made.event,
                        &(1, 2, Go, Fails(State, 0, 1, 1), *then, Some(2)),
                    )
                    && room.seat(1) == Some(2) => {}
            _ => return false,
        }
    }
    true
}

#[test]
fn a_spin_of_a_room_is_one_stride(rt: HostRuntime) -> Result<(), Fail> {
    let mut room = Room::new(rt.alloc(), &OBJECTS, 2)?;
    assert!(rt; plays(rt.alloc(), &mut room, &ROWS[3..5])?);
    assert!(rt; room.step(1, 2, Begin(Call::Lock)).is_ok());
    assert!(rt; makes(&mut room));
    let refused = [
        room.stride(1, 2, 1).err(),
        room.stride(1, 0, 1).err(),
        room.stride(2, 0, 1).err(),
        room.stride(2, 3, 1).err(),
    ];
    assert_eq!(rt;
        refused,
        [
            Some(RoomFault::Step(StepFault::WaitingForAnswer)),
            Some(RoomFault::Step(StepFault::Idle)),
            Some(RoomFault::Step(StepFault::NoParty)),
            Some(RoomFault::NoObject),
        ]
    );
    Ok(())
}

/// Whether the heap has room for the objects, and then for the events of all rows. Without room the objects stay as they are.
fn has_room(alloc: Global, heap: &LocalHeap, blocks: usize) -> Result<bool, Fail> {
    let Ok(mut room) = Room::<u64, _>::new(heap, &OBJECTS, 2) else {
        return Ok(false);
    };
    let inputs = inputs_of(alloc, &ROWS)?;
    match play(heap, &mut room, &inputs) {
        Ok(events) => Ok(are_told(&events, &ROWS)),
        Err(RoomPlayFault::Memory) if room.seat(0).is_none() => Ok(false),
        Err(_) => Err(("at so many blocks", blocks))?,
    }
}

#[test]
fn a_room_that_finds_no_memory(rt: HostRuntime) -> Result<(), Fail> {
    let mut found = false;
    for blocks in 0..512usize {
        let heap = LocalHeap::new(rt.alloc(), 16 * blocks)?;
        let has = has_room(rt.alloc(), &heap, blocks)?;
        assert!(rt; heap.used() == 0 && (has || !found));
        found = has;
    }
    assert!(rt; found);
    Ok(())
}
