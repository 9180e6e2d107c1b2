//! A spin is one stride, and ends where its call asks, has what it wants, or may make no more steps.
use super::schedules::Did::{self, Fails, Swaps};
use super::schedules::{play_all, reads, tells};
use std::alloc::Global;
use std::test::Fail;
use sync_steps::atomic::internal::AtomicInteger;
use sync_steps::steps::Input::{Begin, Go};
use sync_steps::steps::Then::{GoesOn, Waits};
use sync_steps::steps::Word::State;
use sync_steps::steps::{Call, Input, Machine, Object, StepFault, Then};

/// A stride: how many steps it may make, how many it makes, what each does, how the call then stands, and how many exchanges have failed.
type Row<T> = (u64, u64, Did, Then<T>, u64);

/// The first party takes the lock, and the second begins a call for it.
const BEGINS: [(usize, Input<u64>); 3] = [
    (0, Begin(Call::TryLock)),
    (0, Go),
    (1, Begin(Call::Lock)),
];

/// Whether the second party makes this stride.
fn makes<T: AtomicInteger>(machine: &mut Machine<T>, row: &Row<T>) -> bool {
    let (limit, times, did, then, failed) = row;
    if *limit == 0 {
        return false;
    }
    match machine.stride(1, *limit) {
        Ok(made) => {
            made.times == *times && tells(&made.event, 1, did, then) && machine.failed() == *failed
        }
        Err(_) => false,
    }
}

/// Why a stride of a party is refused, where it is.
fn refusal<T: AtomicInteger>(machine: &mut Machine<T>, party: usize) -> Option<StepFault> {
    machine.stride(party, 20000).err()
}

/// Strides of the second party after these inputs, as the rows say. What the machine then reads, and why it refuses a further stride of
/// this party, and one of a party that is not there.
fn strides<T: AtomicInteger>(
    alloc: Global,
    object: Object<T>,
    begins: &[(usize, Input<T>)],
    rows: &[Row<T>],
) -> Result<([u64; 7], [Option<StepFault>; 2]), Fail> {
    let mut machine = Machine::<T>::new(alloc, object, 2)?;
    play_all(alloc, &mut machine, begins)?;
    for row in rows {
        if !makes(&mut machine, row) {
            return Err(("it tells otherwise, of steps at most", row.0))?;
        }
    }
    let read = reads(&machine);
    Ok((read, [refusal(&mut machine, 1), refusal(&mut machine, 2)]))
}

#[test]
fn a_spin_is_one_stride(rt: HostRuntime) -> Result<(), Fail> {
    let rows = [
        (20000, 10000, Fails(State, 0, 1, 1), GoesOn, 10000),
        (20000, 1, Fails(State, 0, 1, 1), Waits(1), 10001),
    ];
    let (read, refused) = strides(rt.alloc(), Object::Mutex, &BEGINS, &rows)?;
    assert_eq!(rt; read, [1, 0, 0, 0, 0, 0, 10001]);
    assert_eq!(rt;
        refused,
        [Some(StepFault::WaitingForAnswer), Some(StepFault::NoParty)]
    );
    Ok(())
}

#[test]
fn a_stride_makes_no_more_steps_than_it_may(rt: HostRuntime) -> Result<(), Fail> {
    let rows = [
        (1, 1, Fails(State, 0, 1, 1), GoesOn, 1),
        (3, 3, Fails(State, 0, 1, 1), GoesOn, 4),
        (20000, 9996, Fails(State, 0, 1, 1), GoesOn, 10000),
    ];
    let (read, refused) = strides(rt.alloc(), Object::Mutex, &BEGINS, &rows)?;
    assert_eq!(rt; read, [1, 0, 0, 0, 0, 0, 10000]);
    assert_eq!(rt; refused, [None, Some(StepFault::NoParty)]);
    Ok(())
}

#[test]
fn swaps_are_one_stride(rt: HostRuntime) -> Result<(), Fail> {
    let rows = [(100000, 100000, Swaps(State, 1, 1), GoesOn, 0)];
    let (read, refused) = strides(rt.alloc(), Object::Spin, &BEGINS, &rows)?;
    assert_eq!(rt; read, [1, 0, 0, 0, 0, 0, 0]);
    assert_eq!(rt; refused, [None, Some(StepFault::NoParty)]);
    Ok(())
}
