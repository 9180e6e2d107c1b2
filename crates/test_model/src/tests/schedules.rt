//! Schedules, row by row: what is asked of a party, and what is told of its event.
ghost use Rattle.std.specs.Prelude.{◌≤◌, length};

use model_events::hold::HoldKind;
use std::alloc::{AllocError, Global};
use std::test::Fail;
use sync_steps::atomic::internal::AtomicInteger;
use sync_steps::steps::{
    Act, Answer, Event, Input, Machine, Object, StepFault, Then, Wake, Word, play,
};

/// What an event did. Of a word it tells what it found before what it put.
#[derive(Copy, PartialEq)]
pub enum Did {
    /// A call began.
    Begins,
    Loads(Word, u64),
    Stores(Word, u64),
    Swaps(Word, u64, u64),
    Adds(Word, u64, u64),
    /// An exchange of the first for the second, which is done.
    Exchanges(Word, u64, u64),
    /// The same, which found the third.
    Fails(Word, u64, u64, u64),
    /// An exchange that is told to be done, though it found another value.
    Wrong,
    WakesOne,
    WakesAll,
    /// The wait closure answered, or the choice closure.
    Decides,
    /// The closure of a once or a lazy value ended.
    Ends,
    /// The value of a lazy cell was read: its low word.
    Reads(u64),
}

impl Clone for Did {
    fn clone(&self) -> Result<Self, AllocError> {
        Ok(*self)
    }
}

/// What an act did, as a row tells it.
fn did_by<T: AtomicInteger>(act: &Act<T>) -> Did {
    match act {
        Act::Begun(_) => Did::Begins,
        Act::Load { word, seen } => Did::Loads(*word, *seen),
        Act::Store { word, put } => Did::Stores(*word, *put),
        Act::Swap { word, old, put } => Did::Swaps(*word, *old, *put),
        Act::Add { word, old, put } => Did::Adds(*word, *old, *put),
        Act::Exchange {
            word,
            from,
            to,
            found,
            done: true,
        } if *found == *from => Did::Exchanges(*word, *from, *to),
        Act::Exchange {
            word,
            from,
            to,
            found,
            done: false,
        } => Did::Fails(*word, *from, *to, *found),
        Act::Exchange { .. } => Did::Wrong,
        Act::Woke(Wake::One) => Did::WakesOne,
        Act::Woke(Wake::All) => Did::WakesAll,
        Act::Answered(_) | Act::Chosen(_) => Did::Decides,
        Act::Ended => Did::Ends,
        Act::ReadCell(value) => Did::Reads(value.to_words().0),
    }
}

/// How a call stands: a number for what it tells, and the words of the value that it tells. Numbers compare cheaper than patterns.
fn stand_of<T: AtomicInteger>(then: &Then<T>) -> (u64, (u64, u64)) {
    match then {
        Then::GoesOn => (0, (0, 0)),
        Then::Waits(seen) => (1, (*seen, 0)),
        Then::Chooses(old) => (2, old.to_words()),
        Then::Answers(Answer::Success) => (3, (0, 0)),
        Then::Answers(Answer::Interrupted) => (4, (0, 0)),
        Then::Answers(Answer::InterruptedHeld) => (5, (0, 0)),
        Then::Answers(Answer::Done) => (6, (0, 0)),
        Then::Answers(Answer::Ok) => (7, (0, 0)),
        Then::Answers(Answer::Full) => (8, (0, 0)),
        Then::Answers(Answer::Number(number)) => (9, (*number, 0)),
        Then::Answers(Answer::Flag(false)) => (10, (0, 0)),
        Then::Answers(Answer::Flag(true)) => (10, (1, 0)),
        Then::Answers(Answer::Value(value)) => (11, value.to_words()),
        Then::Answers(Answer::OkOld(old)) => (12, old.to_words()),
        Then::Answers(Answer::ErrOld(old)) => (13, old.to_words()),
    }
}

/// Whether an event tells this of a party.
pub fn tells<T: AtomicInteger>(event: &Event<T>, party: usize, did: &Did, then: &Then<T>) -> bool {
    event.party == party && did_by(&event.act) == *did && stand_of(&event.then) == stand_of(then)
}

/// A row: a party, its input, which comes so often, and what the last event of these tells. After each but that the call goes on by itself.
pub type Row<T> = (usize, Input<T>, u64, Did, Then<T>);

/// The first row that these events do not tell, if there is one; what comes after all rows counts as a row.
pub fn told_otherwise<T: AtomicInteger>(events: &[Event<T>], rows: &[Row<T>]) -> Option<usize> {
    let mut left = events;
    let mut at = 0usize;
    for (party, _, times, did, then) in rows {
        for _ in 1..*times {
            match left {
                [event, rest @ ..] if event.party == *party && matches!(event.then, Then::GoesOn) =>
                    {
                        left = rest;
                    }
                _ => return Some(at),
            }
        }
        match left {
            [event, rest @ ..] if tells(event, *party, did, then) => left = rest,
            _ => return Some(at),
        }
        at = at.wrapping_add(1);
    }
    if left.is_empty() { None } else { Some(at) }
}

/// Whether these are the same events.
fn are_same<T: AtomicInteger>(some: &[Event<T>], others: &[Event<T>]) -> bool {
    let mut same = some.len() == others.len();
    for (one, other) in some.iter().zip(others) {
        same = same && tells(one, other.party, &did_by(&other.act), &other.then);
    }
    same
}

/// The inputs of the rows.
fn inputs_of<T: AtomicInteger>(
    alloc: Global,
    rows: &[Row<T>],
) -> Result<Vec<(usize, Input<T>)>, AllocError> {
    let mut inputs = Vec::new(alloc);
    for (party, input, times, _, _) in rows {
        for _ in 0..*times {
            inputs.push((*party, *input))?;
        }
    }
    Ok(inputs)
}

/// Plays the inputs one by one.
fn step_each<T: AtomicInteger>(
    alloc: Global,
    machine: &mut Machine<T>,
    inputs: &[(usize, Input<T>)],
) -> Result<Vec<Event<T>>, Fail> {
    let mut events = Vec::new(alloc);
    for (party, input) in inputs {
        match machine.step(*party, *input) {
            Ok(event) => events.push(event)?,
            Err(fault) => Err(fault)?,
        }
    }
    Ok(events)
}

/// Plays the inputs in one call.
pub fn play_all<T: AtomicInteger>(
    alloc: Global,
    machine: &mut Machine<T>,
    inputs: &[(usize, Input<T>)],
) -> Result<Vec<Event<T>>, Fail> {
    match play(alloc, machine, inputs) {
        Ok(events) => Ok(events),
        Err(_) => Err("refused")?,
    }
}

/// Plays the inputs in two calls; at 0 the second plays all.
fn play_parted<T: AtomicInteger>(
    alloc: Global,
    machine: &mut Machine<T>,
    inputs: &[(usize, Input<T>)],
    at: usize,
) -> Result<Vec<Event<T>>, Fail>
    requires { at ≤ length inputs.now }
{
    let mut events = play_all(alloc, machine, &inputs[..at])?;
    for event in &play_all(alloc, machine, &inputs[at..])? {
        events.push(*event)?;
    }
    Ok(events)
}

/// Plays each input in a call of its own.
fn play_alone<T: AtomicInteger>(
    alloc: Global,
    machine: &mut Machine<T>,
    inputs: &[(usize, Input<T>)],
) -> Result<Vec<Event<T>>, Fail> {
    let mut events = Vec::new(alloc);
    for input in inputs.chunks(1) {
        for event in &play_all(alloc, machine, input)? {
            events.push(*event)?;
        }
    }
    Ok(events)
}

/// What a machine tells of itself: `State`, `Counter`, `Waiters`, `Value`, `Low` and `High`, and how many exchanges failed.
pub fn reads<T: AtomicInteger>(machine: &Machine<T>) -> [u64; 7] {
    let (low, high) = machine.low_high();
    [
        machine.word(),
        machine.counter(),
        machine.waiters(),
        machine.value(),
        low,
        high,
        machine.failed(),
    ]
}

/// A schedule: a machine, and what is asked of it, part by part.
#[derive(Drop)]
pub struct Schedule<'a, T> {
    pub object: Object<T>,
    pub parties: usize,
    pub parts: &'a [Part<'a, T>],
}

/// A part of a schedule, and how the machine stands after it.
#[derive(Drop)]
pub struct Part<'a, T> {
    pub rows: &'a [Row<T>],
    /// What the machine reads.
    pub reads: [u64; 7],
    /// What parties hold.
    pub holds: &'a [(usize, Option<HoldKind>)],
    /// Which inputs it refuses.
    pub refuses: &'a [(usize, Input<T>, StepFault)],
}

/// Whether a machine stands so. It stays so.
fn stands<T: AtomicInteger>(machine: &mut Machine<T>, part: &Part<T>) -> bool {
    for (party, input, fault) in part.refuses {
        match machine.step(*party, *input) {
            Err(found) if found == *fault => {}
            _ => return false,
        }
    }
    for (party, hold) in part.holds {
        if machine.hold(*party) != *hold {
            return false;
        }
    }
    reads(machine) == part.reads
}

/// How the inputs of a part are played.
#[derive(Clone, Copy, Debug)]
pub enum How {
    OneByOne,
    /// In a call for each input.
    Alone,
    /// In two calls, which part there, or at the end.
    Parted(usize),
}

/// Plays a part: its events, of which each row tells what it says.
fn play_part<T: AtomicInteger>(
    alloc: Global,
    machine: &mut Machine<T>,
    part: &Part<T>,
    how: How,
) -> Result<Vec<Event<T>>, Fail> {
    let inputs = inputs_of(alloc, part.rows)?;
    let events = match how {
        How::Parted(at) => play_parted(alloc, machine, &inputs, at.min(inputs.len()))?,
        How::OneByOne => step_each(alloc, machine, &inputs)?,
        How::Alone => play_alone(alloc, machine, &inputs)?,
    };
    match told_otherwise(&events, part.rows) {
        Some(row) => Err(("it tells otherwise", how, "at row", row))?,
        None if !stands(machine, part) => Err((
            "it stands otherwise",
            how,
            "after row",
            part.rows.len(),
        ))?,
        None => Ok(events),
    }
}

/// Plays a schedule: its events.
pub fn events_of<T: AtomicInteger>(
    alloc: Global,
    schedule: &Schedule<T>,
    how: How,
) -> Result<Vec<Event<T>>, Fail> {
    let mut machine = Machine::<T>::new(alloc, schedule.object, schedule.parties)?;
    let mut events = Vec::new(alloc);
    for part in schedule.parts {
        for event in &play_part(alloc, &mut machine, part, how)? {
            events.push(*event)?;
        }
    }
    Ok(events)
}

/// Plays a schedule step by step, in pieces that part at each input, and in two that part at one: at each in turn, where a long part has its
/// first ten alone. Each time it has the same events, as it says.
pub fn plays<T: AtomicInteger>(alloc: Global, schedule: &Schedule<T>) -> Result<(), Fail> {
    let events = events_of(alloc, schedule, How::OneByOne)?;
    let cuts = if events.len() < 100 { events.len() } else { 10 };
    if !are_same(&events, &events_of(alloc, schedule, How::Alone)?) {
        return Err("it tells otherwise, parted at each input")?;
    }
    for at in 0..cuts {
        let parted = events_of(alloc, schedule, How::Parted(at))?;
        if !are_same(&events, &parted) {
            return Err(("it tells otherwise, parted at", at))?;
        }
    }
    Ok(())
}
