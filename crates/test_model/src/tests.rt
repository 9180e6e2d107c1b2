//! Each public call of the model once, with ample memory, and schedules in pieces. Texts are played by `./test texts`.
mod atomic;
mod growths;
mod objects;
mod own;
mod rooms;
mod schedules;
mod strides;

use Did::{
    Adds, Begins, Decides, Ends, Exchanges, Fails, Loads, Reads, Stores, Swaps, WakesAll, WakesOne,
};
use model_events::hold::HoldKind::{Read, Write};
use schedules::{Did, How, Part, Row, Schedule, events_of, plays, reads, told_otherwise};
use std::alloc::{AllocError, Global};
use std::test::Fail;
use sync_steps::WaitAction;
use sync_steps::steps::Answer::{Flag, Interrupted, InterruptedHeld, Number, Success};
use sync_steps::steps::Input::{Begin, Go};
use sync_steps::steps::Then::{Answers, GoesOn, Waits};
use sync_steps::steps::Word::{Counter, State, Value, Waiters};
use sync_steps::steps::{
    Act, Answer, Call, Event, Input, Machine, Object, PlayFault, StepFault, at_every_prefix, play,
};

const MUTEX: Schedule<u64> = Schedule {
    object: Object::Mutex,
    parties: 2,
    parts: &[Part {
        rows: &[
            (0, Begin(Call::TryLock), 1, Begins, GoesOn),
            (0, Go, 1, Exchanges(State, 0, 1), Answers(Success)),
            (1, Begin(Call::TryLock), 1, Begins, GoesOn),
            (1, Go, 1, Fails(State, 0, 1, 1), Answers(Interrupted)),
        ],
        reads: [1, 0, 0, 0, 0, 0, 1],
        holds: &[(0, Some(Write)), (1, None)],
        refuses: &[
            (1, Begin(Call::Unlock), StepFault::NoHold),
            (2, Go, StepFault::NoParty),
        ],
    }],
};

#[test]
fn a_mutex_is_locked_and_refused(rt: HostRuntime) -> Result<(), Fail> {
    plays(rt.alloc(), &MUTEX)
}

/// What `play` did before it was refused.
const BEFORE: [Row<u64>; 2] = [
    (0, Begin(Call::Value), 1, Begins, GoesOn),
    (0, Go, 1, Loads(State, 5), Answers(Number(5))),
];

#[test]
fn a_fault_leaves_the_events_before_it(rt: HostRuntime) -> Result<(), Fail> {
    let mut machine = Machine::<u64>::new(rt.alloc(), Object::Semaphore(5), 1)?;
    let schedule = [
        (0, Begin(Call::Value)),
        (0, Go),
        (0, Input::Answer(WaitAction::Abort)),
        (0, Go),
    ];
    let Err(PlayFault::Step { done, fault }) = play(rt.alloc(), &mut machine, &schedule) else {
        return Err("no fault")?;
    };
    let told = (fault, told_otherwise(&done, &BEFORE), reads(&machine));
    assert_eq!(rt; told, (StepFault::NotWaiting, None, [5, 0, 0, 0, 0, 0, 0]));
    Ok(())
}

const NOBODY: Schedule<u64> = Schedule {
    object: Object::Mutex,
    parties: 0,
    parts: &[Part {
        rows: &[],
        reads: [0; 7],
        holds: &[(0, None)],
        refuses: &[(0, Go, StepFault::NoParty)],
    }],
};

#[test]
fn an_empty_machine_and_the_law(rt: HostRuntime) -> Result<(), Fail> {
    plays(rt.alloc(), &NOBODY)?;
    at_every_prefix::<u64>();
    Ok(())
}

const THOUSAND: Schedule<u64> = Schedule {
    object: Object::Mutex,
    parties: 1000,
    parts: &[Part {
        rows: &[
            (999, Begin(Call::Lock), 1, Begins, GoesOn),
            (999, Go, 1, Exchanges(State, 0, 1), Answers(Success)),
            (0, Begin(Call::TryLock), 1, Begins, GoesOn),
            (0, Go, 1, Fails(State, 0, 1, 1), Answers(Interrupted)),
        ],
        reads: [1, 0, 0, 0, 0, 0, 1],
        holds: &[(999, Some(Write)), (0, None)],
        refuses: &[
            (999, Begin(Call::TryLock), StepFault::Holding),
            (1000, Go, StepFault::NoParty),
        ],
    }],
};

#[test]
fn the_last_of_a_thousand_parties_locks(rt: HostRuntime) -> Result<(), Fail> {
    plays(rt.alloc(), &THOUSAND)
}

/// A round, in which the party locks a mutex and unlocks it.
const ROUND: [Row<u64>; 5] = [
    (0, Begin(Call::TryLock), 1, Begins, GoesOn),
    (0, Go, 1, Exchanges(State, 0, 1), Answers(Success)),
    (0, Begin(Call::Unlock), 1, Begins, GoesOn),
    (0, Go, 1, Stores(State, 0), GoesOn),
    (0, Go, 1, WakesOne, Answers(Answer::Done)),
];

/// So many rounds.
fn rounds(alloc: Global, count: usize) -> Result<Vec<Row<u64>>, AllocError> {
    let mut rows = Vec::new(alloc);
    for _ in 0..count {
        rows.extend_from_slice(&ROUND)?;
    }
    Ok(rows)
}

/// In how many rounds of these events the party first tries to lock.
fn tried_in(events: &[Event<u64>]) -> usize {
    let mut tried = 0usize;
    for round in events.chunks(5) {
        match round {
            [first, ..] if matches!(first.act, Act::Begun(Call::TryLock)) => {
                tried = tried.wrapping_add(1);
            }
            _ => {}
        }
    }
    tried
}

/// Plays so many rounds in one call: in how many the party first tries to lock, and how many events they have.
fn play_rounds(alloc: Global, count: usize) -> Result<(usize, usize), Fail> {
    let rows = rounds(alloc, count)?;
    let part = Part {
        rows: &rows,
        reads: [0; 7],
        holds: &[(0, None)],
        refuses: &[],
    };
    let schedule = Schedule {
        object: Object::Mutex,
        parties: 1,
        parts: &[part],
    };
    let events = events_of(alloc, &schedule, How::Parted(0))?;
    Ok((tried_in(&events), events.len()))
}

#[test]
fn long_schedules_are_played_in_one_call(rt: HostRuntime) -> Result<(), Fail> {
    for (count, events) in [(21, 105), (20000, 100000)] {
        assert_eq!(rt; play_rounds(rt.alloc(), count)?, (count, events));
    }
    Ok(())
}

const GIVES_UP: Schedule<u64> = Schedule {
    object: Object::Mutex,
    parties: 2,
    parts: &[
        Part {
            rows: &[
                (0, Begin(Call::TryLock), 1, Begins, GoesOn),
                (0, Go, 1, Exchanges(State, 0, 1), Answers(Success)),
                (1, Begin(Call::Lock), 1, Begins, GoesOn),
            ],
            reads: [1, 0, 0, 0, 0, 0, 0],
            holds: &[(0, Some(Write))],
            refuses: &[],
        },
        Part {
            rows: &[(1, Go, 10000, Fails(State, 0, 1, 1), GoesOn)],
            reads: [1, 0, 0, 0, 0, 0, 10000],
            holds: &[],
            refuses: &[],
        },
        Part {
            rows: &[
                (1, Go, 1, Fails(State, 0, 1, 1), Waits(1)),
                (1, Input::Answer(WaitAction::Continue), 1, Decides, GoesOn),
                (1, Go, 1, Fails(State, 0, 1, 1), Waits(1)),
                (1, Input::Answer(WaitAction::Abort), 1, Decides, GoesOn),
                (1, Go, 1, Fails(State, 0, 1, 1), Answers(Interrupted)),
            ],
            reads: [1, 0, 0, 0, 0, 0, 10003],
            holds: &[(1, None)],
            refuses: &[],
        },
    ],
};

#[test]
fn a_lock_that_gives_up_after_two_stands(rt: HostRuntime) -> Result<(), Fail> {
    plays(rt.alloc(), &GIVES_UP)
}

const HOLDS: Schedule<u64> = Schedule {
    object: Object::ReaderLock,
    parties: 3,
    parts: &[
        Part {
            rows: &[],
            reads: [0; 7],
            holds: &[(1, None)],
            refuses: &[],
        },
        Part {
            rows: &[
                (1, Begin(Call::ReadLock), 1, Begins, GoesOn),
                (1, Go, 1, Loads(State, 0), GoesOn),
                (1, Go, 1, Exchanges(State, 0, 1), Answers(Success)),
            ],
            reads: [1, 0, 0, 0, 0, 0, 0],
            // There is no fourth party.
            holds: &[(0, None), (1, Some(Read)), (3, None)],
            refuses: &[],
        },
        Part {
            rows: &[
                (1, Begin(Call::Unlock), 1, Begins, GoesOn),
                (1, Go, 1, Adds(State, 1, 0), GoesOn),
                (1, Go, 1, WakesOne, Answers(Answer::Done)),
                (2, Begin(Call::TryWriteLock), 1, Begins, GoesOn),
                (2, Go, 1, Exchanges(State, 0, u64::MAX), Answers(Success)),
            ],
            reads: [u64::MAX, 0, 0, 0, 0, 0, 0],
            holds: &[(1, None), (2, Some(Write))],
            refuses: &[],
        },
    ],
};

#[test]
fn a_hold_is_told_of_the_party_that_has_it(rt: HostRuntime) -> Result<(), Fail> {
    plays(rt.alloc(), &HOLDS)
}

const READERS: Schedule<u64> = Schedule {
    object: Object::ReaderLock,
    parties: 3,
    parts: &[
        Part {
            rows: &[
                (0, Begin(Call::ReadLock), 1, Begins, GoesOn),
                (0, Go, 1, Loads(State, 0), GoesOn),
                (0, Go, 1, Exchanges(State, 0, 1), Answers(Success)),
                (1, Begin(Call::TryReadLock), 1, Begins, GoesOn),
                (1, Go, 1, Loads(State, 1), GoesOn),
                (1, Go, 1, Exchanges(State, 1, 2), Answers(Success)),
            ],
            reads: [2, 0, 0, 0, 0, 0, 0],
            holds: &[(0, Some(Read)), (1, Some(Read))],
            refuses: &[],
        },
        Part {
            rows: &[
                (2, Begin(Call::TryWriteLock), 1, Begins, GoesOn),
                (2, Go, 1, Fails(State, 0, u64::MAX, 2), Answers(Interrupted)),
                (0, Begin(Call::Unlock), 1, Begins, GoesOn),
                (0, Go, 1, Adds(State, 2, 1), GoesOn),
                (0, Go, 1, WakesOne, Answers(Answer::Done)),
                (1, Begin(Call::Unlock), 1, Begins, GoesOn),
                (1, Go, 1, Adds(State, 1, 0), GoesOn),
                (1, Go, 1, WakesOne, Answers(Answer::Done)),
                (2, Begin(Call::WriteLock), 1, Begins, GoesOn),
                (2, Go, 1, Exchanges(State, 0, u64::MAX), Answers(Success)),
            ],
            reads: [u64::MAX, 0, 0, 0, 0, 0, 1],
            holds: &[(2, Some(Write))],
            refuses: &[
                (2, Begin(Call::TryReadLock), StepFault::Holding),
                (0, Begin(Call::Unlock), StepFault::NoHold),
                (0, Begin(Call::Lock), StepFault::OtherObject),
            ],
        },
    ],
};

#[test]
fn readers_leave_one_by_one_and_a_writer_enters(rt: HostRuntime) -> Result<(), Fail> {
    plays(rt.alloc(), &READERS)
}

const BARRIER: Schedule<u64> = Schedule {
    object: Object::Barrier(2),
    parties: 3,
    parts: &[Part {
        rows: &[
            (0, Begin(Call::Wait), 1, Begins, GoesOn),
            (0, Go, 1, Loads(State, 0), GoesOn),
            (0, Go, 1, Exchanges(State, 0, 1), GoesOn),
            (0, Go, 1, Loads(State, 1), GoesOn),
            (2, Begin(Call::Wait), 1, Begins, GoesOn),
            (2, Go, 1, Loads(State, 1), GoesOn),
            (2, Go, 1, Exchanges(State, 1, 4294967296), GoesOn),
            (2, Go, 1, WakesAll, Answers(Answer::Ok)),
            (0, Go, 1, Loads(State, 4294967296), Answers(Answer::Ok)),
        ],
        reads: [4294967296, 0, 0, 0, 0, 0, 0],
        holds: &[],
        refuses: &[],
    }],
};

#[test]
fn a_barrier_opens_in_one_piece_and_in_two(rt: HostRuntime) -> Result<(), Fail> {
    plays(rt.alloc(), &BARRIER)
}

const ONCE: Schedule<u64> = Schedule {
    object: Object::Once,
    parties: 3,
    parts: &[Part {
        rows: &[
            (1, Begin(Call::CallOnce), 1, Begins, GoesOn),
            (1, Go, 1, Loads(State, 0), GoesOn),
            (1, Go, 1, Exchanges(State, 0, 1), GoesOn),
            (0, Begin(Call::CallOnce), 1, Begins, GoesOn),
            (0, Go, 1, Loads(State, 1), GoesOn),
            (0, Go, 1, Fails(State, 0, 1, 1), GoesOn),
            (1, Go, 1, Ends, GoesOn),
            (1, Go, 1, Stores(State, 2), Answers(Answer::Done)),
            (0, Go, 1, Loads(State, 2), Answers(Answer::Done)),
            (2, Begin(Call::IsCompleted), 1, Begins, GoesOn),
            (2, Go, 1, Loads(State, 2), Answers(Flag(true))),
        ],
        reads: [2, 0, 0, 0, 0, 0, 1],
        holds: &[],
        refuses: &[],
    }],
};

#[test]
fn a_once_runs_in_one_piece_and_in_two(rt: HostRuntime) -> Result<(), Fail> {
    plays(rt.alloc(), &ONCE)
}

const SPIN: Schedule<u64> = Schedule {
    object: Object::Spin,
    parties: 3,
    parts: &[Part {
        rows: &[
            (1, Begin(Call::BlockingLock), 1, Begins, GoesOn),
            (1, Go, 1, Swaps(State, 0, 1), Answers(Success)),
            (0, Begin(Call::Lock), 1, Begins, GoesOn),
            (0, Go, 1, Swaps(State, 1, 1), GoesOn),
            (2, Begin(Call::TryLock), 1, Begins, GoesOn),
            (2, Go, 1, Swaps(State, 1, 1), Answers(Interrupted)),
            (1, Begin(Call::Unlock), 1, Begins, GoesOn),
            (1, Go, 1, Stores(State, 0), Answers(Answer::Done)),
            (0, Go, 1, Swaps(State, 0, 1), Answers(Success)),
        ],
        reads: [1, 0, 0, 0, 0, 0, 0],
        holds: &[(0, Some(Write)), (1, None), (2, None)],
        refuses: &[],
    }],
};

#[test]
fn a_spin_lock_is_handed_on_in_one_piece_and_in_two(rt: HostRuntime) -> Result<(), Fail> {
    plays(rt.alloc(), &SPIN)
}

const WRITER_ENTERS: Schedule<u64> = Schedule {
    object: Object::WriterLock,
    parties: 3,
    parts: &[Part {
        rows: &[
            (0, Begin(Call::ReadLock), 1, Begins, GoesOn),
            (0, Go, 1, Loads(State, 0), GoesOn),
            (0, Go, 1, Exchanges(State, 0, 2), Answers(Success)),
            (1, Begin(Call::WriteLock), 1, Begins, GoesOn),
            (1, Go, 1, Loads(State, 2), GoesOn),
            (1, Go, 1, Exchanges(State, 2, 3), GoesOn),
            (0, Begin(Call::Unlock), 1, Begins, GoesOn),
            (0, Go, 1, Adds(State, 3, 1), GoesOn),
            (0, Go, 1, Adds(Counter, 0, 1), GoesOn),
            (0, Go, 1, WakesOne, Answers(Answer::Done)),
            (2, Begin(Call::TryWriteLock), 1, Begins, GoesOn),
            (2, Go, 1, Fails(State, 0, u64::MAX, 1), Answers(Interrupted)),
            (1, Go, 1, Loads(State, 1), GoesOn),
            (1, Go, 1, Exchanges(State, 1, u64::MAX), Answers(Success)),
        ],
        reads: [u64::MAX, 1, 0, 0, 0, 0, 1],
        holds: &[(0, None), (1, Some(Write)), (2, None)],
        refuses: &[],
    }],
};

#[test]
fn a_waiting_writer_enters_in_one_piece_and_in_two(rt: HostRuntime) -> Result<(), Fail> {
    plays(rt.alloc(), &WRITER_ENTERS)
}

const WRITER_GIVES_UP: Schedule<u64> = Schedule {
    object: Object::WriterLock,
    parties: 2,
    parts: &[
        Part {
            rows: &[
                (0, Begin(Call::TryReadLock), 1, Begins, GoesOn),
                (0, Go, 1, Loads(State, 0), GoesOn),
                (0, Go, 1, Exchanges(State, 0, 2), Answers(Success)),
                (1, Begin(Call::WriteLock), 1, Begins, GoesOn),
            ],
            reads: [2, 0, 0, 0, 0, 0, 0],
            holds: &[(0, Some(Read))],
            refuses: &[],
        },
        Part {
            rows: &[
                (1, Go, 1, Loads(State, 2), GoesOn),
                (1, Go, 1, Exchanges(State, 2, 3), GoesOn),
                (1, Go, 10000, Loads(State, 3), GoesOn),
                (1, Go, 1, Loads(Counter, 0), GoesOn),
                (1, Go, 1, Loads(State, 3), Waits(0)),
            ],
            reads: [3, 0, 0, 0, 0, 0, 0],
            holds: &[],
            refuses: &[],
        },
        Part {
            rows: &[
                (1, Input::Answer(WaitAction::Abort), 1, Decides, GoesOn),
                (1, Go, 1, Loads(State, 3), GoesOn),
                (1, Go, 1, Exchanges(State, 3, 2), GoesOn),
                (1, Go, 1, Adds(Counter, 0, 1), GoesOn),
                (1, Go, 1, WakesOne, GoesOn),
                (1, Go, 1, WakesAll, Answers(Interrupted)),
            ],
            reads: [2, 1, 0, 0, 0, 0, 0],
            holds: &[(0, Some(Read)), (1, None)],
            refuses: &[],
        },
    ],
};

#[test]
fn a_writer_that_gives_up_leaves_no_mark(rt: HostRuntime) -> Result<(), Fail> {
    plays(rt.alloc(), &WRITER_GIVES_UP)
}

const NOTIFIED: Schedule<u64> = Schedule {
    object: Object::Condvar,
    parties: 3,
    parts: &[Part {
        rows: &[
            (0, Begin(Call::Lock), 1, Begins, GoesOn),
            (0, Go, 1, Exchanges(State, 0, 1), Answers(Success)),
            (0, Begin(Call::Wait), 1, Begins, GoesOn),
            (0, Go, 1, Adds(Waiters, 0, 1), GoesOn),
            (0, Go, 1, Stores(State, 0), GoesOn),
            (0, Go, 1, WakesOne, GoesOn),
            (1, Begin(Call::NotifyOne), 1, Begins, GoesOn),
            (1, Go, 1, Loads(Waiters, 1), GoesOn),
            (1, Go, 1, Adds(Value, 0, 1), GoesOn),
            (1, Go, 1, WakesOne, Answers(Answer::Done)),
            (0, Go, 1, Loads(Value, 1), GoesOn),
            (0, Go, 1, Exchanges(Value, 1, 0), GoesOn),
            (0, Go, 1, Adds(Waiters, 1, 0), GoesOn),
            (0, Go, 1, Exchanges(State, 0, 1), Answers(Success)),
        ],
        reads: [1, 0, 0, 0, 0, 0, 0],
        holds: &[(0, Some(Write)), (1, None)],
        refuses: &[],
    }],
};

#[test]
fn a_notified_wait_succeeds_in_one_piece_and_in_two(rt: HostRuntime) -> Result<(), Fail> {
    plays(rt.alloc(), &NOTIFIED)
}

const UNSIGNALLED: Schedule<u64> = Schedule {
    object: Object::Condvar,
    parties: 1,
    parts: &[
        Part {
            rows: &[
                (0, Begin(Call::TryLock), 1, Begins, GoesOn),
                (0, Go, 1, Exchanges(State, 0, 1), Answers(Success)),
                (0, Begin(Call::Wait), 1, Begins, GoesOn),
                (0, Go, 1, Adds(Waiters, 0, 1), GoesOn),
                (0, Go, 1, Stores(State, 0), GoesOn),
                (0, Go, 1, WakesOne, GoesOn),
            ],
            reads: [0, 0, 1, 0, 0, 0, 0],
            holds: &[(0, None)],
            refuses: &[],
        },
        Part {
            rows: &[
                // Looks that see no permit.
                (0, Go, 10000, Loads(Value, 0), GoesOn),
                (0, Go, 1, Loads(Value, 0), Waits(0)),
            ],
            reads: [0, 0, 1, 0, 0, 0, 0],
            holds: &[],
            refuses: &[],
        },
        Part {
            rows: &[
                (0, Input::Answer(WaitAction::Abort), 1, Decides, GoesOn),
                (0, Go, 1, Loads(Value, 0), GoesOn),
                (0, Go, 1, Adds(Waiters, 1, 0), GoesOn),
                (0, Go, 1, Exchanges(State, 0, 1), Answers(InterruptedHeld)),
            ],
            reads: [1, 0, 0, 0, 0, 0, 0],
            holds: &[(0, Some(Write))],
            refuses: &[],
        },
    ],
};

#[test]
fn a_wait_that_gives_up_holds_the_mutex_again(rt: HostRuntime) -> Result<(), Fail> {
    plays(rt.alloc(), &UNSIGNALLED)
}

const LAZY: Schedule<u64> = Schedule {
    object: Object::Lazy(u64::MAX),
    parties: 3,
    parts: &[Part {
        rows: &[
            (1, Begin(Call::Force), 1, Begins, GoesOn),
            (1, Go, 1, Loads(State, 0), GoesOn),
            (1, Go, 1, Exchanges(State, 0, 1), GoesOn),
            (0, Begin(Call::Force), 1, Begins, GoesOn),
            (0, Go, 1, Loads(State, 1), GoesOn),
            (0, Go, 1, Fails(State, 0, 1, 1), GoesOn),
            (1, Go, 1, Ends, GoesOn),
            (1, Go, 1, Stores(State, 2), GoesOn),
            (0, Go, 1, Loads(State, 2), GoesOn),
            (0, Go, 1, Reads(u64::MAX), Answers(Answer::Value(u64::MAX))),
            (1, Go, 1, Reads(u64::MAX), Answers(Answer::Value(u64::MAX))),
        ],
        reads: [2, 0, 0, 0, 0, 0, 1],
        holds: &[],
        refuses: &[],
    }],
};

#[test]
fn a_lazy_value_is_made_in_one_piece_and_in_two(rt: HostRuntime) -> Result<(), Fail> {
    plays(rt.alloc(), &LAZY)
}
