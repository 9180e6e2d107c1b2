//! An atomic: its worked texts, as inputs and what is told of them, in one piece and in two; and the integers that it may have.
use super::schedules::Did::{Adds, Begins, Decides, Exchanges, Fails, Loads, Stores};
use super::schedules::{Part, Schedule, plays};
use model_events::hold::HoldKind::Write;
use std::test::Fail;
use sync_steps::WaitAction;
use sync_steps::atomic::internal::AtomicInteger;
use sync_steps::steps::Answer::{Done, ErrOld, OkOld, Value};
use sync_steps::steps::Input::{Begin, Choose, Go};
use sync_steps::steps::Then::{Answers, Chooses, GoesOn};
use sync_steps::steps::Word::{High, State};
use sync_steps::steps::{Call, Input, Object, StepFault, Word};

const WRAPS_UP: Schedule<u64> = Schedule {
    object: Object::Atomic(u64::MAX),
    parties: 1,
    parts: &[Part {
        rows: &[
            (0, Begin(Call::FetchAdd(1)), 1, Begins, GoesOn),
            (0, Go, 6, Stores(State, 0), Answers(Value(u64::MAX))),
            (0, Begin(Call::Load), 1, Begins, GoesOn),
            (0, Go, 5, Adds(State, 1, 0), Answers(Value(0))),
        ],
        reads: [0; 7],
        holds: &[],
        refuses: &[],
    }],
};

const WRAPS_DOWN: Schedule<i64> = Schedule {
    object: Object::Atomic(i64::MIN),
    parties: 1,
    parts: &[Part {
        rows: &[
            (0, Begin(Call::FetchSub(1)), 1, Begins, GoesOn),
            (0, Go, 6, Stores(State, 0), Answers(Value(i64::MIN))),
            (0, Begin(Call::Load), 1, Begins, GoesOn),
            (0, Go, 5, Adds(State, 1, 0), Answers(Value(i64::MAX))),
        ],
        reads: [0, 0, 0, 0, 9223372036854775807, 0, 0],
        holds: &[],
        refuses: &[],
    }],
};

const WRAPS_WHOLE: Schedule<i128> = Schedule {
    object: Object::Atomic(-1),
    parties: 1,
    parts: &[Part {
        rows: &[
            (0, Begin(Call::FetchAdd(1)), 1, Begins, GoesOn),
            (0, Go, 6, Stores(State, 0), Answers(Value(-1))),
            (0, Begin(Call::Load), 1, Begins, GoesOn),
            (0, Go, 5, Adds(State, 1, 0), Answers(Value(0))),
        ],
        reads: [0; 7],
        holds: &[],
        refuses: &[],
    }],
};

#[test]
fn an_atomic_wraps(rt: HostRuntime) -> Result<(), Fail> {
    plays(rt.alloc(), &WRAPS_UP)?;
    plays(rt.alloc(), &WRAPS_DOWN)?;
    plays(rt.alloc(), &WRAPS_WHOLE)
}

const WHOLE: Schedule<u128> = Schedule {
    object: Object::Atomic(18446744073709551615),
    parties: 2,
    parts: &[Part {
        rows: &[
            (0, Begin(Call::FetchAdd(1)), 1, Begins, GoesOn),
            (0, Go, 4, Stores(Word::Low, 0), GoesOn),
            (1, Begin(Call::Load), 1, Begins, GoesOn),
            (1, Go, 3, Loads(State, u64::MAX), GoesOn),
            (0, Go, 1, Stores(High, 1), GoesOn),
            (
                0,
                Go,
                1,
                Stores(State, 0),
                Answers(Value(18446744073709551615)),
            ),
            (
                1,
                Go,
                5,
                Adds(State, 1, 0),
                Answers(Value(18446744073709551616)),
            ),
        ],
        reads: [0, 0, 0, 0, 0, 1, 0],
        holds: &[],
        refuses: &[],
    }],
};

#[test]
fn a_value_of_128_bits_is_read_whole(rt: HostRuntime) -> Result<(), Fail> {
    plays(rt.alloc(), &WHOLE)
}

const KEPT_OUT: Schedule<u64> = Schedule {
    object: Object::Atomic(1),
    parties: 2,
    parts: &[Part {
        rows: &[
            (0, Begin(Call::Load), 1, Begins, GoesOn),
            (0, Go, 2, Exchanges(State, 0, 1), GoesOn),
            (1, Begin(Call::Store(9)), 1, Begins, GoesOn),
            (1, Go, 3, Fails(State, 0, u64::MAX, 1), GoesOn),
            (0, Go, 3, Adds(State, 1, 0), Answers(Value(1))),
            (1, Go, 4, Stores(State, 0), Answers(Done)),
        ],
        reads: [0, 0, 0, 0, 9, 0, 3],
        holds: &[],
        refuses: &[],
    }],
};

#[test]
fn a_reader_keeps_a_writer_out(rt: HostRuntime) -> Result<(), Fail> {
    plays(rt.alloc(), &KEPT_OUT)
}

const NAND: Schedule<u64> = Schedule {
    object: Object::Atomic(12),
    parties: 1,
    parts: &[Part {
        rows: &[
            (0, Begin(Call::FetchNand(10)), 1, Begins, GoesOn),
            (0, Go, 6, Stores(State, 0), Answers(Value(12))),
            (0, Begin(Call::Load), 1, Begins, GoesOn),
            (
                0,
                Go,
                5,
                Adds(State, 1, 0),
                Answers(Value(18446744073709551607)),
            ),
        ],
        reads: [0, 0, 0, 0, 18446744073709551607, 0, 0],
        holds: &[],
        refuses: &[],
    }],
};

const COMPARES: Schedule<u64> = Schedule {
    object: Object::Atomic(7),
    parties: 1,
    parts: &[Part {
        rows: &[
            (0, Begin(Call::CompareExchange(8, 9)), 1, Begins, GoesOn),
            (0, Go, 4, Stores(State, 0), Answers(ErrOld(7))),
            (0, Begin(Call::Load), 1, Begins, GoesOn),
            (0, Go, 5, Adds(State, 1, 0), Answers(Value(7))),
            (0, Begin(Call::CompareExchange(7, 9)), 1, Begins, GoesOn),
            (0, Go, 6, Stores(State, 0), Answers(OkOld(7))),
            (0, Begin(Call::Load), 1, Begins, GoesOn),
            (0, Go, 5, Adds(State, 1, 0), Answers(Value(9))),
            (0, Begin(Call::CompareExchangeWeak(9, 6)), 1, Begins, GoesOn),
            (0, Go, 6, Stores(State, 0), Answers(OkOld(9))),
            (0, Begin(Call::CompareExchangeWeak(9, 5)), 1, Begins, GoesOn),
            (0, Go, 4, Stores(State, 0), Answers(ErrOld(6))),
        ],
        reads: [0, 0, 0, 0, 6, 0, 0],
        holds: &[],
        refuses: &[],
    }],
};

const ORDERS: Schedule<i64> = Schedule {
    object: Object::Atomic(-5),
    parties: 1,
    parts: &[Part {
        rows: &[
            (0, Begin(Call::FetchMax(3)), 1, Begins, GoesOn),
            (0, Go, 6, Stores(State, 0), Answers(Value(-5))),
            (0, Begin(Call::FetchMin(-7)), 1, Begins, GoesOn),
            (0, Go, 6, Stores(State, 0), Answers(Value(3))),
            (0, Begin(Call::Load), 1, Begins, GoesOn),
            (0, Go, 5, Adds(State, 1, 0), Answers(Value(-7))),
        ],
        reads: [0, 0, 0, 0, u64::MAX - 6, 0, 0],
        holds: &[],
        refuses: &[],
    }],
};

const BITS: Schedule<u64> = Schedule {
    object: Object::Atomic(1),
    parties: 1,
    parts: &[Part {
        rows: &[
            (0, Begin(Call::Store(12)), 1, Begins, GoesOn),
            (0, Go, 4, Stores(State, 0), Answers(Done)),
            (0, Begin(Call::FetchAnd(10)), 1, Begins, GoesOn),
            (0, Go, 6, Stores(State, 0), Answers(Value(12))),
            (0, Begin(Call::FetchOr(3)), 1, Begins, GoesOn),
            (0, Go, 6, Stores(State, 0), Answers(Value(8))),
            (0, Begin(Call::FetchXor(1)), 1, Begins, GoesOn),
            (0, Go, 6, Stores(State, 0), Answers(Value(11))),
            (0, Begin(Call::Swap(5)), 1, Begins, GoesOn),
            (0, Go, 6, Stores(State, 0), Answers(Value(10))),
            (0, Begin(Call::Load), 1, Begins, GoesOn),
            (0, Go, 5, Adds(State, 1, 0), Answers(Value(5))),
        ],
        reads: [0, 0, 0, 0, 5, 0, 0],
        holds: &[],
        refuses: &[],
    }],
};

#[test]
fn each_call_answers_as_a_register(rt: HostRuntime) -> Result<(), Fail> {
    plays(rt.alloc(), &NAND)?;
    plays(rt.alloc(), &COMPARES)?;
    plays(rt.alloc(), &ORDERS)?;
    plays(rt.alloc(), &BITS)
}

const CHOOSES_NONE: Schedule<u64> = Schedule {
    object: Object::Atomic(5),
    parties: 1,
    parts: &[Part {
        rows: &[
            (0, Begin(Call::FetchUpdate), 1, Begins, GoesOn),
            (0, Go, 3, Loads(High, 0), Chooses(5)),
            (0, Choose(None), 1, Decides, GoesOn),
            (0, Go, 2, Stores(State, 0), Answers(ErrOld(5))),
            (0, Begin(Call::Load), 1, Begins, GoesOn),
            (0, Go, 5, Adds(State, 1, 0), Answers(Value(5))),
        ],
        reads: [0, 0, 0, 0, 5, 0, 0],
        holds: &[],
        refuses: &[],
    }],
};

const CHOOSES_SOME: Schedule<i128> = Schedule {
    object: Object::Atomic(5),
    parties: 1,
    parts: &[Part {
        rows: &[
            (0, Begin(Call::FetchUpdate), 1, Begins, GoesOn),
            (0, Go, 3, Loads(High, 0), Chooses(5)),
            (0, Choose(Some(-6)), 1, Decides, GoesOn),
            (0, Go, 3, Stores(State, 0), Answers(OkOld(5))),
        ],
        reads: [0, 0, 0, 0, u64::MAX - 5, u64::MAX, 0],
        holds: &[],
        refuses: &[],
    }],
};

#[test]
fn a_choice_closure_is_told_the_value(rt: HostRuntime) -> Result<(), Fail> {
    plays(rt.alloc(), &CHOOSES_NONE)?;
    plays(rt.alloc(), &CHOOSES_SOME)
}

const REFUSES: Schedule<i64> = Schedule {
    object: Object::Atomic(5),
    parties: 1,
    parts: &[
        Part {
            rows: &[],
            reads: [0, 0, 0, 0, 5, 0, 0],
            holds: &[(0, None)],
            refuses: &[
                (0, Choose(Some(3)), StepFault::NotWaiting),
                (0, Begin(Call::Lock), StepFault::OtherObject),
            ],
        },
        Part {
            rows: &[
                (0, Begin(Call::FetchUpdate), 1, Begins, GoesOn),
                (0, Go, 3, Loads(High, 0), Chooses(5)),
            ],
            reads: [u64::MAX, 0, 0, 0, 5, 0, 0],
            holds: &[(0, Some(Write))],
            refuses: &[
                (0, Go, StepFault::WaitingForAnswer),
                (0, Input::Answer(WaitAction::Abort), StepFault::NotWaiting),
            ],
        },
    ],
};

const MUTEX_REFUSES: Schedule<u64> = Schedule {
    object: Object::Mutex,
    parties: 1,
    parts: &[Part {
        rows: &[],
        reads: [0; 7],
        holds: &[],
        refuses: &[(0, Begin(Call::Load), StepFault::OtherObject)],
    }],
};

#[test]
fn inputs_that_an_atomic_refuses(rt: HostRuntime) -> Result<(), Fail> {
    plays(rt.alloc(), &REFUSES)?;
    plays(rt.alloc(), &MUTEX_REFUSES)
}

#[test]
fn integers_at_the_ends_of_their_types(rt: HostRuntime) {
    let words = [7u64.to_words(), (-1i64).to_words(), (-1i128).to_words()];
    assert_eq!(rt; words, [(7, 0), (u64::MAX, 0), (u64::MAX, u64::MAX)]);
    assert_eq!(rt; u64::from_words(7, 9), 7);
    let made = [
        AtomicInteger::overflowing_add(u64::MAX, 1),
        AtomicInteger::overflowing_sub(5u64, 5),
    ];
    assert_eq!(rt; made, [(0, true), (0, false)]);
}
