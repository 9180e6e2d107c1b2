//! Machines of nobody and of a thousand, of each object; and the word functions, at the ends of their types.
use std::alloc::{AllocError, Global};
use std::test::Fail;
use sync_steps::atomic::internal::AtomicInteger;
use sync_steps::steps::barrier::{arrived, opened};
use sync_steps::steps::semaphore::posted;
use sync_steps::steps::{self, Input, Machine, Object, StepFault};

/// Each object, the barrier twice.
pub const OBJECTS: [Object<u64>; 11] = [
    Object::Mutex,
    Object::Spin,
    Object::Semaphore(5),
    Object::Barrier(2),
    Object::Barrier(u32::MAX),
    Object::ReaderLock,
    Object::WriterLock,
    Object::Condvar,
    Object::Once,
    Object::Lazy(7),
    Object::Atomic(7),
];

/// Why a new machine refuses to go on with a party, where it does.
fn refusal<T: AtomicInteger>(
    alloc: Global,
    object: Object<T>,
    parties: usize,
    party: usize,
) -> Result<Option<StepFault>, AllocError> {
    Ok(
        Machine::<T>::new(alloc, object, parties)?
            .step(party, Input::Go)
            .err(),
    )
}

/// Why a party that is not there cannot go on, at a machine of nobody; the last of a thousand; and one that comes after them.
fn refusals<T: AtomicInteger>(
    alloc: Global,
    object: Object<T>,
) -> Result<[Option<StepFault>; 3], AllocError> {
    Ok([
        refusal(alloc, object, 0, 0)?,
        refusal(alloc, object, 1000, 999)?,
        refusal(alloc, object, 1000, 1000)?,
    ])
}

/// A machine of nobody, and one of a thousand, of every object.
#[test]
fn machines_of_nobody_and_of_a_thousand(rt: HostRuntime) -> Result<(), Fail> {
    let wanted = [
        Some(StepFault::NoParty),
        Some(StepFault::Idle),
        Some(StepFault::NoParty),
    ];
    for object in &OBJECTS {
        assert_eq!(rt; refusals(rt.alloc(), *object)?, wanted);
    }
    Ok(())
}

/// A word, and what becomes of it by each function that answers a new one or none.
const MOVES: [(u64, [Option<u64>; 11]); 8] = [
    (
        0,
        [
            Some(1),
            Some(1),
            Some(1),
            None,
            Some(u64::MAX),
            Some(2),
            None,
            Some(u64::MAX),
            Some(1),
            None,
            None,
        ],
    ),
    (
        1,
        [
            None,
            None,
            Some(2),
            Some(0),
            None,
            None,
            None,
            Some(u64::MAX),
            None,
            Some(0),
            Some(0),
        ],
    ),
    (
        2,
        [
            None,
            None,
            Some(3),
            Some(1),
            None,
            Some(4),
            Some(0),
            None,
            Some(3),
            None,
            Some(1),
        ],
    ),
    (
        3,
        [
            None,
            None,
            Some(4),
            Some(2),
            None,
            None,
            Some(1),
            None,
            None,
            Some(2),
            Some(2),
        ],
    ),
    (
        u64::MAX - 3,
        [
            None,
            None,
            Some(u64::MAX - 2),
            Some(u64::MAX - 4),
            None,
            None,
            Some(u64::MAX - 5),
            None,
            Some(u64::MAX - 2),
            None,
            Some(u64::MAX - 4),
        ],
    ),
    (
        u64::MAX - 2,
        [
            None,
            None,
            Some(u64::MAX - 1),
            Some(u64::MAX - 3),
            None,
            None,
            Some(u64::MAX - 4),
            None,
            None,
            Some(u64::MAX - 3),
            Some(u64::MAX - 3),
        ],
    ),
    (
        u64::MAX - 1,
        [
            None,
            None,
            None,
            Some(u64::MAX - 2),
            None,
            None,
            Some(u64::MAX - 3),
            None,
            None,
            None,
            Some(u64::MAX - 2),
        ],
    ),
    (
        u64::MAX,
        [
            None,
            None,
            None,
            None,
            None,
            None,
            None,
            None,
            None,
            None,
            Some(u64::MAX - 1),
        ],
    ),
];

/// What the functions answer, in the order of the rows.
fn moved(word: u64) -> [Option<u64>; 11] {
    [
        steps::mutex::granted(word),
        steps::once::begun(word),
        steps::rw_reader::reader_enters(word),
        steps::rw_reader::reader_leaves(word),
        steps::rw_reader::writer_enters(word),
        steps::rw_writer::reader_enters(word),
        steps::rw_writer::reader_leaves(word),
        steps::rw_writer::writer_enters(word),
        steps::rw_writer::marks(word),
        steps::rw_writer::unmarks(word),
        steps::semaphore::taken(word),
    ]
}

#[test]
fn moves_at_the_ends(rt: HostRuntime) {
    for (word, wanted) in &MOVES {
        assert_eq!(rt; moved(*word), *wanted, "at {word}");
    }
}

/// A barrier's word, what an arrival makes of it where none, one, two and 2^32 - 1 fill a round, and the word of the next round.
const ARRIVALS: [(u64, [Option<u64>; 4], u64); 11] = [
    (0, [None, Some(4294967296), Some(1), Some(1)], 4294967296),
    (1, [None, None, Some(4294967296), Some(2)], 4294967296),
    (2, [None, None, None, Some(3)], 4294967296),
    (3, [None, None, None, Some(4)], 4294967296),
    (4294967295, [None, None, None, None], 4294967296),
    (
        4294967296,
        [None, Some(8589934592), Some(4294967297), Some(4294967297)],
        8589934592,
    ),
    (
        18446744069414584321,
        [None, None, Some(0), Some(18446744069414584322)],
        0,
    ),
    (u64::MAX - 3, [None, None, None, Some(u64::MAX - 2)], 0),
    (u64::MAX - 2, [None, None, None, Some(u64::MAX - 1)], 0),
    (u64::MAX - 1, [None, None, None, Some(0)], 0),
    (u64::MAX, [None, None, None, None], 0),
];

#[test]
fn arrivals_at_the_ends(rt: HostRuntime) {
    for (word, wanted, next) in &ARRIVALS {
        let made = [
            arrived(*word, 0),
            arrived(*word, 1),
            arrived(*word, 2),
            arrived(*word, u32::MAX),
        ];
        assert_eq!(rt; (made, opened(*word)), (*wanted, *next), "at {word}");
    }
}

/// Sums of permits, which wrap.
const POSTS: [(u64, u64, u64); 11] = [
    (0, 0, 0),
    (1, 1, 2),
    (2, 3, 5),
    (3, 1, 4),
    (4294967295, 1, 4294967296),
    (0, u64::MAX, u64::MAX),
    (u64::MAX - 3, 3, u64::MAX),
    (u64::MAX - 2, 3, 0),
    (u64::MAX - 1, 3, 1),
    (u64::MAX, 1, 0),
    (u64::MAX, u64::MAX, u64::MAX - 1),
];

#[test]
fn posts_at_the_ends(rt: HostRuntime) {
    for (word, more, wanted) in &POSTS {
        assert_eq!(rt; posted(*word, *more), *wanted, "at {word} and {more}");
    }
}
