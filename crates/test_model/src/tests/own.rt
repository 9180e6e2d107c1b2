//! Locks of one's own: rows of locks that others published, and rows that no lock may have.
use model_events::WaitAction::{Abort, Continue};
use model_events::event::{Answer, Wake, Word};
use model_events::hold::HoldKind::Write;
use model_events::patience::Patience;
use model_events::row::{After, Intent};
use model_own::HoldChange::{Ends, Keeps, Takes};
use model_own::Next::{At, Done, Refused, Success};
use model_own::Number::{Is, Kept};
use model_own::Operation::{Add, Exchange, Load, Store, Swap};
use model_own::Role::{In, Out};
use model_own::{
    Entry, HoldChange, Next, Operation, OwnPlace, Role, Row, Test, Way, after, answered,
    fits_entry, intent, is_lock, way_at,
};
use std::test::Fail;

const ZERO: Test = Test::Is(Is(0));

/// The ways of a row: what becomes of the hold, and where the call goes on, where the test passes and where not.
type Ways = (HoldChange, Next, HoldChange, Next);

fn row(operation: Operation, test: Test, ways: Ways) -> Row {
    Row {
        operation,
        test,
        passed: Way {
            change: ways.0,
            next: ways.1,
        },
        failed: Way {
            change: ways.2,
            next: ways.3,
        },
    }
}

fn wake() -> Row {
    row(Operation::Wake(Wake::One), ZERO, (Keeps, Done, Keeps, Done))
}

/// Test-and-set with a wait closure, as the mutex has it.
fn test_and_set() -> [Row; 3] {
    [
        row(
            Exchange(Word::State, Is(0), Is(1)),
            ZERO,
            (Takes(Write), Success, Keeps, Refused(0, Is(1))),
        ),
        row(Store(Word::State, Is(0)), ZERO, (Ends, At(2), Ends, At(2))),
        wake(),
    ]
}

/// Test-and-test-and-set, which counts its tries in a second word.
fn test_first() -> [Row; 5] {
    [
        row(
            Load(Word::State),
            ZERO,
            (Keeps, At(1), Keeps, Refused(0, Kept(0))),
        ),
        row(
            Add(Word::Counter, Is(1)),
            ZERO,
            (Keeps, At(2), Keeps, At(2)),
        ),
        row(
            Exchange(Word::State, Is(0), Is(1)),
            ZERO,
            (Takes(Write), Success, Keeps, At(0)),
        ),
        row(Store(Word::State, Is(0)), ZERO, (Ends, At(4), Ends, At(4))),
        wake(),
    ]
}

/// The three-state lock of Rust's `std`: 2 where somebody may wait.
fn three_states() -> [Row; 4] {
    [
        row(
            Exchange(Word::State, Is(0), Is(1)),
            ZERO,
            (Takes(Write), Success, Keeps, At(1)),
        ),
        row(
            Swap(Word::State, Is(2)),
            ZERO,
            (Takes(Write), Success, Keeps, Refused(1, Is(2))),
        ),
        row(
            Swap(Word::State, Is(0)),
            Test::Is(Is(2)),
            (Ends, At(3), Ends, Done),
        ),
        wake(),
    ]
}

/// Test-and-set with another row in the place of one.
fn with(at: usize, other: Row) -> [Row; 3] {
    let mut rows = test_and_set();
    if at < rows.len() {
        rows[at] = other;
    }
    rows
}

#[test]
fn published_locks_pass() -> Result<(), Fail> {
    let roles = [Out, Out, Out, In, Out];
    let told = [
        is_lock(Word::State, &[Out, In, Out], &test_and_set()),
        is_lock(Word::State, &roles, &test_first()),
        is_lock(Word::State, &[Out, Out, In, Out], &three_states()),
    ];
    if told == [true; 3] {
        Ok(())
    } else {
        Err("a lock does not pass")?
    }
}

#[test]
fn wrong_locks_fail() -> Result<(), Fail> {
    let roles = [Out, In, Out];
    let by_a_look = row(
        Load(Word::State),
        ZERO,
        (Takes(Write), Success, Keeps, At(0)),
    );
    let only_says_so = row(Load(Word::State), ZERO, (Keeps, Success, Keeps, At(0)));
    let refused_holding = row(
        Store(Word::State, Is(1)),
        ZERO,
        (Keeps, Refused(1, Is(1)), Keeps, Refused(1, Is(1))),
    );
    let by_a_failure = row(
        Exchange(Word::State, Is(0), Is(1)),
        ZERO,
        (Keeps, Success, Takes(Write), At(0)),
    );
    let frees_first = row(
        Store(Word::State, Is(0)),
        ZERO,
        (Keeps, At(0), Keeps, At(0)),
    );
    let frees_twice = row(Store(Word::State, Is(0)), ZERO, (Ends, At(1), Ends, At(1)));
    let told = [
        is_lock(Word::State, &roles, &with(0, by_a_look)),
        is_lock(Word::State, &roles, &with(0, only_says_so)),
        is_lock(Word::State, &roles, &with(0, by_a_failure)),
        is_lock(Word::State, &roles, &with(0, frees_first)),
        is_lock(Word::State, &roles, &with(1, frees_twice)),
        is_lock(Word::State, &roles, &with(1, refused_holding)),
        // by another word, by too few roles, by the wrong ones
        is_lock(Word::Counter, &roles, &test_and_set()),
        is_lock(Word::State, &[Out, In], &test_and_set()),
        is_lock(Word::State, &[In, In, Out], &test_and_set()),
    ];
    if told == [false; 9] {
        Ok(())
    } else {
        Err("a wrong lock passes")?
    }
}

#[test]
fn a_call_begins_by_its_hold() -> Result<(), Fail> {
    let lock = Entry {
        row: 0,
        takes_hold: true,
        needs_hold: false,
    };
    let unlock = Entry {
        row: 1,
        takes_hold: false,
        needs_hold: true,
    };
    let roles = [Out, In];
    let told = [
        fits_entry(&roles, &lock),
        fits_entry(&roles, &unlock),
        fits_entry(&roles, &Entry { row: 1, ..lock }),
        fits_entry(&roles, &Entry { row: 0, ..unlock }),
    ];
    if told == [true, true, false, false] {
        Ok(())
    } else {
        Err("it begins otherwise")?
    }
}

#[test]
fn rows_are_read() -> Result<(), Fail> {
    let place = OwnPlace {
        row: 0,
        kept: 7,
        patience: Patience::FRESH,
    };
    match intent::<u64>(&test_first(), &place) {
        Intent::Load(Word::State) => {}
        _ => return Err("another step")?,
    }
    match way_at(&test_first(), &place, Some(0)) {
        Some(
            Way {
                change: Keeps,
                next: At(1),
            },
        ) => {}
        _ => return Err("another way")?,
    }
    match after::<u64>(&test_first(), &place, Some(0)) {
        After::At(next) if (next.row, next.kept) == (1, 0) => {}
        _ => return Err("another row")?,
    }
    match after::<u64>(&three_states(), &place, Some(0)) {
        After::Ends(Answer::Success) => {}
        _ => return Err("another answer")?,
    }
    let gives_up = answered(&place, Abort);
    match after::<u64>(&test_and_set(), &gives_up, Some(1)) {
        After::Ends(Answer::Interrupted) => {}
        _ => return Err("it goes on after Abort")?,
    }
    if answered(&place, Continue) == place {
        Ok(())
    } else {
        Err("it gives up after Continue")?
    }
}
