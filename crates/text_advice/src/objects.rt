//! What is said of each object, where a text or a question has a fault.

use model_events::event::Object;
use text_lines::lexer::is;

/// The objects of which a question may be.
pub fn questions_objects() -> &'static [u8] {
    b"mutex, spin, semaphore, barrier, rwreader, rwwriter, condvar, once, lazy, atomic_u64"
}

/// The objects of which a text may be.
pub fn texts_objects() -> &'static [u8] {
    b"mutex, spin, semaphore, barrier, rwreader, rwwriter, condvar, once, lazy, atomic_u64, atomic_u128, atomic_i64, atomic_i128"
}

/// What it is called.
pub fn noun(object: Object<()>) -> &'static [u8] {
    match object {
        Object::Mutex => b"a mutex",
        Object::Spin => b"a spin lock",
        Object::Semaphore(_) => b"a semaphore",
        Object::Barrier(_) => b"a barrier",
        Object::ReaderLock | Object::WriterLock => b"a reader-writer lock",
        Object::Condvar => b"a condition variable",
        Object::Once => b"a once",
        Object::Lazy(_) => b"a lazy value",
        Object::Atomic(_) => b"an atomic",
    }
}

/// The words after its name in a line that opens it for two parties.
pub fn first_words(object: Object<()>) -> &'static [u8] {
    match object {
        Object::Barrier(_) => b" 2 2",
        Object::Semaphore(_) | Object::Lazy(_) | Object::Atomic(_) => b" 2 5",
        _ => b" 2",
    }
}

/// What its first line has behind the number of parties, where it is called so.
pub fn first_value(object: Object<()>, name: &[u8]) -> &'static [u8] {
    match object {
        Object::Barrier(_) => b"0 to 4294967295 arrivals that open a round",
        Object::Atomic(_) if is(name, b"atomic_i64") => {
            b"a value of -9223372036854775808 to 9223372036854775807"
        }
        Object::Atomic(_) if is(name, b"atomic_u128") => {
            b"a value of 0 to 340282366920938463463374607431768211455"
        }
        Object::Atomic(_) if is(name, b"atomic_i128") => {
            b"a value of -170141183460469231731687303715884105728 to 170141183460469231731687303715884105727"
        }
        Object::Semaphore(_) | Object::Lazy(_) | Object::Atomic(_) => {
            b"a value of 0 to 18446744073709551615"
        }
        _ => b"no value",
    }
}

/// Which numbers follow its verbs.
pub fn numbers_after(object: Object<()>) -> &'static [u8] {
    match object {
        Object::Semaphore(_) => {
            b"`post` gives 0 to 18446744073709551615 permits, `go` makes 1 to 100000 steps, and no number follows the others"
        }
        Object::Atomic(_) => {
            b"two values of the atomic's type follow `compare_exchange`, one follows `some` and each call but `load` and `fetch_update`, and `go` makes 1 to 100000 steps"
        }
        _ => b"`go` makes 1 to 100000 steps, and no number follows the others",
    }
}

/// The verbs that move a call of it on.
pub fn verbs_of(object: Object<()>) -> &'static [u8] {
    match object {
        Object::Atomic(_) => b"go, run, some, none",
        Object::Spin | Object::Once | Object::Lazy(_) => b"go, run",
        _ => b"go, run, wait, abort",
    }
}

/// How its closure is answered.
pub fn answers(object: Object<()>) -> &'static [u8] {
    match object {
        Object::Atomic(_) => {
            b"the call waits at its closure, which answers `some` and a value, or `none`"
        }
        _ => b"the call waits at its closure, which answers `wait` or `abort`",
    }
}

/// What may be said of the closures of an object's calls.
pub fn closures_of(object: Object<()>) -> &'static [u8] {
    match object {
        Object::Atomic(_) => b"may choose some 7, may choose none, may skip, serves",
        _ => b"may abort, aborts, sleeps, may skip, serves",
    }
}

/// The answers of an object that an item may look at.
pub fn answers_of(object: Object<()>) -> &'static [u8] {
    match object {
        Object::Mutex | Object::Spin | Object::ReaderLock | Object::WriterLock => {
            b"success, interrupted, done"
        }
        Object::Semaphore(_) => b"success, interrupted, done, 7",
        Object::Condvar => b"success, interrupted, interrupted held, done",
        Object::Barrier(_) => b"ok, full",
        Object::Once => b"done, true, false",
        Object::Lazy(_) => b"7",
        Object::Atomic(_) => b"done, 7, ok 7, err 7",
    }
}

/// The terms of a condition.
pub fn terms_of(object: Object<()>) -> &'static [u8] {
    match object {
        Object::Mutex => {
            b"1 success, 1 interrupted, 1 done, 1 aborted, 1 waits, 1 holds write, word 0, 1 sleeps for ever"
        }
        Object::Spin => b"1 success, 1 interrupted, 1 done, 1 holds write, word 0",
        Object::Semaphore(_) => {
            b"1 success, 1 interrupted, 1 done, 1 7, 1 aborted, 1 waits, word 0, 1 sleeps for ever"
        }
        Object::Barrier(_) => b"1 ok, 1 full, 1 aborted, 1 waits, word 0, 1 sleeps for ever",
        Object::ReaderLock => {
            b"1 success, 1 interrupted, 1 done, 1 aborted, 1 waits, 1 holds read, 1 holds write, word 0, 1 sleeps for ever"
        }
        Object::WriterLock => {
            b"1 success, 1 interrupted, 1 done, 1 aborted, 1 waits, 1 holds read, 1 holds write, word 0, counter 0, 1 sleeps for ever"
        }
        Object::Condvar => {
            b"1 success, 1 interrupted, 1 interrupted held, 1 done, 1 aborted, 1 waits, 1 holds write, word 0, waiters 0, value 0, 1 sleeps for ever"
        }
        Object::Once => b"1 done, 1 true, 1 false, word 0",
        Object::Lazy(_) => b"1 7, word 0",
        Object::Atomic(_) => b"1 done, 1 7, 1 ok 7, 1 err 7, word 0, value 7",
    }
}
