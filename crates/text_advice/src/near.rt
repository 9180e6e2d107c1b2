//! Words that are nearly others.

use crate::words::{has, unmarked};
use model_events::event::{Call, Object};
use text_lines::call::name_of;
use text_lines::lexer::{is, next_word};
use text_lines::objects::calls_of;

/// How many bytes of two words are compared: as long as any name is.
const LONGEST: usize = 24;

fn small(byte: u8) -> u8 {
    if b'A' <= byte && byte <= b'Z' {
        byte + 32
    } else {
        byte
    }
}

/// The first byte of a word, or its last, as a small letter, and the rest.
fn cut(word: &[u8], last: bool) -> Option<(u8, &[u8])> {
    let (byte, rest) = if last {
        word.split_last()?
    } else {
        word.split_first()?
    };
    Some((small(*byte), rest))
}

/// Both without the bytes that they begin with, or end with, alike.
fn without_alike<'a>(word: &'a [u8], name: &'a [u8], last: bool) -> (&'a [u8], &'a [u8]) {
    let (mut word, mut name) = (word, name);
    for _ in 0..LONGEST {
        match (cut(word, last), cut(name, last)) {
            (Some((one, rest)), Some((other, others))) if one == other => {
                word = rest;
                name = others;
            }
            _ => return (word, name),
        }
    }
    (word, name)
}

/// Whether two bytes have changed places; or in a longer word one is missing, one too many or another.
fn is_slip(word: &[u8], name: &[u8]) -> bool {
    let is_long = word.len().max(name.len()) > 3;
    let (word, name) = without_alike(word, name, false);
    let (word, name) = without_alike(word, name, true);
    match (word, name) {
        ([one, two], [other, another]) => *one == *another && *two == *other,
        _ => is_long && word.len() <= 1 && name.len() <= 1,
    }
}

/// Whether a word is nearly this name, or its beginning, or begins with it.
pub fn is_near(word: &[u8], name: &[u8]) -> bool {
    word.len().min(name.len()) >= 3 && (is_slip(word, name) || name.starts_with(word))
        || name.len() >= 4 && word.starts_with(name)
}

/// The first word of a list that this one is, or, where that is asked, nearly is. Empty where there is none.
pub fn named_in<'a>(list: &'a [u8], word: &[u8], nearly: bool) -> &'a [u8] {
    let mut rest = list;
    for _ in 0..list.len() {
        let Some((name, after)) = next_word(rest) else {
            break;
        };
        rest = after;
        let name = unmarked(name);
        if is(name, word) || nearly && is_near(word, name) {
            return name;
        }
    }
    b""
}

/// The first word of a list that this one nearly is. Empty where there is none.
pub fn nearest<'a>(list: &'a [u8], word: &[u8]) -> &'a [u8] {
    named_in(list, word, true)
}

/// What a word has behind its last `_`: a call's own name in C.
fn own_name(word: &[u8]) -> &[u8] {
    match word.iter().rposition(|byte| *byte == b'_') {
        Some(place) if place < word.len() => &word[place + 1..],
        _ => word,
    }
}

/// Names of calls elsewhere, and the calls.
type Calls = &'static [(&'static [u8], &'static [u8])];

/// Those of an object; with a number where it wants one.
fn calls_elsewhere(object: Object<()>) -> Calls {
    match object {
        Object::Mutex | Object::Spin => &[
            (b"acquire take enter lock", b"lock"),
            (b"release drop leave unlock", b"unlock"),
            (b"trylock", b"try_lock"),
        ],
        Object::Condvar => &[
            (b"acquire take enter lock", b"lock"),
            (b"release drop leave unlock", b"unlock"),
            (b"trylock", b"try_lock"),
            (b"timedwait timeout until for", b"start_wait"),
            (b"signal notify", b"notify_one"),
            (b"broadcast", b"notify_all"),
        ],
        Object::ReaderLock | Object::WriterLock => &[
            (b"rdlock shared", b"read_lock"),
            (b"wrlock lock exclusive upgrade", b"write_lock"),
            (b"tryrdlock", b"try_read_lock"),
            (b"trywrlock try_lock", b"try_write_lock"),
            (b"runlock wunlock release drop unlock", b"unlock"),
        ],
        Object::Semaphore(_) => &[
            (b"acquire down P take", b"start_wait"),
            (b"release signal up V give", b"post 1"),
            (b"trywait", b"try_wait"),
        ],
        Object::Barrier(_) => &[(b"arrive await", b"start_wait")],
        Object::Once => &[(b"init once", b"call_once")],
        Object::Lazy(_) => &[(b"get deref", b"force")],
        Object::Atomic(_) => &[
            (b"cas", b"compare_exchange"),
            (b"read get", b"load"),
            (b"write", b"store"),
            (b"exchange", b"swap"),
        ],
    }
}

/// What moves a call of a text on, and has this name elsewhere.
const VERBS: Calls = &[(b"step next", b"go"), (b"continue resume", b"run")];

/// The call of these that has this name elsewhere. Empty where there is none.
fn call_elsewhere(calls: Calls, word: &[u8]) -> &'static [u8] {
    for (names, call) in calls {
        if has(names, word) || has(names, own_name(word)) {
            return call;
        }
    }
    b""
}

/// The object's call that this word nearly names. Empty where there is none.
pub fn nearest_call(object: Object<()>, word: &[u8]) -> &'static [u8] {
    for call in calls_of(&object) {
        let name = name_of(call).as_bytes();
        if is_near(word, name) || is(own_name(word), b"wait") && is(name, b"start_wait") {
            return name;
        }
    }
    match call_elsewhere(calls_elsewhere(object), word) {
        [] => call_elsewhere(VERBS, word),
        call => call,
    }
}
