//! Words for which a question has others, where an item is to begin.

use crate::calls::call_meant;
use crate::changes::no_verb;
use crate::items::next_token;
use crate::several::begins_several;
use crate::test::{ENDLESS, GUARDS, no_assertion, no_wait, unknown_variable};
use crate::variables::object_of;
use crate::words::{
    Added, Spot, Told, bare, before, before_left, cut_word, either, front_of, has, has_mark,
    is_no_number, mean, names_parties, run_of, show, tell, tell_of,
};
use text_lines::lexer::is;

/// What is said of a number of rounds.
pub const COUNTED: &[u8] =
    b"items go round as often as a variable says, with a line `let n 0` before: while n < 3 ( add n 1, .. )";

/// What is said of a party that does not sleep.
const AWAKE: &[u8] = b"who has no line `1 sleeps` looks again by itself, as one that spins";

/// What is said of a word alone.
const ALONE: &[u8] =
    b"for % items go round as often as a variable says, with a line `let n 0` before: while n < 3 ( add n 1, .. )
spin spins busy % who has no line `1 sleeps` looks again by itself, as one that spins
goto jump continue % no item jumps: what is done again stands in a loop, as `while x = 0 ( .. )`
return exit end stop break halt % a party ends behind its last item, and a test skips others
go run step next resume % a question's calls move on by themselves, in every order
+ - % a value is a number or a variable, and no sum: `add` and `sub` change a variable
match select either switch choose % no item chooses by itself: a test of a variable, or `last`, decides
spawn thread join create fork async % all parties are there from the start, and each has a line of its own
atomic d_step % each item is a step of its own: what others may not see in between stands under a lock";

/// Of what does nothing.
pub fn no_act(out: &mut Vec<u8>, at: Spot<'_>) -> Added {
    let words = b"with a line `let idle 0` before, `set idle 0` does nothing: $fset idle 0$b";
    tell(out, at, words, &[])
}

/// Whether a word means that nothing is to be done.
fn idles(at: Spot<'_>) -> bool {
    has(b"skip nop noop pass yield pause", at.word)
        || is(at.word, b"wait") && call_meant(at, at.left).is_none()
}

/// Of a pause, which takes a time.
fn no_time(out: &mut Vec<u8>, at: Spot<'_>) -> Added {
    let words = b"no time is said, since others may go first at any moment";
    let (_, rest) = run_of(at.left, b",", false);
    let front = bare(before_left(at));
    let begins = names_parties(front);
    if is_no_number(bare(front)) && !begins || !rest.is_empty() {
        let rest = either(begins, run_of(rest, b",", true).1, rest);
        return show(out, words, &[front, rest]);
    }
    let more =
        b"$1: who pauses has no line, and who gives up at a deadline has two, `$2 sleeps` and `$2 may abort`";
    tell(out, at, more, &[words, front])
}

/// Of a loop without a test, whose items are left.
fn no_loop(out: &mut Vec<u8>, at: Spot<'_>) -> Added {
    let (count, rest) = cut_word(at.behind);
    let counts = !is_no_number(count);
    let looped = either(counts, rest, at.behind);
    let (first, inside) = cut_word(looped);
    let opens = is(first, b"(");
    let items = either(opens, inside, looped);
    let end = either(opens, b"", b" )");
    let words = either(
        counts,
        b"items go round as often as a variable of the party says, with a line `let n 0` before: $fwhile n < $4 ( add n 1,$2$3",
        b"$1: $fwhile on = 1 ($2$3",
    );
    tell(out, at, words, &[ENDLESS, items, end, count])
}

/// The three words of a test that is left, and what is left behind it.
fn first_test(left: &[u8]) -> (&[u8], &[u8]) {
    let rest = cut_word(cut_word(left).1).1;
    let (_, behind) = next_token(rest).unwrap_or((b"", b""));
    (before(left, behind.len()), behind)
}

/// Of a word for which a question has another, where an item is to begin. Whether it is one.
pub fn of_stranger(out: &mut Vec<u8>, at: Spot<'_>) -> Told {
    let (second, rest) = cut_word(at.behind);
    let own = front_of(at.word, b"(");
    let pauses = has(b"sleep usleep sleep_for thread::sleep delay timeout", own);
    let changes = has(b"= := += -= ++ --", second);
    if is(at.word, b"::") || is(second, b"::") {
        out.extend_from_slice(GUARDS)?;
    } else if no_verb(out, at)? {} else if has(b"await until", at.word) {
        no_wait(out, at, at.behind)?;
    } else if has(b"wait sleep block spin", at.word) && has(b"until for", second) {
        no_wait(out, at, rest)?;
    } else if pauses && (has_mark(at.word, b"(") || !is_no_number(bare(second))) {
        no_time(out, at)?;
    } else if has(b"assert assert!", own) {
        no_assertion(out, at)?;
    } else if has(b"loop repeat forever do", at.word) {
        no_loop(out, at)?;
    } else if is(second, b"times") {
        out.extend_from_slice(COUNTED)?;
    } else if idles(at) {
        no_act(out, at)?;
    } else if is(second, b"sleeps") {
        out.extend_from_slice(AWAKE)?;
    } else if has(b"can might", at.word) {
        mean(out, at, b"may")?;
    } else if is(at.word, b"wait_while") && !begins_several(at.question) {
        let (test, rest) = first_test(at.behind);
        let words = b"a wait for a variable is a loop: $fwhile$1 start_wait$2";
        tell(out, at, words, &[test, rest])?;
    } else if is(at.word, b"let") {
        let words = b"`let` stands in a line of its own, before: let $1 0";
        tell(out, at, words, &[bare(second)])?;
    } else if changes && object_of(at.question, at.word).is_none() {
        unknown_variable(out, at)?;
    } else {
        return tell_of(out, at, ALONE);
    }
    Ok(true)
}
