//! The pauses before another try.
ghost use Rattle.std.specs.Prelude.{◌≡◌, ◌<◌, ◌≤◌, ◌^◌};

use std::hint::spin_loop;

/// How many pauses stand before another try, after so many: each time twice as many, and from the tenth on one.
pub fn pauses_before(tries: u64) -> u64
    ensures rises { tries < 10 → result ≡ 2 ^ tries }
    ensures ends { 10 ≤ tries → result ≡ 1 }
{
    if tries < 10 { 1 << tries } else { 1 }
}

/// Makes them, and so leaves the word to its holder.
pub fn pause_before(tries: u64) {
    for _ in 0..pauses_before(tries) {
        spin_loop();
    }
}
