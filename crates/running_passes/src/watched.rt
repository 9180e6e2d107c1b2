//! Words that closures are handed, whichever object they are of.
ghost use Rattle.std.specs.Prelude.{◌≡◌, ◌%◌, ◌^◌};

use std::sync::Wait;
use std::time::Duration;

/// A word that wait and wake closures are handed. It can be loaded and slept on, and no call here changes it.
pub trait Watched {
    /// The word as it is now. Another party may write it right after, so the answer promises nothing.
    fn load(&self) -> u64;

    /// Sleeps until this word is woken, as on a futex, and does not fall asleep where it is no longer `seen`. Only the low 32 bits of the
    /// two are compared: all that tells a mutex or a reader-writer lock that it is free, but not a barrier its rounds, nor a semaphore 2^32
    /// permits. There `park_timeout` is right, or `Sleepers`, who compare all. It may also return for no reason.
    fn park<R: Wait>(&self, rt: &R, seen: u64);

    /// The same, for no longer than `most`.
    fn park_timeout<R: Wait>(&self, rt: &R, seen: u64, most: Duration);

    /// Wakes one that sleeps on this word, if there is one: a call of the system, also where nobody sleeps.
    fn wake_one(&self);

    /// Wakes all that sleep on this word, likewise.
    fn wake_all(&self);
}

/// The low 32 bits, which are all that a futex compares.
#[inline(always)]
pub fn low_half(word: u64) -> u32
    ensures { result ≡ word % 2 ^ 32 }
{
    (word & 0xffff_ffff) as u32
}
