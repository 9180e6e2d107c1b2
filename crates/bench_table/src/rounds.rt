//! The number of rounds that the input asks for.

use crate::fault::BenchFault;

/// The most rounds that may be asked for, so that the figures fit a small machine's memory.
pub const MOST_ROUNDS: u64 = 100_000;

/// The number of rounds that a text asks for: decimal digits, with ASCII white space around them. As everywhere in the library,
/// a plus may stand before the digits.
pub fn rounds(text: &[u8]) -> Result<u64, BenchFault> {
    let Ok(word) = str::from_utf8(text.trim_ascii()) else {
        return Err(BenchFault::Rounds);
    };
    match word.parse::<u64>() {
        Ok(rounds) if rounds <= MOST_ROUNDS => Ok(rounds),
        _ => Err(BenchFault::Rounds),
    }
}
