//! How far a search has come, told each second.

use explore_search::watch::{Reached, Watch};
use std::time::{Clock, Instant};

/// After how many seconds a line is written.
const PERIOD: u64 = 1;

/// Writes lines to standard error, if it is to do so.
#[derive(Drop)]
pub struct Progress<'a, R> {
    rt: &'a R,
    shows: bool,
    /// When the last line was written, or the search has begun.
    last: Option<Instant>,
    /// How far it had come last.
    reached: Option<Reached>,
}

impl<'a, R: Clock + Eprint> Progress<'a, R> {
    pub fn new(rt: &'a R, shows: bool) -> Progress<'a, R> {
        Progress {
            rt,
            shows,
            last: None,
            reached: None,
        }
    }

    /// Writes, of a search that did not come to its end, how far it had come, and what had grown. Of a short one nothing is written.
    pub fn tell_end(&self) {
        let Some(reached) = self.reached else {
            return;
        };
        if reached.states <= 1 {
            return;
        }
        let states = reached.states;
        let contents = reached.contents;
        let standings = reached.standings;
        let _ = eprintln!(self.rt;
            "after {states} states, with {contents} contents of words and variables and {standings} standings of parties"
        );
    }

    /// Whether it is time for a line. Where the clock does not tell, it is not.
    fn is_due(&self) -> bool {
        match &self.last {
            Some(last) => match last.elapsed(self.rt) {
                Ok(spent) => spent.as_secs() >= PERIOD,
                Err(_) => false,
            },
            None => false,
        }
    }
}

impl<R: Clock + Eprint> Watch for Progress<'_, R> {
    fn looked(&mut self, reached: Reached) {
        self.reached = Some(reached);
        if !self.shows {
            return;
        }
        let is_due = self.is_due();
        if is_due {
            let states = reached.states;
            let waiting = reached.waiting;
            let _ = eprintln!(self.rt; "{states} states, {waiting} to go");
        }
        if is_due || self.last.is_none() {
            self.last = match Instant::now(self.rt) {
                Ok(now) => Some(now),
                Err(_) => None,
            };
        }
    }
}
