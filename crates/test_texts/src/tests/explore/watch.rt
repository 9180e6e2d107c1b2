//! What no question can say: what a watch of the search is told. Questions with their answers stand in `texts/sync-explore`.

use explore_client::run::run;
use explore_search::watch::{Reached, Watch};
use explore_text::report::Verdict;
use std::test::Fail;

/// What it was told last, and how often it was told.
#[derive(Drop)]
struct Heard {
    times: u64,
    states: usize,
    waiting: usize,
}

impl Watch for Heard {
    fn looked(&mut self, reached: Reached) {
        self.times = self.times.saturating_add(1);
        self.states = reached.states;
        self.waiting = reached.waiting;
    }
}

#[test]
fn a_watch_is_told_every_4096_states(rt: HostRuntime) -> Result<(), Fail> {
    let question = "barrier 4 2\n1 start_wait\n2 start_wait\n3 start_wait\n4 start_wait\n";
    let mut reader = question.as_bytes();
    let mut written: Vec<u8> = Vec::new(rt.alloc());
    let mut heard = Heard {
        times: 0,
        states: 0,
        waiting: 0,
    };
    let ended = run(rt.alloc(), &mut reader, &mut written, false, &mut heard);
    let is_wanted = match ended {
        Ok(answered) => answered.verdict == Verdict::AsWanted,
        Err(_) => false,
    };
    assert!(rt; is_wanted);
    assert_eq!(rt; heard.times, 2);
    assert_eq!(rt; heard.states, heard.waiting.saturating_add(4096));
    Ok(())
}
