//! What the running types share: passes that count, and the rule over what they count.
//!
//! The terms are those of a resource algebra. What a pass counts and knows is its *tally*; the tallies of all passes of an object add
//! up, and the object's *rule* says what their sum says of its words. A step on a word is a frame-preserving update: its caller shows
//! that the rule holds again, whatever the other passes have counted, and learns from it.
#![tactic(auto)]

mod deed;
mod origin;
mod part;
mod pass;
mod rule;
mod tally;
mod view;
mod wait;
mod watched;
mod words;

pub use deed::Deed;
pub use origin::Origin;
pub use part::{Part, Sights};
pub use pass::Pass;
pub use rule::{Rule, SumRule};
pub use tally::Tally;
pub use view::View;
pub use wait::{WaitResult, success_if, wake};
pub use watched::{Watched, low_half};
pub use words::{Word, Words};
