//! What running objects share that play a model: the rule that their words are those of some run of it, in which the passes are
//! parties, and the steps that its table has.
#![tactic(auto)]

mod acting;
mod calling;
pub mod calls;
mod carries;
mod choosing;
mod counts;
mod pauses;
mod played;
mod script;
pub mod seat;
mod stage;
mod tries;
pub mod turn;
mod wait;

pub use carries::{Carries, CarryRule};
pub use counts::{Counts, CountsByActs};
pub use pauses::{pause_before, pauses_before};
pub use played::{Parties, Played};
pub use script::Script;
pub use stage::Stage;
pub use wait::{OfWord, OwnWords, Sealed, Shown, Shows};
