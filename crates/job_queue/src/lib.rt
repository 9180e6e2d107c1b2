//! A bounded queue of jobs between producers and consumers. Each job has a ticket, the queue can be closed, and a consumer that finds none
//! waits as its caller says. The Rust crate has no such type: it shows what the primitives carry.
#![tactic(auto)]

mod answer;
mod pass;
mod queue;
mod state;
mod word;

pub use answer::{PutFault, Taken};
pub use pass::QueuePass;
pub use queue::{JobQueue, QueueOf};
pub use state::{KeepsJobs, QueueState};
pub use word::QueueWord;
