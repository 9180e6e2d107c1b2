//! What the benchmark measures: the operations of the running types and of their yardsticks, a line of its table each.
#![tactic(auto)]

pub mod lines;
