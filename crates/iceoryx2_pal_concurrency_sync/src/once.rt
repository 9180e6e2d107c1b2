//! A closure that runs once.

pub use running_once::{
    Once, OncePass, Runs, answers_come_after_the_end, closures_are_of_a_run, one_closure_at_most,
};
