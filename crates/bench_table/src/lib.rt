//! The benchmark's table: how many rounds the input asks for, what each line took in them, and how that is printed.
#![tactic(auto)]

pub mod fault;
pub mod measure;
pub mod rounds;
pub mod run;
pub mod table;
pub mod tenths;
