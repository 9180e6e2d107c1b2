//! The tests of what plays, shows and explores schedule texts, and of covering charts, apart from it, so that it is proved once. What programs print is
//! tested by the tables of `texts`.
#![tactic(auto)]

#[cfg(test)]
mod tests;
