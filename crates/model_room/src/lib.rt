//! Several objects whose parties are shared: a layer over the machines of one object.
#![tactic(auto)]

pub mod event;
pub mod fault;
pub mod laws;
pub mod playing;
pub mod room;
