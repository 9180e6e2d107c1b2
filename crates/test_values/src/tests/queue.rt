mod order;
mod party;
mod queue;
mod refusals;
mod state;
mod step;
mod threads;
