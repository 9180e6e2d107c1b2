//! What no clause says: that the calls succeed with ample memory, how often they call their closures, and threads that really meet; of
//! objects together, and of one object in the file of its name.
mod barrier;
mod refusals;
mod semaphore;
mod semaphore_buffer;
mod yielding;
