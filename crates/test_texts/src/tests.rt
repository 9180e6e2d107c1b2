mod draw;
mod every_byte;
mod explore;
mod play;
mod programs;
mod streams;
