mod escapes;
mod picture;
mod trace;
