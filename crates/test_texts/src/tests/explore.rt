mod charts;
mod rooms;
mod watch;
