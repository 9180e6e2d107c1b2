//! Cells: those of std under their names.

pub use std::cell::{Cell, OnceCell, Ref, RefCell, RefMut};
