//! Events and inputs of several objects.
ghost use Rattle.std.specs.Prelude.{◌≡◌, ⊤};

use model_events::event::{Event, Input};
use std::alloc::AllocError;

/// An event of one of several objects.
#[derive(Copy)]
pub struct RoomEvent<T> {
    /// The object, counted from 0.
    pub object: usize,
    /// What happened there.
    pub event: Event<T>,
}

impl<T: Copy> Clone for RoomEvent<T> {
    ghost is_clone = { λ x y. y ≡ x };

    ghost is_infallible = { λ _. ⊤ };

    fn clone(&self) -> Result<Self, AllocError> {
        Ok(*self)
    }
}

/// What a schedule asks of a party at an object, both counted from 0.
#[derive(Copy)]
pub struct RoomInput<T> {
    pub party: usize,
    pub object: usize,
    pub input: Input<T>,
}

impl<T: Copy> Clone for RoomInput<T> {
    ghost is_clone = { λ x y. y ≡ x };

    ghost is_infallible = { λ _. ⊤ };

    fn clone(&self) -> Result<Self, AllocError> {
        Ok(*self)
    }
}

/// Equal events in a row: one, or the tries of a call that spins.
#[derive(Copy)]
pub struct RoomStride<T> {
    pub event: RoomEvent<T>,
    pub times: u64,
}

impl<T: Copy> Clone for RoomStride<T> {
    ghost is_clone = { λ x y. y ≡ x };

    ghost is_infallible = { λ _. ⊤ };

    fn clone(&self) -> Result<Self, AllocError> {
        Ok(*self)
    }
}
