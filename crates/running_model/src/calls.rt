//! Calls of a model as types, one for each call that names no value. A call that names one begins with `Brand`.
ghost use Rattle.model_events.specs.declared.event.Call.TheVariants as calls;

use crate::turn::Called;

/// A `Lock`.
pub struct LockCall;

impl<V> Called<V> for LockCall {
    ghost call = { calls.Lock };
}

/// A `TryLock`.
pub struct TryLockCall;

impl<V> Called<V> for TryLockCall {
    ghost call = { calls.TryLock };
}

/// A `BlockingLock`.
pub struct BlockingLockCall;

impl<V> Called<V> for BlockingLockCall {
    ghost call = { calls.BlockingLock };
}

/// An `Unlock`.
pub struct UnlockCall;

impl<V> Called<V> for UnlockCall {
    ghost call = { calls.Unlock };
}

/// A `Value`.
pub struct ValueCall;

impl<V> Called<V> for ValueCall {
    ghost call = { calls.Value };
}

/// A `Wait`.
pub struct WaitCall;

impl<V> Called<V> for WaitCall {
    ghost call = { calls.Wait };
}

/// A `TryWait`.
pub struct TryWaitCall;

impl<V> Called<V> for TryWaitCall {
    ghost call = { calls.TryWait };
}

/// A `ReadLock`.
pub struct ReadCall;

impl<V> Called<V> for ReadCall {
    ghost call = { calls.ReadLock };
}

/// A `TryReadLock`.
pub struct TryReadCall;

impl<V> Called<V> for TryReadCall {
    ghost call = { calls.TryReadLock };
}

/// A `WriteLock`.
pub struct WriteCall;

impl<V> Called<V> for WriteCall {
    ghost call = { calls.WriteLock };
}

/// A `TryWriteLock`.
pub struct TryWriteCall;

impl<V> Called<V> for TryWriteCall {
    ghost call = { calls.TryWriteLock };
}

/// A `CallOnce`.
pub struct CallOnceCall;

impl<V> Called<V> for CallOnceCall {
    ghost call = { calls.CallOnce };
}

/// An `IsCompleted`.
pub struct IsCompletedCall;

impl<V> Called<V> for IsCompletedCall {
    ghost call = { calls.IsCompleted };
}

/// A `Load`.
pub struct LoadCall;

impl<V> Called<V> for LoadCall {
    ghost call = { calls.Load };
}

/// A `FetchUpdate`.
pub struct FetchUpdateCall;

impl<V> Called<V> for FetchUpdateCall {
    ghost call = { calls.FetchUpdate };
}
