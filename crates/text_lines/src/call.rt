//! What calls are called in a text.
ghost use Rattle.std.specs.Prelude.{◌≡◌};
ghost use Rattle.text_lines.specs.Call as meaning;

use crate::lexer::is;
use model_events::event::Call;

/// The name of a call, as in the Rust crate, but that `wait` is `start_wait`, since `wait` is the closure's answer.
pub fn name_of<T>(call: &Call<T>) -> &'static str
    ensures { result.now ≡ meaning.name_of call.now }
{
    match call {
        Call::Lock => "lock",
        Call::TryLock => "try_lock",
        Call::BlockingLock => "blocking_lock",
        Call::Unlock => "unlock",
        Call::Value => "value",
        Call::Post(_) => "post",
        Call::Wait => "start_wait",
        Call::TryWait => "try_wait",
        Call::ReadLock => "read_lock",
        Call::TryReadLock => "try_read_lock",
        Call::WriteLock => "write_lock",
        Call::TryWriteLock => "try_write_lock",
        Call::NotifyOne => "notify_one",
        Call::NotifyAll => "notify_all",
        Call::CallOnce => "call_once",
        Call::IsCompleted => "is_completed",
        Call::Force => "force",
        Call::Load => "load",
        Call::Store(_) => "store",
        Call::Swap(_) => "swap",
        Call::CompareExchange(..) => "compare_exchange",
        Call::CompareExchangeWeak(..) => "compare_exchange_weak",
        Call::FetchAdd(_) => "fetch_add",
        Call::FetchSub(_) => "fetch_sub",
        Call::FetchAnd(_) => "fetch_and",
        Call::FetchOr(_) => "fetch_or",
        Call::FetchXor(_) => "fetch_xor",
        Call::FetchNand(_) => "fetch_nand",
        Call::FetchMax(_) => "fetch_max",
        Call::FetchMin(_) => "fetch_min",
        Call::FetchUpdate => "fetch_update",
    }
}

/// The first of these calls that has this name.
pub fn named(name: &[u8], calls: &[Call<()>]) -> Option<Call<()>>
    ensures { result ≡ meaning.named name.now calls.now }
{
    for call in calls {
        if is(name, name_of(call).as_bytes()) {
            return Some(*call);
        }
    }
    None
}
