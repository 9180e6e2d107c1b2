//! A value that is made when it is first asked for.

pub use running_lazy_lock::{Gives, LazyLock, LazyPass};
