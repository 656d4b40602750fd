//! Who of a list of waiters is woken.
use lock_model::ThreadNo;

/// Who is taken off a list.
#[derive(Clone, Copy)]
pub(crate) enum Which {
    /// The one with the least number, and the first of equals.
    Best,
    /// All, in order.
    All,
    /// A thread.
    Thread(ThreadNo),
}
