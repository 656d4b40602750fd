//! Who of those that lie on a key gets up.
use lock_model::ThreadNo;

/// Who gets up.
#[derive(Clone, Copy)]
pub(crate) enum Who {
    /// The one with the least number, and the first of equals.
    Best,
    All,
    Thread(ThreadNo),
}
