//! The fault of a source or a sink, which carries no cause: what a device says isn't known to a proof.

/// A read, a write or a flush that failed.
///
/// ```
/// let answer: Result<usize, Failed> = Err(Failed);
/// ```
#[derive(Clone, Copy, Debug, PartialEq, Eq)]
pub struct Failed;
