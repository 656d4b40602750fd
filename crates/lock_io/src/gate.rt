//! The gate that a thread of a run passes before each operation. A test's own holds a thread back there for a while, so
//! that threads meet in an order that is seldom met by itself; the program's is open.

use lock_model::ThreadNo;

/// What a thread of a run passes before each of its operations. It promises nothing, and nothing of a run is promised
/// by it. It always returns: one that holds a thread back does so for a bounded number of looks.
///
/// ```
/// gate.at(ThreadNo(2), 0); // thread 2 is about to make its first operation
/// ```
pub trait Gate: Sync {
    /// A thread is about to make one of its operations, which are counted from 0.
    fn at(&self, t: ThreadNo, operation: u32);
}

/// The gate that lets each thread pass at once.
///
/// ```
/// let gate = OpenGate;
/// ```
#[derive(Clone, Copy, Debug, PartialEq, Eq)]
pub struct OpenGate;

impl Gate for OpenGate {
    fn at(&self, _t: ThreadNo, _operation: u32) {}
}
