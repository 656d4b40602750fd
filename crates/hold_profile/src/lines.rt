//! A profile: what is counted of a run's locks, and of pairs of their classes.

use lock_model::{ClassNo, Sequence};

/// What a history shows of a lock. Times are differences of tickets. Where a section doesn't end, the number of the
/// history's entries stands in place of the ticket of its end.
///
/// ```
/// let line = LockLine { holds: 1, total: 3, longest: 3, together: 1, busy: 0, waits: 0, halted: 0 };
/// ```
#[derive(Clone, Copy, Debug, PartialEq, Eq)]
pub struct LockLine {
    /// How many sections it has: how often it was gained.
    pub holds: u32,
    /// The sum of their lengths.
    pub total: u64,
    /// The greatest of them, and 0 where there is no section.
    pub longest: u32,
    /// The most sections that are open behind any one entry.
    pub together: u32,
    /// How often a try found it busy.
    pub busy: u32,
    /// How often a wait with it began.
    pub waits: u32,
    /// How often a take of it was ended because every live thread slept.
    pub halted: u32,
}

/// How often a lock of one class was gained by a thread that had a lock of another, or of the same, open.
///
/// ```
/// let line = OrderLine { first: ClassNo(0), second: ClassNo(1), count: 1 };
/// ```
#[derive(Clone, Copy, Debug, PartialEq, Eq)]
pub struct OrderLine {
    /// The class of the lock that was held.
    pub first: ClassNo,
    /// The class of the lock that was gained.
    pub second: ClassNo,
    /// How many pairs of sections there are.
    pub count: u32,
}

/// The profile of a history.
///
/// ```
/// let profile = profile(alloc, &plan, &outcome.history)?;
/// for line in profile.locks.as_slice() {
///     println!(rt; "{line:?}")?;
/// }
/// ```
#[derive(Drop, Debug)]
pub struct Profile {
    /// By lock, what the history shows of it.
    pub locks: Sequence<LockLine>,
    /// The pairs of classes whose count is above 0, by the first and then by the second.
    pub orders: Sequence<OrderLine>,
}
