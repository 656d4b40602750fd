//! The numbers of threads, locks, channels and classes, each counted from 0 in order of declaration,
//! and priorities.

/// The number of a thread.
///
/// ```
/// let thread = ThreadNo(0);
/// ```
#[derive(Clone, Copy, Debug, PartialEq, Eq, PartialOrd, Ord, Hash)]
pub struct ThreadNo(pub u8);

/// The number of a lock.
///
/// ```
/// let lock = LockNo(0);
/// ```
#[derive(Clone, Copy, Debug, PartialEq, Eq, PartialOrd, Ord, Hash)]
pub struct LockNo(pub u8);

/// The number of a condition variable or a channel. Both are counted together.
///
/// ```
/// let channel = ChanNo(0);
/// ```
#[derive(Clone, Copy, Debug, PartialEq, Eq, PartialOrd, Ord, Hash)]
pub struct ChanNo(pub u8);

/// The number of a class, a group of locks whose order is learnt together (a lock type of witness(4)).
///
/// ```
/// let class = ClassNo(0);
/// ```
#[derive(Clone, Copy, Debug, PartialEq, Eq, PartialOrd, Ord, Hash)]
pub struct ClassNo(pub u8);

/// A priority, from 0, the most important, to 255.
///
/// ```
/// let priority = Prio(100);
/// ```
#[derive(Clone, Copy, Debug, PartialEq, Eq, PartialOrd, Ord, Hash)]
pub struct Prio(pub u8);
