//! The most of each thing that one script and one run may have. They are this project's own.

/// Threads in a script.
pub const THREADS: usize = 32;

/// Locks in a script.
pub const LOCKS: usize = 64;

/// Condition variables and channels together.
pub const CHANNELS: usize = 64;

/// Classes of locks.
pub const CLASSES: usize = 64;

/// Chains of each sort. There is at least 1.
pub const CHAINS: u32 = 64;

/// Chains of each sort where nothing else is said.
pub const DEFAULT_CHAINS: u32 = 16;

/// Locks that one thread holds at once.
pub const HELD: usize = 8;

/// Try blocks that one thread has open at once.
pub const OPEN_TRIES: usize = 8;

/// Operations over all threads.
pub const OPERATIONS: usize = 20_000;

/// Entries of the schedule.
pub const SCHEDULE: usize = 100_000;

/// Bytes of a script.
pub const SCRIPT_BYTES: usize = 1_048_576;

/// Bytes of a line, without its line end.
pub const LINE_BYTES: usize = 200;

/// Bytes of a name.
pub const NAME_BYTES: usize = 16;

/// Turns of a scheduled run, and how many there are where nothing else is said.
pub const TURNS: u32 = 1_000_000;

/// Looks and attempts on a lock word in one acquiring round, before the thread takes the lock's chain.
pub const LOOKS: u32 = 100;
