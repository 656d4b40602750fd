//! The most of each thing that one script of ticks may have. They are this project's own.

/// Sleepers in a script.
pub const SLEEPERS: usize = 64;

/// Events in a script.
pub const EVENTS: usize = 20_000;

/// The greatest key on which a thread sleeps.
pub const GREATEST_KEY: u8 = 63;

/// The most ticks after which one sleep times out.
pub const SLEEP_TICKS: u32 = 1_000_000;

/// The most ticks of one `tick` line.
pub const TICKS: u32 = 1_000;

/// Buckets of the wheel.
pub const BUCKETS: usize = 256;
