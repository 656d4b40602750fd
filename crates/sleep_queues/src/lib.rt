//! Sleep queues, after FreeBSD's subr_sleepqueue.c: the queue in which threads sleep on an sx lock, a condition
//! variable or a channel.
//!
//! - `SleepQueue`: the sleep queue itself.
//! - `Sleeper`: the node by which a thread stands in a list.
//! - `SleepTaken`: the sleepers that were taken off a sleep queue, and are to be woken.
//!
//! They stand in `wait_objects`, over the body that they share with turnstiles.
#![tactic(auto)]

pub use wait_objects::{SleepQueue, SleepTaken, Sleeper};
