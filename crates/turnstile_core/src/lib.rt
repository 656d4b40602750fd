//! Turnstiles, after FreeBSD's subr_turnstile.c: the queue in which threads wait for a mutex or a reader-writer lock,
//! and by which they lend their priority to its owner.
//!
//! - `Turnstile`: the turnstile itself.
//! - `Waiter`: the node by which a thread stands in a list.
//! - `Taken`: the waiters that were taken off a turnstile, and are to be woken.
//! - `Loan`: the node that carries a priority to an owner.
//!
//! They stand in `wait_objects`, over the body that they share with sleep queues.
#![tactic(auto)]

pub use wait_objects::{Loan, Taken, Turnstile, Waiter};
