//! One hop of a lending walk (FreeBSD's subr_turnstile.c): a thread that waits for a lock lends its
//! priority along the chain of owners. From a lock the walk goes to the owner, which is lent the best
//! priority of those who wait; from an owner that waits itself it goes to the lock for which it waits.
//!
//! - `hops`: the two hops, and how a release settles what was lent.
//! - `walk`: where a walk stands.
#![tactic(auto)]

mod hops;
mod walk;

pub use hops::{lend, settle_release, shift};
pub use walk::Walk;
