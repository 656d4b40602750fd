//! Mutexes on a running floor: the calls of locks that block (`lock_calls`), for mutexes, which are held exclusively;
//! and a try, which never blocks.
//!
//! `lock` and `unlock` wait. Threads of a runtime of one's own drive the same calls part by part, and no part waits:
//! `begin_lock` and `begin_unlock` begin one, and `go_on_taking` and `go_on_releasing` go on with it until it is done.
//!
//! `MutexRelock` is for calls that wait on a condition or a channel with a mutex: they give it up and take it back.
//!
//! Each call needs a pass at rest and leaves it at rest, and tells which atomic steps it made. No call takes memory.
#![tactic(auto, using(crate::proofs::Covered::needs))]

mod mutex;
mod relock;

pub use lock_calls::{Next, go_on_releasing, go_on_taking};
pub use mutex::{begin_lock, begin_unlock, lock, try_lock, unlock};
pub use relock::MutexRelock;
