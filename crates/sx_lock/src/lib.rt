//! Sx locks on a running floor: the calls of locks that block (`lock_calls`), for locks that many threads share or one
//! holds exclusively, and whose threads may hold them over a sleep without bound, as sx(9) has them.
//!
//! A thread that shares the lock gains it wherever nobody holds it exclusively, also where others wait to do so. One
//! that comes to hold it exclusively gains it where it is free. Who waits stands on the lock's sleep queue: nothing is
//! lent to who holds the lock. An exclusive release wakes all who wait to share the lock, or else all who wait for it
//! exclusively; the last shared release wakes those who wait for it exclusively first.
//!
//! `xlock`, `slock` and `unlock` wait; `try_xlock` and `try_slock` never sleep. Threads of a runtime of one's own drive
//! the same calls part by part, and no part waits: `begin_xlock`, `begin_slock` and `begin_unlock` begin one, and
//! `go_on_taking` and `go_on_releasing` go on with it until it is done. A try part by part is `begin_try` and
//! `go_on_trying` of `lock_calls`.
//!
//! A sleep for an sx lock may be ended by an abort, once a floor finds that every live thread sleeps: then the take is
//! `Halted`. No call ends a sleep so yet. A plan without channels can't come there: its orders forbid that threads wait
//! for one another in a circle.
//!
//! `SxRelock` is for calls that wait on a condition or a channel with such a lock: they give it up and take it back.
//!
//! Each call needs a pass at rest and leaves it at rest, and tells which atomic steps it made. No call takes memory.
#![tactic(auto, using(crate::proofs::Covered::may_take))]

mod locks;
mod relock;

pub use lock_calls::{Next, go_on_releasing, go_on_taking};
pub use locks::{
    begin_slock, begin_unlock, begin_xlock, slock, try_slock, try_xlock, unlock, xlock,
};
pub use relock::SxRelock;
