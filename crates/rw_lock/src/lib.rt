//! Reader-writer locks on a running floor: the calls of locks that block (`lock_calls`), for locks that many threads
//! read under or one writes under.
//!
//! A reader gains the lock where it is free, and shares it with other readers while no writer waits: so who comes to
//! read while others do goes behind a writer that waits. A writer gains it where it is free; where others wait for it,
//! it owns the lock's turnstile from that step on, and they lend it their priorities. Readers are lent nothing.
//!
//! `read`, `write` and `unlock` wait; `try_read` and `try_write` never sleep. Threads of a runtime of one's own drive
//! the same calls part by part, and no part waits: `begin_read`, `begin_write` and `begin_unlock` begin one, and
//! `go_on_taking` and `go_on_releasing` go on with it until it is done. A try part by part is `begin_try` and
//! `go_on_trying` of `lock_calls`.
//!
//! `RwRelock` is for calls that wait on a condition or a channel with such a lock: they give it up and take it back.
//!
//! Each call needs a pass at rest and leaves it at rest, and tells which atomic steps it made. No call takes memory.
#![tactic(auto, using(crate::proofs::Covered::may_take, crate::proofs::Covered::has_turnstile))]

mod locks;
mod relock;

pub use lock_calls::{Next, go_on_releasing, go_on_taking};
pub use locks::{begin_read, begin_unlock, begin_write, read, try_read, try_write, unlock, write};
pub use relock::RwRelock;
