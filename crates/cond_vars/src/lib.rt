//! Condition variables and sleep channels on a running floor, as condvar(9) and sleep(9) have them. A thread waits on
//! one with the lock that belongs to it: it gives the lock up and sleeps until another thread wakes it, and takes the
//! lock back. A signal wakes the most important sleeper, of equals the one that has slept longest; a broadcast wakes
//! all. The floor makes no difference between a condition variable and a channel: which calls go with one is its user's
//! choice, as a script's words say it.
//!
//! The crate knows no kind of lock: how a wait gives its lock up and takes it back is what the lock's crate says
//! (`Relock` of `lock_floor`).
//!
//! - `waking`: how sleepers are taken off and woken, part by part, and no part waits; and `signals`: the calls that do
//!   it at once.
//! - `parts`: how a thread waits, part by part, and no part waits, with `sleeping`; and `waits`: the calls that do it
//!   at once.
//!
//! A thread that waits counts itself out before it sleeps, and halts others where that left nobody awake (`halting`).
//!
//! Each call needs a pass at rest and leaves it at rest, and tells which atomic steps it made. No call takes memory.
#![tactic(auto)]

mod parts;
mod signals;
mod sleeping;
mod waits;
mod waking;

pub use parts::{WaitAt, WaitNext, go_on_waiting};
pub use signals::{cv_broadcast, cv_signal, wakeup, wakeup_one};
pub use waits::{cv_wait, msleep};
pub use waking::{WakeNext, begin_wakeup, go_on_waking};
