//! A running floor: threads run beside each other on the lock words, latches and records of one table, and each
//! of their atomic steps is a step of `lock_state`, so that the table represents a lawful state between any two.
//!
//! - `floor`: the floor, which all threads share.
//! - `pass`: what a thread steps with: its seat at the table, the locks that it holds, its log, those whom it took off
//!   a queue and has yet to wake, and the call that it is in the middle of (`calls`).
//! - `steps`: the atomic steps of a thread on lock words, and `rounds`: those by which a call begins its round and
//!   gains.
//! - `stamps`: those that make an entry.
//! - `tables`: changes and reads of the locks' tables.
//! - `laws`: what a look finds, what a read finds, and what a change leaves.
//! - `keeper`: making a floor with its passes.
//! - `prios`: the priorities of a thread, and its end.
//! - `closing`: taking passes in, and what is left of a floor that is closed.
//! - `latches`: those that take a record or a cell out and give it back, and `chains`: those of chains.
//! - `ordering`: how a blocking call checks the order of its lock.
//! - `waits`: those by which a thread comes to stand on the queue of a lock.
//! - `parking`: how a thread that stands on a queue sleeps, and runs again.
//! - `opening`: a release that takes waiters off a lock's turnstile, and `claiming`: a gain of a free lock that shows
//!   waiters, by which the thread owns its turnstile.
//! - `sleeping`: the same of sx locks, with sleep queues; `relock`: how a wait gives its lock up and takes it back.
//! - `channels`: how a thread goes to sleep on a channel, and how sleepers are taken off one; `aborting`: how one
//!   sleeper is taken off a queue by an abort.
//! - `marking`: how those are woken, and `counts`: how threads are counted that are awake.
//! - `ends`: how a thread counts itself among those that have ended, and `halting`: how one whose counting out left
//!   nobody awake sets the halt word, and finds the sleepers that it takes off their queues; `queues`: the queues that
//!   it goes over.
//! - `walking`: how a thread that stands on a turnstile lends its priority along the chain of owners.
//! - `ties`: what is true of each floor and pass.
#![tactic(auto)]

mod aborting;
mod calls;
mod chains;
mod channels;
mod claiming;
mod closing;
mod counts;
mod ends;
mod floor;
mod halting;
mod keeper;
mod latches;
pub mod laws;
mod marking;
mod opening;
mod ordering;
mod parking;
mod pass;
mod prios;
mod queues;
mod relock;
mod rounds;
mod sleeping;
mod stamps;
mod steps;
mod tables;
mod ties;
mod waits;
mod walking;

pub use calls::{Call, ReleaseAt, TakeAt, TryAt};
pub use closing::Closing;
pub use counts::Count;
pub use floor::{Floor, FloorOf};
pub use halting::FirstSleeper;
pub use keeper::Keeper;
pub use latches::Out;
pub use pass::{Pass, PassOf};
pub use queues::HaltAt;
pub use relock::Relock;
pub use tables::{Change, TableCell};
pub use ties::Ties;
