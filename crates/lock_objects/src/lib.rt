//! What a step of a thread does to the objects that block threads: turnstiles and sleep queues in a chain each, and the
//! records of threads.
//!
//! Two engines make these steps: the scheduled run on a machine of its own, and running threads behind the latches of
//! a floor's table. Both do the same work on the same objects, so it stands here once. A chain shows the columns of a
//! state by queue, and a record those of its thread (`specs/Represents.antt`); each function says what it makes of its
//! objects, and all but `wake`, which gives a record its own object back, that they show the columns behind the step
//! where they showed those before it.
//!
//! - `blocking`: a thread goes to stand on a turnstile.
//! - `waking`: waiters are taken off a turnstile.
//! - `sleeping`: a thread goes to stand on a sleep queue, and sleepers are taken off it.
//! - `aborting`: one sleeper is taken off a sleep queue without a signal.
//! - `put_back`: what becomes of a turnstile or a sleep queue off which waiters were taken.
//! - `marked`: those that were taken off a queue, and how they are woken.
//! - `wait`: the wait word of a thread.
//! - `walks`: priority is lent to an owner, by a claim and along a chain of owners.
#![tactic(auto)]

mod aborting;
mod blocking;
mod marked;
mod put_back;
mod sleeping;
mod wait;
mod waking;
mod walks;

pub use aborting::abort;
pub use blocking::enter;
pub use marked::{Marked, Woken, wake};
pub use sleeping::{bits_of, fall_asleep, take_off};
pub use wait::Wait;
pub use waking::open;
pub use walks::{claim, lend_to_owner, sort_anew};
