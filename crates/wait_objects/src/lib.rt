//! The objects in which threads wait, after FreeBSD's subr_turnstile.c and subr_sleepqueue.c: turnstiles, for mutexes
//! and reader-writer locks, and sleep queues, for sx locks, condition variables and channels.
//!
//! Blocking takes no memory. A thread is made with one object and one node of each kind, and with a loan node, and from
//! then on these boxes are moved: the first thread to wait for a lock lends its object to it, each later one puts its
//! own on the free list of that one, and a woken thread takes one back.
//!
//! - `object`, `node`, `pending`: what both kinds share. An object, the node by which a thread stands in it, and the
//!   nodes that were taken off and whose threads are to be woken.
//! - `home`: where a thread keeps its object and its node while it doesn't wait.
//! - `own`: what sets the kinds apart.
//! - `turnstile`: the turnstile, with `lending`, what it alone has, and `loan`, the node that carries a priority to an
//!   owner.
//! - `sleep_queue`: the sleep queue, with `sleeping`, what it alone has.
//! - `lists`, `waiters`, `free_list`: the linked lists inside. `which` says who is taken off one.
//!
//! `turnstile_core` and `sleep_queues` pass on one kind each.
#![tactic(auto)]

mod free_list;
mod home;
mod lending;
mod lists;
mod loan;
mod node;
mod object;
mod own;
mod pending;
mod sleep_queue;
mod sleeping;
mod turnstile;
mod waiters;
mod which;

pub use home::Home;
pub use lending::Lending;
pub use loan::Loan;
pub use node::Node;
pub use object::Object;
pub use own::Own;
pub use pending::Pending;
pub use sleep_queue::{SleepQueue, SleepTaken, Sleeper};
pub use sleeping::Sleeping;
pub use turnstile::{Taken, Turnstile, Waiter};
