//! The calls of a floor of locks for threads of somebody else's, each of which tests what it needs: nothing is owed by
//! its caller. A runtime or a kernel of one's own drives them; no call waits, and none takes memory.
//!
//! A `Thread` owns all that its calls need: its share of the floor, its pass there, and at which stage it is. A call is
//! begun, and then gone on with until it is done; an edit or a read of a lock's table, or a call about priorities, is
//! made at once. Each answers what its caller is to do next (`Next`). Where a call may not be made, it answers why not
//! (`Cause`), exactly where that is so, and everything is as it was.
//!
//! - `unfit`: for which descriptions a floor can be opened, and why not for others.
//! - `opening`: how a floor is opened, with its threads, and closed. Opening alone takes memory; of `gather` its caller
//!   owes that the thread is of that floor.
//! - `shared`: what the threads of a floor share.
//! - `stages`: at which stage a thread is between two calls, and what a call answers.
//! - `requests`: what a caller can ask for, and what may stand against it.
//! - `thread`: a thread; `against`: what stands against a call of it, cause by cause (`conditions`).
//! - `calls`: its calls, and `parts`: the parts of locks' calls, of wakes and of the thread's end, over which they
//!   stand; `waits`: those of waits; and `at_once`: the calls that have no parts.
#![tactic(auto)]

mod against;
mod at_once;
mod calls;
mod conditions;
mod opening;
mod parts;
mod requests;
mod shared;
mod stages;
mod thread;
mod unfit;
mod waits;

pub use lock_floor::{Change, TableCell};
pub use opening::{NotClosed, NotOpened, OpenFloor};
pub use requests::{Cause, Request};
pub use stages::{Next, Stage};
pub use thread::Thread;
pub use unfit::Unfit;
pub use waits::WaitOn;
