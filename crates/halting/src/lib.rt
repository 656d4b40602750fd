//! How a thread halts others whose counting out left nobody awake: it takes the sleepers off their queues, each with
//! the answer that it was halted, and wakes them. And how a thread ends. FreeBSD has no such call.
//!
//! A halting is begun where `count` answers 1, and then gone on with until it is done. Its parts never wait: each makes
//! a few atomic steps, and answers what its caller is to do next (`Next`), with where it stands then. So a call that
//! parks goes on with it, part by part, as with its own parts; `halt_others` is a loop over them that waits, and
//! `count_out` counts the thread out before it.
//!
//! - `halting`: the parts, and the loop.
//! - `ending`: how a thread ends, part by part, and the loop.
#![tactic(auto)]

mod ending;
mod halting;

pub use ending::{EndAt, EndNext, end_thread, go_on_ending};
pub use halting::{Next, count_out, go_on_halting, halt_others};
