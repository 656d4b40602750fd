//! The calls of locks whose threads block: a take, a try and a release, over the kind of the lock and a mode. A crate
//! for each kind of lock stands on this one.
//!
//! A call is begun, and then gone on with until it is done. Its parts never wait: each makes a few atomic steps, and
//! answers what its caller is to do next (`Next`, or `TryNext`); where the call stands, the pass says. So threads of a
//! runtime of one's own, or of a kernel, can drive the calls. `take_or_halt`, `take`, `try_take`, `release` and
//! `release_held` are loops over these parts that wait; a try never sleeps. A take whose sleep would leave nobody awake
//! halts others, by the parts of `halting`.
//!
//! The body is one for all kinds of locks. The queue of a mutex or a reader-writer lock is a turnstile, to which its
//! owner's walk of priorities belongs; that of an sx lock is a sleep queue, where nothing is lent. So these calls part
//! where a thread comes to stand on the queue and where the last holder takes others off it, and nowhere else.
//!
//! - `answers`: what a part of a call answers.
//! - `taking`, `trying` and `releasing`: the parts of a take, of a try and of a release, and `waiting`: the loops over
//!   them.
//! - `checking`: how a take has the order of its lock checked, `spinning`: a take before it has the lock's chain,
//!   `blocking`: in the section of the chain, and `sleeping`: on the lock's queue. `courses`: what it does with a
//!   word that it saw; a try does the same with it.
//! - `dropping`: a release outside the section of the lock's chain, `freeing`: in it, and `waking`: behind it.
//!
//! Within a wait a lock is given up and taken back by the same parts, without an entry (`give_up` and `take_back`, for
//! `Relock` of `lock_floor`): `begin_giving_up` and then `release_on`, and `retake_on`. These take and answer places,
//! and leave the pass's call alone, which is the wait's.
//!
//! Each other call needs a pass at rest and leaves it at rest. No call takes memory.
#![tactic(auto)]

mod answers;
mod blocking;
mod checking;
mod courses;
mod dropping;
mod freeing;
mod releasing;
mod sleeping;
mod spinning;
mod taking;
mod trying;
mod waiting;
mod waking;

pub use answers::{Next, ReleaseNext, TakeNext};
pub use dropping::begin_giving_up;
pub use releasing::{begin_release, go_on_releasing, release_on};
pub use taking::{begin_take, go_on_taking, retake_on};
pub use trying::{TryNext, begin_try, go_on_trying};
pub use waiting::{give_up, release, release_held, take, take_back, take_or_halt, try_take};
