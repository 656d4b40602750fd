//! A profile of a run's locks, after LOCK_PROFILING(9): counts that its history shows, for each lock and for each pair
//! of classes of locks. Which counts these are, and that times are differences of tickets, is this project's own.
//!
//! - `lines`: a profile.
//! - `profiling`: that of a history.
//! - `counting`: one pass over a history, with the sections that are open.
//! - `tally`: what is counted of one lock.
//! - `held`: the locks of each thread's sections that are open.
//! - `orders`: what is counted of pairs of classes.
//! - `events`: what is counted of a lock at an event.
//! - `text`: the printed text of a profile.
#![tactic(auto)]

mod counting;
mod events;
mod held;
mod lines;
mod orders;
mod profiling;
mod tally;
mod text;

pub use lines::{LockLine, OrderLine, Profile};
pub use profiling::profile;
pub use text::print_profile;
