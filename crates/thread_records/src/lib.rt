//! The record of a thread: its priorities, its own turnstile and node where they are at home, the
//! priorities that it is lent, and the queue on which it stands. FreeBSD keeps these in `struct thread`
//! and in the lists of a turnstile.
//!
//! - `record`: the record.
//! - `loans`: the list of loans in it.
#![tactic(auto)]

mod loans;
mod record;

pub use record::ThreadRec;
