//! Chains of a hash table: the heads of the queues that hash to one entry, linked through their own
//! boxes, as the turnstile chains of subr_turnstile.c are.
//!
//! - `head`: what is linked.
//! - `chain`: a chain, seen by contracts as a list of names with their heads.
//! - `objects`: turnstiles and sleep queues as heads.
//! - `slot`: which chain a queue belongs to.
#![tactic(auto)]

mod chain;
mod head;
mod objects;
mod slot;

pub use chain::Chain;
pub use head::Head;
pub use slot::slot_of;
