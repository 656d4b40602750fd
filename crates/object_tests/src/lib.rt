//! Tests of lock words, of the order of classes, and of the objects in which threads wait. A crate with tests is proved
//! twice, so these stand apart from the crates that carry proofs, and nothing but tests is here.
//!
//! The contracts give what each call answers. The tests add that a clause means the rule, by values that were worked
//! out by hand from the rule, and that a call succeeds where there is memory.
//!
//! - `words`: the worked lock words, and the steps of one.
//! - `orders`: which acquisitions a graph of orders admits, and which it refuses.
//! - `turnstiles`, `sleepers`: a turnstile and a sleep queue, from the first who waits to the last who is woken.
//! - `chains`: heads that come and go, and which chain a queue belongs to.
//! - `records`: a thread's own objects, lent and taken back, and its priorities.
//! - `lending`: the hops of a lending walk.
//! - `sending`: what may pass from one thread to another.
#![tactic(auto)]

#[cfg(test)]
mod chains;
#[cfg(test)]
mod lending;
#[cfg(test)]
mod orders;
#[cfg(test)]
mod records;
#[cfg(test)]
mod sending;
#[cfg(test)]
mod sleepers;
#[cfg(test)]
mod turnstiles;
#[cfg(test)]
mod words;
