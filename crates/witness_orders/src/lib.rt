//! The order in which classes of locks may be taken, learnt as witness(4) learns it: each admitted
//! acquisition orders the classes of the held locks before the wanted one, and an acquisition that would
//! reverse an order is refused.
//!
//! - `orders`: the graph, and what it answers.
//! - `bits`: sets of classes, a bit for each.
//! - `laws`: what holds of every graph that grows by admitted acquisitions.
#![tactic(auto)]

mod bits;
mod laws;
mod orders;

pub use laws::{
    admissions_bring_no_cycle, paths_only_grow, refusals_have_their_cause, same_edges_answer_alike,
};
pub use orders::Orders;
