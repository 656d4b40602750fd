//! What a chart says in plain words: of its bars, arrows and marks, of each turn, and of the end. Every form of a chart
//! says the same.
//!
//! - `names`: of what stands in a plan.
//! - `things`: of bars, arrows and marks.
//! - `sentences`: of turns and of the end.
#![tactic(auto)]

mod names;
mod sentences;
mod things;

pub use names::{push_named, push_prio, push_queue, push_words, queue_name};
pub use sentences::{end_headline, push_end, push_saying, push_sentence};
pub use things::{push_arrow, push_bar, push_lost, push_mark, push_note, push_refusal, verb_of};
