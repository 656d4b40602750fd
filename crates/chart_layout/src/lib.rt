//! The drawing of a scheduled run before it has a form: a chart says which bars, steps, arrows, marks and sentences
//! stand in it, and where, by numbers alone. It shows a window of the run, some of its rows: row n is the state behind
//! n turns, and turn n leads from row n to row n + 1.
//!
//! - `layout`: what a chart is made of.
//! - `sentence`: what is said below it.
#![tactic(auto)]

mod layout;
mod sentence;

pub use layout::{Arrow, ArrowKind, Bar, BarKind, Chart, Lane, MarkKind, PrioSpan, TurnMark};
pub use sentence::{End, Saying, Sentence};
