//! A chart as a trace for a viewer that zooms: the JSON that Chrome's tracing and Perfetto read, one millisecond a
//! turn. Each thread of the plan is a process there, with a track for its turns, one for its waits, one for its walks,
//! and one for each lock that it held; a counter is its priority, and arrows go from slice to slice.
//!
//! - `tracing`: the whole trace.
//! - `told`: what events tell, one thing after the other.
//! - `tracks`: where slices lie, and what the tracks are called.
//! - `slices`: bars and turns as slices, what is said of turns as instants, and priorities as counters.
//! - `flows`: wakes and loans as arrows.
#![tactic(auto)]

mod flows;
mod slices;
mod told;
mod tracing;
mod tracks;

pub use tracing::trace;
