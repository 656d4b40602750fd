//! What is printed of what a floor left when it was closed: its logs, merged by their tickets; a copy of its tables;
//! each thread's base priority; and how the threads ended.
#![tactic(auto)]

mod outcomes;

pub use outcomes::outcome_of;
