//! Tests of the profile of a run's locks, over scheduled runs and over threads that ran. A crate that has tests is
//! proved a second time for them, so they stand apart.
#![tactic(auto)]

#[cfg(test)]
mod profiles;
