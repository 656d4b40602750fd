//! Tests of sleeps over ticks, over public calls alone: scripts with the texts of their runs, written out by hand, and
//! the first fault of others.
#![tactic(auto)]

#[cfg(test)]
mod briefs;
#[cfg(test)]
mod faults;
#[cfg(test)]
mod runs;
