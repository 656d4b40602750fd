//! Tests of the calls of `turn_calls`, over public calls alone: which sources a world
//! is opened for, what became of each turn, what a thread is told to be in between, and the text.
#![tactic(auto)]

#[cfg(test)]
mod openings;
#[cfg(test)]
mod turns;
