//! Tests of the calls of `floor_calls`, over public calls alone: what each answers where it may be made, and where it
//! may not; and which descriptions a floor is opened for.
#![tactic(auto)]

#[cfg(test)]
mod answers;
#[cfg(test)]
mod asking;
#[cfg(test)]
mod floors;
#[cfg(test)]
mod openings;
#[cfg(test)]
mod waits;
