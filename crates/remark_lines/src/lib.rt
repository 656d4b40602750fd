//! The lines that a source has to what was written of it, found by reading the source again. Of a script's fault: which
//! cause of its code it is, the line with a mark below the place, and what the line goes against. Of a refused take:
//! both locks, and the takes that put the one before the other. Of a stuck run: where each thread waits. What they say
//! is shown by examples, one of each cause, and none of it is promised: their shape is, in `remarks`, which says them.
//!
//! - `faults`: of a fault; `finding` is what is known of it, and `causes` has a row for each cause.
//! - `refusals`, `sleepers`: of a run; `replay` makes it again from its history, and `actor` is a thread in it.
//! - `book`: what the lines above a place have made known, by the first words of `verbs`.
//! - `places`, `excerpt`: lines and words of a source, and a line as it is shown.
#![tactic(auto)]

mod actor;
mod book;
mod causes;
mod excerpt;
mod faults;
mod finding;
mod places;
mod refusals;
mod replay;
mod sleepers;
mod verbs;

pub use faults::of_fault;
pub use refusals::of_refusal;
pub use sleepers::of_stuck;
use std::alloc::{AllocError, Global};
use std::fmt::Display;

/// The most lines that are said below a sentence.
pub const LINES: usize = 8;

// A line more.
fn push_line<S: Display + Drop>(
    alloc: Global,
    lines: &mut Vec<String>,
    line: S,
) -> Result<(), AllocError> {
    lines.push(line.to_string(alloc)?)?;
    Ok(())
}
