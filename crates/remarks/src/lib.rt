//! What a program says on standard error below its one sentence (`complaints`), so that a user need not look it up: the
//! lines that `remark_lines` finds by reading the source again, few, short and in plain ASCII. Neither a status nor a
//! text depends on them. How much it may be is promised (`shape`); what it says is shown by examples, one of each
//! cause.
//!
//! - `ends`: saying how a program ended, whether its words were a form or not.
//! - `saying`: saying all of it on a stream.
//! - `by_status`: what is said, by the status.
//! - `shape`: few and short lines in plain ASCII.
//! - `copied_source`: a source that is kept to be read again.
#![tactic(auto)]

mod by_status;
mod copied_source;
mod ends;
mod saying;
mod shape;

pub use by_status::remarks;
pub use copied_source::CopiedSource;
pub use ends::{Wrong, tell_end};
pub use saying::{tell, tell_usage};
