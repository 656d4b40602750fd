//! What the program `lockplan` does, as a library: words and a script in, the same script with a schedule that a policy
//! made and a status out. A program, or a face for other languages, picks up its words and its streams and calls this.
//!
//! From the outside in:
//! - `top`: the call, with everything that is promised of it.
//! - `planned`: the script of a plan with a schedule that a policy made.
#![tactic(auto)]

mod planned;
mod top;

pub use crate::top::lockplan;
use complaints::Program;
pub use complaints::Status;
pub use top_ends::Ended;

/// The program, as its sentences name it.
pub const LOCKPLAN: Program = Program {
    name: "lockplan",
    form: plan_command::FORM,
    too_long: "the schedule would have more than 100,000 entries, \
        or the script more than 1,048,576 bytes",
};
