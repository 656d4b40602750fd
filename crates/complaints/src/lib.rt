//! What a program says on standard error: one plain sentence where there is something to say.
//!
//! - `program`: the program that speaks.
//! - `status`: how it ended.
//! - `sentence`: the sentence that belongs to a status and to the text that was written.
//! - `text`: finding words in that text.
//! - `saying`: saying the sentence on a stream.
#![tactic(auto)]

mod program;
mod saying;
mod sentence;
mod status;
mod text;

pub use program::Program;
pub use saying::{Unsaid, say};
pub use sentence::{complaint, fixed_complaint, speaker};
pub use status::Status;
