//! The words of the command line: what they say where they are a form, and why they weren't read where they aren't.
//!
//! - `words`: what the words say.
//! - `reading`: reading them, by a table of options.
#![tactic(auto)]

mod args;
mod reading;

pub use args::{Command, LockrunArgs};
pub use option_words::{WordsError, no_text};
pub use reading::{HELP, mistake, read_words};
