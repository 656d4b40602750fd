//! The words of a command line that asks for a picture of a run: what they say where they are a form, and why they
//! weren't read where they aren't.
//!
//! - `words`: what the words say.
//! - `reading`: reading them, by a table of options.
#![tactic(auto)]

mod args;
mod reading;

pub use args::{Asked, Form, LockchartArgs};
pub use option_words::{WordsError, no_text};
pub use reading::{FORM, HELP, VERSION, mistake, read_words};
