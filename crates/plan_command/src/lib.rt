//! The words of a command line that asks for a schedule: what they say where they are a form, and why they weren't read
//! where they aren't.
//!
//! - `words`: what the words ask for.
//! - `reading`: reading them, by a table of options.
//! - `spelling`: two of them in the words of that table.
#![tactic(auto)]

mod reading;
mod spelling;
mod words;

pub use option_words::{WordsError, no_text};
pub use reading::{FORM, HELP, mistake, read_words};
pub use words::Asked;
