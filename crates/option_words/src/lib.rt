//! The words of a command line, by a table of options.
//!
//! - `synopsis`: the table: what a program may be told.
//! - `rule`: the table, as `clap` is told it.
//! - `reading`: reading words by it.
//! - `given`: what was read, or why it wasn't.
//! - `wrong_words`: what is wrong with words that are no form, in a sentence.
//! - `help`: the text of the help.
#![tactic(auto)]

mod given;
mod help;
mod reading;
mod rule;
mod synopsis;
mod wrong_words;

pub use given::{GivenTexts, Request, WordsError};
pub use reading::read;
pub use synopsis::{Help, LongOption, Synopsis, ValueKind};
pub use wrong_words::{mistake, no_text};
