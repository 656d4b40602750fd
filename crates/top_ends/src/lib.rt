//! What the top calls of all programs share: the words of a command line are picked up, a source is read to its end,
//! and a text is written to a sink. What went wrong there is told as a status, and with it the fault of a source that
//! is no script.
//!
//! - `words`: the words, as the system gives them.
//! - `reading`: all bytes of a source.
//! - `writing`: a whole text to a sink.
//! - `ended`: how a call ends, of a program that writes nothing of a source that is no script.
#![tactic(auto)]

mod ended;
mod reading;
mod words;
mod writing;

pub use ended::Ended;
pub use reading::read_bytes;
pub use words::given_words;
pub use writing::write_text;
