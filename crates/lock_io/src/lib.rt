//! The outside of the program: where its script comes from, where its text goes, and where its threads are held back.
//!
//! - `failed`: the one fault of a source or a sink.
//! - `source`, `sink`: the traits, with the bytes that an end tells and its count of faults.
//! - `whole`: reading a source to its end, and writing a whole text to a sink.
//! - `mem_source`, `mem_sink`: ends in memory for tests, over `calls`, which lets chosen calls fail.
//! - `std_source`, `std_sink`: a reader and a writer of std as ends of the program.
//! - `copied_sink`: a sink with a copy of what it took.
//! - `gate`: what a thread passes before each of its operations; `meeting`: one for tests, at which two threads wait
//!   for each other.
#![tactic(auto)]

mod calls;
mod copied_sink;
mod failed;
mod gate;
mod meeting;
mod mem_sink;
mod mem_source;
mod sink;
mod source;
mod std_sink;
mod std_source;
mod whole;

pub use copied_sink::CopiedSink;
pub use failed::Failed;
pub use gate::{Gate, OpenGate};
pub use meeting::Meeting;
pub use mem_sink::MemSink;
pub use mem_source::MemSource;
pub use sink::Sink;
pub use source::Source;
pub use std_sink::StdSink;
pub use std_source::StdSource;
pub use whole::{ReadAllError, read_all, write_all};
