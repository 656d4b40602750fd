//! A writer of std as a sink, which tells no bytes: what a real file, pipe or terminal took isn't known
//! to a proof.
ghost use Rattle.std.specs.Prelude.{◌≡◌, None, ◌<◌, ◌≤◌, length, IfOk, OnOk, OnErr, is_err};
ghost use Rattle.std.specs.Io.KnownBytes.{Keeps, WriteAppends};
ghost use Rattle.lock_io.specs.Faults.{Rose, one_more};
ghost use Rattle.lock_io.specs.StdEnds.{write_faults, writer_of};

use crate::failed::Failed;
use crate::sink::Sink;
use crate::std_source::TRIES;
use std::io::{ErrorKind, Write};

/// A writer of std, with a count of its faults that starts at 0 and stops at the last value of a `u64`.
///
/// ```
/// let mut sink = StdSink::new(stdout);
/// let written = write_all(&mut sink, b"ok");
/// ```
#[derive(Drop, Debug)]
pub struct StdSink<W> {
    writer: W,
    faults: u64,
}

impl<W: Write> StdSink<W> {
    /// The writer, with no fault counted yet.
    pub fn new(writer: W) -> StdSink<W>
        ensures writer { writer_of result ≡ writer }
        ensures faults { write_faults result ≡ 0 }
    {
        StdSink { writer, faults: 0 }
    }
}

/// An error of the writer is a fault, and so is a write that takes nothing of a piece that isn't empty.
/// A write that a signal interrupts is made again, up to 1,000 times, and is then a fault too. A flush is
/// made once.
impl<W: Write> Sink for StdSink<W> {
    ghost contents = { λ _. None };

    ghost faults = { write_faults };

    fn write(&mut self, from: &[u8]) -> Result<usize, Failed>
        ensures fits { IfOk result (λ n. n ≤ length from.now) }
        ensures takes_some { IfOk result (λ n. 0 < length from.now → 0 < n) }
        ensures bytes { WriteAppends (W.contents (writer_of self.old))
            (W.contents (writer_of self.new)) result from.now }
        ensures counts { OnErr result (write_faults self.new ≡ one_more (write_faults self.old)) }
        ensures fault { OnErr result (Rose (write_faults self.old) (write_faults self.new)) }
        ensures no_fault { OnOk result (write_faults self.new ≡ write_faults self.old) }
        ensures never_falls { write_faults self.old ≤ write_faults self.new }
    {
        let answer = write_again(&mut self.writer, from);
        if answer.is_err() {
            self.faults = self.faults.saturating_add(1);
        }
        answer
    }

    fn flush(&mut self) -> Result<(), Failed>
        ensures bytes { Keeps (W.contents (writer_of self.old)) (W.contents (writer_of self.new)) }
        ensures counts { OnErr result (write_faults self.new ≡ one_more (write_faults self.old)) }
        ensures fault { OnErr result (Rose (write_faults self.old) (write_faults self.new)) }
        ensures no_fault { OnOk result (write_faults self.new ≡ write_faults self.old) }
        ensures never_falls { write_faults self.old ≤ write_faults self.new }
    {
        if self.writer.flush().is_err() {
            self.faults = self.faults.saturating_add(1);
            return Err(Failed);
        }
        Ok(())
    }
}

// Writes, and again as long as a signal interrupts it.
fn write_again<W: Write>(writer: &mut W, from: &[u8]) -> Result<usize, Failed>
    ensures fits { IfOk result (λ n. n ≤ length from.now) }
    ensures takes_some { IfOk result (λ n. 0 < length from.now → 0 < n) }
    ensures bytes { WriteAppends (W.contents writer.old) (W.contents writer.new) result from.now }
{
    for _ in 0..TRIES {
        match writer.write(from) {
            Ok(0) if !from.is_empty() => return Err(Failed),
            Ok(n) => return Ok(n),
            Err(e) if e.kind() == ErrorKind::Interrupted => {}
            Err(_) => return Err(Failed),
        }
    }
    Err(Failed)
}
