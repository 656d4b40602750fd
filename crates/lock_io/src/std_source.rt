//! A reader of std as a source, which tells no bytes: what a real file, pipe or terminal holds isn't
//! known to a proof.
ghost use Rattle.std.specs.Prelude.{◌≡◌, None, ◌<◌, ◌≤◌, length, IfOk, OnOk, OnErr, is_err};
ghost use Rattle.std.specs.Io.KnownBytes.{ReadConsumes};
ghost use Rattle.lock_io.specs.Faults.{Rose, one_more};
ghost use Rattle.lock_io.specs.StdEnds.{read_faults, reader_of};

use crate::failed::Failed;
use crate::source::Source;
use std::io::{ErrorKind, Read};

/// A reader of std, with a count of its faults that starts at 0 and stops at the last value of a `u64`.
///
/// ```
/// let mut source = StdSource::new(stdin);
/// let script = read_all(alloc, &mut source, 1_000);
/// ```
#[derive(Drop, Debug)]
pub struct StdSource<R> {
    reader: R,
    faults: u64,
}

impl<R: Read> StdSource<R> {
    /// The reader, with no fault counted yet.
    pub fn new(reader: R) -> StdSource<R>
        ensures reader { reader_of result ≡ reader }
        ensures faults { read_faults result ≡ 0 }
    {
        StdSource { reader, faults: 0 }
    }
}

/// An error of the reader is a fault. A read that a signal interrupts is made again, up to 1,000 times,
/// and is then a fault too.
impl<R: Read> Source for StdSource<R> {
    ghost remaining = { λ _. None };

    ghost faults = { read_faults };

    fn read(&mut self, into: &mut [u8]) -> Result<usize, Failed>
        ensures fits { IfOk result (λ n. n ≤ length into.new) }
        ensures bytes { ReadConsumes (R.remaining (reader_of self.old))
            (R.remaining (reader_of self.new)) result into.new }
        ensures counts { OnErr result (read_faults self.new ≡ one_more (read_faults self.old)) }
        ensures fault { OnErr result (Rose (read_faults self.old) (read_faults self.new)) }
        ensures no_fault { OnOk result (read_faults self.new ≡ read_faults self.old) }
        ensures never_falls { read_faults self.old ≤ read_faults self.new }
    {
        let answer = read_again(&mut self.reader, into);
        if answer.is_err() {
            self.faults = self.faults.saturating_add(1);
        }
        answer
    }
}

// How often a call that is interrupted is made, at most.
pub(crate) const TRIES: u32 = 1000;

// Reads, and again as long as a signal interrupts it.
fn read_again<R: Read>(reader: &mut R, into: &mut [u8]) -> Result<usize, Failed>
    ensures fits { IfOk result (λ n. n ≤ length into.new) }
    ensures bytes { ReadConsumes (R.remaining reader.old) (R.remaining reader.new) result into.new }
{
    for _ in 0..TRIES {
        match reader.read(into) {
            Ok(n) => return Ok(n),
            Err(e) if e.kind() == ErrorKind::Interrupted => {}
            Err(_) => return Err(Failed),
        }
    }
    Err(Failed)
}
