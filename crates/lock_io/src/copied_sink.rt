//! A sink that keeps a copy of what another one took, for the sentence that is said of a written text.
ghost use Rattle.std.specs.Prelude.{◌≡◌, Some, [], ◌<◌, ◌≤◌, length, take, unwrap_or, IfOk, OnOk, OnErr};
ghost use Rattle.std.specs.Io.KnownBytes.{append_known};
ghost use Rattle.lock_io.specs.Copies.{Copies, copy_of, copied_from};
ghost use Rattle.lock_io.specs.Faults.{Rose};

use crate::failed::Failed;
use crate::sink::Sink;
use std::alloc::Global;

/// A sink, with a copy of the bytes that it took. Where memory for the copy is wanting, the copy is given up, and the
/// writing goes on.
///
/// ```
/// let mut sink = CopiedSink::new(alloc, StdSink::new(stdout));
/// let written = write_all(&mut sink, b"ok");
/// let said = sink.copy(); // ok
/// ```
#[derive(Drop, Debug)]
pub struct CopiedSink<K> {
    sink: K,
    copy: Vec<u8>,
    is_whole: bool,
}

impl<K: Sink> CopiedSink<K> {
    /// The sink, of which nothing has been copied yet.
    pub fn new(alloc: Global, sink: K) -> CopiedSink<K>
        ensures sink { copied_from result ≡ sink }
        ensures copy { copy_of result ≡ Some [] }
    {
        CopiedSink {
            sink,
            copy: Vec::new(alloc),
            is_whole: true,
        }
    }

    /// What was taken, or nothing where the copy was given up.
    pub fn copy(&self) -> &[u8]
        ensures { result.now ≡ unwrap_or (copy_of self.now) [] }
    {
        if self.is_whole { &self.copy } else { b"" }
    }
}

impl<K: Sink> Sink for CopiedSink<K> {
    ghost contents = { λ s. K.contents (copied_from s) };

    ghost faults = { λ s. K.faults (copied_from s) };

    fn write(&mut self, from: &[u8]) -> Result<usize, Failed>
        ensures copies { IfOk result (λ n.
            Copies (copy_of self.old) (copy_of self.new) (take n from.now)) }
        ensures copies_none { OnErr result (copy_of self.new ≡ copy_of self.old) }

        // What each sink promises beside that.
        ensures fits { IfOk result (λ n. n ≤ length from.now) }
        ensures takes_some { IfOk result (λ n. 0 < length from.now → 0 < n) }
        ensures adds { IfOk result (λ n. K.contents (copied_from self.new)
            ≡ append_known (K.contents (copied_from self.old)) (take n from.now)) }
        ensures adds_none { OnErr result
            (K.contents (copied_from self.new) ≡ K.contents (copied_from self.old)) }
        ensures fault { OnErr result
            (Rose (K.faults (copied_from self.old)) (K.faults (copied_from self.new))) }
        ensures no_fault { OnOk result
            (K.faults (copied_from self.new) ≡ K.faults (copied_from self.old)) }
        ensures never_falls { K.faults (copied_from self.old) ≤ K.faults (copied_from self.new) }
    {
        let n = self.sink.write(from)?;
        self.is_whole = self.is_whole && self.copy.extend_from_slice(&from[..n]).is_ok();
        Ok(n)
    }

    fn flush(&mut self) -> Result<(), Failed>
        ensures copy { copy_of self.new ≡ copy_of self.old }

        // What each sink promises beside that.
        ensures keeps { K.contents (copied_from self.new) ≡ K.contents (copied_from self.old) }
        ensures fault { OnErr result
            (Rose (K.faults (copied_from self.old)) (K.faults (copied_from self.new))) }
        ensures no_fault { OnOk result
            (K.faults (copied_from self.new) ≡ K.faults (copied_from self.old)) }
        ensures never_falls { K.faults (copied_from self.old) ≤ K.faults (copied_from self.new) }
    {
        self.sink.flush()
    }
}
