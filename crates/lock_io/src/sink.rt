//! Where bytes are written to. A test writes to memory (`mem_sink`), the program to a writer of std
//! (`std_sink`), and code that is proved over this trait serves both.
ghost use Rattle.std.specs.Prelude.{◌≡◌, ℕ, List, Option, ◌<◌, ◌≤◌, length, take, IfOk, OnOk, OnErr};
ghost use Rattle.std.specs.Io.KnownBytes.{append_known};
ghost use Rattle.lock_io.specs.Faults.{Rose};

use crate::failed::Failed;

/// A sink for bytes, which counts its faults.
///
/// ```
/// let taken = sink.write(b"ok")?;
/// sink.flush()?;
/// ```
pub trait Sink {
    // The bytes that it holds, where the sink tells them.
    ghost contents: { Self → Option (List ℕ) };

    // How many faults there were.
    ghost faults: { Self → ℕ };

    /// Writes the first bytes of the piece and answers how many it took: at least one of a piece that
    /// isn't empty. `Failed` adds no byte, and comes only where the count of faults rises or stands at
    /// the last value of a `u64`; no other answer changes the count.
    fn write(&mut self, from: &[u8]) -> Result<usize, Failed>
        ensures fits { IfOk result (λ n. n ≤ length from.now) }
        ensures takes_some { IfOk result (λ n. 0 < length from.now → 0 < n) }
        ensures adds { IfOk result (λ n.
            contents self.new ≡ append_known (contents self.old) (take n from.now)) }
        ensures adds_none { OnErr result (contents self.new ≡ contents self.old) }

        ensures fault { OnErr result (Rose (faults self.old) (faults self.new)) }
        ensures no_fault { OnOk result (faults self.new ≡ faults self.old) }
        ensures never_falls { faults self.old ≤ faults self.new };

    /// Hands on what was written and may still be held back. `Failed` comes as in `write`.
    fn flush(&mut self) -> Result<(), Failed>
        ensures keeps { contents self.new ≡ contents self.old }

        ensures fault { OnErr result (Rose (faults self.old) (faults self.new)) }
        ensures no_fault { OnOk result (faults self.new ≡ faults self.old) }
        ensures never_falls { faults self.old ≤ faults self.new };
}
