//! Where bytes are read from. A test reads from memory (`mem_source`), the program from a reader of
//! std (`std_source`), and code that is proved over this trait serves both.
ghost use Rattle.std.specs.Prelude.{◌≡◌, ℕ, List, Option, ◌<◌, ◌≤◌, length, take, IfOk, OnOk, OnErr};
ghost use Rattle.std.specs.Io.KnownBytes.{IsAtEnd, prepend_known};
ghost use Rattle.lock_io.specs.Faults.{Rose};

use crate::failed::Failed;

/// A source of bytes, which counts its faults.
///
/// ```
/// let mut piece = [0; 512];
/// let taken = source.read(&mut piece)?;
/// ```
pub trait Source {
    // The bytes that are left, where the source tells them.
    ghost remaining: { Self → Option (List ℕ) };

    // How many faults there were.
    ghost faults: { Self → ℕ };

    /// Reads the next bytes into the front of the piece and answers how many they are. What stands
    /// behind them in the piece is left open. At a piece that isn't empty, 0 is the end. `Failed` takes
    /// no byte, and comes only where the count of faults rises or stands at the last value of a `u64`;
    /// no other answer changes the count.
    fn read(&mut self, into: &mut [u8]) -> Result<usize, Failed>
        ensures fits { IfOk result (λ n. n ≤ length into.new) }
        ensures gives { IfOk result (λ n.
            remaining self.old ≡ prepend_known (take n into.new) (remaining self.new)) }
        ensures end { IfOk result (λ n.
            n ≡ 0 → 0 < length into.new → IsAtEnd (remaining self.old)) }
        ensures takes_none { OnErr result (remaining self.new ≡ remaining self.old) }

        ensures fault { OnErr result (Rose (faults self.old) (faults self.new)) }
        ensures no_fault { OnOk result (faults self.new ≡ faults self.old) }
        ensures never_falls { faults self.old ≤ faults self.new };
}
