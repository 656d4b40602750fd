//! A source in memory, for tests: it gives its bytes in small pieces, and fails where it is told to.
ghost use Rattle.std.specs.Prelude.{◌≡◌, Some, ◌<◌, ◌≤◌, length, take, drop, min, IfOk, OnOk, OnErr, is_err};
ghost use Rattle.std.specs.Io.KnownBytes.{IsAtEnd, prepend_known};
ghost use Rattle.lock_io.specs.Faults.{Rose};
ghost use Rattle.lock_io.specs.Memory.{failed, is_due, passed, uncalled};

use crate::calls::Calls;
use crate::failed::Failed;
use crate::source::Source;
use std::marker::Model;

/// Bytes in memory, read in pieces.
///
/// ```
/// let bytes = Vec::from_slice(alloc, b"done")?;
/// let mut source = MemSource::new(bytes, 3, vec![in alloc; 1]?); // its second read fails
/// ```
#[derive(Drop, Debug)]
pub struct MemSource {
    bytes: Vec<u8>,
    // How many of them were read.
    at: usize,
    piece: usize,
    calls: Calls,
}

impl Model for MemSource {
    ghost use Rattle.std.specs.Prelude.{◌≤◌, drop, vec_len};
    ghost use Rattle.lock_io.specs.Memory.{Supply};

    ghost Value = { Supply };

    ghost view = { λ s. record { left = drop s.at s.bytes.items; piece = s.piece; calls = s.calls } };

    ghost invariant = { λ s. (s.at ≤ vec_len s.bytes) × (1 ≤ s.piece) };
}

impl MemSource {
    /// A source of the bytes. A read moves at most `piece` of them, and the reads whose numbers, from 0,
    /// stand in `fails` fail.
    pub fn new(bytes: Vec<u8>, piece: usize, fails: Vec<u32>) -> MemSource
        requires { 1 ≤ piece }
        ensures { result ≡ record {
          left = bytes.items;
          piece = piece;
          calls = uncalled fails.items;
        } }
    {
        MemSource {
            bytes,
            at: 0,
            piece,
            calls: Calls::new(fails),
        }
    }
}

impl Source for MemSource {
    ghost remaining = { λ s. Some s.left };

    ghost faults = { λ s. s.calls.faults };

    fn read(&mut self, into: &mut [u8]) -> Result<usize, Failed>
        ensures fails { is_err result ≡ is_due self.old.calls }
        ensures moves { IfOk result (λ n.
            n ≡ min self.old.piece (min (length into.old) (length self.old.left))) }
        ensures front { IfOk result (λ n. take n into.new ≡ take n self.old.left) }
        ensures ok { IfOk result (λ n. self.new ≡ record self.old {
          left = drop n self.old.left;
          calls = passed self.old.calls;
        }) }
        ensures err { OnErr result (self.new ≡ record self.old {
          calls = failed self.old.calls;
        }) }

        // What each source promises beside that.
        ensures end { IfOk result (λ n.
            n ≡ 0 → 0 < length into.new → IsAtEnd (Some self.old.left)) }
        ensures fault { OnErr result (Rose self.old.calls.faults self.new.calls.faults) }
        ensures never_falls { self.old.calls.faults ≤ self.new.calls.faults }
    {
        self.calls.count(false)?;
        let left = &self.bytes[self.at..];
        let n = self.piece.min(into.len()).min(left.len());
        into[..n].copy_from_slice(&left[..n]);
        self.at += n;
        Ok(n)
    }
}
