//! A sink in memory, for tests: it takes bytes in small pieces, has little room, and fails where it is
//! told to.
ghost use Rattle.std.specs.Prelude.{◌≡◌, Some, [], ◌<◌, ◌≤◌, ◌-◌, ◌++◌, ◌||◌, length, take, min, IfOk, OnOk, OnErr, is_err};
ghost use Rattle.std.specs.Io.KnownBytes.{append_known};
ghost use Rattle.lock_io.specs.Faults.{Rose};
ghost use Rattle.lock_io.specs.Memory.{failed, is_due, is_refused, passed, uncalled};

use crate::calls::Calls;
use crate::failed::Failed;
use crate::sink::Sink;
use std::alloc::{AllocError, Global};
use std::marker::Model;

/// Bytes in memory, written in pieces up to a limit.
///
/// ```
/// let mut sink = MemSink::new(alloc, 100, 3, Vec::new(alloc))?; // no call fails
/// let written = write_all(&mut sink, b"ok");
/// ```
#[derive(Drop, Debug)]
pub struct MemSink {
    // Its memory was taken by `new`, so that a write takes none.
    bytes: Vec<u8>,
    room: usize,
    piece: usize,
    calls: Calls,
}

impl Model for MemSink {
    ghost use Rattle.std.specs.Prelude.{◌≤◌, vec_len, vec_capacity};
    ghost use Rattle.lock_io.specs.Memory.{Store};

    ghost Value = { Store };

    ghost view = { λ s. record {
      held = s.bytes.items;
      room = s.room;
      piece = s.piece;
      calls = s.calls;
    } };

    ghost invariant = { λ s. (vec_len s.bytes ≤ s.room) × (s.room ≤ vec_capacity s.bytes)
        × (1 ≤ s.piece) };
}

impl MemSink {
    /// An empty sink that has room for so many bytes. A write moves at most `piece` of them, and the
    /// calls of `write` and `flush` whose numbers, from 0, stand in `fails` fail.
    pub fn new(
        alloc: Global,
        room: usize,
        piece: usize,
        fails: Vec<u32>,
    ) -> Result<MemSink, AllocError>
        requires { 1 ≤ piece }
        ensures { IfOk result (λ sink. sink ≡ record {
          held = [];
          room = room;
          piece = piece;
          calls = uncalled fails.items;
        }) }
    {
        Ok(MemSink {
            bytes: Vec::with_capacity(alloc, room)?,
            room,
            piece,
            calls: Calls::new(fails),
        })
    }

    /// The bytes that it holds.
    pub fn bytes(&self) -> &[u8]
        ensures { result.now ≡ self.now.held }
    {
        &self.bytes
    }
}

impl Sink for MemSink {
    ghost contents = { λ s. Some s.held };

    ghost faults = { λ s. s.calls.faults };

    fn write(&mut self, from: &[u8]) -> Result<usize, Failed>
        ensures fails { is_err result ≡ (is_due self.old.calls || is_refused self.old from.now) }
        ensures moves { IfOk result (λ n. n ≡ min self.old.piece
            (min (length from.now) (self.old.room - length self.old.held))) }
        ensures ok { IfOk result (λ n. self.new ≡ record self.old {
          held = self.old.held ++ take n from.now;
          calls = passed self.old.calls;
        }) }
        ensures err { OnErr result (self.new ≡ record self.old {
          calls = failed self.old.calls;
        }) }

        // What each sink promises beside that.
        ensures takes_some { IfOk result (λ n. 0 < length from.now → 0 < n) }
        ensures fault { OnErr result (Rose self.old.calls.faults self.new.calls.faults) }
        ensures never_falls { self.old.calls.faults ≤ self.new.calls.faults }
    {
        let left = self.room - self.bytes.len();
        self.calls.count(!from.is_empty() && left == 0)?;
        let n = self.piece.min(from.len()).min(left);
        self.bytes.extend_from_slice(&from[..n]).unwrap();
        Ok(n)
    }

    fn flush(&mut self) -> Result<(), Failed>
        ensures fails { is_err result ≡ is_due self.old.calls }
        ensures ok { OnOk result (self.new ≡ record self.old {
          calls = passed self.old.calls;
        }) }
        ensures err { OnErr result (self.new ≡ record self.old {
          calls = failed self.old.calls;
        }) }

        // What each sink promises beside that.
        ensures fault { OnErr result (Rose self.old.calls.faults self.new.calls.faults) }
        ensures never_falls { self.old.calls.faults ≤ self.new.calls.faults }
    {
        self.calls.count(false)
    }
}
