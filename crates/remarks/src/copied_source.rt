//! A source that keeps a copy of what was read from another one, for what is said of a script.
ghost use Rattle.std.specs.Prelude.{◌≡◌, Some, [], ◌<◌, ◌≤◌, length, take, option_map, IfOk, OnOk, OnErr};
ghost use Rattle.std.specs.Io.KnownBytes.{IsAtEnd, prepend_known};
ghost use Rattle.lock_io.specs.Copies.{Copies};
ghost use Rattle.lock_io.specs.Faults.{Rose};
ghost use Rattle.remarks.specs.Copies.{copied_from, copy_of};

use lock_io::{Failed, Source};
use std::alloc::Global;

/// A source, with a copy of the bytes that were read from it. Where memory for the copy is wanting, the copy is given
/// up, and the reading goes on.
///
/// ```
/// let mut source = CopiedSource::new(alloc, StdSource::new(stdin));
/// let script = read_all(alloc, &mut source, 1_000);
/// let again = source.copy();
/// ```
#[derive(Drop, Debug)]
pub struct CopiedSource<S> {
    source: S,
    copy: Vec<u8>,
    is_whole: bool,
}

impl<S: Source> CopiedSource<S> {
    /// The source, of which nothing has been copied yet.
    pub fn new(alloc: Global, source: S) -> CopiedSource<S>
        ensures source { copied_from result ≡ source }
        ensures copy { copy_of result ≡ Some [] }
    {
        CopiedSource {
            source,
            copy: Vec::new(alloc),
            is_whole: true,
        }
    }

    /// What was read, or nothing where the copy was given up.
    pub fn copy(&self) -> Option<&[u8]>
        ensures { option_map (λ c. c.now) result ≡ copy_of self.now }
    {
        if self.is_whole {
            Some(&self.copy)
        } else {
            None
        }
    }
}

impl<S: Source> Source for CopiedSource<S> {
    ghost remaining = { λ s. S.remaining (copied_from s) };

    ghost faults = { λ s. S.faults (copied_from s) };

    fn read(&mut self, into: &mut [u8]) -> Result<usize, Failed>
        ensures copies { IfOk result (λ n.
            Copies (copy_of self.old) (copy_of self.new) (take n into.new)) }
        ensures copies_none { OnErr result (copy_of self.new ≡ copy_of self.old) }

        // What each source promises beside that.
        ensures fits { IfOk result (λ n. n ≤ length into.new) }
        ensures gives { IfOk result (λ n. S.remaining (copied_from self.old)
            ≡ prepend_known (take n into.new) (S.remaining (copied_from self.new))) }
        ensures end { IfOk result (λ n.
            n ≡ 0 → 0 < length into.new → IsAtEnd (S.remaining (copied_from self.old))) }
        ensures takes_none { OnErr result
            (S.remaining (copied_from self.new) ≡ S.remaining (copied_from self.old)) }
        ensures fault { OnErr result
            (Rose (S.faults (copied_from self.old)) (S.faults (copied_from self.new))) }
        ensures no_fault { OnOk result
            (S.faults (copied_from self.new) ≡ S.faults (copied_from self.old)) }
        ensures never_falls { S.faults (copied_from self.old) ≤ S.faults (copied_from self.new) }
    {
        let n = self.source.read(into)?;
        self.is_whole = self.is_whole && self.copy.extend_from_slice(&into[..n]).is_ok();
        Ok(n)
    }
}
