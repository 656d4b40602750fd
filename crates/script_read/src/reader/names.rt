//! What names stand for. By a few bytes of a name there is a hint where its entry stands in the map, so most words are
//! compared with one name alone, and no name is made of them. A hint may be wrong: then the map is asked.
ghost use Rattle.std.specs.Prelude.{◌≡◌, ◌<◌, Ok, IfSome};
ghost use Rattle.lock_model.specs.Script.Learning.{declared_as, lock_named, chan_named, thread_named};
ghost use Rattle.script_read.specs.Reading.{named};
ghost use Rattle.script_read.specs.Readers.{known};

use crate::fault::Code;
use crate::reader::Reader;
use crate::reader::stages::spelled;
use crate::statement::byte_at;
use lock_model::{ChanNo, Declared, LockNo, ThreadNo};

/// How many hints there are.
pub const HINTS: usize = 256;

impl Reader {
    /// The lock that a word names.
    pub fn lock_named(&self, word: &[u8]) -> Result<LockNo, Code>
        ensures { result ≡ named word.now (lock_named (known self.now) word.now) }
    {
        match self.declared(word)? {
            Declared::Lock(l) => Ok(l),
            Declared::Chan(_) | Declared::Thread(_) => Err(Code::UNDECLARED),
        }
    }

    /// The condition variable or channel that a word names.
    pub fn chan_named(&self, word: &[u8]) -> Result<ChanNo, Code>
        ensures { result ≡ named word.now (chan_named (known self.now) word.now) }
    {
        match self.declared(word)? {
            Declared::Chan(c) => Ok(c),
            Declared::Lock(_) | Declared::Thread(_) => Err(Code::UNDECLARED),
        }
    }

    /// The thread that a word names.
    pub fn thread_named(&self, word: &[u8]) -> Result<ThreadNo, Code>
        ensures { result ≡ named word.now (thread_named (known self.now) word.now) }
    {
        match self.declared(word)? {
            Declared::Thread(t) => Ok(t),
            Declared::Lock(_) | Declared::Chan(_) => Err(Code::UNDECLARED),
        }
    }

    // What a word stands for.
    #[inline(always)]
    fn declared(&self, word: &[u8]) -> Result<Declared, Code>
        ensures { result ≡ named word.now (declared_as (known self.now) word.now) }
    {
        match self.hinted(word) {
            Some(declared) => Ok(declared),
            None => self.searched(word),
        }
    }

    // The same, by a search. Few words come here.
    #[inline(never)]
    fn searched(&self, word: &[u8]) -> Result<Declared, Code>
        ensures { result ≡ named word.now (declared_as (known self.now) word.now) }
    {
        self.names
            .get(&spelled(word)?)
            .copied()
            .ok_or(Code::UNDECLARED)
    }

    // The same, where its entry stands where the hint says.
    fn hinted(&self, word: &[u8]) -> Option<Declared>
        ensures { IfSome result
            (λ d. named word.now (declared_as (known self.now) word.now) ≡ Ok d) }
    {
        let hint = self.hints[hint_of(word)];
        let (name, declared) = self.names.get_index(usize::from(hint))?;
        if name.as_bytes() == word {
            Some(*declared)
        } else {
            None
        }
    }
}

/// Which hint is a name's, by its length, its first byte and its last two.
pub fn hint_of(name: &[u8]) -> usize
    ensures { result < 256 }
{
    let first = byte_at(name, 0);
    let last = byte_at(name, name.len().saturating_sub(1));
    let before = byte_at(name, name.len().saturating_sub(2));
    (name.len() % 256 + 9 * first + 10 * before + last) % HINTS
}
