//! Why a script wasn't read: the codes of faults, a faulty line, and the error that the caller gets.
ghost use Rattle.std.specs.Prelude.{◌≡◌, Ok, Err, if◌then◌else◌, alloc_error};
ghost use Rattle.script_read.specs.declared.fault.LineError.TheVariants as line;
ghost use Rattle.script_read.specs.declared.fault.ReadError.TheVariants.{Script, Memory};
ghost use Rattle.script_read.specs.Reading.{told_at};

use std::alloc::{AllocError, AllocFailed};
use thiserror::Error;

/// The first line that breaks a rule, and which rule.
#[derive(Clone, Copy, Debug, PartialEq, Eq)]
pub struct ScriptFault {
    pub line: u32,
    pub code: u8,
}

/// Why there is no plan: the bytes are no script, or memory ran out.
#[derive(Debug, Drop, Error)]
pub enum ReadError {
    #[error("line {} code {}", .0.line, .0.code)]
    Script(ScriptFault),
    #[error("out of memory")]
    Memory(AllocError),
}

/// The rule that a line breaks, by its number. Each script has the codes of those rules that it can break.
#[derive(Clone, Copy, Debug)]
pub struct Code(pub u8);

impl Code {
    /// The first line isn't the header.
    pub const HEADER: Code = Code(1);
    /// A first word is unknown, a word empty or their number wrong, or a line stands behind `done`.
    pub const WORDS: Code = Code(2);
    /// A name or class isn't spelled as one.
    pub const SPELLING: Code = Code(3);
    /// A name is declared already.
    pub const DECLARED: Code = Code(4);
    /// A name isn't declared, or as another sort.
    pub const UNDECLARED: Code = Code(5);
    /// A number or priority isn't one.
    pub const NUMBER: Code = Code(6);
    /// A limit is passed.
    pub const LIMIT: Code = Code(7);
    /// A lock is of another kind than its operation, or a channel is used for a condition variable or the reverse.
    pub const KIND: Code = Code(8);
    /// A lock that is to be gained is held.
    pub const HELD: Code = Code(9);
    /// A lock is released in another mode than it is held in.
    pub const MODE: Code = Code(10);
    /// A lock isn't held.
    pub const UNHELD: Code = Code(11);
    /// An sx lock is to be gained while a mutex or an rw lock is held, or a wait comes while another one is.
    pub const UNDER_OTHERS: Code = Code(12);
    /// The lock of a wait wasn't gained last, or was gained by a try.
    pub const NOT_LAST: Code = Code(13);
    /// A thread ends with a lock held, or a block of a try with other locks than before it.
    pub const STILL_HELD: Code = Code(14);
    /// An operation or `end` stands outside a thread, or `endtry` outside a block.
    pub const OUTSIDE: Code = Code(15);
    /// A lock or a channel is declared behind the first thread, or a sleeper behind an event.
    pub const LATE: Code = Code(16);
    /// A thread, a schedule or `done` stands inside a thread, `end` inside a block, or `done` is missing.
    pub const INSIDE: Code = Code(17);
    /// A line is too long.
    pub const LENGTH: Code = Code(18);
    /// A byte may not stand in a script.
    pub const BYTE: Code = Code(19);
    /// A table is changed under a lock that is held shared.
    pub const SHARED: Code = Code(20);

    /// The fault of the line with that number.
    pub fn at(self, line: u32) -> ReadError
        ensures { result ≡ Script (record { line = line; code = self.0 }) }
    {
        ReadError::Script(ScriptFault { line, code: self.0 })
    }
}

/// Why a line wasn't read.
#[derive(Debug, Drop)]
pub(crate) enum LineError {
    Fault(Code),
    Memory(AllocError),
}

impl LineError {
    /// The same, of the line with that number.
    pub fn at(self, line: u32) -> ReadError
        ensures { result ≡ told_at line self }
    {
        match self {
            LineError::Fault(code) => code.at(line),
            LineError::Memory(e) => ReadError::Memory(e),
        }
    }
}

/// A test that a line has to pass, with its code.
pub fn test(code: Code, passes: bool) -> Result<(), Code>
    ensures { result ≡ (if passes then Ok tt else Err code) }
{
    if passes { Ok(()) } else { Err(code) }
}

impl From<Code> for LineError {
    ghost from_gives = { λ code e. e ≡ line.Fault code };

    fn from(code: Code) -> LineError {
        LineError::Fault(code)
    }
}

impl From<AllocError> for LineError {
    ghost from_gives = { λ _ e. e ≡ line.Memory alloc_error };

    fn from(e: AllocError) -> LineError {
        LineError::Memory(e)
    }
}

impl<T: Drop> From<AllocFailed<T>> for LineError {
    ghost from_gives = { λ _ e. e ≡ line.Memory alloc_error };

    fn from(_e: AllocFailed<T>) -> LineError {
        LineError::Memory(AllocError)
    }
}

impl From<AllocError> for ReadError {
    ghost from_gives = { λ _ e. e ≡ Memory alloc_error };

    fn from(e: AllocError) -> ReadError {
        ReadError::Memory(e)
    }
}

impl<T: Drop> From<AllocFailed<T>> for ReadError {
    ghost from_gives = { λ _ e. e ≡ Memory alloc_error };

    fn from(_e: AllocFailed<T>) -> ReadError {
        ReadError::Memory(AllocError)
    }
}
