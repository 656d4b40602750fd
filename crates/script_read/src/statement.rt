//! What a line says, by its first word and the number of words behind it.
ghost use Rattle.std.specs.Prelude.{◌≡◌, ◌<◌, ℕ, List, option_map, option_copied, slice_get};
ghost use Rattle.lock_model.specs.Script.Statements as script;
ghost use Rattle.lock_model.specs.Script.Statements.{Alone, WithOne, WithTwo, WithThree, WithSome, Schedules, form_of, statement_of};
ghost use Rattle.script_read.specs.Reading.{words_behind};
ghost use Rattle.script_read.specs.Statements.{byte_at, form, meant, place, said_by_words, verb_at, word};

use crate::words::{cut_word, has_empty_word, is_word};
use lock_model::{Kind, Mode};

/// An operation, with its words as they stand there.
#[derive(Clone, Copy)]
pub enum Operation<'a> {
    Take {
        kind: Kind,
        mode: Mode,
        lock: &'a [u8],
    },
    Release {
        kind: Kind,
        mode: Mode,
        lock: &'a [u8],
    },
    Try {
        kind: Kind,
        mode: Mode,
        lock: &'a [u8],
    },
    Set {
        lock: &'a [u8],
        key: &'a [u8],
        value: &'a [u8],
    },
    Add {
        lock: &'a [u8],
        key: &'a [u8],
        amount: &'a [u8],
    },
    Get {
        lock: &'a [u8],
        key: &'a [u8],
    },
    Prio {
        prio: &'a [u8],
    },
    Show,
    /// Of a condition variable where `cond` holds, and else of a channel.
    Wait {
        cond: bool,
        chan: &'a [u8],
    },
    WakeOne {
        cond: bool,
        chan: &'a [u8],
    },
    WakeAll {
        cond: bool,
        chan: &'a [u8],
    },
}

/// A line's meaning, with its words as they stand there.
#[derive(Clone, Copy)]
pub enum Statement<'a> {
    Lock {
        kind: Kind,
        name: &'a [u8],
        class: &'a [u8],
    },
    /// A condition variable where `cond` holds, and else a channel.
    Chan {
        cond: bool,
        name: &'a [u8],
        lock: &'a [u8],
    },
    Thread {
        name: &'a [u8],
        prio: &'a [u8],
    },
    End,
    /// The words behind the first one, with one space between them.
    Schedule {
        names: &'a [u8],
    },
    Done,
    Operation(Operation<'a>),
    EndTry,
}

/// What a first word says.
#[derive(Clone, Copy)]
pub enum Verb {
    Declare(Kind),
    // Of a condition variable where it holds, and else of a channel.
    DeclareChan(bool),
    Thread,
    End,
    Schedule,
    Done,
    Take(Kind, Mode),
    Release(Kind, Mode),
    Try(Kind, Mode),
    EndTry,
    Set,
    Add,
    Get,
    Prio,
    Show,
    Wait(bool),
    WakeOne(bool),
    WakeAll(bool),
}

/// All that a first word says, each once.
const VERBS: [Verb; 36] = [
    Verb::Declare(Kind::Mtx),
    Verb::Declare(Kind::Rw),
    Verb::Declare(Kind::Sx),
    Verb::DeclareChan(true),
    Verb::DeclareChan(false),
    Verb::Thread,
    Verb::End,
    Verb::Schedule,
    Verb::Done,
    Verb::Take(Kind::Mtx, Mode::Excl),
    Verb::Release(Kind::Mtx, Mode::Excl),
    Verb::Take(Kind::Rw, Mode::Shared),
    Verb::Take(Kind::Rw, Mode::Excl),
    Verb::Release(Kind::Rw, Mode::Shared),
    Verb::Release(Kind::Rw, Mode::Excl),
    Verb::Take(Kind::Sx, Mode::Shared),
    Verb::Take(Kind::Sx, Mode::Excl),
    Verb::Release(Kind::Sx, Mode::Shared),
    Verb::Release(Kind::Sx, Mode::Excl),
    Verb::Try(Kind::Mtx, Mode::Excl),
    Verb::Try(Kind::Rw, Mode::Shared),
    Verb::Try(Kind::Rw, Mode::Excl),
    Verb::Try(Kind::Sx, Mode::Shared),
    Verb::Try(Kind::Sx, Mode::Excl),
    Verb::EndTry,
    Verb::Set,
    Verb::Add,
    Verb::Get,
    Verb::Prio,
    Verb::Show,
    Verb::Wait(true),
    Verb::WakeOne(true),
    Verb::WakeAll(true),
    Verb::Wait(false),
    Verb::WakeOne(false),
    Verb::WakeAll(false),
];

// How many places a first word may have.
const PLACES: usize = 128;

// Which of `VERBS` has the first word with that place, and 36 where none has. No two have the same: `all_placed` of
// `proofs/FirstWords.antt`.
const VERB_AT: [u8; PLACES] = [
    36, 36, 36, 11, 15, 36, 36, 36, 12, 16, 36, 36, 1, 36, 36, 36, 26, 36, 36, 30, 28, 2, 36, 36,
    36, 36, 36, 36, 36, 36, 27, 36, 36, 36, 5, 24, 36, 36, 0, 36, 36, 36, 25, 36, 20, 36, 36, 32,
    36, 36, 36, 36, 22, 36, 36, 4, 36, 36, 36, 36, 36, 36, 36, 36, 36, 36, 36, 7, 36, 36, 36, 29,
    36, 31, 36, 36, 36, 36, 36, 36, 36, 34, 36, 36, 21, 36, 36, 36, 36, 36, 36, 36, 23, 36, 36, 36,
    36, 36, 36, 36, 6, 36, 36, 36, 36, 36, 36, 33, 36, 35, 36, 3, 8, 36, 36, 10, 36, 13, 17, 19, 9,
    36, 14, 18, 36, 36, 36, 36,
];

/// What a line says. `None` comes where a word is empty, the first word unknown or the number of words wrong.
#[tactic(auto, unfolding(crate::specs::Statements::said_by_words))]
pub fn statement_of(line: &[u8]) -> Option<Statement<'_>>
    ensures { option_map meant result ≡ statement_of line.now }
{
    let (word, rest) = cut_word(line);
    verb_of(word)?.with_words(rest)
}

// What a first word says, if it is known.
fn verb_of(word: &[u8]) -> Option<Verb>
    ensures { option_map form result ≡ form_of word.now }
{
    let verb = verb_at(word)?;
    if is_word(word, verb.word()) {
        Some(verb)
    } else {
        None
    }
}

// The one verb whose first word it may be.
fn verb_at(word: &[u8]) -> Option<Verb>
    ensures { result ≡ verb_at word.now }
{
    verb_in(&VERBS, usize::from(VERB_AT[place_of(word)]))
}

fn verb_in(table: &[Verb], i: usize) -> Option<Verb>
    ensures { result ≡ slice_get table.now i }
{
    table.get(i).copied()
}

// A word's place, by its length, its first byte and its middle one.
fn place_of(word: &[u8]) -> usize
    ensures value { result ≡ place word.now }
    ensures within { result < 128 }
{
    let first = byte_at(word, 0);
    let middle = byte_at(word, word.len().saturating_sub(1) / 2);
    (5 * (word.len() % 16) + first + 8 * middle) % PLACES
}

/// A byte of a word, or 0 behind its end.
pub fn byte_at(word: &[u8], i: usize) -> usize
    ensures value { result ≡ byte_at word.now i }
    ensures within { result < 256 }
{
    usize::from(word.get(i).copied().unwrap_or(0))
}

impl Verb {
    // The first word that says it. A mutex has one mode.
    pub fn word(self) -> &'static str
        ensures { result.now ≡ word self }
    {
        match self {
            Verb::Declare(Kind::Mtx) => "mutex",
            Verb::Declare(Kind::Rw) => "rw",
            Verb::Declare(Kind::Sx) => "sx",
            Verb::DeclareChan(true) => "cond",
            Verb::DeclareChan(false) => "chan",
            Verb::Thread => "thread",
            Verb::End => "end",
            Verb::Schedule => "schedule",
            Verb::Done => "done",
            Verb::Take(Kind::Mtx, _) => "lock",
            Verb::Release(Kind::Mtx, _) => "unlock",
            Verb::Take(Kind::Rw, Mode::Shared) => "rlock",
            Verb::Take(Kind::Rw, Mode::Excl) => "wlock",
            Verb::Release(Kind::Rw, Mode::Shared) => "runlock",
            Verb::Release(Kind::Rw, Mode::Excl) => "wunlock",
            Verb::Take(Kind::Sx, Mode::Shared) => "slock",
            Verb::Take(Kind::Sx, Mode::Excl) => "xlock",
            Verb::Release(Kind::Sx, Mode::Shared) => "sunlock",
            Verb::Release(Kind::Sx, Mode::Excl) => "xunlock",
            Verb::Try(Kind::Mtx, _) => "trylock",
            Verb::Try(Kind::Rw, Mode::Shared) => "tryrlock",
            Verb::Try(Kind::Rw, Mode::Excl) => "trywlock",
            Verb::Try(Kind::Sx, Mode::Shared) => "tryslock",
            Verb::Try(Kind::Sx, Mode::Excl) => "tryxlock",
            Verb::EndTry => "endtry",
            Verb::Set => "set",
            Verb::Add => "add",
            Verb::Get => "get",
            Verb::Prio => "prio",
            Verb::Show => "show",
            Verb::Wait(true) => "wait",
            Verb::WakeOne(true) => "signal",
            Verb::WakeAll(true) => "broadcast",
            Verb::Wait(false) => "msleep",
            Verb::WakeOne(false) => "wakeup_one",
            Verb::WakeAll(false) => "wakeup",
        }
    }

    // What it says with what stands behind it.
    fn with_words<'a>(self, rest: Option<&'a [u8]>) -> Option<Statement<'a>>
        ensures { option_map meant result
            ≡ said_by_words (form self) (words_behind (option_copied rest.entry)) }
    {
        match self {
            Verb::Declare(kind) => {
                let (name, class) = two_words(rest)?;
                Some(Statement::Lock { kind, name, class })
            }
            Verb::DeclareChan(cond) => {
                let (name, lock) = two_words(rest)?;
                Some(Statement::Chan { cond, name, lock })
            }
            Verb::Thread => {
                let (name, prio) = two_words(rest)?;
                Some(Statement::Thread { name, prio })
            }
            Verb::End => no_word(rest, Statement::End),
            Verb::Schedule => some_words(rest),
            Verb::Done => no_word(rest, Statement::Done),
            Verb::Take(kind, mode) => {
                let lock = one_word(rest)?;
                Some(Statement::Operation(Operation::Take { kind, mode, lock }))
            }
            Verb::Release(kind, mode) => {
                let lock = one_word(rest)?;
                Some(Statement::Operation(Operation::Release { kind, mode, lock }))
            }
            Verb::Try(kind, mode) => {
                let lock = one_word(rest)?;
                Some(Statement::Operation(Operation::Try { kind, mode, lock }))
            }
            Verb::EndTry => no_word(rest, Statement::EndTry),
            Verb::Set => {
                let (lock, key, value) = three_words(rest)?;
                Some(Statement::Operation(Operation::Set { lock, key, value }))
            }
            Verb::Add => {
                let (lock, key, amount) = three_words(rest)?;
                Some(Statement::Operation(Operation::Add { lock, key, amount }))
            }
            Verb::Get => {
                let (lock, key) = two_words(rest)?;
                Some(Statement::Operation(Operation::Get { lock, key }))
            }
            Verb::Prio => {
                let prio = one_word(rest)?;
                Some(Statement::Operation(Operation::Prio { prio }))
            }
            Verb::Show => no_word(rest, Statement::Operation(Operation::Show)),
            Verb::Wait(cond) => {
                let chan = one_word(rest)?;
                Some(Statement::Operation(Operation::Wait { cond, chan }))
            }
            Verb::WakeOne(cond) => {
                let chan = one_word(rest)?;
                Some(Statement::Operation(Operation::WakeOne { cond, chan }))
            }
            Verb::WakeAll(cond) => {
                let chan = one_word(rest)?;
                Some(Statement::Operation(Operation::WakeAll { cond, chan }))
            }
        }
    }
}

// A statement that has no word behind its first one.
#[tactic(auto, unfolding(crate::specs::Statements::said_by_words))]
fn no_word<'a>(rest: Option<&[u8]>, statement: Statement<'a>) -> Option<Statement<'a>>
    ensures { option_map meant result
        ≡ said_by_words (Alone (meant statement.entry)) (words_behind (option_copied rest.entry)) }
{
    match rest {
        None => Some(statement),
        Some(_) => None,
    }
}

// The one word behind the first.
#[tactic(auto, unfolding(crate::specs::Statements::said_by_words))]
fn one_word(rest: Option<&[u8]>) -> Option<&[u8]>
    ensures { (f : List ℕ → script.Statement) →
        option_map (λ w. f w.now) result
        ≡ said_by_words (WithOne f) (words_behind (option_copied rest.entry)) }
{
    let (word, behind) = cut_word(rest?);
    if word.is_empty() {
        return None;
    }
    match behind {
        None => Some(word),
        Some(_) => None,
    }
}

// The two words behind the first.
#[tactic(auto, unfolding(crate::specs::Statements::said_by_words))]
fn two_words(rest: Option<&[u8]>) -> Option<(&[u8], &[u8])>
    ensures { (f : List ℕ → List ℕ → script.Statement) →
        option_map (λ p. f p.0.now p.1.now) result
        ≡ said_by_words (WithTwo f) (words_behind (option_copied rest.entry)) }
{
    let (first, behind) = cut_word(rest?);
    if first.is_empty() {
        return None;
    }
    let second = one_word(behind)?;
    Some((first, second))
}

// The three words behind the first.
#[tactic(auto, unfolding(crate::specs::Statements::said_by_words))]
fn three_words(rest: Option<&[u8]>) -> Option<(&[u8], &[u8], &[u8])>
    ensures { (f : List ℕ → List ℕ → List ℕ → script.Statement) →
        option_map (λ p. f p.0.now p.1.now p.2.now) result
        ≡ said_by_words (WithThree f) (words_behind (option_copied rest.entry)) }
{
    let (first, behind) = cut_word(rest?);
    if first.is_empty() {
        return None;
    }
    let (second, third) = two_words(behind)?;
    Some((first, second, third))
}

// The words behind `schedule`, one or more.
#[tactic(auto, unfolding(crate::specs::Statements::said_by_words))]
fn some_words(rest: Option<&[u8]>) -> Option<Statement<'_>>
    ensures { option_map meant result
        ≡ said_by_words (WithSome Schedules) (words_behind (option_copied rest.entry)) }
{
    let names = rest?;
    if has_empty_word(names) {
        return None;
    }
    Some(Statement::Schedule { names })
}
