//! What a line says, by its first word and the number of words behind it.
ghost use Rattle.std.specs.Prelude.{◌≡◌, ℕ, List, Option, map, option_map, option_copied};
ghost use Rattle.std.specs.Map.{lookup};
ghost use Rattle.lock_model.specs.Script.Lines.{is_same};
ghost use Rattle.script_read.specs.Reading.{words_behind};
ghost use Rattle.tick_sleep.specs.Statements as script;
ghost use Rattle.tick_sleep.specs.Statements.{Alone, WithOne, WithTwo, WithTwoOrThree, form_of, said, statement_of};
ghost use Rattle.tick_sleep.specs.Words.{form, meant, row, word};

use script_read::{cut_word, has_empty_word, is_word};

/// A line's meaning, with its words as they stand there.
#[derive(Clone, Copy)]
pub(crate) enum Statement<'a> {
    Sleeper {
        name: &'a [u8],
        prio: &'a [u8],
    },
    /// A signal ends the sleep where `sig` holds.
    Sleep {
        sig: bool,
        name: &'a [u8],
        key: &'a [u8],
        ticks: Option<&'a [u8]>,
    },
    WakeOne {
        key: &'a [u8],
    },
    WakeAll {
        key: &'a [u8],
    },
    Signal {
        name: &'a [u8],
    },
    Tick {
        ticks: &'a [u8],
    },
    Done,
}

/// What a first word says.
#[derive(Clone, Copy)]
pub(crate) enum Verb {
    Sleeper,
    // A signal ends the sleep where it holds.
    Sleep(bool),
    WakeOne,
    WakeAll,
    Signal,
    Tick,
    Done,
}

/// All that a first word says, each once.
const VERBS: [Verb; 8] = [
    Verb::Sleeper,
    Verb::Sleep(false),
    Verb::Sleep(true),
    Verb::WakeOne,
    Verb::WakeAll,
    Verb::Signal,
    Verb::Tick,
    Verb::Done,
];

/// What a line says. `None` comes where a word is empty, the first word unknown or the number of words wrong.
pub(crate) fn statement_of(line: &[u8]) -> Option<Statement<'_>>
    ensures { option_map meant result ≡ statement_of line.now }
{
    if has_empty_word(line) {
        return None;
    }
    let (word, rest) = cut_word(line);
    verb_of(word)?.with_words(rest)
}

// What a first word says, if it is known.
fn verb_of(word: &[u8]) -> Option<Verb>
    ensures { option_map form result ≡ form_of word.now }
{
    verb_in(&VERBS, word)
}

// What a table says of a word.
fn verb_in(table: &[Verb], word: &[u8]) -> Option<Verb>
    ensures { option_map form result ≡ lookup (is_same word.now) (map row table.now) }
{
    for verb in table {
        if is_word(word, verb.word()) {
            return Some(*verb);
        }
    }
    None
}

impl Verb {
    // The first word that says it.
    fn word(self) -> &'static str
        ensures { result.now ≡ word self }
    {
        match self {
            Verb::Sleeper => "sleeper",
            Verb::Sleep(false) => "sleep",
            Verb::Sleep(true) => "sleepsig",
            Verb::WakeOne => "wakeone",
            Verb::WakeAll => "wakeup",
            Verb::Signal => "signal",
            Verb::Tick => "tick",
            Verb::Done => "done",
        }
    }

    // What it says with what stands behind it.
    fn with_words<'a>(self, rest: Option<&'a [u8]>) -> Option<Statement<'a>>
        ensures { option_map meant result
            ≡ said (form self) (words_behind (option_copied rest.entry)) }
    {
        match self {
            Verb::Sleeper => {
                let (name, prio) = two_words(rest)?;
                Some(Statement::Sleeper { name, prio })
            }
            Verb::Sleep(sig) => {
                let (name, key, ticks) = two_or_three_words(rest)?;
                Some(Statement::Sleep {
                    sig,
                    name,
                    key,
                    ticks,
                })
            }
            Verb::WakeOne => Some(Statement::WakeOne {
                key: one_word(rest)?,
            }),
            Verb::WakeAll => Some(Statement::WakeAll {
                key: one_word(rest)?,
            }),
            Verb::Signal => Some(Statement::Signal {
                name: one_word(rest)?,
            }),
            Verb::Tick => Some(Statement::Tick {
                ticks: one_word(rest)?,
            }),
            Verb::Done => no_word(rest, Statement::Done),
        }
    }
}

// A statement that has no word behind its first one.
fn no_word<'a>(rest: Option<&[u8]>, statement: Statement<'a>) -> Option<Statement<'a>>
    ensures { option_map meant result
        ≡ said (Alone (meant statement.entry)) (words_behind (option_copied rest.entry)) }
{
    match rest {
        None => Some(statement),
        Some(_) => None,
    }
}

// The one word behind the first.
fn one_word(rest: Option<&[u8]>) -> Option<&[u8]>
    ensures { (f : List ℕ → script.Statement) →
        option_map (λ w. f w.now) result
        ≡ said (WithOne f) (words_behind (option_copied rest.entry)) }
{
    let (word, behind) = cut_word(rest?);
    match behind {
        None => Some(word),
        Some(_) => None,
    }
}

// The two words behind the first.
fn two_words(rest: Option<&[u8]>) -> Option<(&[u8], &[u8])>
    ensures { (f : List ℕ → List ℕ → script.Statement) →
        option_map (λ p. f p.0.now p.1.now) result
        ≡ said (WithTwo f) (words_behind (option_copied rest.entry)) }
{
    let (first, behind) = cut_word(rest?);
    let second = one_word(behind)?;
    Some((first, second))
}

// The two words behind the first, and a third where it is there.
fn two_or_three_words(rest: Option<&[u8]>) -> Option<(&[u8], &[u8], Option<&[u8]>)>
    ensures { (f : List ℕ → List ℕ → Option (List ℕ) → script.Statement) →
        option_map (λ p. f p.0.now p.1.now (option_copied p.2)) result
        ≡ said (WithTwoOrThree f) (words_behind (option_copied rest.entry)) }
{
    let (first, behind) = cut_word(rest?);
    let (second, behind) = cut_word(behind?);
    match behind {
        None => Some((first, second, None)),
        Some(_) => Some((first, second, Some(one_word(behind)?))),
    }
}
