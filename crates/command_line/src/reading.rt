//! Reading the words of the command line.
ghost use Rattle.std.specs.Prelude.{◌≡◌, Err, IfOk, None, Some, map};
ghost use Rattle.std.specs.String.{string_bytes};
ghost use Rattle.option_words.specs.Words.{text_in};
ghost use Rattle.command_line.specs.Forms.{words_by, words_of};
ghost use Rattle.command_line.specs.Ranges.{HasRanges};

use crate::args::{Command, LockrunArgs};
use lock_model::limits::{CHAINS, DEFAULT_CHAINS, TURNS};
use option_words::{GivenTexts, LongOption, Request, Synopsis, ValueKind, WordsError, read};
use std::alloc::{AllocError, Global};

/// What each word of the command line does. Nothing asks for it: it is said where the words are no form.
pub const HELP: &[&str] = &[
    "check         reads the script, runs nothing, and prints how much of each thing it has",
    "step          runs it turn by turn, the same way each time, and prints what happened",
    "run           runs its threads beside each other",
    "ticks         runs a script of ticks: timed sleeps, wake-ups and signals",
    "profile       makes the run of `step`, and prints how often and how long each lock was held",
    "--turns N     the run has N turns at most: from 1 to 1000000, which is what there is without it",
    "--chains N    N chains of each sort of queue, from 1 to 64: 16 without it",
];

// What the words may be. There is no help that they could ask for.
const SYNOPSIS: Synopsis<'static> = Synopsis {
    program: "lockrun",
    operands: &["check", "step", "run", "ticks", "profile"],
    options: &[
        LongOption {
            name: "chains",
            kind: ValueKind::Number(1, CHAINS),
            value_name: "N",
        },
        LongOption {
            name: "turns",
            kind: ValueKind::Number(1, TURNS),
            value_name: "N",
        },
    ],
    lines: HELP,
    help: None,
};

/// What is wrong with words that are no form, in a sentence.
pub fn mistake(alloc: Global, words: &[String]) -> Result<Option<String>, AllocError> {
    option_words::mistake(alloc, &SYNOPSIS, words)
}

/// What the words of the command line say, without the program's name. `Usage` comes exactly where they are no form,
/// and `Memory` only for want of memory.
///
/// ```
/// let words = read_words(alloc, &["step", "--chains=4"])?;
/// // LockrunArgs { command: Command::Step, chains: 4, turns: 1_000_000 }
/// ```
pub fn read_words(alloc: Global, words: &[String]) -> Result<LockrunArgs, WordsError>
    ensures said { IfOk result (λ said. words_of (map string_bytes words.now) ≡ Some said) }
    ensures ranges { IfOk result HasRanges }
    ensures usage { result ≡ Err WordsError.Usage → words_of (map string_bytes words.now) ≡ None }
{
    match read(alloc, &SYNOPSIS, words)? {
        Request::Texts(given) => said_by(&given).ok_or(WordsError::Usage),
        Request::Help(_) => Err(WordsError::Usage),
    }
}

// What the texts say that were given, where one names a command.
fn said_by(given: &GivenTexts<'_>) -> Option<LockrunArgs>
    ensures { result ≡ words_by (text_in given.now) }
{
    Some(LockrunArgs {
        command: given.operand().and_then(Command::named)?,
        chains: given.number("chains").unwrap_or(DEFAULT_CHAINS),
        turns: given.number("turns").unwrap_or(TURNS),
    })
}
