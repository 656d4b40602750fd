//! Reading the words of the command line.
ghost use Rattle.std.specs.Prelude.{◌≡◌, codes, map, Err, IfOk, None, Some};
ghost use Rattle.std.specs.Str.{bytes_eq};
ghost use Rattle.std.specs.String.{string_bytes};
ghost use Rattle.option_words.specs.Words.{text_in};
ghost use Rattle.chart_command.specs.Forms.{asked_by_options, asking_of, asks_version, wanted_by};
ghost use Rattle.chart_command.specs.Args.{CanBeDrawn, asking, wanted};

use crate::args::{Asked, Form, LockchartArgs};
use lock_model::limits::{CHAINS, DEFAULT_CHAINS, TURNS};
use option_words::{GivenTexts, Help, LongOption, Request, Synopsis, ValueKind, WordsError, read};
use std::alloc::{AllocError, Global};

/// The form of the command line.
pub const FORM: &str = "lockchart [--turns N] [--chains N] [--from A] [--to B] [--title TEXT] \
    [--form svg|html|trace|text|json] < SCRIPT";

/// What each word of the command line does.
pub const HELP: &[&str] = &[
    "--turns N        The run has at most N turns, from 1 to 1000000",
    "--chains N       There are N chains of each sort of queue, from 1 to 64",
    "--from A --to B  The first state that is drawn is the one behind A turns, the last the one behind B",
    "--title TEXT     The title, in place of the script's first comment",
    "--form FORM      What the picture is written as: svg, html, trace, text or json",
    "--version        Print the version; no other word stands beside it",
    "-h, --help       Print help",
];

/// The version, which is the date of the newest change in `CHANGELOG.md`.
pub const VERSION: &str = "2026.12.02";

// An option: its name, what its text may be, and what that is called.
macro_rules! option {
    ($name:literal, $kind:expr, $value_name:literal) => {
        LongOption {
            name: $name,
            kind: $kind,
            value_name: $value_name,
        }
    };
}

// What the words may be, but for `--version`.
const SYNOPSIS: Synopsis<'static> = Synopsis {
    program: "lockchart",
    operands: &[],
    options: &[
        option!("turns", ValueKind::Number(1, TURNS), "N"),
        option!("chains", ValueKind::Number(1, CHAINS), "N"),
        option!("from", ValueKind::Number(0, TURNS), "A"),
        option!("to", ValueKind::Number(0, TURNS), "B"),
        option!("title", ValueKind::AnyText, "TEXT"),
        option!(
            "form",
            ValueKind::OneOf(&["svg", "html", "trace", "text", "json"]),
            "FORM"
        ),
    ],
    lines: HELP,
    help: Some(Help {
        about: "Draws the scheduled run of a script of threads and blocking locks.",
        usage: FORM,
    }),
};

/// What the words of the command line ask for, without the program's name. `Usage` comes exactly where they are no
/// form, and `Memory` only for want of memory.
///
/// ```
/// let asked = read_words(alloc, &["--form=html", "--to", "20"])?;
/// // a picture of the rows 0 to 20, as html
/// ```
pub fn read_words<'a>(alloc: Global, words: &'a [String]) -> Result<Asked<'a>, WordsError>
    ensures asked { IfOk result (λ a. asking_of (map string_bytes words.entry.now) ≡ Some (asking a)) }
    ensures ranges { IfOk result CanBeDrawn }
    ensures usage { result ≡ Err WordsError.Usage → asking_of (map string_bytes words.entry.now) ≡ None }
{
    if asks_version(words) {
        return Ok(Asked::Help(format!(in alloc; "lockchart {VERSION}\n")?));
    }
    read_options(alloc, words)
}

// What the options ask for.
fn read_options<'a>(alloc: Global, words: &'a [String]) -> Result<Asked<'a>, WordsError>
    ensures asked { IfOk result (λ a.
        asked_by_options (map string_bytes words.entry.now) ≡ Some (asking a)) }
    ensures ranges { IfOk result CanBeDrawn }
    ensures usage { result ≡ Err WordsError.Usage
        → asked_by_options (map string_bytes words.entry.now) ≡ None }
{
    match read(alloc, &SYNOPSIS, words)? {
        Request::Texts(given) => {
            let said = said_by(&given);
            if said.from > said.to {
                return Err(WordsError::Usage);
            }
            Ok(Asked::Picture(said))
        }
        Request::Help(text) => Ok(Asked::Help(text)),
    }
}

// Whether the one word is `--version`.
fn asks_version(words: &[String]) -> bool
    ensures { result ≡ asks_version (map string_bytes words.now) }
{
    match words {
        [word] => is_version(word),
        [] | [_, _, ..] => false,
    }
}

fn is_version(word: &String) -> bool
    ensures { result ≡ bytes_eq (string_bytes word.now) (codes "--version") }
{
    word.as_str() == "--version"
}

/// What is wrong with words that are no form, in a sentence.
pub fn mistake(alloc: Global, words: &[String]) -> Result<Option<String>, AllocError> {
    if is_version_wrong(alloc, words)? {
        return Ok(Some(format!(in alloc; "`--version` stands alone")?));
    }
    if let Some(said) = option_words::mistake(alloc, &SYNOPSIS, words)? {
        return Ok(Some(said));
    }
    match read(alloc, &SYNOPSIS, words) {
        Ok(Request::Texts(given)) => {
            let LockchartArgs { from, to, .. } = said_by(&given);
            let said = format!(in alloc;
                "`--from` is {from} and `--to` is {to}: the first state is behind the last"
            )?;
            Ok(Some(said))
        }
        Ok(Request::Help(_)) | Err(_) => Ok(None),
    }
}

// Whether `--version` stands behind words that are a form. The table of options doesn't know that word.
fn is_version_wrong(alloc: Global, words: &[String]) -> Result<bool, AllocError> {
    match words.iter().position(is_version) {
        Some(n) => Ok(option_words::mistake(alloc, &SYNOPSIS, &words[..n])?.is_none()),
        None => Ok(false),
    }
}

// What the texts say of a picture that were given.
fn said_by<'a>(given: &GivenTexts<'a>) -> LockchartArgs<'a>
    ensures { wanted result ≡ wanted_by (text_in given.now) }
{
    LockchartArgs {
        turns: given.number("turns").unwrap_or(TURNS),
        chains: given.number("chains").unwrap_or(DEFAULT_CHAINS),
        from: given.number("from").unwrap_or(0),
        to: given.number("to").unwrap_or(TURNS),
        title: given.text("title"),
        form: given
            .text("form")
            .and_then(Form::named)
            .unwrap_or(Form::Svg),
    }
}
