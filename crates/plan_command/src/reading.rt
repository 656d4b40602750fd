//! Reading the words of the command line.
ghost use Rattle.std.specs.Prelude.{◌≡◌, map, codes, Err, IfOk, None, Some};
ghost use Rattle.std.specs.String.{string_bytes};
ghost use Rattle.option_words.specs.Words.{text_in};
ghost use Rattle.plan_command.specs.Forms.{asking_of, by_chance, by_priority, policy_in};
ghost use Rattle.plan_command.specs.Words.{asking};

use crate::spelling::spelled_out;
use crate::words::Asked;
use option_words::{GivenTexts, Help, LongOption, Request, Synopsis, ValueKind, WordsError, read};
use std::alloc::{AllocError, Global};
use turn_policy::Policy;

/// The form of the command line.
pub const FORM: &str = "lockplan --by priority [--without-loans] < SCRIPT, \
    or lockplan --by chance SEED < SCRIPT";

/// What each word of the command line does, as it is written.
pub const HELP: &[&str] = &[
    "--by priority      The next turn is that of the most important thread that has something to do",
    "--without-loans    Beside that: importance is asked by base priorities, as if nothing were lent",
    "--by chance SEED   The next turn is drawn by chance, which begins with SEED, from 0 to 4294967295",
    "-h, --help         Print help",
];

// What the words may be, once they are spelled out.
const SYNOPSIS: Synopsis<'static> = Synopsis {
    program: "lockplan",
    operands: &[],
    options: &[
        LongOption {
            name: "by",
            kind: ValueKind::OneOf(&["priority", "chance"]),
            value_name: "POLICY",
        },
        LongOption {
            name: "seed",
            kind: ValueKind::Number(0, u32::MAX),
            value_name: "SEED",
        },
        LongOption {
            name: "without-loans",
            kind: ValueKind::OneOf(&["yes"]),
            value_name: "yes",
        },
    ],
    lines: HELP,
    help: Some(Help {
        about: "Gives a script of threads and blocking locks a schedule that a policy made.",
        usage: FORM,
    }),
};

/// What the words of the command line ask for, without the program's name. `Usage` comes exactly where they are no
/// form, and `Memory` only for want of memory.
///
/// ```
/// let asked = read_words(alloc, &["--by", "chance", "7"])?;
/// // a schedule by chance, whose draws begin with 7
/// ```
pub fn read_words(alloc: Global, words: &[String]) -> Result<Asked, WordsError>
    ensures asked { IfOk result (λ a. asking_of (map string_bytes words.now) ≡ Some (asking a)) }
    ensures usage { result ≡ Err WordsError.Usage → asking_of (map string_bytes words.now) ≡ None }
{
    let spelled = spelled_out(alloc, words)?;
    let request = match read(alloc, &SYNOPSIS, &spelled) {
        Ok(request) => request,
        Err(e) => return Err(e),
    };
    match request {
        Request::Texts(given) => match policy_in(&given) {
            Some(policy) => Ok(Asked::Schedule(policy)),
            None => Err(WordsError::Usage),
        },
        Request::Help(text) => Ok(Asked::Help(text)),
    }
}

/// What is wrong with words that are no form, in a sentence.
pub fn mistake(alloc: Global, words: &[String]) -> Result<Option<String>, AllocError> {
    let spelled = spelled_out(alloc, words)?;
    spelled_mistake(alloc, &spelled)
}

// Of words that are spelled out.
fn spelled_mistake(alloc: Global, words: &[String]) -> Result<Option<String>, AllocError> {
    match option_words::mistake(alloc, &SYNOPSIS, words)? {
        Some(said) => {
            // A seed is written behind that.
            let said = said.replace(alloc, "`--seed`", "`--by chance`")?;
            Ok(Some(said))
        }
        None => no_policy(alloc, words),
    }
}

// Of words that fit the table.
fn no_policy(alloc: Global, words: &[String]) -> Result<Option<String>, AllocError> {
    match read(alloc, &SYNOPSIS, words) {
        Ok(Request::Texts(given)) => {
            let said = String::from_str(alloc, misfit(&given))?;
            Ok(Some(said))
        }
        Ok(Request::Help(_)) | Err(_) => Ok(None),
    }
}

// Why texts that fit the table say no policy.
fn misfit(given: &GivenTexts<'_>) -> &'static str {
    match given.text("by") {
        None => "`--by priority` or `--by chance SEED` is lacking",
        Some("chance") => "`--without-loans` stands beside `--by priority` alone",
        Some(_) => "a seed stands beside `--by chance` alone",
    }
}

// The policy that the texts say which were given.
fn policy_in(given: &GivenTexts<'_>) -> Option<Policy>
    ensures { result ≡ policy_in (text_in given.now) }
{
    match given.text("by")? {
        "priority" => by_priority(given),
        "chance" => by_chance(given),
        _ => None,
    }
}

// By priority: loans are heeded where nothing was said of them; there is no seed.
fn by_priority(given: &GivenTexts<'_>) -> Option<Policy>
    ensures { result ≡ by_priority (text_in given.now (codes "seed"))
        (text_in given.now (codes "without-loans")) }
{
    if given.text("seed").is_some() {
        return None;
    }
    let heeds_loans = given.text("without-loans").is_none();
    Some(Policy::Priority { heeds_loans })
}

// By chance: with a seed, and nothing was said of loans.
fn by_chance(given: &GivenTexts<'_>) -> Option<Policy>
    ensures { result ≡ by_chance (text_in given.now (codes "seed"))
        (text_in given.now (codes "without-loans")) }
{
    if given.text("without-loans").is_some() {
        return None;
    }
    let seed = given.number("seed")?;
    Some(Policy::Chance { seed })
}
