//! Command lines that a user types, and what they say.
use crate::briefs::{is_joined, words_of};
use crate::fixtures::check_row;
use chart_command::{Asked, Form, LockchartArgs};
use command_line::{Command, LockrunArgs};
use std::alloc::Global;
use std::env::{Env, FillError};
use std::test::Fail;
use top_ends::given_words;

const CHECK: Command = Command::Check;

const STEP: Command = Command::Step;

const RUN: Command = Command::Run;

const TICKS: Command = Command::Ticks;

const PROFILE: Command = Command::Profile;

// The most turns.
const ALL: u32 = 1_000_000;

// Words of lockrun, and what they say: the command, and the numbers of chains and of turns.
const RUNS: &[(&str, Command, u32, u32)] = &[
    ("check", CHECK, 16, ALL),
    ("step", STEP, 16, ALL),
    ("step --chains 4", STEP, 4, ALL),
    ("step --chains=4", STEP, 4, ALL),
    ("--chains 4 step", STEP, 4, ALL),
    ("--chains=4 step", STEP, 4, ALL),
    ("step --turns 3", STEP, 16, 3),
    ("step --turns=3", STEP, 16, 3),
    ("step --chains 1 --turns 1", STEP, 1, 1),
    ("step --turns 1000000 --chains 64", STEP, 64, ALL),
    ("--turns=5 step --chains=7", STEP, 7, 5),
    ("--turns 5 --chains 7 check", CHECK, 7, 5),
    ("--chains=7 --turns 5 check", CHECK, 7, 5),
    ("check --chains 2", CHECK, 2, ALL),
    ("check --turns 2", CHECK, 16, 2),
    ("step --chains +4", STEP, 4, ALL),
    ("step --chains=+4", STEP, 4, ALL),
    ("step --chains 04", STEP, 4, ALL),
    ("step --turns 0000000000000000000007", STEP, 16, 7),
    ("-- step", STEP, 16, ALL),
    ("step --", STEP, 16, ALL),
    ("--turns 9 -- check", CHECK, 16, 9),
    ("run", RUN, 16, ALL),
    ("--chains=1 run", RUN, 1, ALL),
    ("run --turns 9 --chains 64", RUN, 64, 9),
    ("ticks", TICKS, 16, ALL),
    ("--turns 9 ticks --chains=1", TICKS, 1, 9),
    ("profile", PROFILE, 16, ALL),
    ("--turns=6 profile", PROFILE, 16, 6),
];

const NO_RUNS: &[&str] = &[
    "",
    "''",
    "--",
    "gen",
    "gen 1",
    "Step",
    "steps",
    "ste",
    "step step",
    "step check",
    "run step",
    "Run",
    "run 1",
    "run --turns 0",
    "tick",
    "ticks 1",
    "ticks step",
    "ticks --chains 0",
    "profiles",
    "profile step",
    "profile --turns 0",
    "step ''",
    "step 1",
    "step -- --chains 4",
    "step --chains 4 step",
    "-- --chains 4 step",
    "-- step --",
    "--chains 4",
    "--chains step",
    "step --chains",
    "step --chains --turns 5",
    "step --chains --turns",
    "step --chains -- 4",
    "step --chains 0",
    "step --chains 65",
    "step --chains=0",
    "step --chains=65",
    "step --chains=",
    "step --chains ''",
    "step --chains 4 4",
    "step --chains four",
    "step --chains 4x",
    "step --chains 0x4",
    "step --chains 1_0",
    "step --chains ++4",
    "step --chains -4",
    "step --chains=-4",
    "step --chains=4=4",
    "step --chains -",
    "step --chains 18446744073709551620",
    "step --chains 4 --chains 4",
    "step --chains=4 --chains=5",
    "--turns 5 step --turns 5",
    "step --turns 0",
    "step --turns 1000001",
    "step --turns=-1",
    "step --turns 4294967297",
    "step --turn 5",
    "step --chain 5",
    "step --Chains 5",
    "step --chains4",
    "step --=4",
    "step -c 4",
    "step -c4",
    "step -t",
    "step -",
    "step -h",
    "step --help",
    "step --version",
    "help",
];

#[test]
fn words_of_lockrun(rt: HostRuntime) -> Result<(), Fail> {
    for &(line, command, chains, turns) in RUNS {
        let said = LockrunArgs {
            command,
            chains,
            turns,
        };
        check_row(line, is_run(rt.alloc(), line, Ok(said))?)?;
    }
    Ok(())
}

#[test]
fn no_words_of_lockrun(rt: HostRuntime) -> Result<(), Fail> {
    for &line in NO_RUNS {
        check_row(
            line,
            is_run(rt.alloc(), line, Err(command_line::WordsError::Usage))?,
        )?;
    }
    Ok(())
}

// Whether that is what words of lockrun say.
fn is_run(
    alloc: Global,
    line: &str,
    said: Result<LockrunArgs, command_line::WordsError>,
) -> Result<bool, Fail> {
    let words = words_of(alloc, line)?;
    Ok(command_line::read_words(alloc, &words) == said)
}

const SVG: Form = Form::Svg;

const HTML: Form = Form::Html;

const TRACE: Form = Form::Trace;

// What words of lockchart say: turns, chains, the first row and the last, the title and the form.
type Said = (u32, u32, u32, u32, Option<&'static str>, Form);

const PICTURES: &[(&str, Said)] = &[
    ("", (ALL, 16, 0, ALL, None, SVG)),
    ("--", (ALL, 16, 0, ALL, None, SVG)),
    ("--turns 3", (3, 16, 0, ALL, None, SVG)),
    ("--turns=3", (3, 16, 0, ALL, None, SVG)),
    ("--turns 1000000", (ALL, 16, 0, ALL, None, SVG)),
    ("--turns +3 --", (3, 16, 0, ALL, None, SVG)),
    ("--turns 0003", (3, 16, 0, ALL, None, SVG)),
    ("--chains 1", (ALL, 1, 0, ALL, None, SVG)),
    ("--chains=64", (ALL, 64, 0, ALL, None, SVG)),
    ("--from 0", (ALL, 16, 0, ALL, None, SVG)),
    ("--from=7", (ALL, 16, 7, ALL, None, SVG)),
    ("--from 1000000", (ALL, 16, ALL, ALL, None, SVG)),
    ("--to 0", (ALL, 16, 0, 0, None, SVG)),
    ("--to=20", (ALL, 16, 0, 20, None, SVG)),
    ("--from 5 --to 5", (ALL, 16, 5, 5, None, SVG)),
    ("--to 6 --from 5", (ALL, 16, 5, 6, None, SVG)),
    ("--title bus", (ALL, 16, 0, ALL, Some("bus"), SVG)),
    ("--title=bus", (ALL, 16, 0, ALL, Some("bus"), SVG)),
    (
        "--title The_bus,_again",
        (ALL, 16, 0, ALL, Some("The bus, again"), SVG),
    ),
    ("--title ''", (ALL, 16, 0, ALL, Some(""), SVG)),
    ("--title=", (ALL, 16, 0, ALL, Some(""), SVG)),
    ("--title=-bus", (ALL, 16, 0, ALL, Some("-bus"), SVG)),
    ("--title=--bus", (ALL, 16, 0, ALL, Some("--bus"), SVG)),
    ("--title=--help", (ALL, 16, 0, ALL, Some("--help"), SVG)),
    ("--title=a=b", (ALL, 16, 0, ALL, Some("a=b"), SVG)),
    ("--title -", (ALL, 16, 0, ALL, Some("-"), SVG)),
    ("--title bu\u{df}", (ALL, 16, 0, ALL, Some("bu\u{df}"), SVG)),
    ("--form svg", (ALL, 16, 0, ALL, None, SVG)),
    ("--form html", (ALL, 16, 0, ALL, None, HTML)),
    ("--form=trace", (ALL, 16, 0, ALL, None, TRACE)),
    ("--form text", (ALL, 16, 0, ALL, None, Form::Text)),
    ("--form json", (ALL, 16, 0, ALL, None, Form::Json)),
    (
        "--form html --title t --to 9 --from 2 --chains 4 --turns 10",
        (10, 4, 2, 9, Some("t"), HTML),
    ),
    (
        "--turns=10 --chains=4 --from=2 --to=9 --title=t --form=trace --",
        (10, 4, 2, 9, Some("t"), TRACE),
    ),
    ("--title t --form svg", (ALL, 16, 0, ALL, Some("t"), SVG)),
];

const NO_PICTURES: &[&str] = &[
    "''",
    "-",
    "step",
    "svg",
    "help",
    "-- --",
    "-- --turns 3",
    "-- --help",
    "--turns",
    "--turns 0",
    "--turns=0",
    "--turns 1000001",
    "--turns=",
    "--turns ''",
    "--turns -1",
    "--turns=-1",
    "--turns three",
    "--turns 3 3",
    "--turns 3 --turns 3",
    "--turns --chains 3",
    "--turns --help",
    "--turns -h",
    "--turns -- 3",
    "--turns 0 --help",
    "--turns 3 --turns 4 -h",
    "--turns 18446744073709551619",
    "--chains 0",
    "--chains 65",
    "--from -1",
    "--from 1000001",
    "--from 1 --from 1",
    "--to",
    "--to 1000001",
    "--to 3 --from 4",
    "--from 4 --to=3",
    "--title",
    "--title -t",
    "--title --t",
    "--title --",
    "--title --help",
    "--title -h",
    "--title a b",
    "--title a --title a",
    "--form",
    "--form png",
    "--form SVG",
    "--form ''",
    "--form svg --form svg",
    "--Form svg",
    "--format svg",
    "--for svg",
    "--help=svg",
    "-x",
    "-t 3",
    "--version 1",
    "--version --version",
    "--turns 3 --version",
    "--version --help",
    "--version=1",
    "-V",
];

const HELPS: &[&str] = &[
    "--help",
    "-h",
    "-hx",
    "-h=3",
    "--turns 3 --help",
    "--turns=3 -h --turns 0",
    "--help --bogus",
    "--from 4 --to 3 --help",
];

const HELP: &str = "\
Draws the scheduled run of a script of threads and blocking locks.

Usage: lockchart [--turns N] [--chains N] [--from A] [--to B] [--title TEXT] [--form svg|html|trace|text|json] < SCRIPT

  --turns N        The run has at most N turns, from 1 to 1000000
  --chains N       There are N chains of each sort of queue, from 1 to 64
  --from A --to B  The first state that is drawn is the one behind A turns, the last the one behind B
  --title TEXT     The title, in place of the script's first comment
  --form FORM      What the picture is written as: svg, html, trace, text or json
  --version        Print the version; no other word stands beside it
  -h, --help       Print help
";

#[test]
fn words_of_lockchart(rt: HostRuntime) -> Result<(), Fail> {
    for (line, said) in PICTURES {
        check_row(line, is_picture(rt.alloc(), line, said)?)?;
    }
    Ok(())
}

fn is_picture(alloc: Global, line: &str, said: &Said) -> Result<bool, Fail> {
    let (turns, chains, from, to, title, form) = *said;
    let wanted = LockchartArgs {
        turns,
        chains,
        from,
        to,
        title,
        form,
    };
    let words = words_of(alloc, line)?;
    match chart_command::read_words(alloc, &words) {
        Ok(Asked::Picture(read)) => Ok(read == wanted),
        Ok(Asked::Help(_)) | Err(_) => Ok(false),
    }
}

#[test]
fn no_words_of_lockchart(rt: HostRuntime) -> Result<(), Fail> {
    for line in NO_PICTURES {
        check_row(line, is_no_picture(rt.alloc(), line)?)?;
    }
    Ok(())
}

fn is_no_picture(alloc: Global, line: &str) -> Result<bool, Fail> {
    let words = words_of(alloc, line)?;
    let read = chart_command::read_words(alloc, &words);
    Ok(matches!(read, Err(chart_command::WordsError::Usage)))
}

#[test]
fn help_of_lockchart(rt: HostRuntime) -> Result<(), Fail> {
    for line in HELPS {
        check_row(line, is_helped(rt.alloc(), line, &[HELP])?)?;
    }
    let version = ["lockchart ", chart_command::VERSION, "\n"];
    check_row("--version", is_helped(rt.alloc(), "--version", &version)?)
}

// Whether words ask for help, which is that text.
fn is_helped(alloc: Global, line: &str, pieces: &[&str]) -> Result<bool, Fail> {
    let words = words_of(alloc, line)?;
    match chart_command::read_words(alloc, &words) {
        Ok(Asked::Help(text)) => Ok(is_joined(text.as_bytes(), pieces)),
        Ok(Asked::Picture(_)) | Err(_) => Ok(false),
    }
}

// Words that are no form, and what is said of them. First those of lockrun,
const RUN_MISTAKES: &[(&str, &str)] = &[
    ("", "one of check, step, run, ticks, profile is lacking"),
    (
        "--turns 5",
        "one of check, step, run, ticks, profile is lacking",
    ),
    (
        "stepp",
        "`stepp` is none of check, step, run, ticks, profile",
    ),
    (
        "step 1",
        "`1` stands behind `step`, and one of them is enough",
    ),
    ("--help", "lockrun has no option `--help`"),
    ("step --help", "lockrun has no option `--help`"),
    ("-h", "lockrun has no option `-h`"),
    ("--version", "lockrun has no option `--version`"),
    ("step --turn=5", "lockrun has no option `--turn=5`"),
    ("step --turns", "behind `--turns` its N is lacking"),
    (
        "step --turns --chains 3",
        "behind `--turns` its N is lacking",
    ),
    (
        "step --turns 0",
        "`0` isn't a number from 1 to 1000000, behind `--turns`",
    ),
    (
        "step --chains=x",
        "`x` isn't a number from 1 to 64, behind `--chains`",
    ),
    ("step --turns 1 --turns 2", "`--turns` stands twice"),
    (
        "-- --turns step",
        "`--turns` is none of check, step, run, ticks, profile",
    ),
];

// and those of lockchart.
const CHART_MISTAKES: &[(&str, &str)] = &[
    ("step", "`step` belongs to no option of lockchart"),
    (
        "--form png",
        "`png` is none of svg, html, trace, text, json, behind `--form`",
    ),
    (
        "--title -x",
        "`-x` begins with a hyphen; as the TEXT of `--title` it is written `--title=-x`",
    ),
    ("--title", "behind `--title` its TEXT is lacking"),
    (
        "--from 4 --to 3",
        "`--from` is 4 and `--to` is 3: the first state is behind the last",
    ),
    ("--turns 3 --version", "`--version` stands alone"),
    ("--version --help", "`--version` stands alone"),
    ("-V", "lockchart has no option `-V`"),
];

#[test]
fn mistakes(rt: HostRuntime) -> Result<(), Fail> {
    for (line, mistake) in RUN_MISTAKES {
        check_row(line, is_run_mistake(rt.alloc(), line, mistake)?)?;
    }
    for (line, mistake) in CHART_MISTAKES {
        check_row(line, is_chart_mistake(rt.alloc(), line, mistake)?)?;
    }
    Ok(())
}

fn is_run_mistake(alloc: Global, line: &str, mistake: &str) -> Result<bool, Fail> {
    let said = command_line::mistake(alloc, &words_of(alloc, line)?)?;
    Ok(is_text(said, mistake))
}

fn is_chart_mistake(alloc: Global, line: &str, mistake: &str) -> Result<bool, Fail> {
    let said = chart_command::mistake(alloc, &words_of(alloc, line)?)?;
    Ok(is_text(said, mistake))
}

fn is_text(said: Option<String>, text: &str) -> bool {
    match said {
        Some(said) => said.as_str() == text,
        None => false,
    }
}

// The words that the system gives, of which the first is the program's name.
#[derive(Drop)]
struct Given {
    words: &'static [&'static str],
}

impl Env for Given {
    fn arg(&self, i: usize, buf: &mut [u8]) -> Result<usize, FillError> {
        let Some(word) = self.words.get(i) else {
            return Err(FillError::NotPresent);
        };
        let bytes = word.as_bytes();
        if buf.len() < bytes.len() {
            return Err(FillError::TooLong);
        }
        buf[..bytes.len()].copy_from_slice(bytes);
        Ok(bytes.len())
    }

    fn var(&self, _name: &str, _buf: &mut [u8]) -> Result<usize, FillError> {
        Err(FillError::NotPresent)
    }

    fn var_at(&self, _i: usize, _buf: &mut [u8]) -> Result<usize, FillError> {
        Err(FillError::NotPresent)
    }
}

const GIVEN: &[(&str, &[&str])] = &[
    ("nothing", &[]),
    ("a name", &["lockrun"]),
    ("a name and a word", &["lockrun", "step"]),
    (
        "a name and more words",
        &["lockrun", "", "step", "step", "--turns", "3", "lockrun"],
    ),
];

#[test]
fn words_of_the_system(rt: HostRuntime) -> Result<(), Fail> {
    for (row, words) in GIVEN {
        check_row(row, is_given(rt.alloc(), words))?;
    }
    Ok(())
}

// Whether all words but the first are given.
fn is_given(alloc: Global, words: &'static [&'static str]) -> bool {
    match given_words(&(Given { words }, alloc)) {
        Ok(given) => are_behind_the_first(&given, words),
        Err(_) => false,
    }
}

fn are_behind_the_first(given: &[String], words: &[&str]) -> bool {
    let (_, wanted) = words.split_at(words.len().min(1));
    for (i, word) in given.iter().enumerate() {
        if wanted.get(i) != Some(&word.as_str()) {
            return false;
        }
    }
    given.len() == wanted.len()
}
