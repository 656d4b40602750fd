//! Runs each example of `data/` that standard input names, through the top call of its program over memory, and says
//! its status, whether its text is as written, and below that what belongs on standard error. So an example is two
//! files and a line each in `stdin` and `stdout`, and costs no proof.
//!
//! The text is as written where it is byte for byte the file's. Under `run` the order of the history's entries is open:
//! there a file that begins with a `thread` line leaves the history out, and the text is as written where it ends so.
//!
//! A line that names a table, as `faults.table`, runs each of its rows and says how many there are, and of those that
//! aren't as written what was said. `table` reads it.
#![tactic(auto)]

mod table;

use crate::table::{Row, row_of, source_of};
use chart_top::{LOCKCHART, lockchart};
use complaints::{Status, Unsaid};
use lock_io::{MemSink, MemSource, OpenGate};
use lock_top::{LOCKRUN, lockrun};
use plan_top::{LOCKPLAN, lockplan};
use remarks::{CopiedSource, Wrong, tell_end};
use std::alloc::{AllocError, Global};
use std::fs::Files;
use std::io::ErrorKind;
use std::sync::Wait;
use std::thread::Threads;
use std::{fs, io, str};

// The most bytes that one read or write moves.
const PIECE: usize = 4096;

// The most bytes of a text.
const ROOM: usize = 1 << 20;

fn main(rt: HostRuntime) -> io::Result<()> {
    for line in rt.lines(rt.alloc()) {
        let line = line?;
        run_line(&rt, line.as_str())?;
    }
    Ok(())
}

fn run_line<R: AllocGlobal + Files + Print + Threads + Wait + Sync>(
    rt: &R,
    line: &str,
) -> io::Result<()> {
    if line.ends_with(".table") {
        run_table(rt, line)
    } else {
        run_example(rt, line)
    }
}

// The line is the name of an example and the words of its command line: those of lockrun, or behind the word `lockplan`
// or `lockchart` those of that program. `NAME.out` is the text, and the source is `NAME.script`; examples `NAME.THIS`
// and `NAME.THAT` share it.
fn run_example<R: AllocGlobal + Files + Print + Threads + Wait + Sync>(
    rt: &R,
    line: &str,
) -> io::Result<()> {
    let (name, command) = line.split_once(' ').unwrap_or((line, ""));
    let (source, _) = name.split_once('.').unwrap_or((name, ""));
    let called = call(rt, command, file(rt, source, "script")?)?;
    print_example(rt, line, name, command, &called)
}

fn file<R: AllocGlobal + Files>(rt: &R, name: &str, kind: &str) -> io::Result<Vec<u8>> {
    let path = format!(in rt.alloc(); "{name}.{kind}")?;
    fs::read(rt, path.as_str())
}

fn print_example<R: AllocGlobal + Files + Print>(
    rt: &R,
    line: &str,
    name: &str,
    command: &str,
    called: &Called,
) -> io::Result<()> {
    let text = file(rt, name, "out")?;
    print_called(
        rt,
        line,
        called,
        is_written(command, &text, called.text.bytes()),
    )
}

// Whether what a call wrote is the text of its file.
fn is_written(command: &str, text: &[u8], written: &[u8]) -> bool {
    if is_run(command) && text.starts_with(b"thread ") {
        written.ends_with(text)
    } else {
        written == text
    }
}

fn is_run(command: &str) -> bool {
    for word in command.split_whitespace() {
        if word == "run" {
            return true;
        }
    }
    false
}

fn print_called<R: Print>(rt: &R, line: &str, called: &Called, is_written: bool) -> io::Result<()> {
    let differs = if is_written { "as written" } else { "DIFFERS" };
    let number = called.status as u8;
    println!(rt; "{line}: status {number}, {differs}")?;
    print_indented(rt, called.said.bytes())
}

// Each row of a table: what is said on standard error of its source.
fn run_table<R: AllocGlobal + Files + Print + Threads + Wait + Sync>(
    rt: &R,
    name: &str,
) -> io::Result<()> {
    let table = fs::read_to_string(rt, name)?;
    let rows = run_rows(rt, table.as_str())?;
    println!(rt; "{name}: {rows} rows")
}

// How many rows there are.
fn run_rows<R: AllocGlobal + Print + Threads + Wait + Sync>(
    rt: &R,
    table: &str,
) -> io::Result<usize> {
    let mut rows: usize = 0;
    for part in table.split("=== ") {
        if let Some(row) = row_of(part) {
            run_row(rt, row)?;
            rows = rows.saturating_add(1);
        }
    }
    Ok(rows)
}

fn run_row<R: AllocGlobal + Print + Threads + Wait + Sync>(rt: &R, row: Row<'_>) -> io::Result<()> {
    let called = call(rt, row.command, source_of(rt.alloc(), row.lines)?)?;
    print_row(rt, row, called.said.bytes())
}

// A row of which something else was said.
fn print_row<R: Print>(rt: &R, row: Row<'_>, said: &[u8]) -> io::Result<()> {
    if said == row.said.as_bytes() {
        return Ok(());
    }
    println!(rt; "{}: DIFFERS", row.name)?;
    print_indented(rt, said)
}

fn print_indented<R: Print>(rt: &R, said: &[u8]) -> io::Result<()> {
    let Ok(said) = str::from_utf8(said) else {
        return Err(ErrorKind::InvalidData.into());
    };
    for line in said.lines() {
        println!(rt; "    {line}")?;
    }
    Ok(())
}

// A call: how it ended, what it wrote, and what belongs on standard error.
#[derive(Drop)]
struct Called {
    status: Status,
    text: MemSink,
    said: MemSink,
}

// Calls the program that the command names, with the script as its source.
fn call<R: AllocGlobal + Threads + Wait + Sync>(
    rt: &R,
    command: &str,
    script: Vec<u8>,
) -> io::Result<Called> {
    let mut called = no_call(rt.alloc())?;
    let mut source = source_in(rt.alloc(), script);
    make_call(rt, command, &mut source, &mut called)?;
    Ok(called)
}

fn no_call(alloc: Global) -> Result<Called, AllocError> {
    Ok(Called {
        status: Status::Done,
        text: sink(alloc)?,
        said: sink(alloc)?,
    })
}

fn sink(alloc: Global) -> Result<MemSink, AllocError> {
    MemSink::new(alloc, ROOM, PIECE, Vec::new(alloc))
}

fn source_in(alloc: Global, script: Vec<u8>) -> CopiedSource<MemSource> {
    CopiedSource::new(alloc, MemSource::new(script, PIECE, Vec::new(alloc)))
}

fn make_call<R: AllocGlobal + Threads + Wait + Sync>(
    rt: &R,
    command: &str,
    source: &mut CopiedSource<MemSource>,
    called: &mut Called,
) -> io::Result<()> {
    let (program, words) = program_of(command);
    let words = words_of(rt.alloc(), words)?;
    let told = match program {
        Named::Lockrun => call_lockrun(rt, &words, source, called),
        Named::Lockplan => call_lockplan(rt.alloc(), &words, source, called),
        Named::Lockchart => call_lockchart(rt.alloc(), &words, source, called),
    };
    told.map_err(|_| ErrorKind::Other.into())
}

// The programs that a command may name.
#[derive(Clone, Copy)]
enum Named {
    Lockrun,
    Lockplan,
    Lockchart,
}

// The program that a command names, and the words that are the program's.
fn program_of(command: &str) -> (Named, &str) {
    match command.split_once(' ') {
        Some(("lockplan", words)) => (Named::Lockplan, words),
        Some(("lockchart", words)) => (Named::Lockchart, words),
        Some(_) | None => (Named::Lockrun, command),
    }
}

fn words_of(alloc: Global, text: &str) -> Result<Vec<String>, AllocError> {
    let mut words = Vec::new(alloc);
    for word in text.split_whitespace() {
        words.push(String::from_str(alloc, word)?)?;
    }
    Ok(words)
}

fn call_lockrun<R: AllocGlobal + Threads + Wait + Sync>(
    rt: &R,
    words: &[String],
    source: &mut CopiedSource<MemSource>,
    called: &mut Called,
) -> Result<(), Unsaid> {
    let alloc = rt.alloc();
    let status = lockrun(rt, alloc, words, source, &mut called.text, &OpenGate);
    called.status = status;
    let wrong = Wrong {
        mistake: command_line::mistake(alloc, words),
        help: command_line::HELP,
    };
    let (said, text) = (&mut called.said, called.text.bytes());
    tell_end(alloc, said, LOCKRUN, status, wrong, source.copy(), text)
}

fn call_lockplan(
    alloc: Global,
    words: &[String],
    source: &mut CopiedSource<MemSource>,
    called: &mut Called,
) -> Result<(), Unsaid> {
    let ended = lockplan(alloc, words, source, &mut called.text);
    called.status = ended.status;
    let wrong = Wrong {
        mistake: plan_command::mistake(alloc, words),
        help: plan_command::HELP,
    };
    let (said, read, fault) = (&mut called.said, source.copy(), &ended.fault);
    tell_end(alloc, said, LOCKPLAN, ended.status, wrong, read, fault)
}

fn call_lockchart(
    alloc: Global,
    words: &[String],
    source: &mut CopiedSource<MemSource>,
    called: &mut Called,
) -> Result<(), Unsaid> {
    let drawn = lockchart(alloc, words, source, &mut called.text);
    called.status = drawn.status;
    let wrong = Wrong {
        mistake: chart_command::mistake(alloc, words),
        help: chart_command::HELP,
    };
    let (said, read, fault) = (&mut called.said, source.copy(), &drawn.fault);
    tell_end(alloc, said, LOCKCHART, drawn.status, wrong, read, fault)
}
