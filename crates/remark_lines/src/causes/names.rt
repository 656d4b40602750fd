//! Codes 3 to 5: names.

use crate::book::Named;
use crate::finding::{Fault, Found, Mark};
use crate::places::{from_line, text_of, word_at};
use crate::verbs::{Role, Sort, verb_of};
use lock_model::limits;
use script_read::split_line;

/// Code 3: a name or a class that isn't spelled as one.
pub fn misspelled(fault: &Fault<'_>) -> Found {
    let Some(role) = fault.role() else {
        return Ok(None);
    };
    for (n, word) in fault.line.split(' ').enumerate() {
        if is_name_at(role, n) && !is_name(word) {
            return misspelling(word, fault.at(n));
        }
    }
    Ok(None)
}

// Whether the word of that number is a name or a class.
fn is_name_at(role: Role, n: usize) -> bool {
    match role {
        Role::Declares(Sort::Sleeper) => n == 1,
        Role::Declares(_) => n == 1 || n == 2,
        Role::Schedules => n >= 1,
        Role::Begins
        | Role::Takes(_, _)
        | Role::Tries(_, _)
        | Role::Releases(_, _)
        | Role::Edits
        | Role::Reads
        | Role::Waits(_)
        | Role::Wakes(_)
        | Role::Sleeps
        | Role::Posts => n == 1,
        Role::Ends
        | Role::Finishes
        | Role::EndsTry
        | Role::SetsPriority
        | Role::Shows
        | Role::WakesKey
        | Role::Passes => false,
    }
}

// Whether a word is spelled as a name.
fn is_name(word: &str) -> bool {
    strange_letter(word).is_none() && word.len() <= limits::NAME_BYTES
}

// The first letter of a word that may not stand there in a name, and its place in the word.
fn strange_letter(word: &str) -> Option<(usize, char)> {
    for (i, b) in word.as_bytes().iter().enumerate() {
        if !b.is_ascii_lowercase() && (i == 0 || !(b.is_ascii_digit() || *b == b'_')) {
            return Some((i, char::from(*b)));
        }
    }
    None
}

// Why a word is no name.
fn misspelling(word: &str, mark: Mark) -> Found {
    let (len, most) = (word.len(), limits::NAME_BYTES);
    match strange_letter(word) {
        Some((0, letter)) => mark.byte(0).alone(format_args!(
            "a name begins with a letter from a to z, and `{word}` with `{letter}`"
        )),
        Some((i, letter)) => mark.byte(i).alone(format_args!(
            "a name has only a to z, 0 to 9 and _ in it, and `{word}` has `{letter}`"
        )),
        None => mark.byte(most).alone(format_args!(
            "bytes of a name: at most {most}, and {len} in `{word}`"
        )),
    }
}

/// Code 4: a name that is declared already.
pub fn declared(fault: &Fault<'_>) -> Found {
    let Some(named) = fault.book.declared(fault.word(1)) else {
        return Ok(None);
    };
    let (name, line, sort) = (named.name, named.line, named.sort.told());
    fault.at(1).with_line(
        line,
        format_args!("{name} is declared in line {line} already, as {sort}"),
    )
}

// What the word of a used name is to name.
#[derive(Clone, Copy)]
enum Wanted {
    Lock,
    Condition,
    Channel,
    Thread,
    Sleeper,
}

impl Wanted {
    fn told(self) -> &'static str {
        match self {
            Wanted::Lock => "a lock",
            Wanted::Condition => "a condition",
            Wanted::Channel => "a channel",
            Wanted::Thread => "a thread",
            Wanted::Sleeper => "a sleeper",
        }
    }

    // Whether the sort is the one that is wanted. That a condition isn't a channel is told by another code.
    fn is_met_by(self, sort: Sort) -> bool {
        match self {
            Wanted::Lock => sort.is_lock(),
            Wanted::Condition | Wanted::Channel => sort.is_slept_on(),
            Wanted::Thread => sort == Sort::Thread,
            Wanted::Sleeper => sort == Sort::Sleeper,
        }
    }
}

// What the word of that number is to name, where it uses a name.
fn wanted_at(role: Role, n: usize) -> Option<Wanted> {
    match role {
        Role::Declares(Sort::Condition | Sort::Channel) if n == 2 => Some(Wanted::Lock),
        Role::Takes(_, _) | Role::Tries(_, _) | Role::Releases(_, _) | Role::Edits | Role::Reads
            if n == 1 => { Some(Wanted::Lock) }
        Role::Waits(Sort::Condition) | Role::Wakes(Sort::Condition) if n == 1 => {
            Some(Wanted::Condition)
        }
        Role::Waits(_) | Role::Wakes(_) if n == 1 => Some(Wanted::Channel),
        Role::Schedules if n >= 1 => Some(Wanted::Thread),
        Role::Sleeps | Role::Posts if n == 1 => Some(Wanted::Sleeper),
        Role::Declares(_)
        | Role::Begins
        | Role::Ends
        | Role::Schedules
        | Role::Finishes
        | Role::Takes(_, _)
        | Role::Tries(_, _)
        | Role::Releases(_, _)
        | Role::EndsTry
        | Role::Edits
        | Role::Reads
        | Role::SetsPriority
        | Role::Shows
        | Role::Waits(_)
        | Role::Wakes(_)
        | Role::Sleeps
        | Role::WakesKey
        | Role::Posts
        | Role::Passes => None,
    }
}

/// Code 5: a name that isn't declared, or as another sort.
pub fn undeclared(fault: &Fault<'_>) -> Found {
    let Some(role) = fault.role() else {
        return Ok(None);
    };
    for (n, word) in fault.line.split(' ').enumerate() {
        if let Some(wanted) = wanted_at(role, n)
            && !is_declared(fault, word, wanted)
        {
            return misused(fault, word, wanted, fault.at(n));
        }
    }
    Ok(None)
}

// Whether a name is declared as what is wanted.
fn is_declared(fault: &Fault<'_>, word: &str, wanted: Wanted) -> bool {
    match fault.book.declared(word) {
        Some(named) => wanted.is_met_by(named.sort),
        None => false,
    }
}

// Why a used name isn't declared as it should be.
fn misused(fault: &Fault<'_>, word: &str, wanted: Wanted, mark: Mark) -> Found {
    match fault.book.declared(word) {
        Some(named) => of_another_sort(fault, named, wanted, mark),
        None => not_above(fault, word, wanted, mark),
    }
}

fn of_another_sort(fault: &Fault<'_>, named: Named<'_>, wanted: Wanted, mark: Mark) -> Found {
    let (word, verb, told) = (named.name, fault.word(0), wanted.told());
    let (line, sort) = (named.line, named.sort.told());
    mark.with_line(
        line,
        format_args!("{word} is {sort}, declared in line {line}, and `{verb}` takes {told}"),
    )
}

// No line above declares it.
fn not_above(fault: &Fault<'_>, word: &str, wanted: Wanted, mark: Mark) -> Found {
    let (verb, told) = (fault.word(0), wanted.told());
    match declared_below(fault, word) {
        Some(line) => mark.with_line(
            line,
            format_args!("{word} is declared in line {line}, and only lines below that may use it"),
        ),
        None => mark.alone(format_args!("no {word} is declared, and `{verb}` takes {told}")),
    }
}

// The line below the fault that declares the name.
fn declared_below(fault: &Fault<'_>, name: &str) -> Option<u32> {
    let mut rest = from_line(fault.source, fault.number);
    for line in fault.number..u32::MAX {
        let (bytes, behind) = split_line(rest)?;
        let text = text_of(bytes);
        if declares(fault, text, name) {
            return Some(line);
        }
        rest = behind;
    }
    None
}

fn declares(fault: &Fault<'_>, line: &str, name: &str) -> bool {
    if word_at(line, 1) != name {
        return false;
    }
    match verb_of(fault.book.ticks, word_at(line, 0)) {
        Some(verb) => matches!(verb.role(), Role::Declares(_) | Role::Begins),
        None => false,
    }
}
