//! Code 6: numbers.

use crate::finding::{Fault, Found, Mark};
use crate::verbs::{Role, Sort};
use script_read::number_of;
use tick_sleep::limits;

// What a word has to be: a number between two, and what it is called.
#[derive(Clone, Copy)]
struct Bounds {
    least: u64,
    greatest: u64,
    told: &'static str,
}

const PRIORITY: Bounds = Bounds {
    least: 0,
    greatest: 255,
    told: "priority",
};

const NUMBER: Bounds = Bounds {
    least: 0,
    greatest: u64::MAX,
    told: "number",
};

const KEY: Bounds = Bounds {
    least: 0,
    greatest: limits::GREATEST_KEY as u64,
    told: "key of a sleep",
};

const SLEEP: Bounds = Bounds {
    least: 1,
    greatest: limits::SLEEP_TICKS as u64,
    told: "number of ticks of a sleep",
};

const TICK: Bounds = Bounds {
    least: 1,
    greatest: limits::TICKS as u64,
    told: "number of ticks of a `tick` line",
};

// The bounds of the word of that number, where it is to be a number.
fn bounds_at(role: Role, n: usize) -> Option<Bounds> {
    match (role, n) {
        (Role::Begins | Role::Declares(Sort::Sleeper), 2) | (Role::SetsPriority, 1) => {
            Some(PRIORITY)
        }
        (Role::Edits, 2 | 3) | (Role::Reads, 2) => Some(NUMBER),
        (Role::Sleeps, 2) | (Role::WakesKey, 1) => Some(KEY),
        (Role::Sleeps, 3) => Some(SLEEP),
        (Role::Passes, 1) => Some(TICK),
        (
            Role::Declares(_)
            | Role::Begins
            | Role::Ends
            | Role::Schedules
            | Role::Finishes
            | Role::Takes(_, _)
            | Role::Tries(_, _)
            | Role::Releases(_, _)
            | Role::EndsTry
            | Role::Edits
            | Role::Reads
            | Role::SetsPriority
            | Role::Shows
            | Role::Waits(_)
            | Role::Wakes(_)
            | Role::Sleeps
            | Role::WakesKey
            | Role::Posts
            | Role::Passes,
            _,
        ) => None,
    }
}

pub fn cause(fault: &Fault<'_>) -> Found {
    let Some(role) = fault.role() else {
        return Ok(None);
    };
    for (n, word) in fault.line.split(' ').enumerate() {
        if let Some(bounds) = bounds_at(role, n)
            && !bounds.has(word)
        {
            return misread(word, bounds, fault.at(n));
        }
    }
    Ok(None)
}

impl Bounds {
    // Whether a word is a number of these.
    fn has(self, word: &str) -> bool {
        match number_of(word.as_bytes()) {
            Some(number) => self.least <= number && number <= self.greatest,
            None => false,
        }
    }
}

// Why a word is no number of these.
fn misread(word: &str, bounds: Bounds, mark: Mark) -> Found {
    let Bounds {
        least,
        greatest: _,
        told,
    } = bounds;
    match number_of(word.as_bytes()) {
        Some(number) if number < least => {
            mark.alone(format_args!("{number} is below {least}, the least {told}"))
        }
        Some(_) => too_great(word, bounds, mark),
        None => miswritten(word, bounds, mark),
    }
}

fn too_great(word: &str, bounds: Bounds, mark: Mark) -> Found {
    let (greatest, told) = (bounds.greatest, bounds.told);
    mark.alone(format_args!("{word} is above {greatest}, the greatest {told}"))
}

// A word that isn't written as a number, or as one that is too great by far.
fn miswritten(word: &str, bounds: Bounds, mark: Mark) -> Found {
    match no_digit(word) {
        Some((0, '-' | '+')) => {
            mark.byte(0).alone("a number has no sign; it is written in decimal digits alone")
        }
        Some((i, letter)) => mark.byte(i).alone(format_args!(
            "a number is written in decimal digits alone, and `{word}` has `{letter}`"
        )),
        None if word.len() > 1 && word.starts_with('0') => {
            mark.byte(0)
                .alone("a number of several digits doesn't begin with a 0")
        }
        None => too_great(word, bounds, mark),
    }
}

// The first letter of a word that is no digit, and its place in the word.
fn no_digit(word: &str) -> Option<(usize, char)> {
    for (i, b) in word.as_bytes().iter().enumerate() {
        if !b.is_ascii_digit() {
            return Some((i, char::from(*b)));
        }
    }
    None
}
