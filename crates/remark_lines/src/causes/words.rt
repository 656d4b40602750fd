//! Code 2: the words of a line.

use crate::finding::{Fault, Found};
use crate::places::{Span, place_of};
use crate::verbs::{verb_of, verbs};
use std::alloc::AllocError;
use strsim::osa_distance;

pub fn cause(fault: &Fault<'_>) -> Found {
    if let Some(done) = fault.book.done {
        return behind_done(fault, done);
    }
    if fault.line.starts_with(' ') {
        return fault
            .mark(Span::at(0))
            .alone("the line begins with a space");
    }
    match fault.verb {
        Some(verb) => of_form(fault, verb.form()),
        None => unknown(fault, fault.word(0)),
    }
}

fn behind_done(fault: &Fault<'_>, done: u32) -> Found {
    fault.at(0).with_line(
        done,
        format_args!(
            "`done` in line {done} ended the script; only comments and empty lines may follow"
        ),
    )
}

// A line whose first word is known, which has that form.
fn of_form(fault: &Fault<'_>, form: &str) -> Found {
    match empty_word(fault.line) {
        Some(place) if place.start.saturating_add(1) >= fault.line.len() => {
            fault.mark(place).alone("the line ends with a space")
        }
        Some(place) => fault
            .mark(place)
            .alone("two spaces stand in a row; words have one between them"),
        None => miscounted(fault, form),
    }
}

// No line begins with its first word.
fn unknown(fault: &Fault<'_>, word: &str) -> Found {
    if word == "lockrun" || word == "ticks" {
        fault
            .at(0)
            .alone(format_args!("`{word}` stands in the first line alone"))
    } else if verb_of(!fault.book.ticks, word).is_some() {
        of_the_other_sort(fault, word)
    } else {
        misspelled(fault, word)
    }
}

// A word of the other sort of script.
fn of_the_other_sort(fault: &Fault<'_>, word: &str) -> Found {
    let (other, header) = if fault.book.ticks {
        ("threads and locks", "lockrun 1")
    } else {
        ("ticks", "ticks 1")
    };
    fault.at(0).alone(format_args!(
        "`{word}` is a word of scripts of {other}, which begin with `{header}`"
    ))
}

// A word of no script.
fn misspelled(fault: &Fault<'_>, word: &str) -> Found {
    let mark = fault.at(0);
    match near(fault, word)? {
        Some(meant) => mark.alone(format_args!(
            "no line begins with `{word}`; did you mean `{meant}`?"
        )),
        None => mark.alone(format_args!("no line begins with `{word}`")),
    }
}

// A first word that is the same but for one letter, or in small letters.
fn near(fault: &Fault<'_>, word: &str) -> Result<Option<&'static str>, AllocError> {
    for verb in verbs(fault.book.ticks) {
        if verb.word().eq_ignore_ascii_case(word) {
            return Ok(Some(verb.word()));
        }
    }
    if word.len() > 16 {
        return Ok(None);
    }
    for verb in verbs(fault.book.ticks) {
        if osa_distance(fault.alloc, verb.word(), word)? == 1 {
            return Ok(Some(verb.word()));
        }
    }
    Ok(None)
}

// The space behind which an empty word stands, or the last where the line ends with one.
fn empty_word(line: &str) -> Option<Span> {
    let mut before = b'a';
    for (i, b) in line.as_bytes().iter().enumerate() {
        if *b == b' ' && before == b' ' {
            return Some(Span::at(i));
        }
        before = *b;
    }
    if before == b' ' {
        return Some(Span::at(line.len().saturating_sub(1)));
    }
    None
}

// There are too few words or too many for the form.
fn miscounted(fault: &Fault<'_>, form: &str) -> Found {
    let most = form.split(' ').count();
    if fault.line.split(' ').count() > most {
        fault.mark(place_of(fault.line, most)).alone(format_args!(
            "there are words too many; the form is `{form}`"
        ))
    } else {
        fault
            .mark(Span::at(fault.line.len()))
            .alone(format_args!("words are lacking; the form is `{form}`"))
    }
}
