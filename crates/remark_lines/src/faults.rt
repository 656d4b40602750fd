//! What is said of a script's fault: its cause, the line, and the mark.

use crate::book::Book;
use crate::causes::cause;
use crate::excerpt::excerpt_of;
use crate::finding::{Fault, Finding};
use crate::places::{line_at, place_of, text_of, word_at};
use crate::push_line;
use crate::verbs::verb_of;
use script_read::{number_of, split_line};
use std::alloc::{AllocError, Global};

/// The lines of a fault, which the text `line L code C` names: its cause, and the line with a mark below the place.
pub fn of_fault(alloc: Global, source: &[u8], text: &[u8]) -> Result<Vec<String>, AllocError> {
    let line = text_of(line_at(text, 1));
    let number = number_of(word_at(line, 1).as_bytes());
    let code = number_of(word_at(line, 3).as_bytes());
    let (Some(number), Some(code)) = (number, code) else {
        return Ok(Vec::new(alloc));
    };
    let number = u32::try_from(number).unwrap_or(u32::MAX);
    of_code(alloc, source, number, code)
}

// What is said of the fault with that code in the line of that number.
fn of_code(
    alloc: Global,
    source: &[u8],
    number: u32,
    code: u64,
) -> Result<Vec<String>, AllocError> {
    let fault = fault_at(alloc, source, number)?;
    match cause(&fault, code)? {
        Some(found) => lines_of(&fault, found),
        None => Ok(Vec::new(alloc)),
    }
}

// The line of that number, and what those above it have made known.
fn fault_at<'a>(alloc: Global, source: &'a [u8], number: u32) -> Result<Fault<'a>, AllocError> {
    let ticks = line_at(source, 1) == "ticks 1".as_bytes();
    let mut book = Book::new(alloc, ticks);
    let mut rest = source;
    for n in 1..number {
        let Some((line, behind)) = split_line(rest) else {
            break;
        };
        if n > 1 {
            book.learn(n, text_of(line))?;
        }
        rest = behind;
    }
    let bytes = line_at(rest, 1);
    let line = text_of(bytes);
    Ok(Fault {
        alloc,
        source,
        number,
        bytes,
        line,
        book,
        verb: verb_of(ticks, word_at(line, 0)),
    })
}

// The sentence; the faulty line with its mark; and in front of that the other line, or behind it where it stands below.
fn lines_of(fault: &Fault<'_>, found: Finding) -> Result<Vec<String>, AllocError> {
    let alloc = fault.alloc;
    let Finding {
        sentence,
        place,
        other,
    } = found;
    let mut lines = Vec::new(alloc);
    push_line(alloc, &mut lines, format_args!("    {sentence}"))?;
    if fault.source.is_empty() {
        return Ok(lines);
    }
    let (above, below) = match other {
        Some(line) if line < fault.number => (Some(line), None),
        Some(line) => (None, Some(line)),
        None => (None, None),
    };
    push_other(fault, &mut lines, above)?;
    let shown = excerpt_of(alloc, fault.number, fault.bytes, place)?;
    lines.push(shown.text)?;
    lines.push(shown.mark)?;
    push_other(fault, &mut lines, below)?;
    Ok(lines)
}

fn push_other(
    fault: &Fault<'_>,
    lines: &mut Vec<String>,
    other: Option<u32>,
) -> Result<(), AllocError> {
    if let Some(line) = other {
        let bytes = line_at(fault.source, line);
        let shown = excerpt_of(fault.alloc, line, bytes, place_of("", 0))?;
        lines.push(shown.text)?;
    }
    Ok(())
}
