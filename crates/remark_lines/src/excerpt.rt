//! A line of the source as it is shown: with its number in front, each byte that can't be printed as `\xNN`, and a
//! long one cut round the place that is marked below it.

use crate::places::Span;
use std::alloc::{AllocError, Global};

// The most columns of a line that are shown.
const COLUMNS: usize = 200;

// How many bytes of a line that is cut stand before the marked place.
const BEFORE: usize = 30;

/// The line as it is shown, and below it the mark.
#[derive(Drop)]
pub struct Excerpt {
    pub text: String,
    pub mark: String,
}

/// A line with its number, and the mark below a place of it.
pub fn excerpt_of(
    alloc: Global,
    number: u32,
    line: &[u8],
    place: Span,
) -> Result<Excerpt, AllocError> {
    let mut text = format!(in alloc; "{number:>5} | ")?;
    let mut mark = String::new(alloc);
    push_times(&mut mark, ' ', text.len().saturating_sub(2))?;
    mark.push_str("| ")?;
    let from = if columns(line) > COLUMNS {
        place.start.saturating_sub(BEFORE)
    } else {
        0
    };
    if from > 0 {
        text.push_str("..")?;
        mark.push_str("  ")?;
    }
    push_shown(&mut text, line, from)?;
    push_mark(&mut mark, line, from, place)?;
    Ok(Excerpt { text, mark })
}

// The line from a byte on, up to its end or to the most columns.
fn push_shown(text: &mut String, line: &[u8], from: usize) -> Result<(), AllocError> {
    let mut shown: usize = 0;
    for (i, b) in line.iter().enumerate() {
        if i < from {
            continue;
        }
        shown = shown.saturating_add(width(*b));
        if shown > COLUMNS {
            return text.push_str("..");
        }
        if is_printable(*b) {
            text.push(char::from(*b))?;
        } else {
            write!(text, "\\x{:02X}", *b)?;
        }
    }
    Ok(())
}

// What stands below that line: blanks up to the place, and signs under it. A place behind the end has one sign.
fn push_mark(mark: &mut String, line: &[u8], from: usize, place: Span) -> Result<(), AllocError> {
    let mut shown: usize = 0;
    for (i, b) in line.iter().enumerate() {
        if i < from {
            continue;
        }
        shown = shown.saturating_add(width(*b));
        if place.is_before(i) || shown > COLUMNS {
            return Ok(());
        }
        let sign = if place.has(i) { '^' } else { ' ' };
        push_times(mark, sign, width(*b))?;
    }
    if place.start >= line.len() {
        mark.push('^')?;
    }
    Ok(())
}

fn push_times(out: &mut String, sign: char, times: usize) -> Result<(), AllocError> {
    for _ in 0..times {
        out.push(sign)?;
    }
    Ok(())
}

// How many columns a line has.
fn columns(line: &[u8]) -> usize {
    let mut all: usize = 0;
    for b in line {
        all = all.saturating_add(width(*b));
    }
    all
}

fn width(b: u8) -> usize {
    if is_printable(b) { 1 } else { 4 }
}

// From a space to `~`.
fn is_printable(b: u8) -> bool {
    b == b' ' || b.is_ascii_graphic()
}
