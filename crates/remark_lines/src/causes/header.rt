//! Code 1: the first line isn't the header.

use crate::finding::{Fault, Found};
use crate::places::{Span, place_of, text_of, whole, word_at};

// How scripts begin.
const HEADERS: &str = "a script begins with the line `lockrun 1`, and one of ticks with `ticks 1`";

pub fn cause(fault: &Fault<'_>) -> Found {
    let line = fault.bytes;
    if fault.source.is_empty() {
        fault
            .mark(whole(line))
            .alone(format_args!("the source is empty; {HEADERS}"))
    } else if line.is_empty() {
        fault
            .mark(whole(line))
            .alone(format_args!("the first line is empty; {HEADERS}"))
    } else {
        of_bytes(fault, line)
    }
}

// By the first bytes of a line that has some.
fn of_bytes(fault: &Fault<'_>, line: &[u8]) -> Found {
    if line.starts_with(b"\xEF\xBB\xBF") {
        fault.mark(Span { start: 0, len: 3 }).alone(
            "the source begins with a byte order mark; save it without one",
        )
    } else if line.starts_with(b"\xFF\xFE") || line.starts_with(b"\xFE\xFF") {
        fault
            .mark(Span { start: 0, len: 2 })
            .alone("the source is in UTF-16; save it as plain ASCII")
    } else if line.starts_with(b"#") {
        fault.mark(Span::at(0)).alone(format_args!(
            "comments stand from the second line on; {HEADERS}"
        ))
    } else if line.ends_with(b"\r") {
        fault.mark(Span::at(line.len().saturating_sub(1))).alone(
            "the line ends in a carriage return, byte 13; a line ends in byte 10 alone",
        )
    } else {
        of_text(fault, text_of(line))
    }
}

// Of a line that is text.
fn of_text(fault: &Fault<'_>, line: &str) -> Found {
    if line == "ticks 1" {
        fault
            .mark(whole(fault.bytes))
            .alone("this is a script of ticks, which `lockrun ticks` runs")
    } else if line == "lockrun 1" {
        fault.mark(whole(fault.bytes)).alone(
            "this is a script of threads and locks, which `lockrun step` runs; one of ticks begins with `ticks 1`",
        )
    } else {
        of_words(fault, line, word_at(line, 0), word_at(line, 1))
    }
}

// By its first two words.
fn of_words(fault: &Fault<'_>, line: &str, first: &str, second: &str) -> Found {
    if (first == "lockrun" || first == "ticks") && second != "1" && line.split(' ').count() == 2 {
        fault.mark(place_of(line, 1)).alone(format_args!(
            "`{second}` is no version of scripts; the line is `{first} 1`"
        ))
    } else {
        fault
            .mark(whole(fault.bytes))
            .alone(format_args!("{HEADERS}, byte for byte"))
    }
}
