//! Codes 18 and 19: the bytes of a line.

use crate::finding::{Fault, Found};
use crate::places::Span;
use lock_model::limits;

/// Code 18: the line is too long. The mark is below the first byte too many.
pub fn too_long(fault: &Fault<'_>) -> Found {
    let (len, most) = (fault.bytes.len(), limits::LINE_BYTES);
    fault.mark(Span::at(most)).alone(format_args!(
        "bytes of a line: at most {most}, and {len} in this one"
    ))
}

/// Code 19: a byte may not stand in a script. The mark is below the first.
pub fn unprintable(fault: &Fault<'_>) -> Found {
    for (i, b) in fault.bytes.iter().enumerate() {
        if *b != b' ' && !b.is_ascii_graphic() {
            return unprintable_at(fault, i, *b);
        }
    }
    Ok(None)
}

// Why a byte may not stand there.
fn unprintable_at(fault: &Fault<'_>, i: usize, byte: u8) -> Found {
    let mark = fault.mark(Span::at(i));
    if byte == b'\r' && i.saturating_add(1) == fault.bytes.len() {
        mark.alone("the line ends in a carriage return, byte 13; a line ends in byte 10 alone")
    } else if byte == b'\t' {
        mark.alone("a tab, byte 9; words have one space between them")
    } else if byte < 127 {
        mark.alone(format_args!("byte {byte} is a control character"))
    } else {
        mark.alone(format_args!("byte {byte} isn't in plain ASCII, which a script is written in"))
    }
}
