//! The shape of what is said: a few lines, none of them long, in plain ASCII. Whatever the lines are that were made, it
//! is given to them here.
ghost use Rattle.std.specs.Prelude.{◌≡◌, ◌≤◌, ◌++◌, length, map, take, IfOk, OnOk};
ghost use Rattle.remarks.specs.Remarks.{AreRemarks, shown_byte, shown_line};

use remark_lines::LINES;
use std::alloc::{AllocError, Global};

// The most bytes of a line.
const LINE_BYTES: usize = 240;

/// The first few of the lines, each with its end.
pub fn shaped(alloc: Global, lines: &[String]) -> Result<Vec<u8>, AllocError>
    ensures { IfOk result (λ text. AreRemarks 8 text.items) }
{
    let few = front(lines);
    let mut text = Vec::new(alloc);
    for line in few {
        push_line(&mut text, line.as_bytes())?;
    }
    Ok(text)
}

fn front(lines: &[String]) -> &[String]
    ensures { length result.now ≤ 8 }
{
    if lines.len() > LINES {
        &lines[..LINES]
    } else {
        lines
    }
}

// A line as it is shown, with its end.
fn push_line(out: &mut Vec<u8>, line: &[u8]) -> Result<(), AllocError>
    ensures { OnOk result (out.new.items ≡ out.old.items ++ shown_line line.now) }
{
    push_shown(out, start(line, LINE_BYTES))?;
    out.push(b'\n')?;
    Ok(())
}

// The first so many bytes of it.
fn start(line: &[u8], most: usize) -> &[u8]
    ensures { result.now ≡ take most line.now }
{
    if line.len() > most {
        &line[..most]
    } else {
        line
    }
}

fn push_shown(out: &mut Vec<u8>, bytes: &[u8]) -> Result<(), AllocError>
    ensures { OnOk result (out.new.items ≡ out.old.items ++ map shown_byte bytes.now) }
{
    for b in bytes {
        out.push(shown_byte(*b))?;
    }
    Ok(())
}

fn shown_byte(b: u8) -> u8
    ensures { result ≡ shown_byte b }
{
    if b == b' ' || b.is_ascii_graphic() {
        b
    } else {
        b'?'
    }
}
