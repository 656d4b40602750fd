//! Codes 15 to 17: where a line stands.

use crate::book::At;
use crate::finding::{Fault, Found};
use crate::verbs::{Role, Sort};

/// Code 15: outside a thread, or outside a block.
pub fn outside(fault: &Fault<'_>) -> Found {
    match (fault.book.open, fault.book.ended) {
        (Some(thread), _) => outside_a_block(fault, thread),
        (None, Some(thread)) => behind_a_thread(fault, thread),
        (None, None) => fault
            .at(0)
            .alone("no thread has begun; `thread NAME PRIO` begins one"),
    }
}

fn outside_a_block(fault: &Fault<'_>, thread: At<'_>) -> Found {
    let name = thread.name;
    fault.at(0).alone(format_args!(
        "no block is open in thread {name}; a try opens one, and `endtry` closes it"
    ))
}

fn behind_a_thread(fault: &Fault<'_>, thread: At<'_>) -> Found {
    let (name, line) = (thread.name, thread.line);
    fault.at(0).with_line(
        line,
        format_args!("thread {name} ended in line {line}, and none has begun since"),
    )
}

/// Code 16: a declaration behind what it is to stand before.
pub fn late(fault: &Fault<'_>) -> Found {
    match (fault.book.first_event, fault.book.first(Sort::Thread)) {
        (Some(line), _) => fault.at(0).with_line(
            line,
            format_args!("the events begin in line {line}; sleepers are declared above them"),
        ),
        (None, Some(thread)) => behind_threads(fault, thread.line),
        (None, None) => Ok(None),
    }
}

fn behind_threads(fault: &Fault<'_>, line: u32) -> Found {
    fault.at(0).with_line(
        line,
        format_args!(
            "the threads begin in line {line}; locks, conditions and channels are declared above them"
        ),
    )
}

/// Code 17: inside a thread or a block, or `done` is lacking.
pub fn inside(fault: &Fault<'_>) -> Found {
    match fault.book.open {
        Some(thread) => in_thread(fault, thread),
        None => fault.at(0).alone("the source ends here; the last line of a script is `done`"),
    }
}

fn in_thread(fault: &Fault<'_>, thread: At<'_>) -> Found {
    let (mark, name, line) = (fault.at(0), thread.name, thread.line);
    if matches!(fault.role(), Some(Role::Ends)) {
        in_block(fault)
    } else if fault.line.is_empty() {
        mark.with_line(
            line,
            format_args!(
                "the source ends in thread {name}, which began in line {line}; `end` and `done` are lacking"
            ),
        )
    } else {
        mark.with_line(
            line,
            format_args!("thread {name} is open since line {line}; it lacks its `end`"),
        )
    }
}

// A thread ends, and a block is open in it.
fn in_block(fault: &Fault<'_>) -> Found {
    let Some(block) = fault.book.blocks.last() else {
        return Ok(None);
    };
    let begun = block.line;
    fault.at(0).with_line(
        begun,
        format_args!("the block of the try in line {begun} is open; it lacks its `endtry`"),
    )
}
