//! Code 7: limits. Each is told with what was found.

use crate::book::Names;
use crate::finding::{Fault, Found};
use crate::verbs::{Role, Sort};
use lock_model::limits;

pub fn cause(fault: &Fault<'_>) -> Found {
    match fault.role() {
        Some(role) => of_role(fault, role),
        None => Ok(None),
    }
}

fn of_role(fault: &Fault<'_>, role: Role) -> Found {
    let book = &fault.book;
    match role {
        Role::Declares(Sort::Lock(_)) => {
            passed(fault, "locks of a script", limits::LOCKS, book.locks())
        }
        Role::Declares(Sort::Condition | Sort::Channel | Sort::Thread) => passed(
            fault,
            "conditions and channels of a script",
            limits::CHANNELS,
            book.channels(),
        ),
        Role::Declares(Sort::Sleeper) => passed(
            fault,
            "sleepers of a script",
            tick_sleep::limits::SLEEPERS,
            book.count(Sort::Sleeper),
        ),
        Role::Begins => passed(
            fault,
            "threads of a script",
            limits::THREADS,
            book.count(Sort::Thread),
        ),
        Role::Schedules => turns(fault),
        Role::Takes(_, _) | Role::Tries(_, _) => gain(fault, role),
        Role::Sleeps | Role::WakesKey | Role::Posts | Role::Passes => passed(
            fault,
            "events of a script",
            tick_sleep::limits::EVENTS,
            book.operations,
        ),
        Role::Releases(_, _)
        | Role::EndsTry
        | Role::Edits
        | Role::Reads
        | Role::SetsPriority
        | Role::Shows
        | Role::Waits(_)
        | Role::Wakes(_) => operations(fault),
        Role::Ends | Role::Finishes => Ok(None),
    }
}

// A limit, and what there is of it above the line, which has one more.
fn passed(fault: &Fault<'_>, what: &str, most: usize, above: usize) -> Found {
    let found = above.saturating_add(1);
    fault.at(0).alone(format_args!("{what}: at most {most}, and {found} with this line"))
}

fn operations(fault: &Fault<'_>) -> Found {
    passed(
        fault,
        "operations of all threads",
        limits::OPERATIONS,
        fault.book.operations,
    )
}

// The turns of a schedule line.
fn turns(fault: &Fault<'_>) -> Found {
    let turns = fault.line.split(' ').count().saturating_sub(2);
    passed(
        fault,
        "turns of all schedule lines",
        limits::SCHEDULE,
        fault.book.turns.saturating_add(turns),
    )
}

// A take or a try.
fn gain(fault: &Fault<'_>, role: Role) -> Found {
    let blocks = fault.book.blocks.len();
    if fault.book.operations >= limits::OPERATIONS {
        operations(fault)
    } else if matches!(role, Role::Tries(_, _)) && blocks >= limits::OPEN_TRIES {
        passed(
            fault,
            "blocks that a thread has open at once",
            limits::OPEN_TRIES,
            blocks,
        )
    } else {
        holds(fault)
    }
}

// The locks that a thread holds.
fn holds(fault: &Fault<'_>) -> Found {
    let (thread, most, names) = (fault.thread(), limits::HELD, Names(&fault.book.held));
    let found = fault.book.held.len().saturating_add(1);
    fault.at(0).alone(format_args!(
        "locks that a thread holds at once: at most {most}, and {found} with this line; {thread} holds {names}"
    ))
}
