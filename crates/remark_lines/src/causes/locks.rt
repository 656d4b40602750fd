//! Codes 8 to 14 and 20: how a lock is used against what it is, and against what the thread holds.

use crate::book::{Block, HeldSince, Named, Names, held_in};
use crate::finding::{Fault, Found};
use crate::verbs::{Role, Sort, told_mode, word_for};
use lock_model::{Kind, Mode};

/// Code 8: a lock of another kind, or a channel for a condition or the reverse.
pub fn of_other_kind(fault: &Fault<'_>) -> Found {
    match (fault.role(), fault.book.declared(fault.word(1))) {
        (Some(role), Some(named)) => used_otherwise(fault, role, named),
        (None, _) | (Some(_), None) => Ok(None),
    }
}

fn used_otherwise(fault: &Fault<'_>, role: Role, named: Named<'_>) -> Found {
    let (word, name, line) = (fault.word(0), named.name, named.line);
    let (sort, own, others) = (named.sort.told(), named.sort.plural(), sort_of(role));
    let fitting = word_instead(fault, role, named).unwrap_or("");
    fault.at(0).with_line(
        line,
        format_args!(
            "{name} is {sort}, declared in line {line}; `{word}` is for {others}, and `{fitting}` for {own}"
        ),
    )
}

// Of which sort is what such a line names.
fn sort_of(role: Role) -> &'static str {
    match role {
        Role::Takes(kind, _) | Role::Tries(kind, _) | Role::Releases(kind, _) => {
            Sort::Lock(kind).plural()
        }
        Role::Waits(sort) | Role::Wakes(sort) => sort.plural(),
        Role::Declares(_)
        | Role::Begins
        | Role::Ends
        | Role::Schedules
        | Role::Finishes
        | Role::EndsTry
        | Role::Edits
        | Role::Reads
        | Role::SetsPriority
        | Role::Shows
        | Role::Sleeps
        | Role::WakesKey
        | Role::Posts
        | Role::Passes => "",
    }
}

// The first word that does the same to what was named.
fn word_instead(fault: &Fault<'_>, role: Role, named: Named<'_>) -> Option<&'static str> {
    match (role, named.sort) {
        (Role::Takes(_, mode), Sort::Lock(kind)) => word_for(Role::Takes(
            kind,
            of_kind(kind, mode),
        )),
        (Role::Tries(_, mode), Sort::Lock(kind)) => word_for(Role::Tries(
            kind,
            of_kind(kind, mode),
        )),
        (Role::Releases(_, mode), Sort::Lock(kind)) => {
            let mode = match fault.book.held(named.name) {
                Some(held) => held.mode,
                None => of_kind(kind, mode),
            };
            word_for(Role::Releases(kind, mode))
        }
        (Role::Waits(_), sort) => word_for(Role::Waits(sort)),
        (Role::Wakes(_), _) => match fault.word(0) {
            "broadcast" => Some("wakeup"),
            "wakeup" => Some("broadcast"),
            "signal" => Some("wakeup_one"),
            _ => Some("signal"),
        },
        (
            Role::Declares(_)
            | Role::Begins
            | Role::Ends
            | Role::Schedules
            | Role::Finishes
            | Role::Takes(_, _)
            | Role::Tries(_, _)
            | Role::Releases(_, _)
            | Role::EndsTry
            | Role::Edits
            | Role::Reads
            | Role::SetsPriority
            | Role::Shows
            | Role::Sleeps
            | Role::WakesKey
            | Role::Posts
            | Role::Passes,
            _,
        ) => None,
    }
}

// A mode in which a lock of the kind is held.
fn of_kind(kind: Kind, mode: Mode) -> Mode {
    match kind {
        Kind::Mtx => Mode::Excl,
        Kind::Rw | Kind::Sx => mode,
    }
}

/// Code 9: the lock is held already.
pub fn held(fault: &Fault<'_>) -> Found {
    let (name, thread) = (fault.word(1), fault.thread());
    let Some(held) = fault.book.held(name) else {
        return Ok(None);
    };
    let (line, how) = (held.line, gained(held));
    fault.at(1).with_line(
        line,
        format_args!("thread {thread} holds {name}, which it {how} in line {line}"),
    )
}

// How a held lock was gained.
fn gained(held: HeldSince<'_>) -> &'static str {
    if held.by_try {
        "gained by the try"
    } else {
        "took"
    }
}

/// Code 10: the lock is held in the other mode.
pub fn held_otherwise(fault: &Fault<'_>) -> Found {
    let Some(Role::Releases(kind, _)) = fault.role() else {
        return Ok(None);
    };
    match fault.book.held(fault.word(1)) {
        Some(held) => released_otherwise(fault, kind, held),
        None => Ok(None),
    }
}

fn released_otherwise(fault: &Fault<'_>, kind: Kind, held: HeldSince<'_>) -> Found {
    let (name, thread) = (held.name, fault.thread());
    let (line, mode) = (held.line, told_mode(held.mode));
    let fitting = word_for(Role::Releases(kind, held.mode)).unwrap_or("");
    fault.at(0).with_line(
        line,
        format_args!(
            "thread {thread} holds {name} {mode} since line {line}; `{fitting}` releases it so"
        ),
    )
}

/// Code 11: the lock isn't held.
pub fn unheld(fault: &Fault<'_>) -> Found {
    match waits_with(fault) {
        Some(lock) => wait_unheld(fault, lock),
        None => use_unheld(fault, fault.word(1)),
    }
}

// Of a wait the lock that it waits with.
fn waits_with<'a>(fault: &Fault<'a>) -> Option<&'a str> {
    let Some(Role::Waits(_)) = fault.role() else {
        return None;
    };
    let named = fault.book.declared(fault.word(1))?;
    Some(named.goes_with)
}

fn wait_unheld(fault: &Fault<'_>, lock: &str) -> Found {
    let (name, thread, mark) = (fault.word(1), fault.thread(), fault.at(1));
    match fault.book.released(lock) {
        Some(line) => mark.with_line(
            line,
            format_args!(
                "{name} goes with the lock {lock}, and thread {thread} released {lock} in line {line}"
            ),
        ),
        None => mark.alone(format_args!(
            "{name} goes with the lock {lock}, and thread {thread} hasn't taken {lock} so far"
        )),
    }
}

fn use_unheld(fault: &Fault<'_>, lock: &str) -> Found {
    let (thread, mark) = (fault.thread(), fault.at(1));
    match fault.book.released(lock) {
        Some(line) => mark.with_line(
            line,
            format_args!("thread {thread} released {lock} in line {line}"),
        ),
        None => mark.alone(format_args!("thread {thread} hasn't taken {lock} so far")),
    }
}

/// Code 12: a mutex or an rw lock is held under which the line may not stand.
pub fn under_others(fault: &Fault<'_>) -> Found {
    let own = waits_with(fault);
    for held in &fault.book.held {
        if let Some(named) = fault.book.declared(held.name)
            && named.sort != Sort::Lock(Kind::Sx)
            && own != Some(held.name)
        {
            return under(fault, own, *held, named.sort.told());
        }
    }
    Ok(None)
}

fn under(fault: &Fault<'_>, own: Option<&str>, held: HeldSince<'_>, sort: &str) -> Found {
    let (name, line, mark) = (held.name, held.line, fault.at(1));
    match own {
        Some(lock) => mark.with_line(
            line,
            format_args!(
                "{name}, {sort}, is held since line {line}; beside {lock}, the wait's lock, only sx locks may be held in a wait"
            ),
        ),
        None => mark.with_line(
            line,
            format_args!(
                "{name}, {sort}, is held since line {line}; an sx lock isn't taken or tried under mutexes and rw locks"
            ),
        ),
    }
}

/// Code 13: the wait's lock wasn't gained last, or was gained by a try.
pub fn not_last(fault: &Fault<'_>) -> Found {
    match (waits_with(fault), fault.book.held.last()) {
        (Some(lock), Some(last)) => gained_last(fault, lock, last.name, last.line),
        (None, _) | (Some(_), None) => Ok(None),
    }
}

fn gained_last(fault: &Fault<'_>, lock: &str, name: &str, line: u32) -> Found {
    let mark = fault.at(1);
    if name == lock {
        mark.with_line(
            line,
            format_args!(
                "{lock}, the wait's lock, was gained by the try in line {line}; it is to be taken"
            ),
        )
    } else {
        mark.with_line(
            line,
            format_args!(
                "{name} was gained in line {line}, behind {lock}, the wait's lock, which is to be the last"
            ),
        )
    }
}

/// Code 14: a thread ends with a lock held, or a block with other locks than it began with.
pub fn still_held(fault: &Fault<'_>) -> Found {
    match fault.role() {
        Some(Role::EndsTry) => match fault.book.blocks.last() {
            Some(block) => changed(fault, block),
            None => Ok(None),
        },
        Some(_) | None => match fault.book.held.first() {
            Some(held) => held_in_the_end(fault, *held),
            None => Ok(None),
        },
    }
}

fn held_in_the_end(fault: &Fault<'_>, held: HeldSince<'_>) -> Found {
    let (thread, name, line, how) = (fault.thread(), held.name, held.line, gained(held));
    fault.at(0).with_line(
        line,
        format_args!("thread {thread} still holds {name}, which it {how} in line {line}"),
    )
}

// What a block has changed in what is held: first what it has gained.
fn changed(fault: &Fault<'_>, block: &Block<'_>) -> Found {
    for now in &fault.book.held {
        if held_in(&block.before, now.name).is_none() {
            return held_still(fault, *now, block.line);
        }
    }
    lost(fault, block)
}

fn held_still(fault: &Fault<'_>, now: HeldSince<'_>, begun: u32) -> Found {
    let (name, line) = (now.name, now.line);
    let how = if line == begun { "tried" } else { "gained" };
    fault.at(0).with_line(
        line,
        format_args!(
            "{name}, {how} in line {line}, is held still; the block began without it in line {begun}"
        ),
    )
}

// What a block that has gained nothing has lost, or holds in another way or order.
fn lost(fault: &Fault<'_>, block: &Block<'_>) -> Found {
    for before in &block.before {
        match held_in(&fault.book.held, before.name) {
            None => return held_no_more(fault, before.name, block.line),
            Some(now) if now.mode != before.mode || now.by_try != before.by_try => {
                return held_in_another_way(fault, *before, now, block.line);
            }
            Some(_) => {}
        }
    }
    reordered(fault, block)
}

fn held_no_more(fault: &Fault<'_>, name: &str, begun: u32) -> Found {
    fault.at(0).with_line(
        begun,
        format_args!("{name} was held when the block began in line {begun}, and isn't any more"),
    )
}

fn held_in_another_way(
    fault: &Fault<'_>,
    before: HeldSince<'_>,
    now: HeldSince<'_>,
    begun: u32,
) -> Found {
    let name = before.name;
    let (by, then, since) = if now.mode != before.mode {
        ("", told_mode(before.mode), told_mode(now.mode))
    } else {
        ("by ", by_what(before), by_what(now))
    };
    fault.at(0).with_line(
        begun,
        format_args!(
            "{name} was held {by}{then} when the block began in line {begun}, and is held {by}{since} now"
        ),
    )
}

fn by_what(held: HeldSince<'_>) -> &'static str {
    if held.by_try { "a try" } else { "a take" }
}

fn reordered(fault: &Fault<'_>, block: &Block<'_>) -> Found {
    let (begun, then, now) = (block.line, Names(&block.before), Names(&fault.book.held));
    fault.at(0).with_line(
        begun,
        format_args!(
            "held in another order: when the block began in line {begun} it was {then}, and now {now}"
        ),
    )
}

/// Code 20: the lock is held shared.
pub fn shared(fault: &Fault<'_>) -> Found {
    let (name, thread) = (fault.word(1), fault.thread());
    let Some(held) = fault.book.held(name) else {
        return Ok(None);
    };
    let line = held.line;
    fault.at(1).with_line(
        line,
        format_args!(
            "thread {thread} holds {name} shared since line {line}; a table is changed under an exclusive hold alone"
        ),
    )
}
