//! Logs, histories and tables, and printed texts.
use crate::briefs::{is_joined, plan_of};
use crate::fixtures::check_row;
use lock_history::{History, Last, Log, Outcome, QueueLine, Tables, merge, print, print_fault};
use lock_model::{
    ChanNo, ClassNo, Entry, Event, LockNo, Mode, Plan, Prio, QueueName, Sequence, ThreadNo,
};
use std::alloc::{AllocError, Global};
use std::test::Fail;

// The thread t sets a key of the mutex m and reads it.
const PLAN: &str = "lockrun 1;mutex m mem;rw w disk;sx s disk;cond v m;chan h m;\
    thread t 100;lock m;set m 1 5;get m 1;unlock m;end;\
    thread u 100;end;thread sixteen_bytes_xy 100;end;done;";

const M: LockNo = LockNo(0);

const W: LockNo = LockNo(1);

const S: LockNo = LockNo(2);

const V: ChanNo = ChanNo(0);

const H: ChanNo = ChanNo(1);

const X: Mode = Mode::Excl;

const R: Mode = Mode::Shared;

const MOST: u64 = u64::MAX;

const T: ThreadNo = ThreadNo(0);

const U: ThreadNo = ThreadNo(1);

// An edit, and the value that its key has then.
const EDITS: &[(Event, u64, u64)] = &[
    (
        Event::Set {
            l: M,
            key: 1,
            value: 5,
        },
        1,
        5,
    ),
    (
        Event::Added {
            l: M,
            key: 2,
            amount: MOST,
        },
        2,
        MOST,
    ),
    (
        Event::Added {
            l: M,
            key: 2,
            amount: 2,
        },
        2,
        1,
    ),
    (Event::Base { prio: Prio(5) }, 2, 1),
];

#[test]
fn edits(rt: HostRuntime) -> Result<(), Fail> {
    assert!(rt; has_edits(rt.alloc())?);
    Ok(())
}

fn has_edits(alloc: Global) -> Result<bool, Fail> {
    let plan = plan_of(alloc, &[PLAN])?;
    Ok(names_one_key(alloc, &plan)? && has_edited(alloc, &plan)?)
}

fn names_one_key(alloc: Global, plan: &Plan) -> Result<bool, AllocError> {
    Ok(plan.keys_of(alloc, M)?.as_slice() == [1].as_slice())
}

fn has_edited(alloc: Global, plan: &Plan) -> Result<bool, AllocError> {
    let mut tables = Tables::make(alloc, plan)?;
    are_edited(&mut tables)
}

// Whether tables without a key have, behind each edit, the value that belongs to it, and m's key 1 first.
fn are_edited(tables: &mut Tables) -> Result<bool, AllocError> {
    let mut edited = tables.get(M, 1) == None;
    for &(event, key, value) in EDITS {
        tables.edit(event)?;
        edited = edited && has_values(tables, key, value);
    }
    Ok(edited)
}

fn has_values(tables: &Tables, key: u64, value: u64) -> bool {
    tables.get(M, key) == Some(value) && tables.at(0) == Some((M, 1, 5))
}

// A copy keeps the values that it has when the tables are edited that it was made of.
#[test]
fn a_copy_of_tables(rt: HostRuntime) -> Result<(), Fail> {
    assert!(rt; has_copy(rt.alloc())?);
    Ok(())
}

fn has_copy(alloc: Global) -> Result<bool, AllocError> {
    let mut tables = Tables::with_room(alloc, &[])?;
    is_copied(&mut tables)
}

fn is_copied(tables: &mut Tables) -> Result<bool, AllocError> {
    tables.edit(set_to(5))?;
    let copy = tables.clone()?;
    keeps_its_own(&copy, tables)
}

fn keeps_its_own(copy: &Tables, tables: &mut Tables) -> Result<bool, AllocError> {
    tables.edit(set_to(6))?;
    Ok((tables.get(M, 1), copy.get(M, 1)) == (Some(6), Some(5)))
}

fn set_to(value: u64) -> Event {
    Event::Set {
        l: M,
        key: 1,
        value,
    }
}

const WOKE: Entry = Entry {
    ticket: 0,
    thread: T,
    event: Event::Woke { c: V },
};

#[test]
fn a_log_and_its_history(rt: HostRuntime) -> Result<(), Fail> {
    assert!(rt; has_one_entry(rt.alloc())?);
    Ok(())
}

fn has_one_entry(alloc: Global) -> Result<bool, AllocError> {
    let mut log = Log::make(alloc, 2)?;
    log.put(WOKE);
    let counted = (log.len(), log.spare()) == (1, 1);
    Ok(counted && has_one(&History::of_log(log)))
}

fn has_one(history: &History) -> bool {
    (history.len(), history.at(0), history.at(1)) == (1, Some(WOKE), None)
        && history.as_slice() == [WOKE].as_slice()
}

// Each kind of event, with its words behind the thread's name.
const WORDS: &[(Event, &str)] = &[
    (Event::Locked { l: M, mode: X }, "lock m"),
    (Event::Locked { l: W, mode: R }, "rlock w"),
    (Event::Locked { l: W, mode: X }, "wlock w"),
    (Event::Locked { l: S, mode: R }, "slock s"),
    (Event::Locked { l: S, mode: X }, "xlock s"),
    (Event::Tried { l: M, mode: X }, "trylock m"),
    (Event::Tried { l: W, mode: R }, "tryrlock w"),
    (Event::Tried { l: W, mode: X }, "trywlock w"),
    (Event::Tried { l: S, mode: R }, "tryslock s"),
    (Event::Tried { l: S, mode: X }, "tryxlock s"),
    (Event::Unlocked { l: M, mode: X }, "unlock m"),
    (Event::Unlocked { l: W, mode: R }, "runlock w"),
    (Event::Unlocked { l: W, mode: X }, "wunlock w"),
    (Event::Unlocked { l: S, mode: R }, "sunlock s"),
    (Event::Unlocked { l: S, mode: X }, "xunlock s"),
    (Event::Busy { l: W, seen: 29 }, "busy w 29"),
    (
        Event::Set {
            l: M,
            key: 9,
            value: MOST,
        },
        "set m 9 18446744073709551615",
    ),
    (
        Event::Added {
            l: S,
            key: 0,
            amount: 1,
        },
        "add s 0 1",
    ),
    (
        Event::Got {
            l: S,
            key: 10,
            found: Some(0),
        },
        "get s 10 0",
    ),
    (
        Event::Got {
            l: W,
            key: MOST,
            found: None,
        },
        "get w 18446744073709551615 -",
    ),
    (Event::Base { prio: Prio(255) }, "prio 255"),
    (
        Event::Shown {
            base: Prio(100),
            eff: Prio(0),
        },
        "show 100 0",
    ),
    (Event::Sleeps { c: V }, "wait v"),
    (Event::Sleeps { c: H }, "msleep h"),
    (Event::Woke { c: V }, "woke v"),
    (Event::HaltedChan { c: H }, "halted h"),
    (Event::HaltedLock { l: S }, "halted s"),
    (Event::WokeOne { c: V, woken: 0 }, "signal v -"),
    (
        Event::WokeOne { c: H, woken: 4 },
        "wakeup_one h sixteen_bytes_xy",
    ),
    (
        Event::WokeAll { c: V, woken: 5 },
        "broadcast v t sixteen_bytes_xy",
    ),
    (Event::WokeAll { c: H, woken: 3 }, "wakeup h t u"),
    (
        Event::Reversed {
            l: M,
            held: ClassNo(1),
        },
        "reversed m disk",
    ),
];

const ENDINGS: &[(Last, &str)] = &[
    (Last::Done, "ok"),
    (Last::Stuck, "stuck"),
    (Last::Reversed, "reversed"),
    (Last::TooLong, "toolong"),
];

const WRITERS: &[(ThreadNo, Prio)] = &[(ThreadNo(2), Prio(6)), (T, Prio(50)), (U, Prio(100))];

const READERS: &[(ThreadNo, Prio)] = &[(T, Prio(80)), (U, Prio(90))];

const SLEEPER: &[(ThreadNo, Prio)] = &[(U, Prio(0))];

// A queue whose head is the object of u: what it belongs to, its free list, and its waiters on either side.
type Queue = (
    QueueName,
    &'static [ThreadNo],
    &'static [(ThreadNo, Prio)],
    &'static [(ThreadNo, Prio)],
);

const QUEUES: &[Queue] = &[
    (QueueName::Lock(M), &[ThreadNo(2), T], WRITERS, &[]),
    (QueueName::Lock(W), &[T], &[], READERS),
    (QueueName::Chan(V), &[], SLEEPER, &[]),
];

fn queues(alloc: Global) -> Result<Sequence<QueueLine>, AllocError> {
    let mut queues = Vec::new(alloc);
    for queue in QUEUES {
        queues.push(queue_line(alloc, queue)?)?;
    }
    Ok(Sequence::from_vec(queues))
}

fn queue_line(alloc: Global, queue: &Queue) -> Result<QueueLine, AllocError> {
    let (q, free, excl, shared) = *queue;
    Ok(QueueLine {
        q,
        slot: 0,
        head: U,
        free: Sequence::from_vec(Vec::from_slice(alloc, free)?),
        excl: Sequence::from_vec(Vec::from_slice(alloc, excl)?),
        shared: Sequence::from_vec(Vec::from_slice(alloc, shared)?),
    })
}

const FINALS: &[(Prio, Prio)] = &[
    (Prio(255), Prio(0)),
    (Prio(50), Prio(50)),
    (Prio(7), Prio(6)),
];

// The logs of t, which begins with that event, and of u, put together.
fn history_with(alloc: Global, event: Event) -> Result<History, AllocError> {
    let mut one = Log::make(alloc, 2)?;
    one.put(Entry {
        ticket: 0,
        thread: T,
        event,
    });
    one.put(Entry {
        ticket: 2,
        thread: T,
        event: Event::Set {
            l: M,
            key: 10,
            value: 7,
        },
    });
    let mut other = Log::make(alloc, 2)?;
    other.put(Entry {
        ticket: 1,
        thread: U,
        event: Event::Set {
            l: S,
            key: 0,
            value: 8,
        },
    });
    other.put(Entry {
        ticket: 3,
        thread: U,
        event: Event::Set {
            l: M,
            key: 9,
            value: 255,
        },
    });
    merge(alloc, &[one, other])
}

fn outcome_with(alloc: Global, event: Event, last: Last) -> Result<Outcome, AllocError> {
    let history = history_with(alloc, event)?;
    let tables = tables_of(alloc, &history)?;
    let queues = queues(alloc)?;
    let finals = Vec::from_slice(alloc, FINALS)?;
    Ok(Outcome {
        history,
        queues,
        finals: Sequence::from_vec(finals),
        tables,
        last,
    })
}

fn tables_of(alloc: Global, history: &History) -> Result<Tables, AllocError> {
    let mut tables = Tables::with_room(alloc, &[])?;
    for entry in history.as_slice() {
        tables.edit(entry.event)?;
    }
    Ok(tables)
}

// What stands between that event and the end. Threads stand in order of declaration, and keys by lock and then by
// number.
const REST: &str = "\n1 u set s 0 8\n2 t set m 10 7\n3 u set m 9 255\n\
    queue m slot 0 head u free sixteen_bytes_xy,t excl sixteen_bytes_xy@6,t@50,u@100 shared -\n\
    queue w slot 0 head u free t excl - shared t@80,u@90\n\
    queue v slot 0 head u free - excl u@0 shared -\n\
    thread t base 255 eff 0\nthread u base 50 eff 50\nthread sixteen_bytes_xy base 7 eff 6\n\
    table m 9 255\ntable m 10 7\ntable s 0 8\n";

#[test]
fn texts_of_runs(rt: HostRuntime) -> Result<(), Fail> {
    let plan = plan_of(rt.alloc(), &[PLAN])?;
    check_texts(rt.alloc(), &plan)
}

fn check_texts(alloc: Global, plan: &Plan) -> Result<(), Fail> {
    for ending in ENDINGS {
        check_words(alloc, plan, ending)?;
    }
    Ok(())
}

fn check_words(alloc: Global, plan: &Plan, ending: &(Last, &str)) -> Result<(), Fail> {
    for row in WORDS {
        check_row(row.1, is_text(alloc, plan, row, ending)?)?;
    }
    Ok(())
}

// Whether the text of a run that begins with that event and ends so is in those words.
fn is_text(
    alloc: Global,
    plan: &Plan,
    row: &(Event, &str),
    ending: &(Last, &str),
) -> Result<bool, AllocError> {
    let outcome = outcome_with(alloc, row.0, ending.0)?;
    is_printed(
        alloc,
        plan,
        &outcome,
        &["0 t ", row.1, REST, ending.1, "\n"],
    )
}

fn is_printed(
    alloc: Global,
    plan: &Plan,
    outcome: &Outcome,
    pieces: &[&str],
) -> Result<bool, AllocError> {
    let text = print(alloc, plan, outcome)?;
    Ok(is_joined(&text, pieces))
}

#[test]
fn text_of_a_fault(rt: HostRuntime) -> Result<(), Fail> {
    let text = print_fault(rt.alloc(), 12, 20)?;
    assert!(rt; is_joined(&text, &["line 12 code 20\n"]));
    Ok(())
}
