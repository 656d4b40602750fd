//! The first fault of a script, and what its code means.
use crate::briefs::bytes_of;
use crate::fixtures::check_row;
use script_read::{ReadError, meaning_of, read_script};
use std::alloc::{AllocError, Global};
use std::test::Fail;

// How scripts begin, and how each goes on, with its first fault.
const FAULTS: &[(&str, &[&str])] = &[
    (
        "",
        &[
            " => line 1 code 1",
            "; => line 1 code 1",
            "# lockrun 1;done; => line 1 code 1",
            "lockrun 2;done; => line 1 code 1",
            "lockrun 1 => line 2 code 17",
        ],
    ),
    // Lines, words, places and names.
    (
        "lockrun 1;",
        &[
            "#[200 0];done; => line 2 code 18",
            "# a\tb;done; => line 2 code 19",
            "sxlock d a;done; => line 2 code 2",
            "mutex m a b;done; => line 2 code 2",
            "schedule  t;done; => line 2 code 2",
            "rw d a;thread t 1;tryrlock d e;end;done; => line 4 code 2",
            "mutex m a;cond c;done; => line 3 code 2",
            "mutex m a;cond c m;thread t 1;signal;end;done; => line 5 code 2",
            "done;;done; => line 4 code 2",
            "lock Foo;done; => line 2 code 15",
            "end;done; => line 2 code 15",
            "endtry;done; => line 2 code 15",
            "thread t 1;endtry;end;done; => line 3 code 15",
            "mutex m a;cond c m;signal c;done; => line 4 code 15",
            "thread t 1;mutex M 1;end;done; => line 3 code 16",
            "mutex m a;thread t 1;end;cond c m;done; => line 5 code 16",
            "thread t 1;# open; => line 4 code 17",
            "thread t 1;done; => line 3 code 17",
            "mutex m a;thread t 1;trylock m;end;done; => line 5 code 17",
            "mutex m 1;done; => line 2 code 3",
            "thread t 1;trylock Foo;end;done; => line 3 code 3",
            "thread t 1;end;schedule t u T;done; => line 4 code 3",
            "mutex m a;cond m M;done; => line 3 code 3",
            "thread t 1;wait C;end;done; => line 3 code 3",
            "mutex m a;thread m 256;end;done; => line 3 code 4",
            "mutex m a;cond m m;done; => line 3 code 4",
            "thread t 1;lock t;end;done; => line 3 code 5",
            "thread t 1;trylock foo;end;done; => line 3 code 5",
            "cond q q;done; => line 2 code 5",
            "mutex m a;cond c m;thread t 1;lock c;end;done; => line 5 code 5",
            "thread t 1;end;schedule u;thread u 1;end;done; => line 4 code 5",
            "thread t 256;end;done; => line 2 code 6",
        ],
    ),
    // What a thread does with a mutex,
    (
        "lockrun 1;mutex m a;thread t 1;",
        &[
            "lock m;wait m;unlock m;end;done; => line 5 code 5",
            "set m 01 2;end;done; => line 4 code 6",
            "rlock m;end;done; => line 4 code 8",
            "slock m;end;done; => line 4 code 8",
            "lock m;show;lock m;end;done; => line 6 code 9",
            "lock m;trylock m;end;done; => line 5 code 9",
            "unlock m;end;done; => line 4 code 11",
            "set m 1 2;end;done; => line 4 code 11",
            "lock m;end;done; => line 5 code 14",
            "trylock m;endtry;end;done; => line 5 code 14",
        ],
    ),
    // with a reader-writer lock,
    (
        "lockrun 1;rw d a;thread t 1;",
        &[
            "lock d;end;done; => line 4 code 8",
            "rlock d;unlock d;end;done; => line 5 code 8",
            "rlock d;wunlock d;end;done; => line 5 code 10",
            "runlock d;end;done; => line 4 code 11",
            "rlock d;set d 1 1;end;done; => line 5 code 20",
            "tryrlock d;add d 1 1; => line 5 code 20",
        ],
    ),
    // with a condition variable or a channel,
    (
        "lockrun 1;mutex m a;cond c m;chan z m;thread t 1;",
        &[
            "lock m;wait z;unlock m;end;done; => line 7 code 8",
            "lock m;msleep c;unlock m;end;done; => line 7 code 8",
            "wakeup c;end;done; => line 6 code 8",
            "wait c;end;done; => line 6 code 11",
            "trylock m;wait c; => line 7 code 13",
        ],
    ),
    // and with several locks.
    (
        "lockrun 1;",
        &[
            "sx s a;thread t 1;wlock s;end;done; => line 4 code 8",
            "sx s a;thread t 1;slock s;set s 1 1; => line 5 code 20",
            "mutex m a;mutex n a;thread t 1;lock m;get n 1;end;done; => line 6 code 11",
            "mutex m k;sx s j;thread t 1;lock m;slock s; => line 6 code 12",
            "mutex m k;sx s j;thread t 1;trylock m;tryxlock s; => line 6 code 12",
            "mutex m a;mutex n a;cond c m;thread t 1;lock n;lock m;wait c; => line 8 code 12",
            "sx s a;mutex m b;chan z s;thread t 1;xlock s;lock m;msleep z; => line 8 code 12",
            "sx s j;sx u k;cond c s;thread t 1;xlock s;xlock u;wait c; => line 8 code 13",
        ],
    ),
    // What is held at an `endtry`: a lock less, another order, a lock that a try had gained,
    (
        "lockrun 1;mutex m a;mutex n a;mutex o a;thread t 1;",
        &[
            "lock m;trylock n;unlock m;unlock n;endtry;end;done; => line 10 code 14",
            "lock m;lock n;trylock o;unlock n;unlock m;lock n;lock m;unlock o;endtry; => line 14 code 14",
            "trylock m;trylock n;unlock m;lock m;unlock n;endtry; => line 11 code 14",
        ],
    ),
    // and another mode.
    (
        "lockrun 1;rw d a;mutex m a;thread t 1;",
        &["rlock d;trylock m;runlock d;wlock d;unlock m;endtry; => line 10 code 14"],
    ),
    // Limits.
    (
        "lockrun 1;",
        &[
            "[65 mutex m# a;]done; => line 66 code 7",
            "[33 thread t# 1;end;]done; => line 66 code 7",
            "mutex m a;[65 cond c# m;]done; => line 67 code 7",
            "mutex m a;chan z m;[64 cond c# m;]done; => line 67 code 7",
            "[9 mutex m# a;]thread t 1;[9 lock m#;]end;done; => line 20 code 7",
            "[9 mutex m# a;]thread t 1;[8 lock m#;]trylock m8; => line 20 code 7",
            // of a held one's two faults the smaller
            "[9 mutex m# a;]thread t 1;[8 lock m#;]trylock m7; => line 20 code 7",
            "mutex m a;thread t 1;[9 trylock m;unlock m;]end;done; => line 20 code 7",
            "thread t 1;[20001 show;]end;done; => line 20003 code 7",
            "mutex m a;thread t 1;[6667 trylock m;unlock m;endtry;]end;done; => line 20004 code 7",
            "thread t 1;end;[10000 schedule t t t t t t t t t t;]schedule t;done; => line 10004 code 7",
        ],
    ),
];

#[test]
fn the_first_fault_of_a_script(rt: HostRuntime) -> Result<(), Fail> {
    for (head, rows) in FAULTS {
        check_faults(rt.alloc(), head, rows)?;
    }
    Ok(())
}

fn check_faults(alloc: Global, head: &str, rows: &[&str]) -> Result<(), Fail> {
    for row in rows {
        check_row(row, has_fault(alloc, head, row)?)?;
    }
    Ok(())
}

// Whether the script of a row has the fault of that row.
fn has_fault(alloc: Global, head: &str, row: &str) -> Result<bool, AllocError> {
    match row.split_once(" => ") {
        Some((tail, fault)) => is_said(alloc, &[head, tail], fault),
        None => Ok(false),
    }
}

fn is_said(alloc: Global, script: &[&str], fault: &str) -> Result<bool, AllocError> {
    let bytes = bytes_of(alloc, script)?;
    match read_script(alloc, &bytes) {
        Err(error) => is_worded(alloc, &error, fault),
        Ok(_) => Ok(false),
    }
}

fn is_worded(alloc: Global, error: &ReadError, fault: &str) -> Result<bool, AllocError> {
    let said = format!(in alloc; "{error}")?;
    Ok(said.as_str() == fault)
}

const MEANINGS: &[Option<&str>] = &[
    None,
    Some("the first line isn't `lockrun 1`, or `ticks 1` under `ticks`"),
    Some(
        "it has an empty word, an unknown first word or a wrong number of words, or stands behind `done`",
    ),
    Some("it has a name or a class that isn't a NAME"),
    Some("it declares a name that is declared already"),
    Some("it uses a name that isn't declared, or is declared as another sort"),
    Some(
        "it has a number that isn't a KEY, VALUE, AMOUNT or TICKS, or a priority that isn't a PRIO",
    ),
    Some("it passes a limit of a script"),
    Some("the lock is of another kind, or a channel is used for a condition or the reverse"),
    Some("the lock is held here already"),
    Some("the lock is held here in the other mode"),
    Some("the lock isn't held here"),
    Some("a mutex or an rw lock is held here under which it may not stand"),
    Some("the wait's lock wasn't gained last, or was gained by a try"),
    Some("the thread ends with a lock held, or the block with other locks than it began with"),
    Some("it stands outside a thread, or is an `endtry` with no block open"),
    Some("it declares a lock, condition or channel behind a thread, or a sleeper behind events"),
    Some("it stands inside a thread or an open block, or the source ends without `done`"),
    Some("it is longer than 200 bytes"),
    Some("it holds a byte outside 32 to 126"),
    Some("the lock is held shared, so its table may not be changed"),
    None,
    None,
];

#[test]
fn the_meaning_of_each_code(rt: HostRuntime) {
    for (code, meaning) in MEANINGS.iter().enumerate() {
        assert!(rt; meaning_of(code as u8) == *meaning, "code {code}");
    }
}
