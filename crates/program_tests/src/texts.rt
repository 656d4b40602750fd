//! Calls of `lockrun`: what no file of `example_rows` can say. Ends that fail, a source that is too big, words that are
//! no form, for which nothing is read, and threads that meet at a gate. And a thread that runs and is refused a take.
use crate::fixtures::{Case, Ends, FIRST, MEETINGS, MOST, NEVER, TOO_MANY, check_row};
use complaints::Status;
use complaints::Status::{BadScript, Done, ReadFault, Reversed, TooBig, Usage, WriteFault};
use lock_io::{Meeting, OpenGate};
use std::alloc::{AllocError, Global};
use std::sync::Wait;
use std::test::Fail;
use std::thread::Threads;

// FIRST has 68 bytes: seventeen calls of the source, and one that finds its end. Behind the pieces of a text the sink
// is flushed: at `ok` that is call 1. The text of a case is what the sink holds in the end.
const CASES: &[Case] = &[
    (
        "step",
        FIRST,
        NEVER,
        NEVER,
        Done,
        "0 t lock m\n1 t set m 1 5\n2 t unlock m\nthread t base 100 eff 100\ntable m 1 5\nok\n",
    ),
    ("step", FIRST, NEVER, 2, WriteFault, "0 t lock"),
    ("step", FIRST, NEVER, 0, WriteFault, ""),
    ("step", "lockrun 1;done;", NEVER, 1, WriteFault, "ok\n"),
    (
        "step --turns 2",
        FIRST,
        NEVER,
        3,
        WriteFault,
        "0 t lock m\n1",
    ),
    ("check", FIRST, NEVER, 2, WriteFault, "ok threa"),
    ("--turns 1 run", FIRST, NEVER, 2, WriteFault, "0 t lock"),
    ("step", FIRST, 1, NEVER, ReadFault, ""),
    ("step", FIRST, 17, NEVER, ReadFault, ""),
    ("check", FIRST, 1, NEVER, ReadFault, ""),
    ("run", FIRST, 1, NEVER, ReadFault, ""),
    ("check", TOO_MANY, NEVER, NEVER, TooBig, ""),
    ("run", TOO_MANY, NEVER, NEVER, TooBig, ""),
    ("step", TOO_MANY, NEVER, NEVER, TooBig, ""),
    ("ticks", TOO_MANY, NEVER, NEVER, TooBig, ""),
    ("profile", TOO_MANY, NEVER, NEVER, TooBig, ""),
    ("step", MOST, NEVER, NEVER, BadScript, "line 1 code 1\n"),
    // Nothing is read, since the source would fail at its first call.
    ("", FIRST, 0, NEVER, Usage, ""),
    ("run 1", FIRST, 0, NEVER, Usage, ""),
    ("walk", FIRST, 0, NEVER, Usage, ""),
    ("step step", FIRST, 0, NEVER, Usage, ""),
    ("step --help", FIRST, 0, NEVER, Usage, ""),
    ("step --turns 0", FIRST, 0, NEVER, Usage, ""),
    ("check --chains 65", FIRST, 0, NEVER, Usage, ""),
];

#[test]
fn ends_in_memory(rt: HostRuntime) -> Result<(), Fail> {
    for case in CASES {
        check_row(case.0, ends_so(&rt, rt.alloc(), case)?)?;
    }
    Ok(())
}

// Whether a call gives what its case says.
fn ends_so<R: Threads + Wait + Sync>(rt: &R, alloc: Global, case: &Case) -> Result<bool, Fail> {
    let (line, script, source_fails, sink_fails, status, text) = *case;
    let mut ends = Ends::failing(alloc, line, &[script], source_fails, sink_fails)?;
    Ok(ends.lockrun(rt, alloc, &OpenGate) == status && ends.text() == text)
}

// Threads run beside each other, and the text is that of their run.
#[test]
fn threads_meet(rt: HostRuntime) -> Result<(), Fail> {
    for &(script, first, second, begins) in MEETINGS {
        let gate = Meeting::new(first, second);
        let begun = begins_so(&rt, rt.alloc(), script, &gate, begins)?;
        check_row(begins, begun && !gate.missed() && gate.came() == (2, 2))?;
    }
    Ok(())
}

// Whether a run is done, and its text begins so.
fn begins_so<R: Threads + Wait + Sync>(
    rt: &R,
    alloc: Global,
    script: &str,
    gate: &Meeting,
    begins: &str,
) -> Result<bool, Fail> {
    let mut ends = Ends::new(alloc, "run", &[script])?;
    Ok(ends.lockrun(rt, alloc, gate) == Done && ends.text().starts_with(begins))
}

// A thread takes a and then b, gives both back, and then takes b: an order is known though nobody holds its locks. So
// it is refused a, gives b back, and never comes to its last two operations.
const BOTH_ORDERS: &str = "lockrun 1;mutex a ka;mutex b kb;thread t 100;\
    lock a;lock b;unlock b;unlock a;lock b;lock a;unlock a;unlock b;end;done;";

const REFUSED: &str = "0 t lock a\n1 t lock b\n2 t unlock b\n3 t unlock a\n4 t lock b\n\
    5 t reversed a kb\n6 t unlock b\nthread t base 100 eff 100\nreversed\n";

#[test]
fn a_thread_alone_in_both_orders(rt: HostRuntime) -> Result<(), Fail> {
    let mut ends = Ends::new(rt.alloc(), "run", &[BOTH_ORDERS])?;
    let status = ends.lockrun(&rt, rt.alloc(), &OpenGate);
    assert!(rt; status == Reversed && status as u8 == 6 && ends.text() == REFUSED);
    Ok(())
}

// The scripts of five and of 32 philosophers, who each take the fork of their own number and the next one, the last of
// them the first, and eat once. Each takes the one of his own number first,
const FIVE: &str = "lockrun 1;[5 mutex f# c#;]\
    [4 thread p# 100;lock f#;lock f+;add f# 1 1;unlock f+;unlock f#;end;]\
    thread p4 100;lock f4;lock f0;add f4 1 1;unlock f0;unlock f4;end;done;";

const MANY: &str = "lockrun 1;[32 mutex f# c#;]\
    [31 thread p# 100;lock f#;lock f+;add f# 1 1;unlock f+;unlock f#;end;]\
    thread p31 100;lock f31;lock f0;add f31 1 1;unlock f0;unlock f31;end;done;";

// or, in order, the lesser one.
const FIVE_IN_ORDER: &str = "lockrun 1;[5 mutex f# c#;]\
    [4 thread p# 100;lock f#;lock f+;add f# 1 1;unlock f+;unlock f#;end;]\
    thread p4 100;lock f0;lock f4;add f4 1 1;unlock f4;unlock f0;end;done;";

const MANY_IN_ORDER: &str = "lockrun 1;[32 mutex f# c#;]\
    [31 thread p# 100;lock f#;lock f+;add f# 1 1;unlock f+;unlock f#;end;]\
    thread p31 100;lock f0;lock f31;add f31 1 1;unlock f31;unlock f0;end;done;";

// How many philosophers sit at each table and how many of them are refused, and how the run ends.
const TABLES: &[(&str, u32, u32, Status, &str)] = &[
    (FIVE, 5, 1, Reversed, "reversed"),
    (MANY, 32, 1, Reversed, "reversed"),
    (FIVE_IN_ORDER, 5, 0, Done, "ok"),
    (MANY_IN_ORDER, 32, 0, Done, "ok"),
];

// Each asks once for a second fork while he holds his first, and what takes have taught stays. So where each takes his
// own fork first, the last to ask would close the circle, whoever that is: he alone is refused, and the others eat. And
// where all take them in order, nobody is.
#[test]
fn one_philosopher_is_refused(rt: HostRuntime) -> Result<(), Fail> {
    for &(script, count, refused, status, last) in TABLES {
        let mut ends = Ends::new(rt.alloc(), "run", &[script])?;
        let ended = ends.lockrun(&rt, rt.alloc(), &OpenGate);
        let eaten = is_eaten(ends.text(), count, refused, last);
        check_row(script, ended == status && eaten)?;
    }
    Ok(())
}

// Whether so many of all philosophers were refused, and the others ate.
fn is_eaten(text: &str, count: u32, refused: u32, last: &str) -> bool {
    let (mut refusals, mut meals): (u32, u32) = (0, 0);
    for line in text.lines() {
        if line.contains(" reversed ") {
            refusals = refusals.saturating_add(1);
        }
        if line.starts_with("table ") {
            meals = meals.saturating_add(1);
        }
    }
    refusals == refused
        && meals.saturating_add(refusals) == count
        && text.lines().last() == Some(last)
}
