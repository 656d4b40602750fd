//! The plan of a script, and its canonical text.
use crate::briefs::{bytes_of, plan_of};
use crate::fixtures::check_row;
use lock_model::{ChanNo, ClassNo, Kind, LockNo, Mode, Op, Plan, Prio, ThreadNo};
use script_read::write_script;
use std::alloc::Global;
use std::test::Fail;

const M: LockNo = LockNo(0);

const N: LockNo = LockNo(1);

const D: LockNo = LockNo(2);

const E: LockNo = LockNo(3);

const S: LockNo = LockNo(4);

const V: ChanNo = ChanNo(0);

const Z: ChanNo = ChanNo(1);

const W: ChanNo = ChanNo(2);

const X: Mode = Mode::Excl;

const R: Mode = Mode::Shared;

// Lines of a thread, with two mutexes, two reader-writer locks, an sx lock, a condition variable of m, and a channel
// and a condition variable of s; and its operations.
const OPERATIONS: &[(&str, &[Op])] = &[
    (
        "lock m;set m 1 5;add m 2 6;get m 1;unlock m;prio 7;show;",
        &[
            Op::Take { l: M, mode: X },
            Op::Set {
                l: M,
                key: 1,
                value: 5,
            },
            Op::Add {
                l: M,
                key: 2,
                amount: 6,
            },
            Op::Get { l: M, key: 1 },
            Op::Release { l: M },
            Op::Base { prio: Prio(7) },
            Op::Show,
        ],
    ),
    (
        "trylock m;unlock m;endtry;",
        &[
            Op::Try {
                l: M,
                mode: X,
                past: 3,
            },
            Op::Release { l: M },
            Op::EndTry,
        ],
    ),
    (
        "trylock m;tryrlock d;get d 1;runlock d;endtry;unlock m;trywlock e;wunlock e;endtry;endtry;show;",
        &[
            Op::Try {
                l: M,
                mode: X,
                past: 10,
            },
            Op::Try {
                l: D,
                mode: R,
                past: 5,
            },
            Op::Get { l: D, key: 1 },
            Op::Release { l: D },
            Op::EndTry,
            Op::Release { l: M },
            Op::Try {
                l: E,
                mode: X,
                past: 9,
            },
            Op::Release { l: E },
            Op::EndTry,
            Op::EndTry,
            Op::Show,
        ],
    ),
    (
        "rlock d;wlock e;trylock n;wunlock e;unlock n;wlock e;endtry;runlock d;wunlock e;",
        &[
            Op::Take { l: D, mode: R },
            Op::Take { l: E, mode: X },
            Op::Try {
                l: N,
                mode: X,
                past: 7,
            },
            Op::Release { l: E },
            Op::Release { l: N },
            Op::Take { l: E, mode: X },
            Op::EndTry,
            Op::Release { l: D },
            Op::Release { l: E },
        ],
    ),
    (
        "slock s;lock m;wakeup z;unlock m;msleep z;sunlock s;xlock s;wait w;xunlock s;lock m;wait v;signal v;broadcast w;unlock m;",
        &[
            Op::Take { l: S, mode: R },
            Op::Take { l: M, mode: X },
            Op::WakeAll { c: Z },
            Op::Release { l: M },
            Op::Sleep { c: Z },
            Op::Release { l: S },
            Op::Take { l: S, mode: X },
            Op::Sleep { c: W },
            Op::Release { l: S },
            Op::Take { l: M, mode: X },
            Op::Sleep { c: V },
            Op::WakeOne { c: V },
            Op::WakeAll { c: W },
            Op::Release { l: M },
        ],
    ),
    (
        "tryslock s;wakeup_one z;sunlock s;endtry;tryxlock s;xunlock s;endtry;",
        &[
            Op::Try {
                l: S,
                mode: R,
                past: 4,
            },
            Op::WakeOne { c: Z },
            Op::Release { l: S },
            Op::EndTry,
            Op::Try {
                l: S,
                mode: X,
                past: 7,
            },
            Op::Release { l: S },
            Op::EndTry,
        ],
    ),
];

#[test]
fn the_operations_of_a_thread(rt: HostRuntime) -> Result<(), Fail> {
    for (lines, operations) in OPERATIONS {
        check_row(lines, are_operations(rt.alloc(), lines, operations)?)?;
    }
    Ok(())
}

// What stands before those lines, and behind them.
const HEAD: &str =
    "lockrun 1;mutex m a;mutex n b;rw d c;rw e c;sx s d;cond v m;chan z s;cond w s;thread t 1;";

const TAIL: &str = "end;done;";

fn are_operations(alloc: Global, lines: &str, operations: &[Op]) -> Result<bool, Fail> {
    let plan = plan_of(alloc, &[HEAD, lines, TAIL])?;
    Ok(plan.operations_of(ThreadNo(0)) == operations)
}

fn declares(alloc: Global) -> Result<bool, Fail> {
    let plan = plan_of(alloc, &[DECLARING])?;
    Ok(is_declared(&plan))
}

const DECLARING: &str = "lockrun 1;mutex m a;rw d b;sx s a;cond v m;chan z s;\
    thread t 100;end;thread u 0;end;schedule u t;schedule u;done;";

// Whether a plan has the kinds and classes of the locks m, d and s, the sorts and locks of the channels v and z, the
// priorities of the threads t and u, and the schedule, as that script declares them.
fn is_declared(plan: &Plan) -> bool {
    let ([m, d, s], [v, z], [t, u], [first, second, third]) = (
        plan.locks.as_slice(),
        plan.chans.as_slice(),
        plan.threads.as_slice(),
        plan.schedule.as_slice(),
    ) else {
        return false;
    };
    (m.kind, d.kind, s.kind) == (Kind::Mtx, Kind::Rw, Kind::Sx)
        && (m.class, d.class, s.class) == (ClassNo(0), ClassNo(1), ClassNo(0))
        && (v.cond, v.lock, z.cond, z.lock) == (true, LockNo(0), false, LockNo(2))
        && (t.base, u.base) == (Prio(100), Prio(0))
        && (*first, *second, *third) == (ThreadNo(1), ThreadNo(0), ThreadNo(1))
        && plan.classes.as_slice().len() == 2
}

#[test]
fn what_a_script_declares(rt: HostRuntime) -> Result<(), Fail> {
    assert!(rt; declares(rt.alloc())?);
    Ok(())
}

// A script, and the canonical text of its plan.
const TEXTS: &[(&str, &str)] = &[
    ("lockrun 1;done;", "lockrun 1;done;"),
    (
        "lockrun 1;# one lock;mutex m k;;thread t 7;end;schedule t;schedule t;done;",
        "lockrun 1;mutex m k;thread t 7;end;schedule t t;done;",
    ),
    // no line end behind the last line, and classes that aren't called in their order
    (
        "lockrun 1;rw b z;rw c y;mutex a z;done",
        "lockrun 1;rw b z;rw c y;mutex a z;done;",
    ),
    // each form of line, and eleven names
    (
        "lockrun 1;mutex m a;rw d b;cond v m;sx s a;chan h d;thread t 7;lock m;set m 1 5;add m 0 18446744073709551615;get m 1;wait v;signal v;broadcast v;unlock m;rlock d;runlock d;wlock d;msleep h;wakeup_one h;wakeup h;wunlock d;slock s;sunlock s;xlock s;trylock m;tryrlock d;get d 9;runlock d;endtry;unlock m;trywlock d;wunlock d;endtry;endtry;xunlock s;tryslock s;sunlock s;endtry;tryxlock s;xunlock s;endtry;prio 255;show;end;schedule t;thread u 0;end;schedule u t u;schedule t t t t t t t;done;# the end;",
        "lockrun 1;mutex m a;rw d b;sx s a;cond v m;chan h d;thread t 7;lock m;set m 1 5;add m 0 18446744073709551615;get m 1;wait v;signal v;broadcast v;unlock m;rlock d;runlock d;wlock d;msleep h;wakeup_one h;wakeup h;wunlock d;slock s;sunlock s;xlock s;trylock m;tryrlock d;get d 9;runlock d;endtry;unlock m;trywlock d;wunlock d;endtry;endtry;xunlock s;tryslock s;sunlock s;endtry;tryxlock s;xunlock s;endtry;prio 255;show;end;thread u 0;end;schedule t u t u t t t t t t;schedule t;done;",
    ),
    (
        "lockrun 1;thread t 1;end;[10 schedule t;]done;",
        "lockrun 1;thread t 1;end;schedule[10  t];done;",
    ),
    (
        "lockrun 1;thread t 1;end;[20 schedule t;]done;",
        "lockrun 1;thread t 1;end;[2 schedule t t t t t t t t t t;]done;",
    ),
];

// The canonical text is a script of the same text again.
#[test]
fn the_canonical_text_of_a_plan(rt: HostRuntime) -> Result<(), Fail> {
    for (script, canonical) in TEXTS {
        check_row(script, is_canonical_of(rt.alloc(), canonical, script)?)?;
        check_row(
            canonical,
            is_canonical_of(rt.alloc(), canonical, canonical)?,
        )?;
    }
    Ok(())
}

// Whether that is the canonical text of the plan of a script.
fn is_canonical_of(alloc: Global, canonical: &str, script: &str) -> Result<bool, Fail> {
    let wanted = bytes_of(alloc, &[canonical])?;
    let plan = plan_of(alloc, &[script])?;
    is_written(alloc, &plan, &wanted)
}

fn is_written(alloc: Global, plan: &Plan, wanted: &[u8]) -> Result<bool, Fail> {
    let written = write_script(alloc, plan)?;
    Ok(written.as_slice() == wanted)
}
