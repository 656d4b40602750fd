//! Threads that sleep, under `run`: one that is woken goes on; and where each has ended or sleeps, those that sleep are
//! halted, and the run is stuck. A gate holds one thread, where without it the order of the threads would be open.
ghost use Rattle.lock_model.specs.Operations.{IsProper};

use crate::briefs::plan_of;
use crate::fixtures::{Ends, FIRST, check_row, outcome_of};
use crate::gates::Holding;
use complaints::Status::{Done, Stuck};
use lock_history::Last;
use lock_io::{Gate, OpenGate};
use lock_model::Plan;
use std::alloc::{AllocError, Global};
use std::sync::Wait;
use std::test::Fail;
use std::thread::Threads;

// A thread waits, and nobody signals.
const NOBODY_SIGNALS: &str =
    "lockrun 1;mutex m k;cond c m;thread a 100;lock m;wait c;unlock m;end;done;";

const HALTED: &str =
    "0 a lock m\n1 a wait c\n2 a halted c\n3 a unlock m\nthread a base 100 eff 100\nstuck\n";

// A signal is lost that came before the sleep: a thread alone makes both.
const ITS_OWN_SIGNAL: &str =
    "lockrun 1;mutex m k;cond c m;thread t 100;signal c;lock m;wait c;unlock m;end;done;";

const UNWOKEN: &str = "0 t signal c -\n1 t lock m\n2 t wait c\n3 t halted c\n4 t unlock m\n\
    thread t base 100 eff 100\nstuck\n";

#[test]
fn a_thread_alone_is_halted(rt: HostRuntime) -> Result<(), Fail> {
    for &(script, text) in &[(NOBODY_SIGNALS, HALTED), (ITS_OWN_SIGNAL, UNWOKEN)] {
        check_row(script, is_stuck_so(&rt, rt.alloc(), script, text)?)?;
    }
    Ok(())
}

fn is_stuck_so<R: Threads + Wait + Sync>(
    rt: &R,
    alloc: Global,
    script: &str,
    wanted: &str,
) -> Result<bool, Fail> {
    let mut ends = Ends::new(alloc, "run", &[script])?;
    let status = ends.lockrun(rt, alloc, &OpenGate);
    Ok(status == Stuck && status as u8 == 5 && ends.text() == wanted)
}

// What is left of a floor tells that the halt word was set, and is the one that the run made.
#[test]
fn a_closing_tells_of_a_halt(rt: HostRuntime) -> Result<(), Fail> {
    let stuck = ending(&rt, rt.alloc(), NOBODY_SIGNALS)?;
    assert!(rt; stuck == (Last::Stuck, true));
    let done = ending(&rt, rt.alloc(), FIRST)?;
    assert!(rt; done == (Last::Done, false));
    Ok(())
}

// How a run ends, and whether somebody was halted.
fn ending<R: Threads + Wait + Sync>(
    rt: &R,
    alloc: Global,
    script: &str,
) -> Result<(Last, bool), Fail> {
    let plan = plan_of(alloc, &[script])?;
    ending_of(rt, alloc, &plan)
}

fn ending_of<R: Threads + Wait + Sync>(
    rt: &R,
    alloc: Global,
    plan: &Plan,
) -> Result<(Last, bool), Fail>
    requires { IsProper plan.now }
{
    let (outcome, halted) = outcome_of(rt, alloc, plan, &OpenGate)?;
    Ok((outcome.last, halted))
}

// A sleeps with s held. B waits for s, or had it before.
const TWO_QUEUES: &str = "lockrun 1;mutex m k;sx s j;cond c m;\
    thread a 100;xlock s;lock m;wait c;unlock m;xunlock s;end;\
    thread b 50;xlock s;xunlock s;end;done;";

const A_HALTED: (&str, &str) = ("a", "xlock s,lock m,wait c,halted c,unlock m,xunlock s,");

const A_WAITED: &str = "lock m,wait c,halted c,unlock m,";

// A's wait gives m up, for which b sleeps: a has it for long enough.
const WAIT_GIVES_UP: &str = "lockrun 1;mutex m k;cond c m;\
    thread a 100;lock m;[1000 show;]wait c;unlock m;end;thread b 100;lock m;unlock m;end;done;";

// A waits, and b ends long behind that: its end leaves nobody awake.
const LAST_ENDS: &str = "lockrun 1;mutex m k;cond c m;\
    thread a 100;lock m;wait c;unlock m;end;thread b 100;lock m;unlock m;[200 show;]end;done;";

// B wakes a, and then sleeps with s held, which a takes back. Nobody wakes b. A thread that was woken looks for its
// lock 100 times before it sleeps: so in nearly each run it is a's sleep that leaves nobody awake.
const LAST_TAKES_BACK: &str = "lockrun 1;sx s j;mutex m k;chan z s;cond c m;\
    thread a 100;xlock s;msleep z;xunlock s;end;\
    thread b 100;xlock s;wakeup z;lock m;wait c;unlock m;xunlock s;end;done;";

const TAKEN_BACK: Says = &[
    ("a", "xlock s,msleep z,woke z,xunlock s,"),
    (
        "b",
        "xlock s,wakeup z a,lock m,wait c,halted c,unlock m,xunlock s,",
    ),
];

// Threads, and what each says.
type Says = &'static [(&'static str, &'static str)];

// Which of two threads is held until the other has come to its operation of that place, or that neither is.
const NEITHER: u8 = 2;

const STUCK_RUNS: &[(&str, u8, u32, Says)] = &[
    (TWO_QUEUES, 1, 2, &[A_HALTED, ("b", "halted s,")]),
    (TWO_QUEUES, 0, 1, &[A_HALTED, ("b", "xlock s,xunlock s,")]),
    (TWO_QUEUES, NEITHER, 0, &[A_HALTED]),
    (WAIT_GIVES_UP, 1, 1, &[("b", "lock m,unlock m,")]),
    (LAST_ENDS, 1, 1, &[("a", A_WAITED)]),
    (LAST_TAKES_BACK, 1, 1, TAKEN_BACK),
];

// Who comes to a sleep last is a race: so each is made twenty times.
#[test]
fn stuck_in_every_order(rt: HostRuntime) -> Result<(), Fail> {
    for row in STUCK_RUNS {
        for _ in 0..20 {
            check_row(row.0, is_stuck_run(&rt, rt.alloc(), row)?)?;
        }
    }
    Ok(())
}

fn is_stuck_run<R: Threads + Wait + Sync>(
    rt: &R,
    alloc: Global,
    row: &(&str, u8, u32, Says),
) -> Result<bool, Fail> {
    let (script, held, until, says) = *row;
    let gate = Holding::new(held, 1, until);
    Ok(is_stuck(rt, alloc, script, &gate, says)? && !gate.missed())
}

// Whether a run gets stuck, and these threads say that.
fn is_stuck<R: Threads + Wait + Sync, G: Gate>(
    rt: &R,
    alloc: Global,
    script: &str,
    gate: &G,
    threads: &[(&str, &str)],
) -> Result<bool, Fail> {
    let mut ends = Ends::new(alloc, "run", &[script])?;
    let status = ends.lockrun(rt, alloc, gate);
    Ok(status == Stuck && is_stuck_text(ends.text(), threads))
}

fn is_stuck_text(text: &str, threads: &[(&str, &str)]) -> bool {
    ends_with(text, "stuck") && all_say(text, threads)
}

fn ends_with(text: &str, last: &str) -> bool {
    text.lines().last() == Some(last)
}

fn all_say(text: &str, threads: &[(&str, &str)]) -> bool {
    for (name, words) in threads {
        if !says(text, name, words) {
            return false;
        }
    }
    true
}

// 32 threads wait, and nobody wakes them.
const ALL_WAIT: &str = "lockrun 1;mutex m k;cond c m;\
    [32 thread t# 100;lock m;wait c;unlock m;end;]done;";

#[test]
fn all_are_halted(rt: HostRuntime) -> Result<(), Fail> {
    let mut ends = Ends::new(rt.alloc(), "run", &[ALL_WAIT])?;
    let status = ends.lockrun(&rt, rt.alloc(), &OpenGate);
    assert!(rt; status == Stuck && is_halted(rt.alloc(), ends.text())?);
    Ok(())
}

fn is_halted(alloc: Global, text: &str) -> Result<bool, AllocError> {
    let each = each_says(alloc, text, 32, "lock m,wait c,halted c,unlock m,")?;
    Ok(each && ends_with(text, "stuck") && count_entries(text) == 128)
}

// 31 threads wait, and the last wakes them, by a broadcast or one by one. It begins once each of the others has come to
// its wait: so they have given m back and sleep, or the last of them has m still, and the waker takes m behind it.
const WAKERS: &[&str] = &[
    "lockrun 1;mutex m k;cond c m;[31 thread t# 100;lock m;wait c;unlock m;end;]\
        thread w 100;lock m;broadcast c;unlock m;end;done;",
    "lockrun 1;mutex m k;cond c m;[31 thread t# 100;lock m;wait c;unlock m;end;]\
        thread w 100;lock m;[31 signal c;]unlock m;end;done;",
];

#[test]
fn one_wakes_all_others(rt: HostRuntime) -> Result<(), Fail> {
    for script in WAKERS {
        let gate = Holding::new(31, 31, 1);
        let woken = all_are_woken(&rt, rt.alloc(), script, &gate)?;
        check_row(script, woken && !gate.missed())?;
    }
    Ok(())
}

fn all_are_woken<R: Threads + Wait + Sync>(
    rt: &R,
    alloc: Global,
    script: &str,
    gate: &Holding,
) -> Result<bool, Fail> {
    let mut ends = Ends::new(alloc, "run", &[script])?;
    let status = ends.lockrun(rt, alloc, gate);
    Ok(status == Done && are_woken(alloc, ends.text())?)
}

fn are_woken(alloc: Global, text: &str) -> Result<bool, AllocError> {
    let each = each_says(alloc, text, 31, "lock m,wait c,woke c,unlock m,")?;
    Ok(each && ends_with(text, "ok"))
}

// Whether so many threads, t0 and so on, say that.
fn each_says(alloc: Global, text: &str, count: u32, words: &str) -> Result<bool, AllocError> {
    for k in 0..count {
        let name = format!(in alloc; "t{k}")?;
        if !says(text, &name, words) {
            return Ok(false);
        }
    }
    Ok(true)
}

// The signal comes before the sleep: the consumer begins once the producer has come to what is behind it.
const LOST: &str = "lockrun 1;mutex m k;cond ready m;\
    thread producer 100;lock m;set m 1 7;unlock m;signal ready;show;end;\
    thread consumer 100;lock m;wait ready;get m 1;unlock m;end;done;";

const LOST_SAYS: &[(&str, &str)] = &[
    (
        "producer",
        "lock m,set m 1 7,unlock m,signal ready -,show 100 100,",
    ),
    ("consumer", "lock m,wait ready,halted ready,unlock m,"),
];

#[test]
fn a_lost_signal_halts(rt: HostRuntime) -> Result<(), Fail> {
    let gate = Holding::new(1, 1, 4);
    assert!(rt; is_stuck(&rt, rt.alloc(), LOST, &gate, LOST_SAYS)?);
    assert!(rt; !gate.missed());
    Ok(())
}

// The producer begins once the consumer has come to its sleep, and takes s behind it. So each entry has its place: the
// consumer has s back once the producer gave it up.
const PRODUCER: &str = "lockrun 1;sx s ks;chan items s;\
    thread consumer 100;xlock s;msleep items;get s 1;xunlock s;end;\
    thread producer 120;xlock s;add s 1 7;wakeup_one items;add s 2 1;xunlock s;end;done;";

const CONSUMED: &str = "0 consumer xlock s\n1 consumer msleep items\n2 producer xlock s\n\
    3 producer add s 1 7\n4 producer wakeup_one items consumer\n5 producer add s 2 1\n\
    6 producer xunlock s\n7 consumer woke items\n8 consumer get s 1 7\n9 consumer xunlock s\n\
    thread consumer base 100 eff 100\nthread producer base 120 eff 120\n\
    table s 1 7\ntable s 2 1\nok\n";

#[test]
fn a_producer_wakes_a_consumer(rt: HostRuntime) -> Result<(), Fail> {
    let gate = Holding::new(1, 1, 1);
    let mut ends = Ends::new(rt.alloc(), "run", &[PRODUCER])?;
    let status = ends.lockrun(&rt, rt.alloc(), &gate);
    assert!(rt; status == Done && ends.text() == CONSUMED);
    assert!(rt; !gate.missed());
    Ok(())
}

// Whether that is what a thread's entries say, in their order, a comma behind each.
fn says(text: &str, name: &str, words: &str) -> bool {
    let mut left = words.as_bytes();
    for line in text.lines() {
        if let Some(said) = said_by(line, name) {
            match behind(left, said) {
                Some(rest) => left = rest,
                None => return false,
            }
        }
    }
    left.is_empty()
}

// What an entry says, where it is that thread's.
fn said_by<'a>(line: &'a str, name: &str) -> Option<&'a str> {
    let (ticket, rest) = line.split_once(' ')?;
    let (who, said) = rest.split_once(' ')?;
    if is_number(ticket) && who == name {
        Some(said)
    } else {
        None
    }
}

// What stands behind those words and a comma.
fn behind<'a>(left: &'a [u8], said: &str) -> Option<&'a [u8]> {
    left.strip_prefix(said.as_bytes())?.strip_prefix(b",")
}

fn count_entries(text: &str) -> u32 {
    let mut entries: u32 = 0;
    for line in text.lines() {
        if let Some((ticket, _)) = line.split_once(' ')
            && is_number(ticket)
        {
            entries = entries.saturating_add(1);
        }
    }
    entries
}

fn is_number(word: &str) -> bool {
    word.bytes().all(|b| b.is_ascii_digit())
}
