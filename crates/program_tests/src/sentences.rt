//! What a program says on standard error: the sentence of each status.
use crate::briefs::is_joined;
use crate::fixtures::check_row;
use complaints::{Program, Status, complaint, fixed_complaint, say, speaker};
use lock_io::MemSink;
use std::alloc::{AllocError, Global};
use std::test::Fail;

const LOCKRUN: Program = Program {
    name: "lockrun",
    form: "lockrun check|step|run|ticks|profile [--chains N] [--turns N] < SCRIPT",
    too_long: "the turns were used up before all threads had ended",
};

const STUCK: &str = "0 t1 lock a
1 t2 lock b
queue a slot 0 head t2 free - excl t2@100 shared -
queue b slot 1 head t1 free - excl t1@100 shared -
thread t1 base 100 eff 100
thread t2 base 100 eff 100
stuck
";

const SLEEPERS: &str = "queue c slot 0 head a free d,b excl a@100,ab@70 shared b@50
thread b base 50 eff 50
thread d base 1 eff 1
thread ab base 70 eff 70
thread a base 100 eff 100
table a 0 0
stuck
";

// Threads ran: b ended, and the others were halted in their sleep.
const HALTED: &str = "0 b xlock s
1 c wait z
2 halted wait z
3 c halted z
4 a halted s
5 halted halted z
6 b xunlock s
thread a base 100 eff 100
thread b base 50 eff 50
thread c base 70 eff 70
thread halted base 1 eff 1
stuck
";

const REVERSED: &str = "0 p lock m
1 p reversed d kd
2 p unlock m
3 reversed lock m
4 reversed reversed d km
thread p base 100 eff 100
thread reversed base 100 eff 100
reversed
";

const SAID: &[(Status, &str, &str)] = &[
    (Status::Done, "ok\n", ""),
    (Status::Done, STUCK, ""),
    (
        Status::BadScript,
        "line 1 code 1\n",
        "lockrun: line 1: the first line isn't `lockrun 1`, or `ticks 1` under `ticks` (code 1)\n",
    ),
    (
        Status::BadScript,
        "line 5 code 11\n",
        "lockrun: line 5: the lock isn't held here (code 11)\n",
    ),
    (
        Status::BadScript,
        "line 4294967295 code 20\n",
        "lockrun: line 4294967295: the lock is held shared, so its table may not be changed (code 20)\n",
    ),
    (
        Status::BadScript,
        "line 5 code 21\n",
        "lockrun: the source is no script\n",
    ),
    (
        Status::BadScript,
        "line 5 code 267\n",
        "lockrun: the source is no script\n",
    ),
    (
        Status::BadScript,
        "line 5 code x\n",
        "lockrun: the source is no script\n",
    ),
    (
        Status::BadScript,
        "line 5\n",
        "lockrun: the source is no script\n",
    ),
    (Status::BadScript, "", "lockrun: the source is no script\n"),
    (
        Status::BadScript,
        "line 0 code 0\n",
        "lockrun: the source is no script\n",
    ),
    (
        Status::BadScript,
        "line 1 code 0\n",
        "lockrun: the source is no script\n",
    ),
    (
        Status::ReadFault,
        "",
        "lockrun: could not read standard input\n",
    ),
    (
        Status::WriteFault,
        "0 t1 lo",
        "lockrun: could not write standard output\n",
    ),
    (Status::NoMemory, "", "lockrun: out of memory\n"),
    (
        Status::Stuck,
        STUCK,
        "lockrun: stuck: t1 waits for b, t2 for a\n",
    ),
    (
        Status::Stuck,
        SLEEPERS,
        "lockrun: stuck: b waits for c, ab for c, a for c\n",
    ),
    (
        Status::Stuck,
        HALTED,
        "lockrun: stuck: a was halted on s, c on z, halted on z\n",
    ),
    (
        Status::Stuck,
        "lock halted class k holds 1 total 1 longest 1 together 1 busy 0 waits 0 halted 0\n\
        order k halted 1\nstuck\n",
        "lockrun: stuck\n",
    ),
    (Status::Stuck, "stuck\n", "lockrun: stuck\n"),
    (Status::Stuck, "", "lockrun: stuck\n"),
    (
        Status::Reversed,
        REVERSED,
        "lockrun: reversed: p may not take d under class kd, reversed may not take d under class km\n",
    ),
    (Status::Reversed, "reversed\n", "lockrun: reversed\n"),
    (
        Status::Reversed,
        "lock reversed class k holds 1 total 1 longest 1 together 1 busy 0 waits 0 halted 0\n\
        order k reversed 1\nreversed\n",
        "lockrun: reversed\n",
    ),
    (
        Status::Reversed,
        "1 p reversed d kd",
        "lockrun: reversed: p may not take d under class kd\n",
    ),
    (
        Status::TooLong,
        "toolong\n",
        "lockrun: the turns were used up before all threads had ended\n",
    ),
    (
        Status::TooBig,
        "",
        "lockrun: the source has more than 1,048,576 bytes\n",
    ),
    (
        Status::Usage,
        "",
        "usage: lockrun check|step|run|ticks|profile [--chains N] [--turns N] < SCRIPT\n",
    ),
    (
        Status::Usage,
        STUCK,
        "usage: lockrun check|step|run|ticks|profile [--chains N] [--turns N] < SCRIPT\n",
    ),
];

#[test]
fn sentences(rt: HostRuntime) -> Result<(), Fail> {
    for &(status, text, line) in SAID {
        check_row(line, is_said(rt.alloc(), status, text, line)?)?;
    }
    Ok(())
}

// Whether a line is what belongs to a status and a text, alone and on a stream.
fn is_said(alloc: Global, status: Status, text: &str, line: &str) -> Result<bool, AllocError> {
    let belongs = is_complaint(alloc, status, text, line)?;
    let heard = is_heard(alloc, status, text, line)?;
    Ok(belongs && heard && is_as_fixed(status, line))
}

fn is_complaint(alloc: Global, status: Status, text: &str, line: &str) -> Result<bool, AllocError> {
    let said = complaint(alloc, LOCKRUN, status, text.as_bytes())?;
    Ok(said.as_slice() == line.as_bytes())
}

// Whether just the line is heard on a stream that takes a few bytes at a time.
fn is_heard(alloc: Global, status: Status, text: &str, line: &str) -> Result<bool, AllocError> {
    let mut out = MemSink::new(alloc, 1000, 7, Vec::new(alloc))?;
    let said = say(alloc, &mut out, LOCKRUN, status, text.as_bytes());
    Ok(said == Ok(()) && out.bytes() == line.as_bytes())
}

// Whether the line is who speaks, a colon and the sentence, where a status has always the same one.
fn is_as_fixed(status: Status, line: &str) -> bool {
    match fixed_complaint(LOCKRUN, status) {
        Some(fixed) => {
            let speaker = speaker(LOCKRUN, status);
            is_joined(line.as_bytes(), &[speaker, ": ", fixed, "\n"])
        }
        None => true,
    }
}
