//! Bad days: each call of an end fails in turn, a script breaks off behind each of its lines, and one is as long as a
//! script may be. `docs/BAD_DAYS.md` has the whole table, with the days that are files of `example_rows`.
use crate::fixtures::{Ends, NEVER, check_row};
use complaints::Status;
use complaints::Status::{BadScript, Done, ReadFault, WriteFault};
use lock_io::OpenGate;
use std::alloc::{AllocError, Global};
use std::sync::Wait;
use std::test::Fail;
use std::thread::Threads;

// Q waits for the mutex that p has, and lends p its 50. The script has 128 bytes,
const LENDING: &str = "lockrun 1;mutex m a;\
    thread p 100;lock m;show;unlock m;end;thread q 50;lock m;add m 1 3;unlock m;end;\
    schedule p q q p p p q;done;";

// and its text 143.
const LENT: &str = "0 p lock m\n1 p show 100 50\n2 p unlock m\n3 q lock m\n4 q add m 1 3\n\
    5 q unlock m\nthread p base 100 eff 100\nthread q base 50 eff 50\ntable m 1 3\nok\n";

// What fails, and whether that is of the source; at how many calls it may; how the run ends then; and how many bytes
// each write in front of it brings out. The source has 20 calls of up to 7 bytes, the last of which finds its end, and
// the sink 18 of up to 8 and then its flush.
const FAULTS: &[(&str, bool, u32, Status, usize)] = &[
    ("a read", true, 20, ReadFault, 0),
    ("a write or the flush", false, 19, WriteFault, 8),
];

#[test]
fn each_call_of_an_end_fails(rt: HostRuntime) -> Result<(), Fail> {
    for &(what, reads, calls, status, each) in FAULTS {
        let mut held: usize = 0;
        for at in 0..calls {
            check_row(what, ends_so(&rt, rt.alloc(), reads, at, status, held)?)?;
            held = LENT.len().min(each.saturating_add(held));
        }
        // no call is left that could fail
        check_row(
            what,
            ends_so(&rt, rt.alloc(), reads, calls, Done, LENT.len())?,
        )?;
    }
    Ok(())
}

// Whether a run whose source, or whose sink, fails at that call ends so, with that many bytes of the text in the sink.
fn ends_so<R: Threads + Wait + Sync>(
    rt: &R,
    alloc: Global,
    reads: bool,
    at: u32,
    status: Status,
    held: usize,
) -> Result<bool, AllocError> {
    let (source_fails, sink_fails) = if reads { (at, NEVER) } else { (NEVER, at) };
    let (source, sink) = ((7, source_fails), (8, sink_fails));
    let mut ends = Ends::in_pieces(alloc, "step", &[LENDING], source, sink)?;
    let ended = ends.lockrun(rt, alloc, &OpenGate);
    let text = ends.text();
    Ok(ended == status && text.len() == held && LENT.starts_with(text))
}

// Three threads, each of which waits for the one in front of it: 22 lines.
const CHAIN: &str = "lockrun 1;mutex a ka;mutex b kb;\
    thread t1 200;lock a;show;show;show;unlock a;end;\
    thread t2 150;lock b;lock a;unlock a;unlock b;end;\
    thread t3 50;lock b;unlock b;end;\
    schedule t1 t2 t2 t2 t1 t3 t3 t1 t3 t3 t1;done;";

const LINES: usize = 22;

const CHAIN_IS: &str = "ok threads 3 locks 2 channels 0 classes 2 operations 11\n";

#[test]
fn a_script_is_cut(rt: HostRuntime) -> Result<(), Fail> {
    for lines in 0..=LINES {
        check_row("so many lines", is_cut_so(&rt, rt.alloc(), lines)?)?;
    }
    check_row("as many bytes as may be", is_longest_run(&rt, rt.alloc())?)
}

// Whether `check` says of so many lines of the chain that the next one is missing, or of all that they are a script.
fn is_cut_so<R: Threads + Wait + Sync>(
    rt: &R,
    alloc: Global,
    lines: usize,
) -> Result<bool, AllocError> {
    let script = first_of_chain(alloc, lines)?;
    let mut ends = Ends::new(alloc, "check", &[&script])?;
    let status = ends.lockrun(rt, alloc, &OpenGate);
    let (wanted, said) = cut_after(alloc, lines)?;
    Ok(status == wanted && ends.text() == said.as_str())
}

fn first_of_chain(alloc: Global, lines: usize) -> Result<String, AllocError> {
    let mut script = String::new(alloc);
    for line in CHAIN.split(';').take(lines) {
        script.push_str(line)?;
        script.push(';')?;
    }
    Ok(script)
}

// What `check` answers of so many lines of the chain.
fn cut_after(alloc: Global, lines: usize) -> Result<(Status, String), AllocError> {
    let next = lines.saturating_add(1);
    match lines {
        0 => Ok((BadScript, String::from_str(alloc, "line 1 code 1\n")?)),
        LINES => Ok((Done, String::from_str(alloc, CHAIN_IS)?)),
        _ => Ok((BadScript, format!(in alloc; "line {next} code 17\n")?)),
    }
}

// 68 bytes, and 262,127 comments of four.
const HEAD: &str = "lockrun 1;";

const COMMENT: &str = "###;";

const REST: &str = "mutex m a;thread t 100;lock m;set m 1 5;unlock m;end;done;";

const COMMENTS: usize = 262_127;

const DONE: &str =
    "0 t lock m\n1 t set m 1 5\n2 t unlock m\nthread t base 100 eff 100\ntable m 1 5\nok\n";

// Whether a script of 1,048,576 bytes runs as it does without its comments.
fn is_longest_run<R: Threads + Wait + Sync>(rt: &R, alloc: Global) -> Result<bool, AllocError> {
    let comments = COMMENT.repeat(alloc, COMMENTS)?;
    let bytes = HEAD.len() + REST.len() + comments.len();
    let (source, sink) = ((4096, NEVER), (4096, NEVER));
    let mut ends = Ends::in_pieces(alloc, "step", &[HEAD, &comments, REST], source, sink)?;
    let status = ends.lockrun(rt, alloc, &OpenGate);
    Ok(bytes == 1 << 20 && status == Done && ends.text() == DONE)
}
