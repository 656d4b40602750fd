//! `lockplan --by priority [--without-loans]` or `lockplan --by chance SEED` reads a script from standard input, and
//! writes it to standard output with a schedule that the policy made. The exit code is the status, and where there is
//! something to say, standard error gets one sentence, and lines below it that say more. What it does, and what is
//! promised of it, stands in the library `plan_top`, the sentence in `complaints`, and those lines in `remarks`; here
//! the words and the streams are picked up.
#![tactic(auto)]

use lock_io::{Sink, Source, StdSink, StdSource};
use plan_command::{HELP, mistake, no_text};
use plan_top::{LOCKPLAN, Status, lockplan};
use remarks::{CopiedSource, Wrong, tell_end};
use std::io;
use std::process::ExitCode;
use top_ends::{Ended, given_words};

fn main(rt: HostRuntime) -> ExitCode {
    let alloc = rt.alloc();
    let mut out = StdSink::new(rt.stderr());
    let status = match given_words(&rt) {
        Ok(words) => run(&rt, &words, &mut out),
        Err(status) => {
            let wrong = Wrong {
                mistake: no_text(alloc),
                help: HELP,
            };
            let _ = tell_end(alloc, &mut out, LOCKPLAN, status, wrong, None, b"");
            status
        }
    };
    ExitCode::from(status as u8)
}

// Does what the words ask for, and says what there is to say of it. Nobody may listen there, which changes nothing.
fn run<R: AllocGlobal + Input + Print, K: Sink>(rt: &R, words: &[String], out: &mut K) -> Status {
    let alloc = rt.alloc();
    let mut source = CopiedSource::new(alloc, StdSource::new(rt.reader()));
    let ended = plan(rt, words, &mut source);
    let wrong = Wrong {
        mistake: mistake(alloc, words),
        help: HELP,
    };
    let (read, fault) = (source.copy(), &ended.fault);
    let _ = tell_end(alloc, out, LOCKPLAN, ended.status, wrong, read, fault);
    ended.status
}

// What the words ask for, to standard output.
fn plan<R: AllocGlobal + Print, S: Source>(rt: &R, words: &[String], source: &mut S) -> Ended {
    let mut sink = StdSink::new(io::writer(rt));
    lockplan(rt.alloc(), words, source, &mut sink)
}
