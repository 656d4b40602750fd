//! `lockrun check|step|run|ticks|profile [--chains N] [--turns N]` reads a script from standard input, counts what it
//! has, makes its scheduled run, runs its threads or runs its ticks, and writes the text to standard output. The exit
//! code is the status, and where there is something to say, standard error gets one sentence, and lines below it that
//! say more. What it does, and what is promised of it, stands in the library `lock_top`, the sentence in `complaints`,
//! and those lines in `remarks`; here the words and the streams are picked up.
#![tactic(auto)]

use command_line::{HELP, mistake, no_text};
use lock_io::{OpenGate, Sink, StdSink, StdSource};
use lock_top::{LOCKRUN, Served, Status, lockrun_served};
use remarks::{Wrong, tell_end};
use std::io;
use std::process::ExitCode;
use std::sync::Wait;
use std::thread::Threads;
use top_ends::given_words;

fn main(rt: HostRuntime) -> ExitCode {
    let alloc = rt.alloc();
    let mut out = StdSink::new(rt.stderr());
    let status = match given_words(&rt) {
        Ok(words) => run(&rt, &words, &mut out),
        Err(status) => {
            let wrong = Wrong {
                mistake: no_text(alloc),
                help: HELP,
            };
            let _ = tell_end(alloc, &mut out, LOCKRUN, status, wrong, None, b"");
            status
        }
    };
    ExitCode::from(status as u8)
}

// Does what the words ask for, and says what there is to say of it. Nobody may listen there, which changes nothing.
fn run<R: AllocGlobal + Input + Print + Threads + Wait + Sync, K: Sink>(
    rt: &R,
    words: &[String],
    out: &mut K,
) -> Status {
    let alloc = rt.alloc();
    let served = serve(rt, words);
    let wrong = Wrong {
        mistake: mistake(alloc, words),
        help: HELP,
    };
    let (source, text) = (served.source.as_deref(), &served.text);
    let _ = tell_end(alloc, out, LOCKRUN, served.status, wrong, source, text);
    served.status
}

// What the words ask for, of standard input and to standard output.
fn serve<R: AllocGlobal + Input + Print + Threads + Wait + Sync>(
    rt: &R,
    words: &[String],
) -> Served {
    let mut source = StdSource::new(rt.reader());
    let mut sink = StdSink::new(io::writer(rt));
    lockrun_served(rt, rt.alloc(), words, &mut source, &mut sink, &OpenGate)
}
