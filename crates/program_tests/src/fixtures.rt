//! Calls of programs, with their ends in memory, runs of plans, and the scripts that several subjects run.
ghost use Rattle.std.specs.Prelude.{◌≤◌};
ghost use Rattle.lock_model.specs.Operations.{IsProper};

use crate::briefs::{bytes_of, words_of};
use complaints::Status;
use floor_run::run_plan;
use lock_history::Outcome;
use lock_io::{Gate, MemSink, MemSource};
use lock_model::Plan;
use lock_top::lockrun;
use std::alloc::{AllocError, Global};
use std::str;
use std::sync::Wait;
use std::test::Fail;
use std::thread::Threads;

/// Fails where a row doesn't hold, and names it.
pub(crate) fn check_row(row: &str, holds: bool) -> Result<(), Fail> {
    if holds { Ok(()) } else { Err(Fail::new(row)) }
}

/// A call of a program: the words and the script, and at which call, from 0, the source and the sink fail. And what it
/// is to give: the status and the text.
pub(crate) type Case = (&'static str, &'static str, u32, u32, Status, &'static str);

/// No end is called that often.
pub(crate) const NEVER: u32 = 1_000_000;

/// What a program is called with.
pub(crate) struct Ends {
    pub(crate) words: Vec<String>,
    pub(crate) source: MemSource,
    pub(crate) sink: MemSink,
}

impl Drop for Ends {
    fn drop(self) {
        let Ends {
            words: _,
            source: _,
            sink: _,
        } = self;
    }
}

impl Ends {
    /// The words of a line, a script as the source, and an empty sink. Of each end: how many bytes it moves a call, and
    /// at which call it fails.
    pub(crate) fn in_pieces(
        alloc: Global,
        line: &str,
        script: &[&str],
        reads: (usize, u32),
        writes: (usize, u32),
    ) -> Result<Ends, AllocError>
        requires reads { 1 ≤ reads.0 }
        requires writes { 1 ≤ writes.0 }
    {
        let words = words_of(alloc, line)?;
        let source = source(alloc, script, reads.0, reads.1)?;
        let sink = sink(alloc, 2_000_000, writes.0, writes.1)?;
        Ok(Ends {
            words,
            source,
            sink,
        })
    }

    /// The same, of ends that move 4 bytes a call.
    pub(crate) fn failing(
        alloc: Global,
        line: &str,
        script: &[&str],
        source_fails: u32,
        sink_fails: u32,
    ) -> Result<Ends, AllocError> {
        Ends::in_pieces(alloc, line, script, (4, source_fails), (4, sink_fails))
    }

    /// The same, of ends that never fail.
    pub(crate) fn new(alloc: Global, line: &str, script: &[&str]) -> Result<Ends, AllocError> {
        Ends::failing(alloc, line, script, NEVER, NEVER)
    }

    /// The text that the sink holds; where its bytes aren't UTF-8, one that nobody wants.
    pub(crate) fn text(&self) -> &str {
        str::from_utf8(self.sink.bytes()).unwrap_or("no UTF-8")
    }

    /// Calls `lockrun`.
    pub(crate) fn lockrun<R: Threads + Wait + Sync, G: Gate>(
        &mut self,
        rt: &R,
        alloc: Global,
        gate: &G,
    ) -> Status {
        lockrun(
            rt,
            alloc,
            &self.words,
            &mut self.source,
            &mut self.sink,
            gate,
        )
    }
}

fn source(alloc: Global, script: &[&str], piece: usize, fails: u32) -> Result<MemSource, AllocError>
    requires { 1 ≤ piece }
{
    let bytes = bytes_of(alloc, script)?;
    Ok(MemSource::new(bytes, piece, vec![in alloc; fails]?))
}

/// An empty sink that has room for so many bytes. It takes as many as a piece has a call, and fails at this one.
pub(crate) fn sink(
    alloc: Global,
    room: usize,
    piece: usize,
    fails: u32,
) -> Result<MemSink, AllocError>
    requires { 1 ≤ piece }
{
    MemSink::new(alloc, room, piece, vec![in alloc; fails]?)
}

/// The outcome of a run of a plan's threads, and whether somebody was halted.
pub(crate) fn outcome_of<R: Threads + Wait + Sync, G: Gate>(
    rt: &R,
    alloc: Global,
    plan: &Plan,
    gate: &G,
) -> Result<(Outcome, bool), AllocError>
    requires { IsProper plan.now }
{
    let (outcome, closing) = run_plan(rt, alloc, plan, 1, gate)?;
    Ok((outcome, closing.halted()))
}

/// One thread that takes a mutex, sets a key of it, and releases it.
pub(crate) const FIRST: &str =
    "lockrun 1;mutex m a;thread t 100;lock m;set m 1 5;unlock m;end;done;";

/// As many bytes `a` as a source may have, and one more.
pub(crate) const MOST: &str =
    "[16384 aaaaaaaaaaaaaaaaaaaaaaaaaaaaaaaaaaaaaaaaaaaaaaaaaaaaaaaaaaaaaaaa]";

pub(crate) const TOO_MANY: &str =
    "[16384 aaaaaaaaaaaaaaaaaaaaaaaaaaaaaaaaaaaaaaaaaaaaaaaaaaaaaaaaaaaaaaaa]a";

/// Two threads that take two mutexes in either order: the second is refused, and gives back what it holds.
pub(crate) const REVERSED: &str = "lockrun 1;mutex a ka;mutex b kb;\
    thread t1 100;lock a;lock b;unlock b;unlock a;end;\
    thread t2 100;lock b;lock a;unlock a;unlock b;end;done;";

// Each of two threads locks and unlocks a mutex of its own.
const APART: &str = "lockrun 1;mutex m k;mutex n k;\
    thread t 100;lock m;unlock m;end;thread u 100;lock n;unlock n;end;done;";

// The second thread tries the mutex that the first holds.
const HELD: &str = "lockrun 1;mutex m k;\
    thread t 100;lock m;unlock m;end;thread u 100;trylock m;unlock m;endtry;show;end;done;";

// No operation that a thread comes to has that place.
const NOWHERE: u32 = 2;

/// Scripts of two threads; at which operations the threads are held until the other has come to its last; and how the
/// text then begins.
pub(crate) const MEETINGS: &[(&str, u32, u32, &str)] = &[
    (APART, 1, 1, "0 "),
    (APART, 0, NOWHERE, "0 u lock n\n"),
    (APART, 1, NOWHERE, "0 "),
    (APART, NOWHERE, 0, "0 t lock m\n"),
    (HELD, 1, 0, "0 t lock m\n1 u busy m 4\n"),
];
