//! `gate_runs SEED WORDS < SCRIPT` does what `lockrun WORDS < SCRIPT` does, with the threads of `run` behind a gate
//! that holds them where the seed says, so that they meet as they seldom do by themselves: one is held while it has a
//! lock, and others come to it and fall asleep. The last line of standard error says how often a thread was held, and
//! how often in vain. It is there to try the locks by (`tools/try_runs.py --gated`).
#![tactic(auto)]

mod gate;

use anyhow::{Result, bail};
use gate::DrawnGate;
use lock_io::{StdSink, StdSource};
use lock_top::{Status, lockrun};
use std::process::ExitCode;
use std::sync::Wait;
use std::thread::Threads;
use std::{env, io};

fn main(rt: HostRuntime) -> Result<ExitCode> {
    let words = env::args(&rt)?.skip(1).collect::<Vec<String>>(rt.alloc())?;
    let Some((seed, rest)) = seed_of(&words) else {
        bail!("the first word is a seed, a number");
    };
    let gate = DrawnGate::new(seed);
    let status = serve(&rt, rest, &gate);
    print_held(&rt, &gate)?;
    Ok(ExitCode::from(status as u8))
}

// The seed that the first word is, and the words behind it.
fn seed_of(words: &[String]) -> Option<(u64, &[String])> {
    let (word, rest) = words.split_first()?;
    let seed = word.parse().ok()?;
    Some((seed, rest))
}

// What these words ask for, of standard input and to standard output.
fn serve<R: AllocGlobal + Input + Print + Threads + Wait + Sync>(
    rt: &R,
    words: &[String],
    gate: &DrawnGate,
) -> Status {
    let mut source = StdSource::new(rt.reader());
    let mut sink = StdSink::new(io::writer(rt));
    lockrun(rt, rt.alloc(), words, &mut source, &mut sink, gate)
}

// How often a thread was held.
fn print_held<R: Eprint>(rt: &R, gate: &DrawnGate) -> Result<()> {
    eprintln!(rt; "held {} in vain {}", gate.held(), gate.in_vain())?;
    Ok(())
}
