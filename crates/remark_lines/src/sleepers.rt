//! What is said of a run that got stuck: for each thread that waits, or was halted in its sleep, the line of its
//! operation.

use crate::actor::{Actor, Halt, Operation};
use crate::refusals::told;
use crate::replay::{EmptyWake, Replay, replay_of};
use crate::verbs::Role;
use crate::{LINES, push_line};
use std::alloc::{AllocError, Global};

/// What is said of a stuck run: who waits in which line, or was halted there, and of its first refusal where lines are
/// left for that.
pub fn of_stuck(alloc: Global, source: &[u8], text: &[u8]) -> Result<Vec<String>, AllocError> {
    let run = replay_of(alloc, source, text)?;
    let mut lines = Vec::new(alloc);
    if run.is_run {
        push_stuck(alloc, &mut lines, &run)?;
    }
    Ok(lines)
}

fn push_stuck(alloc: Global, lines: &mut Vec<String>, run: &Replay<'_>) -> Result<(), AllocError> {
    let waiting = run.actors.iter().filter(|a| place_of(a).is_some()).count();
    if waiting <= LINES {
        push_each(alloc, lines, run)?;
    } else {
        push_packed(alloc, lines, run)?;
    }
    push_unwoken(alloc, lines, run)?;
    match run.refusal {
        Some(refusal) => push_all(lines, told(alloc, run, refusal)?),
        None => Ok(()),
    }
}

// More lines, where there is room for all of them.
fn push_all(lines: &mut Vec<String>, more: Vec<String>) -> Result<(), AllocError> {
    if lines.len().saturating_add(more.len()) <= LINES {
        for line in more {
            lines.push(line)?;
        }
    }
    Ok(())
}

// Of what is slept on: that no line wakes it, or the last wake that found nobody.
fn push_unwoken(
    alloc: Global,
    lines: &mut Vec<String>,
    run: &Replay<'_>,
) -> Result<(), AllocError> {
    for (place, actor) in run.actors.iter().enumerate() {
        if let Some((name, since)) = slept_on(actor)
            && !is_told(&run.actors, place, name)
            && lines.len() < LINES
        {
            push_why(alloc, lines, run, name, since)?;
        }
    }
    Ok(())
}

// Whether a thread before that place slept on the same.
fn is_told(actors: &[Actor<'_>], place: usize, name: &str) -> bool {
    for actor in actors.iter().take(place) {
        if let Some((other, _)) = slept_on(actor)
            && other == name
        {
            return true;
        }
    }
    false
}

// What a thread slept on from which nobody has woken it, and the ticket of the entry that says that it slept.
fn slept_on<'a>(actor: &Actor<'a>) -> Option<(&'a str, Option<u64>)> {
    match (actor.halted, actor.asleep) {
        (Some(halt), _) if matches!(halt.operation.role, Role::Waits(_)) => {
            Some((halt.operation.name(), halt.since))
        }
        (None, Some(operation)) if !actor.is_woken => Some((operation.name(), actor.last)),
        (Some(_), _) | (None, Some(_) | None) => None,
    }
}

// Of what was slept on since then.
fn push_why(
    alloc: Global,
    lines: &mut Vec<String>,
    run: &Replay<'_>,
    name: &str,
    since: Option<u64>,
) -> Result<(), AllocError> {
    if !run.woken.iter().any(|w| *w == name) {
        return push_line(
            alloc,
            lines,
            format_args!("    no line of the script wakes {name}"),
        );
    }
    match lost_wake(run, name, since) {
        Some(wake) => push_lost(alloc, lines, wake),
        None => Ok(()),
    }
}

// The last wake that found nobody. It counts where it came before the sleep: one behind it came when the sleeper had
// been taken off already, to be halted.
fn lost_wake<'a>(run: &Replay<'a>, name: &str, since: Option<u64>) -> Option<EmptyWake<'a>> {
    let slept = since?;
    let mut last = None;
    for wake in &run.empty_wakes {
        if wake.operation.name() == name && wake.ticket < slept {
            last = Some(*wake);
        }
    }
    last
}

fn push_lost(
    alloc: Global,
    lines: &mut Vec<String>,
    wake: EmptyWake<'_>,
) -> Result<(), AllocError> {
    let EmptyWake {
        thread,
        operation,
        ticket,
    } = wake;
    let (name, line, text) = (operation.name(), operation.line, operation.text);
    push_line(
        alloc,
        lines,
        format_args!(
            "    nobody slept on {name} when {thread} came to line {line}: {text} (entry {ticket})"
        ),
    )
}

// Where a thread waits: in the wait in which it is, or in the operation that it comes to next. And where one waited
// that was halted.
fn place_of<'a>(actor: &Actor<'a>) -> Option<Operation<'a>> {
    if let Some(halt) = actor.halted {
        return Some(halt.operation);
    }
    match actor.asleep {
        Some(operation) => Some(operation),
        None if actor.is_cut => None,
        None => actor.coming(),
    }
}

// A line each.
fn push_each(alloc: Global, lines: &mut Vec<String>, run: &Replay<'_>) -> Result<(), AllocError> {
    for actor in &run.actors {
        match (actor.halted, place_of(actor)) {
            (Some(halt), _) => push_halted(alloc, lines, actor, halt)?,
            (None, Some(operation)) => push_waiting(alloc, lines, actor, operation)?,
            (None, None) => {}
        }
    }
    Ok(())
}

fn push_halted(
    alloc: Global,
    lines: &mut Vec<String>,
    actor: &Actor<'_>,
    halt: Halt<'_>,
) -> Result<(), AllocError> {
    let (name, line, text) = (actor.name, halt.operation.line, halt.operation.text);
    let ticket = halt.ticket;
    push_line(
        alloc,
        lines,
        format_args!("    {name} waited in line {line}: {text}, and was halted (entry {ticket})"),
    )
}

fn push_waiting(
    alloc: Global,
    lines: &mut Vec<String>,
    actor: &Actor<'_>,
    operation: Operation<'_>,
) -> Result<(), AllocError> {
    let (name, line, text) = (actor.name, operation.line, operation.text);
    let back = if actor.asleep.is_some() && actor.is_woken {
        ", woken, and waits to have its lock back"
    } else {
        ""
    };
    push_line(
        alloc,
        lines,
        format_args!("    {name} waits in line {line}: {text}{back}"),
    )
}

// Several on a line. An item has 45 bytes at most, so 5 fit on a line, and 32 threads on 7 lines.
const PACKED: usize = 5;

fn push_packed(alloc: Global, lines: &mut Vec<String>, run: &Replay<'_>) -> Result<(), AllocError> {
    let mut packed: usize = 0;
    for actor in &run.actors {
        if let Some(operation) = place_of(actor) {
            push_item(alloc, lines, packed % PACKED, actor, operation)?;
            packed = packed.saturating_add(1);
        }
    }
    Ok(())
}

// An item at that place of a line: the first of a new one, or one more on the last.
fn push_item(
    alloc: Global,
    lines: &mut Vec<String>,
    place: usize,
    actor: &Actor<'_>,
    operation: Operation<'_>,
) -> Result<(), AllocError> {
    let (name, line) = (actor.name, operation.line);
    let verb = if actor.halted.is_some() {
        "was halted"
    } else {
        "waits"
    };
    if place == 0 {
        return push_line(
            alloc,
            lines,
            format_args!("    {name} {verb} in line {line}"),
        );
    }
    match lines.as_mut_slice().last_mut() {
        Some(last) => write!(last, ", {name} {verb} in line {line}"),
        None => Ok(()),
    }
}
