//! What is said of a take that was refused for its order: both locks with their classes, and the takes that put the
//! class of the wanted one before that of the held one.

use crate::replay::{Order, Refusal, Replay, class_of, replay_of};
use crate::{LINES, push_line};
use lock_model::limits;
use std::alloc::{AllocError, Global};

// How many takes are told one by one where there are more than fit: with the first line and the last they are eight.
const TAKES: usize = 6;

/// What is said of the first refusal of a run.
pub fn of_refusal(alloc: Global, source: &[u8], text: &[u8]) -> Result<Vec<String>, AllocError> {
    let run = replay_of(alloc, source, text)?;
    match run.refusal {
        Some(refusal) => told(alloc, &run, refusal),
        None => Ok(Vec::new(alloc)),
    }
}

/// What is said of that refusal.
pub fn told<'a>(
    alloc: Global,
    run: &Replay<'a>,
    refusal: Refusal<'a>,
) -> Result<Vec<String>, AllocError> {
    let mut lines = Vec::new(alloc);
    push_told(alloc, &mut lines, run, refusal)?;
    Ok(lines)
}

fn push_told<'a>(
    alloc: Global,
    lines: &mut Vec<String>,
    run: &Replay<'a>,
    refusal: Refusal<'a>,
) -> Result<(), AllocError> {
    let (of, under) = (
        class_of(&run.book, refusal.wanted),
        class_of(&run.book, refusal.held.lock),
    );
    push_locks(alloc, lines, refusal, of, under)?;
    if of == under {
        return push_line(
            alloc,
            lines,
            "    nobody takes a lock under another of its class",
        );
    }
    if !push_way(
        alloc,
        lines,
        &run.orders,
        of,
        under,
        Until::Gained(refusal.ticket),
    )? {
        push_way(
            alloc,
            lines,
            &run.orders,
            of,
            under,
            Until::Asked(refusal.ticket),
        )?;
    }
    Ok(())
}

// Both locks with their classes.
fn push_locks(
    alloc: Global,
    lines: &mut Vec<String>,
    refusal: Refusal<'_>,
    of: &str,
    under: &str,
) -> Result<(), AllocError> {
    let Refusal {
        thread,
        wanted,
        line,
        ticket: _,
        held,
    } = refusal;
    let (first, since, entry) = (held.lock, held.line, held.ticket);
    push_line(
        alloc,
        lines,
        format_args!(
            "    {thread} asks for {wanted}, of class {of}, in line {line}, and holds {first}, of class {under}, since line {since} (entry {entry})"
        ),
    )
}

// The takes that lead from the one class to the other, and whether there are some.
fn push_way<'a>(
    alloc: Global,
    lines: &mut Vec<String>,
    orders: &[Order<'a>],
    of: &'a str,
    under: &str,
    until: Until,
) -> Result<bool, AllocError> {
    let path = path_of(alloc, orders, of, under, until)?;
    push_path(alloc, lines, path.as_slice())?;
    Ok(!path.is_empty())
}

// The takes of a path, a line each; where there are more than fit, how many are left.
fn push_path(alloc: Global, lines: &mut Vec<String>, path: &[Order<'_>]) -> Result<(), AllocError> {
    let fits = path.len() < LINES;
    for order in path.iter().take(if fits { path.len() } else { TAKES }) {
        push_order(alloc, lines, *order)?;
    }
    match path.last() {
        Some(last) if !fits => push_rest(
            alloc,
            lines,
            path.len().saturating_sub(TAKES),
            last.behind,
        ),
        Some(_) | None => Ok(()),
    }
}

fn push_rest(
    alloc: Global,
    lines: &mut Vec<String>,
    more: usize,
    behind: &str,
) -> Result<(), AllocError> {
    push_line(
        alloc,
        lines,
        format_args!("    and so on, by {more} takes more, to {behind}"),
    )
}

fn push_order(alloc: Global, lines: &mut Vec<String>, order: Order<'_>) -> Result<(), AllocError> {
    let Order {
        before,
        behind,
        thread,
        wanted,
        held,
        line,
        ticket,
        after: _,
    } = order;
    match ticket {
        Some(ticket) => push_line(
            alloc,
            lines,
            format_args!(
                "    {before} goes before {behind}: {thread} asked for {wanted} in line {line}, holding {held} (entry {ticket})"
            ),
        ),
        None => push_line(
            alloc,
            lines,
            format_args!(
                "    {before} goes before {behind}: {thread} asked for {wanted} in line {line}, holding {held} (no entry: it waits still)"
            ),
        ),
    }
}

// A class that is reached: by which order, and from which of those reached before.
#[derive(Clone, Copy)]
struct Reached<'a> {
    class: &'a str,
    by: Option<Order<'a>>,
    from: usize,
}

// Which orders are known at the entry of a refusal: those of gains before it, or of all that may have been asked
// before.
#[derive(Clone, Copy)]
enum Until {
    Gained(u64),
    Asked(u64),
}

impl Until {
    fn has(self, order: &Order<'_>) -> bool {
        match self {
            Until::Gained(refused) => order.ticket.is_some_and(|gained| gained < refused),
            Until::Asked(refused) => !order.after.is_some_and(|last| last >= refused),
        }
    }
}

// The fewest of these orders that lead from one class to another. Nothing where none do.
fn path_of<'a>(
    alloc: Global,
    orders: &[Order<'a>],
    from: &'a str,
    to: &str,
    until: Until,
) -> Result<Vec<Order<'a>>, AllocError> {
    let mut reached = Vec::new(alloc);
    reach(&mut reached, orders, from, until)?;
    let mut path = Vec::new(alloc);
    push_back(&mut path, &reached, to)?;
    path.reverse();
    Ok(path)
}

// All classes to which these orders lead from one, each by the fewest.
fn reach<'a>(
    reached: &mut Vec<Reached<'a>>,
    orders: &[Order<'a>],
    from: &'a str,
    until: Until,
) -> Result<(), AllocError> {
    reached.push(Reached {
        class: from,
        by: None,
        from: 0,
    })?;
    for place in 0..limits::CLASSES {
        if let Some(class) = class_at(reached, place) {
            reach_from(reached, orders, class, place, until)?;
        }
    }
    Ok(())
}

// The classes to which one order more leads, from the one at that place.
fn reach_from<'a>(
    reached: &mut Vec<Reached<'a>>,
    orders: &[Order<'a>],
    class: &str,
    place: usize,
    until: Until,
) -> Result<(), AllocError> {
    for order in orders {
        if order.before == class && until.has(order) && place_in(reached, order.behind).is_none() {
            reached.push(Reached {
                class: order.behind,
                by: Some(*order),
                from: place,
            })?;
        }
    }
    Ok(())
}

fn class_at<'a>(reached: &[Reached<'a>], place: usize) -> Option<&'a str> {
    let r = reached.get(place)?;
    Some(r.class)
}

fn place_in(reached: &[Reached<'_>], class: &str) -> Option<usize> {
    reached.iter().position(|r| r.class == class)
}

// The orders by which a class was reached, last to first.
fn push_back<'a>(
    path: &mut Vec<Order<'a>>,
    reached: &[Reached<'a>],
    class: &str,
) -> Result<(), AllocError> {
    let mut next = place_in(reached, class);
    for _ in 0..limits::CLASSES {
        if let Some(place) = next
            && let Some(r) = reached.get(place)
            && let Some(order) = r.by
        {
            path.push(order)?;
            next = Some(r.from);
        }
    }
    Ok(())
}
