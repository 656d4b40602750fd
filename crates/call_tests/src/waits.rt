//! Waits of threads that one thread of the system drives, part by part.
use crate::asking::ask;
use crate::floors::{Parts, opened};
use floor_calls::{Cause, Next, Request, Stage, Thread};
use lock_model::{ChanNo, LockNo, Mode};
use std::test::Fail;

const FLOOR: Parts = Parts {
    rooms: &[20, 20],
    locks: 1,
    class: 0,
    channels: 1,
    keys: 0,
    tables: 0,
    first_once_more: false,
    chains: 1,
};

const TAKE: Request = Request::Take {
    l: LockNo(0),
    mode: Mode::Excl,
};

const RELEASE: Request = Request::Release {
    l: LockNo(0),
    mode: Mode::Excl,
};

const WAIT: Request = Request::Wait { c: ChanNo(0) };

const WAKE: Request = Request::WakeUp {
    c: ChanNo(0),
    all: false,
};

// How many things the producer makes, and how many turns each has at most.
const THINGS: u32 = 3;

const TURNS: u32 = 1_000;

const ALONE: Parts = Parts {
    rooms: &[4],
    ..FLOOR
};

// What the last who is awake is asked, and what it answers.
const HALTED: [(Request, Next); 5] = [
    (TAKE, Next::Done),
    (WAIT, Next::Again),
    (Request::GoOn, Next::Sleep),
    (Request::GoOn, Next::Halted),
    (RELEASE, Next::Done),
];

// Its sleep would leave nobody awake: so it is halted, and holds the mutex again.
#[test]
fn a_wait_of_the_last_who_is_awake_is_halted(rt: HostRuntime) -> Result<(), Fail> {
    let (_open, mut threads) = opened(rt.alloc(), &ALONE)?;
    assert!(rt; is_halted(threads.as_mut_slice()));
    Ok(())
}

fn is_halted(threads: &mut [Thread]) -> bool {
    let Some(thread) = threads.get_mut(0) else {
        return false;
    };
    for (request, answer) in HALTED {
        if ask(thread, request) != Ok(answer) {
            return false;
        }
    }
    true
}

// What a worker does: the call that its thread is in the middle of, or makes next.
#[derive(Clone, Copy)]
enum Work {
    Take,
    Wait,
    Wake,
    Release,
    End,
    Nothing,
}

// A worker: its thread, what it does, whether it sleeps, and how many things it has made or used.
#[derive(Drop)]
struct Worker {
    thread: Thread,
    work: Work,
    sleeps: bool,
    things: u32,
}

// The consumer waits until there is a thing, and the producer makes one after the other. In a turn one part of a call
// is made.
#[test]
fn a_producer_and_a_consumer_end(rt: HostRuntime) -> Result<(), Fail> {
    let (_open, mut threads) = opened(rt.alloc(), &FLOOR)?;
    match (threads.pop(), threads.pop()) {
        (Some(first), Some(second)) => {
            assert!(rt; both_end(make_worker(first), make_worker(second)));
            Ok(())
        }
        (None, _) | (Some(_), None) => Err("there is no such thread".into()),
    }
}

// Whether both end, and each thing that was made was used.
fn both_end(first: Worker, second: Worker) -> bool {
    let (mut producer, mut consumer, mut left) = (first, second, 0);
    for _ in 0..TURNS {
        if !take_turns(&mut producer, &mut consumer, &mut left) {
            return false;
        }
    }
    producer.thread.has_ended()
        && consumer.thread.has_ended()
        && (producer.things, consumer.things, left) == (THINGS, THINGS, 0)
}

// A turn of each. Whether all that was asked was made.
fn take_turns(producer: &mut Worker, consumer: &mut Worker, left: &mut u32) -> bool {
    let Ok(next) = turn(consumer) else {
        return false;
    };
    if next == Some(Next::Done) {
        consume(consumer, left);
    }
    wake(producer, next);
    let Ok(next) = turn(producer) else {
        return false;
    };
    if next == Some(Next::Done) {
        produce(producer, left);
    }
    wake(consumer, next);
    true
}

// A worker that begins with a take.
fn make_worker(thread: Thread) -> Worker {
    Worker {
        thread,
        work: Work::Take,
        sleeps: false,
        things: 0,
    }
}

// Makes one part of what a worker does, unless it sleeps or has ended.
fn turn(worker: &mut Worker) -> Result<Option<Next>, Cause> {
    match begins(worker.work) {
        Some(begin) if !worker.sleeps => Ok(Some(make_part(worker, begin)?)),
        Some(_) | None => Ok(None),
    }
}

// What begins a call.
fn begins(work: Work) -> Option<Request> {
    match work {
        Work::Take => Some(TAKE),
        Work::Wait => Some(WAIT),
        Work::Wake => Some(WAKE),
        Work::Release => Some(RELEASE),
        Work::End => Some(Request::End),
        Work::Nothing => None,
    }
}

// One part of the call that begins so.
fn make_part(worker: &mut Worker, begin: Request) -> Result<Next, Cause> {
    let request = if worker.thread.stage() == Stage::AtRest {
        begin
    } else {
        Request::GoOn
    };
    let next = worker.thread.ask(request)?;
    if next == Next::Sleep {
        // it may have been woken already
        worker.sleeps = worker.thread.is_queued();
    }
    Ok(next)
}

// Ends the sleep of a worker, where the other's part woke it.
fn wake(worker: &mut Worker, next: Option<Next>) {
    if let Some(Next::Wake(_)) = next {
        worker.sleeps = false;
    }
}

// What a consumer does next: with the mutex it uses a thing, or waits for one.
fn consume(worker: &mut Worker, left: &mut u32) {
    worker.work = match worker.work {
        Work::Take | Work::Wait => match left.checked_sub(1) {
            None => Work::Wait,
            Some(fewer) => {
                *left = fewer;
                worker.things = worker.things.saturating_add(1);
                Work::Release
            }
        },
        Work::Release => again(worker.things),
        Work::Wake | Work::End | Work::Nothing => Work::Nothing,
    };
}

// What a producer does next: with the mutex it makes a thing and wakes the consumer.
fn produce(worker: &mut Worker, left: &mut u32) {
    worker.work = match worker.work {
        Work::Take => {
            *left = left.saturating_add(1);
            worker.things = worker.things.saturating_add(1);
            Work::Wake
        }
        Work::Wake => Work::Release,
        Work::Release => again(worker.things),
        Work::Wait | Work::End | Work::Nothing => Work::Nothing,
    };
}

// What a worker does behind a release that has made or used so many things.
fn again(things: u32) -> Work {
    if things == THINGS {
        Work::End
    } else {
        Work::Take
    }
}
