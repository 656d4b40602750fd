//! Turns in an order that no schedule says: what became of each, what its thread is behind it, and the text.
use lock_model::{LockNo, QueueName, StepKind, Turn};
use std::alloc::{AllocError, Global};
use std::test::Fail;
use turn_calls::{NoThread, OpenWorld, ThreadNow, ThreadState};

// A thread of little importance holds a mutex, one of great importance waits for it and lends it its priority.
const SCRIPT: &[u8] = b"lockrun 1\nmutex bus buses\nthread low 200\nlock bus\nunlock bus\nend\n\
    thread high 10\nlock bus\nunlock bus\nend\ndone\n";

const BUS: Option<QueueName> = Some(QueueName::Lock(LockNo(0)));

// Who has the turn and what becomes of it; and what both threads are then, the first one with its effective priority.
type Row = (
    u8,
    Turn,
    (ThreadState, u8),
    (ThreadState, Option<QueueName>),
);

const ROWS: &[Row] = &[
    (
        0,
        Turn::Did(StepKind::Gain),
        (ThreadState::Running, 200),
        (ThreadState::Running, None),
    ),
    (
        1,
        Turn::Did(StepKind::Enter),
        (ThreadState::Running, 200),
        (ThreadState::Queued, BUS),
    ),
    (
        1,
        Turn::Did(StepKind::Lend),
        (ThreadState::Running, 10),
        (ThreadState::Idle, BUS),
    ),
    (
        1,
        Turn::Idle,
        (ThreadState::Running, 10),
        (ThreadState::Idle, BUS),
    ),
    (
        0,
        Turn::Did(StepKind::OpenUp),
        (ThreadState::Running, 200),
        (ThreadState::Idle, BUS),
    ),
    (
        0,
        Turn::Did(StepKind::Mark),
        (ThreadState::Ended, 200),
        (ThreadState::Woken, None),
    ),
    (
        0,
        Turn::Ended,
        (ThreadState::Ended, 200),
        (ThreadState::Woken, None),
    ),
    (
        1,
        Turn::Did(StepKind::Resume),
        (ThreadState::Ended, 200),
        (ThreadState::Running, None),
    ),
    (
        1,
        Turn::Did(StepKind::Gain),
        (ThreadState::Ended, 200),
        (ThreadState::Running, None),
    ),
    (
        1,
        Turn::Did(StepKind::Drop),
        (ThreadState::Ended, 200),
        (ThreadState::Ended, None),
    ),
];

const WHOLE: &[u8] = b"0 low lock bus\n1 low unlock bus\n2 high lock bus\n3 high unlock bus\n\
    thread low base 200 eff 200\nthread high base 10 eff 10\nok\n";

#[test]
fn turns_are_told(rt: HostRuntime) -> Result<(), Fail> {
    let world = opened(rt.alloc(), SCRIPT)?;
    assert!(rt; is_told(rt.alloc(), world)?);
    Ok(())
}

// Whether all turns are told so, and behind them the text, also where turns were refused.
fn is_told(alloc: Global, begun: OpenWorld) -> Result<bool, AllocError> {
    let (world, are_told) = has_turns(begun);
    let (world, before) = has_text(alloc, world, WHOLE);
    let (world, are_refused) = refuses_others(world);
    let (_, behind) = has_text(alloc, world, WHOLE);
    Ok(before? && behind? && are_told && are_refused)
}

// Makes the turns of all rows. Whether each is told so.
fn has_turns(begun: OpenWorld) -> (OpenWorld, bool) {
    let (mut world, mut are_told) = (begun, true);
    for row in ROWS {
        let (behind, is_told) = has_turn(world, row);
        are_told = are_told && is_told;
        world = behind;
    }
    (world, are_told)
}

// Makes a turn of a row. Whether it answers so, and both threads are told to be that behind it.
fn has_turn(world: OpenWorld, row: &Row) -> (OpenWorld, bool) {
    let (thread, turn, low, high) = *row;
    let (world, answer) = world.turn(thread);
    let (world, first) = world.thread(0);
    let (world, second) = world.thread(1);
    (
        world,
        answer == Ok(turn) && lent(first) == Some(low) && queued(second) == Some(high),
    )
}

// What a thread is, with its effective priority.
fn lent(told: Result<ThreadNow, NoThread>) -> Option<(ThreadState, u8)> {
    match told {
        Ok(now) => Some((now.state, now.effective.0)),
        Err(_) => None,
    }
}

// What a thread is, and what it is blocked on.
fn queued(told: Result<ThreadNow, NoThread>) -> Option<(ThreadState, Option<QueueName>)> {
    match told {
        Ok(now) => Some((now.state, now.blocked_on)),
        Err(_) => None,
    }
}

// Whether no thread has the number 2, and none 255.
fn refuses_others(world: OpenWorld) -> (OpenWorld, bool) {
    let (world, turn) = world.turn(2);
    let (world, thread) = world.thread(255);
    (world, turn == Err(NoThread) && thread.is_err())
}

// Whether a run has that text.
fn has_text(
    alloc: Global,
    world: OpenWorld,
    whole: &[u8],
) -> (OpenWorld, Result<bool, AllocError>) {
    let (world, text) = world.text(alloc);
    (world, is_text(text, whole))
}

fn is_text(text: Result<Vec<u8>, AllocError>, whole: &[u8]) -> Result<bool, AllocError> {
    let text = text?;
    Ok(text.as_slice() == whole)
}

// The texts of runs that are cut short: where a thread could go on, and where none can.
const CUT: &[(&[u8], &[u8], &[u8])] = &[
    (
        SCRIPT,
        &[0, 1],
        b"0 low lock bus\nqueue bus slot 0 head high free - excl high@10 shared -\n\
        thread low base 200 eff 200\nthread high base 10 eff 10\ntoolong\n",
    ),
    (
        b"lockrun 1\nmutex m k\ncond c m\nthread t 7\nlock m\nwait c\nunlock m\nend\ndone\n",
        &[0, 0, 0],
        b"0 t lock m\n1 t wait c\nqueue c slot 0 head t free - excl t@7 shared -\n\
        thread t base 7 eff 7\nstuck\n",
    ),
    (
        b"lockrun 1\nmutex a ka\nmutex b kb\nthread t 7\nlock a\nlock b\nunlock b\nunlock a\nend\n\
        thread u 7\nlock b\nlock a\nunlock a\nunlock b\nend\ndone\n",
        &[0, 0, 0, 0, 1, 1, 1],
        b"0 t lock a\n1 t lock b\n2 t unlock b\n3 t unlock a\n4 u lock b\n5 u reversed a kb\n\
        6 u unlock b\nthread t base 7 eff 7\nthread u base 7 eff 7\nreversed\n",
    ),
];

#[test]
fn texts_tell_runs_as_they_stand(rt: HostRuntime) -> Result<(), Fail> {
    for (row, &(script, turns, whole)) in CUT.iter().enumerate() {
        assert!(rt;
            is_cut_so(rt.alloc(), script, turns, whole)?,
            "in row {row}"
        );
    }
    Ok(())
}

fn is_cut_so(alloc: Global, script: &[u8], turns: &[u8], whole: &[u8]) -> Result<bool, Fail> {
    let world = opened(alloc, script)?;
    let (world, are_made) = behind(world, turns);
    let (_, text) = world.text(alloc);
    Ok(is_text(text, whole)? && are_made)
}

// The world behind these turns, and whether each was made.
fn behind(begun: OpenWorld, turns: &[u8]) -> (OpenWorld, bool) {
    let (mut world, mut are_made) = (begun, true);
    for thread in turns {
        let (behind, answer) = world.turn(*thread);
        are_made = are_made && answer.is_ok();
        world = behind;
    }
    (world, are_made)
}

fn opened(alloc: Global, script: &[u8]) -> Result<OpenWorld, Fail> {
    match OpenWorld::open(alloc, script, 16) {
        Ok(world) => Ok(world),
        Err(_) => Err("a world is opened for a script".into()),
    }
}
