//! The numbers by which C is told of the world of a script. `include/lockrun.h` has the same.
ghost use Rattle.std.specs.Prelude.{◌≡◌};
ghost use Rattle.lockrun_c.specs.Worlds.{queue_number, queue_sort, state_number, told_of, turn_number};

use lock_model::{QueueName, StepKind, Turn};
use turn_calls::{ThreadNow, ThreadState};

pub(crate) const NO_RANGE: u32 = 26;

pub(crate) const TOO_BIG: u32 = 27;

pub(crate) const NO_SCRIPT: u32 = 28;

pub(crate) const NO_WORLD: u32 = 29;

pub(crate) const NO_SUCH: u32 = 30;

/// The first faulty line of a source that is no script, and the fault's code.
#[repr(C)]
#[derive(Clone, Copy)]
pub struct ScriptFaultTold {
    pub line: u32,
    pub code: u32,
}

/// How many threads, locks, and condition variables and channels a world has.
#[repr(C)]
#[derive(Clone, Copy)]
pub struct Counts {
    pub threads: usize,
    pub locks: usize,
    pub chans: usize,
}

/// A name: its bytes, and 0 behind them where they are fewer than 16.
#[repr(C)]
#[derive(Clone, Copy)]
pub struct NameTold {
    pub bytes: [u8; 16],
}

/// What a thread is between two turns: the number of its state, the sort of the queue that its record names with the
/// number of the lock or channel whose queue that is, and its priorities.
#[repr(C)]
#[derive(Clone, Copy)]
pub struct ThreadTold {
    pub state: u32,
    pub queue: u32,
    pub which: u32,
    pub base: u32,
    pub effective: u32,
}

// What is told of a thread.
pub(crate) fn told_of(now: ThreadNow) -> ThreadTold
    ensures { result ≡ told_of now }
{
    ThreadTold {
        state: state_number(now.state),
        queue: queue_sort(now.blocked_on),
        which: queue_number(now.blocked_on),
        base: u32::from(now.base.0),
        effective: u32::from(now.effective.0),
    }
}

fn state_number(state: ThreadState) -> u32
    ensures { result ≡ state_number state }
{
    match state {
        ThreadState::Running => 0,
        ThreadState::Queued => 1,
        ThreadState::Idle => 2,
        ThreadState::Woken => 3,
        ThreadState::Ended => 4,
    }
}

fn queue_sort(queue: Option<QueueName>) -> u32
    ensures { result ≡ queue_sort queue }
{
    match queue {
        None => 0,
        Some(QueueName::Lock(_)) => 1,
        Some(QueueName::Chan(_)) => 2,
    }
}

fn queue_number(queue: Option<QueueName>) -> u32
    ensures { result ≡ queue_number queue }
{
    match queue {
        None => 0,
        Some(QueueName::Lock(l)) => u32::from(l.0),
        Some(QueueName::Chan(c)) => u32::from(c.0),
    }
}

// The number of what became of a turn.
pub(crate) fn turn_number(made: Turn) -> u32
    ensures { result ≡ turn_number made }
{
    match made {
        Turn::Idle => 0,
        Turn::Ended => 1,
        Turn::Did(StepKind::Gain) => 2,
        Turn::Did(StepKind::Claim) => 3,
        Turn::Did(StepKind::Drop) => 4,
        Turn::Did(StepKind::Enter) => 5,
        Turn::Did(StepKind::OpenUp) => 6,
        Turn::Did(StepKind::Mark) => 7,
        Turn::Did(StepKind::Resume) => 8,
        Turn::Did(StepKind::Lend) => 9,
        Turn::Did(StepKind::Shift) => 10,
        Turn::Did(StepKind::WalkEnd) => 11,
        Turn::Did(StepKind::Add) => 12,
        Turn::Did(StepKind::Wake) => 13,
        Turn::Did(StepKind::Note) => 14,
    }
}
