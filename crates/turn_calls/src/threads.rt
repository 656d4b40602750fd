//! What is told of a thread between two turns.
ghost use Rattle.std.specs.Prelude.{◌≡◌, ◌↔◌, ◌<◌, true, length};
ghost use Rattle.lock_state.specs.Run.{Run, has_ended};
ghost use Rattle.run_laws.specs.OnTrack.{IsSleeping};
ghost use Rattle.step_world.specs.Worlds.{Represents};
ghost use Rattle.turn_calls.specs.Tellings.{IsToldOf, state_of};
ghost use Rattle.turn_calls.specs.declared.threads.ThreadState.TheVariants as states;

use lock_model::{Prio, QueueName, ThreadNo};
use step_world::{Wait, World};

/// The world's plan declares no thread of that number.
#[derive(Clone, Copy, Debug, PartialEq, Eq)]
pub struct NoThread;

/// What a thread is between two turns.
#[derive(Clone, Copy, Debug, PartialEq, Eq)]
pub enum ThreadState {
    /// It runs.
    Running,
    /// It stands on a queue, and has something to do still before it sleeps.
    Queued,
    /// It sleeps on a queue: its turns are idle until another thread wakes it.
    Idle,
    /// It was woken, and its next turn finds it running again.
    Woken,
    /// It has ended: no turn of it does anything any more.
    Ended,
}

/// What is told of a thread between two turns.
#[derive(Clone, Copy, Debug, PartialEq, Eq)]
pub struct ThreadNow {
    pub state: ThreadState,
    /// The queue on which it stands, or off which it was taken and from which it has yet to get its object back.
    pub blocked_on: Option<QueueName>,
    pub base: Prio,
    /// The better of the base and all that is lent to it.
    pub effective: Prio,
}

// What a thread is, which the world's plan declares.
pub(crate) fn thread_now(world: &World<'_>, t: ThreadNo) -> ThreadNow
    requires { t.0 < length world.now.plan.threads }
    ensures told { (r : Run) → Represents world.now r → IsToldOf world.now.plan r t.0 result }
    ensures idle { (r : Run) → Represents world.now r
        → result.state ≡ states.Idle ↔ IsSleeping world.now.plan r t.0 }
    ensures ended { (r : Run) → Represents world.now r
        → result.state ≡ states.Ended ↔ has_ended world.now.plan r t.0 ≡ true }
{
    let (base, effective) = world.priorities(t);
    ThreadNow {
        state: state_of(world, t),
        blocked_on: world.blocked_on(t),
        base,
        effective,
    }
}

// Its state alone.
pub(crate) fn state_of(world: &World<'_>, t: ThreadNo) -> ThreadState
    requires { t.0 < length world.now.plan.threads }
    ensures { (r : Run) → Represents world.now r → result ≡ state_of world.now.plan r t.0 }
{
    if world.has_ended(t) {
        return ThreadState::Ended;
    }
    match world.wait(t) {
        Wait::Running => ThreadState::Running,
        Wait::Queued => if world.owes(t) {
            ThreadState::Queued
        } else {
            ThreadState::Idle
        },
        Wait::Woken(_) => ThreadState::Woken,
    }
}
