//! What a chart is made of. Rows and turns are counted from 0 over the whole run; threads, locks and queues are named
//! by their numbers in the plan.

ghost use Rattle.std.specs.Prelude.{◌≡◌};
ghost use Rattle.chart_layout.specs.Marks.{is_refusal};

use crate::sentence::{End, Sentence};
use lock_model::{Event, LockNo, Mode, Prio, QueueName, Sequence, StepKind, ThreadNo};

/// The drawing of a window of a run, without a form: the rows `first..=last` and the turns between them.
///
/// ```
/// let chart = chart(alloc, &plan, &rows, 0, rows.turns.as_slice().len() as u32)?;
/// let holds_drawn = chart.bars.as_slice().len();
/// ```
#[derive(Drop, Debug)]
pub struct Chart {
    /// The first row of the window.
    pub first: u32,
    /// Its last row.
    pub last: u32,
    /// How many turns the whole run made.
    pub turns: u32,
    /// One for each thread of the plan, by number.
    pub lanes: Sequence<Lane>,
    /// What threads hold, wait for and walk along, by thread.
    pub bars: Sequence<Bar>,
    /// The priorities by which threads run, by thread and then by row.
    pub steps: Sequence<PrioSpan>,
    /// From thread to thread, by turn.
    pub arrows: Sequence<Arrow>,
    /// What was done, by turn.
    pub marks: Sequence<TurnMark>,
    /// What happened, by turn.
    pub sentences: Sequence<Sentence>,
    /// How the whole run ended.
    pub end: End,
    /// The lines that are printed of the end of the whole run: queues, threads, tables, and the last word.
    pub printed: Sequence<u8>,
}

/// The lane of a thread.
///
/// ```
/// let lane = Lane { thread: ThreadNo(0), ended: Some(9) };
/// ```
#[derive(Clone, Copy, Debug, PartialEq, Eq)]
pub struct Lane {
    pub thread: ThreadNo,
    /// The first row in which the thread has come to its end, where the run tells that it has.
    pub ended: Option<u32>,
}

/// Something that lasts: it covers the rows `first..=last`.
///
/// ```
/// let bar = Bar {
///     thread: ThreadNo(0),
///     what: BarKind::Holds { l: LockNo(0), mode: Mode::Excl },
///     first: 1,
///     last: 7,
/// };
/// ```
#[derive(Clone, Copy, Debug, PartialEq, Eq)]
pub struct Bar {
    pub thread: ThreadNo,
    pub what: BarKind,
    pub first: u32,
    pub last: u32,
}

/// What lasts.
///
/// ```
/// let sleeps = BarKind::Waits { q: QueueName::Chan(ChanNo(0)) };
/// ```
#[derive(Clone, Copy, Debug, PartialEq, Eq)]
pub enum BarKind {
    /// The thread holds the lock in the mode.
    Holds { l: LockNo, mode: Mode },
    /// The thread stands on the queue.
    Waits { q: QueueName },
    /// The thread was taken off the queue, and nobody has woken it yet: its record names the queue, but it stands on
    /// none.
    TakenOff { q: QueueName },
    /// The thread was woken from the queue, as its wait word says, and doesn't run yet.
    Woken { q: QueueName },
    /// A lending walk of the thread is under way.
    Walks,
}

/// A step of a thread's strip of priorities: in the rows `first..=last` it runs as `effective`, and `base` is its own.
///
/// ```
/// let is_lent_to = step.effective < step.base;
/// ```
#[derive(Clone, Copy, Debug, PartialEq, Eq)]
pub struct PrioSpan {
    pub thread: ThreadNo,
    pub first: u32,
    pub last: u32,
    pub effective: Prio,
    pub base: Prio,
}

/// What went from one thread to another in a turn.
///
/// ```
/// let arrow = Arrow {
///     turn: 5,
///     kind: ArrowKind::Lends { before: Prio(200), prio: Prio(10) },
///     from: ThreadNo(2),
///     to: ThreadNo(0),
/// };
/// ```
#[derive(Clone, Copy, Debug, PartialEq, Eq)]
pub struct Arrow {
    pub turn: u32,
    pub kind: ArrowKind,
    pub from: ThreadNo,
    pub to: ThreadNo,
}

/// What an arrow says.
///
/// ```
/// let lends = ArrowKind::Lends { before: Prio(200), prio: Prio(10) };
/// ```
#[derive(Clone, Copy, Debug, PartialEq, Eq)]
pub enum ArrowKind {
    /// The walk of `from` lent to `to`, the owner of the lock at which it stood; `to` ran as `before` before the turn,
    /// and runs as `prio` behind it.
    Lends { before: Prio, prio: Prio },
    /// `from` woke `to`.
    Wakes,
    /// `from` blocked on a lock that `to` held.
    BlockedOn,
    /// `from` would share a lock that others share, and blocked behind `to`, a writer that waits for it and came first.
    Behind,
    /// `from` was refused a lock that `to` held, for the order of its class.
    Refused,
}

/// What a thread did in its turn. A turn of a thread that has ended has no mark.
///
/// ```
/// let mark = TurnMark { turn: 3, thread: ThreadNo(0), what: MarkKind::Idle };
/// ```
#[derive(Clone, Copy, Debug, PartialEq, Eq)]
pub struct TurnMark {
    pub turn: u32,
    pub thread: ThreadNo,
    pub what: MarkKind,
}

/// What was done in a turn.
///
/// ```
/// let lends = MarkKind::Did(StepKind::Lend);
/// ```
#[derive(Clone, Copy, Debug, PartialEq, Eq)]
pub enum MarkKind {
    /// The turn made this entry of the history.
    Noted(Event),
    /// It made a step, and no entry.
    Did(StepKind),
    /// It did nothing: the thread stood on a queue.
    Idle,
}

impl MarkKind {
    /// Whether something was refused: a take, for its lock's order, or a wake that found nobody asleep.
    pub fn is_refusal(self) -> bool
        ensures { result ≡ is_refusal self }
    {
        match self {
            MarkKind::Noted(event) => event.is_reversal() || event.wakes_nobody(),
            MarkKind::Did(_) | MarkKind::Idle => false,
        }
    }
}
