//! The mark of a turn: what was done in it.
ghost use Rattle.std.specs.Prelude.{◌≡◌, ◌++◌, OnOk};
ghost use Rattle.run_chart.specs.Runs.{of_turn, IsTurnOf};
ghost use Rattle.run_chart.specs.Turns.{mark_shown, marked_of};

use crate::adding::push_some;
use crate::lookup::entry_in;
use crate::rows::TurnOf;
use chart_layout::{MarkKind, TurnMark};
use lock_model::{Entry, Turn};
use std::alloc::AllocError;

/// Adds the mark of a turn, unless its thread had ended before.
pub fn push_mark(marks: &mut Vec<TurnMark>, at: &TurnOf<'_>, answer: Turn) -> Result<(), AllocError>
    requires { IsTurnOf at.now }
    ensures { OnOk result (marks.new.items ≡ marks.old.items ++ of_turn mark_shown at.now answer) }
{
    let (turn, thread) = (at.turn, at.who);
    let mark = marked_of(answer, entry_in(at)).map(|what| TurnMark { turn, thread, what });
    push_some(marks, mark)
}

// What is marked of a turn: its entry, or else the step that it made.
fn marked_of(answer: Turn, entry: Option<Entry>) -> Option<MarkKind>
    ensures { result ≡ marked_of answer entry }
{
    match (answer, entry) {
        (Turn::Ended, _) => None,
        (Turn::Idle, _) => Some(MarkKind::Idle),
        (Turn::Did(kind), None) => Some(MarkKind::Did(kind)),
        (Turn::Did(_), Some(entry)) => Some(MarkKind::Noted(entry.event)),
    }
}
