//! The rows of a worked script, with values worked out by hand.
ghost use Rattle.lock_model.specs.Operations.{IsProper};

use crate::briefs::plan_of;
use lock_model::{Plan, Prio, ThreadNo};
use run_rows::rows_of;
use run_tracks::{Rows, ThreadRows, TurnRow};
use std::alloc::Global;
use std::test::Fail;
use step_world::{StepKind, Turn};

// High waits for the bus that low holds, and lends low its 10.
const PATHFINDER: &str = "lockrun 1;mutex bus k;\
    thread low 200;lock bus;add bus 1 1;show;unlock bus;show;end;\
    thread medium 100;show;show;show;show;end;\
    thread high 10;lock bus;add bus 1 1;unlock bus;end;\
    schedule low low medium medium high high low low low high high high high medium medium low;\
    done;";

#[test]
fn pathfinder(rt: HostRuntime) -> Result<(), Fail> {
    assert!(rt; is_worked(rt.alloc())?);
    Ok(())
}

fn is_worked(alloc: Global) -> Result<bool, Fail> {
    let plan = plan_of(alloc, &[PATHFINDER])?;
    has_rows(alloc, &plan)
}

fn has_rows(alloc: Global, plan: &Plan) -> Result<bool, Fail>
    requires { IsProper plan.now }
{
    let rows = rows_of(alloc, plan, 16, 100)?;
    Ok(are_rows(&rows))
}

fn are_rows(rows: &Rows) -> bool {
    are_turns(rows.turns.as_slice()) && are_threads(rows.threads.as_slice()) && is_queued(rows)
}

// Each turn before high's first makes an entry. That one finds the bus held: it enters the queue, and makes none.
fn are_turns(turns: &[TurnRow]) -> bool {
    match (turns.get(3), turns.get(4)) {
        (Some(before), Some(turn)) => {
            turns.len() == 16
                && before.entry.is_some_and(|entry| entry.ticket == 3)
                && (turn.who, turn.answer) == (ThreadNo(2), Turn::Did(StepKind::Enter))
                && turn.entry.is_none()
        }
        (None, _) | (Some(_), None) => false,
    }
}

// What low runs as before, behind and after the loan, and that high ends in turn 12.
fn are_threads(threads: &[ThreadRows]) -> bool {
    let [low, _medium, high] = threads else {
        return false;
    };
    (low.row.at(5).effective, low.row.at(6).effective) == (Prio(200), Prio(10))
        && (low.row.at(7).effective, low.row.at(8).effective) == (Prio(10), Prio(200))
        && (high.row.at(12).ended, high.row.at(13).ended) == (false, true)
}

fn is_queued(rows: &Rows) -> bool {
    rows.queues.get(7).as_slice().len() == 1
}
