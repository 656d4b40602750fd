//! A run, turn by turn, and its rows.
ghost use Rattle.std.specs.Prelude.{◌≡◌, ◌<◌, ◌≤◌, List, length, reverse, IfOk};
ghost use Rattle.lock_model.specs.Operations.{IsProper};
ghost use Rattle.lock_model.specs.declared.event.Entry as entries;
ghost use Rattle.run_rows.specs.Making.{IsAt, GoesOn, HasMade};
ghost use Rattle.lock_state.specs.Run.{start_course};
ghost use Rattle.run_tracks.specs.Rows.{TellsRun, newest};
ghost use Rattle.step_world.specs.Courses.{IsCourse};

use crate::columns::Columns;
use lock_model::{Entry, Plan, Sequence, Turn};
use run_tracks::{Rows, TurnRow};
use std::alloc::{AllocError, Global};
use step_world::Course;

/// The scheduled run of a plan, row by row: the run of `step_world::run_schedule`. There are 1 to 64 chains of each
/// sort, of which only the slots of queues tell, and 1 to 1,000,000 turns. The plan is one that some script gives. A
/// turn that was idle or of a thread that has ended costs no more than its own row.
///
/// ```
/// let rows = rows_of(alloc, &plan, 16, 1000)?;
/// let lent = rows.threads.as_slice()[0].row.at(7).effective;
/// ```
pub fn rows_of(alloc: Global, plan: &Plan, chains: u32, turns: u32) -> Result<Rows, AllocError>
    requires proper { IsProper plan.now }
    requires some_chains { 1 ≤ chains }
    requires few_chains { chains ≤ 64 }
    requires some_turns { 1 ≤ turns }
    requires few_turns { turns ≤ 1000000 }
    ensures { IfOk result (TellsRun plan.now chains turns) }
{
    let mut course = Course::make(alloc, plan, chains)?;
    let (made, columns) = make_run(alloc, &mut course, turns)?;
    Ok(Rows {
        turns: Sequence::from_vec(made),
        threads: Sequence::from_vec(columns.threads),
        words: Sequence::from_vec(columns.words),
        queues: columns.queues,
        outcome: course.into_outcome(alloc)?,
    })
}

// The turns of a run from its begin, and what they changed.
fn make_run(
    alloc: Global,
    course: &mut Course<'_>,
    turns: u32,
) -> Result<(Vec<TurnRow>, Columns), AllocError>
    requires begins { IsCourse course.old (start_course course.old.world.plan) }
    requires few { turns ≤ 1000000 }
    ensures { IfOk result (λ made. HasMade course.old.world.plan course.old.world.chains turns
        made.0.items course.new made.1) }
{
    let mut columns = Columns::begin(alloc, course.world())?;
    let made = make_turns(alloc, course, &mut columns, turns)?;
    Ok((made, columns))
}

// So many turns, or fewer where the run comes to its end before.
fn make_turns(
    alloc: Global,
    course: &mut Course<'_>,
    columns: &mut Columns,
    turns: u32,
) -> Result<Vec<TurnRow>, AllocError>
    requires begins { IsAt course.old.world.plan course.old.world.chains 0 course.old columns.old }
    requires few { turns ≤ 1000000 }
    ensures { IfOk result (λ made. HasMade course.old.world.plan course.old.world.chains turns
        made.items course.new columns.new) }
{
    let mut made = Vec::new(alloc);
    for n in 0..turns {
        let Some(turn) = make_turn(alloc, course, columns, n)? else {
            break;
        };
        made.push(turn)?;
    }
    Ok(made)
}

// The n-th turn, and what it changed.
fn make_turn(
    alloc: Global,
    course: &mut Course<'_>,
    columns: &mut Columns,
    n: u32,
) -> Result<Option<TurnRow>, AllocError>
    requires at { IsAt course.old.world.plan course.old.world.chains n course.old columns.old }
    requires few { n < 1000000 }
    ensures { IfOk result (λ made. GoesOn course.old.world.plan course.old.world.chains n made
        course.new columns.new) }
{
    let history = course.world().history();
    let before = history.len();
    let Some((who, answer)) = course.go_on() else {
        return Ok(None);
    };
    let world = course.world();
    match answer {
        Turn::Did(_) => columns.note(alloc, world, who, n + 1)?,
        Turn::Idle | Turn::Ended => {}
    }
    Ok(Some(TurnRow {
        who,
        answer,
        entry: newest(before, world.history()),
    }))
}

// The newest entry of a history that had fewer before.
fn newest(before: usize, history: &[Entry]) -> Option<Entry>
    ensures { (old entries : List entries.Entry) → before ≡ length old
        → history.now ≡ reverse entries → result ≡ newest old entries }
{
    if before < history.len() {
        history.last().copied()
    } else {
        None
    }
}
