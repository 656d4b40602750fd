//! The calls that are made at once: edits and reads of tables, and those about priorities. Each is that of
//! `lock_floor`, told in this crate's words, and its thread is at rest behind it.
ghost use Rattle.floor_calls.specs.Calls.{HasMade, MayMake};
ghost use Rattle.floor_calls.specs.Threads.{thread_at};
ghost use Rattle.floor_calls.specs.declared.requests.Request.TheVariants as request;
ghost use Rattle.floor_calls.specs.declared.stages.Stage.TheVariants.{AtRest};

use crate::stages::Next;
use lock_floor::{Change, Floor, Out, Pass, TableCell};
use lock_model::Prio;

// Changes the value of a cell.
#[inline(always)]
pub(crate) fn edit(floor: &Floor, pass: &mut Pass, cell: TableCell, change: Change) -> Next
    requires { MayMake (request.Edit cell change) (thread_at floor.now AtRest pass.old) }
    ensures { HasMade (request.Edit cell change) result (thread_at floor.now AtRest pass.old)
        (thread_at floor.now AtRest pass.new) }
{
    match floor.try_edit(pass, cell, change) {
        Ok(()) => Next::Done,
        Err(Out) => Next::Out,
    }
}

// Reads it.
#[inline(always)]
pub(crate) fn read(floor: &Floor, pass: &mut Pass, cell: TableCell) -> Next
    requires { MayMake (request.Read cell) (thread_at floor.now AtRest pass.old) }
    ensures { HasMade (request.Read cell) result (thread_at floor.now AtRest pass.old)
        (thread_at floor.now AtRest pass.new) }
{
    match floor.try_read(pass, cell) {
        Ok(found) => Next::Found(found),
        Err(Out) => Next::Out,
    }
}

// Sets the thread's base priority.
#[inline(always)]
pub(crate) fn set_base(floor: &Floor, pass: &mut Pass, prio: Prio) -> Next
    requires { MayMake (request.SetBase prio) (thread_at floor.now AtRest pass.old) }
    ensures { HasMade (request.SetBase prio) result (thread_at floor.now AtRest pass.old)
        (thread_at floor.now AtRest pass.new) }
{
    match floor.try_set_base(pass, prio) {
        Ok(()) => Next::Done,
        Err(Out) => Next::Out,
    }
}

// Shows its priorities.
#[inline(always)]
pub(crate) fn show(floor: &Floor, pass: &mut Pass) -> Next
    requires { MayMake request.Show (thread_at floor.now AtRest pass.old) }
    ensures { HasMade request.Show result (thread_at floor.now AtRest pass.old)
        (thread_at floor.now AtRest pass.new) }
{
    match floor.try_show(pass) {
        Ok((base, eff)) => Next::Shown { base, eff },
        Err(Out) => Next::Out,
    }
}
