//! Making the operations of one thread: those of locks, tables and priorities here, and those that sleep and wake in
//! `channels`.
ghost use Rattle.std.specs.Prelude.{◌≡◌, ℕ, ◌<◌, [], length, slice_get, Some, IfNone, IfSome};
ghost use Rattle.lock_model.specs.Operations.{IsProper};
ghost use Rattle.lock_model.specs.Plans.{operations_of};
ghost use Rattle.floor_table.specs.Descriptions.{IsFor};
ghost use Rattle.floor_table.specs.Views.{Knowledge};
ghost use Rattle.halting.specs.Ends.{EndsItself};
ghost use Rattle.lock_floor.specs.Passes.{IsReady, IsFinished, first_pass};
ghost use Rattle.floor_run.specs.Progress.{IsBefore, IsCut};
ghost use Rattle.floor_run.specs.Workers.{IsWhole};

use crate::channels::{sleep_on, wake_all, wake_one};
use lock_floor::{Change, Floor, Pass};
use lock_io::Gate;
use lock_model::{Op, Plan};
use std::sync::Wait;

/// Makes the operations of a pass's thread, in order, and finishes the pass. It takes no memory.
///
/// It asks the gate before each operation, with its place from 0, and so before an `endtry` that it comes to, which
/// makes no entry. Of the operations in the block of a try that failed it makes none, and asks before none. A take that
/// the order of locks refuses, and a take or a wait that is halted in its sleep, cut the thread short: it gives back
/// what it holds, the lock gained last first. Then the thread ends, and where that leaves nobody awake, it halts those
/// that sleep.
pub fn work<R: Wait, G: Gate>(rt: &R, floor: &Floor, pass: &mut Pass, plan: &Plan, gate: &G)
    requires given { IsFor plan.now floor.now.description }
    requires proper { IsProper plan.now }
    requires one_chain { floor.now.description.chains ≡ 1 }
    requires thread { pass.old.view.thread < length plan.now.threads }
    requires first { pass.old
        ≡ first_pass floor.now.table floor.now.description pass.old.view.thread }
    ensures finished { IsFinished floor.now pass.new }
    ensures thread { pass.new.view.thread ≡ pass.old.view.thread }
    ensures unheld { pass.new.view.share.held ≡ [] }
    ensures whole { IsWhole plan.now floor.now.description pass.new.view.thread
        pass.new.view.share.log }
    ensures ends { (before : Knowledge) × EndsItself floor.now.description before pass.new.view }
{
    operate_all(rt, floor, pass, plan, gate);
    halting::end_thread(floor, rt, pass);
    floor.finish(pass);
}

// Makes the operations of a pass's thread, in order, or those before a take that is refused or halted, or a wait that
// is halted: then it gives back what it holds.
fn operate_all<R: Wait, G: Gate>(rt: &R, floor: &Floor, pass: &mut Pass, plan: &Plan, gate: &G)
    requires given { IsFor plan.now floor.now.description }
    requires proper { IsProper plan.now }
    requires one_chain { floor.now.description.chains ≡ 1 }
    requires thread { pass.old.view.thread < length plan.now.threads }
    requires first { pass.old
        ≡ first_pass floor.now.table floor.now.description pass.old.view.thread }
    ensures ready { IsReady floor.now pass.new }
    ensures thread { pass.new.view.thread ≡ pass.old.view.thread }
    ensures unheld { pass.new.view.share.held ≡ [] }
    ensures whole { IsWhole plan.now floor.now.description pass.new.view.thread
        pass.new.view.share.log }
{
    let ops = plan.operations_of(pass.thread());
    let mut next = 0;
    while next < ops.len() {
        gate.at(pass.thread(), next as u32);
        match operate(rt, floor, pass, plan, ops[next], next) {
            Some(on) => next = on,
            None => {
                give_back(rt, floor, pass, plan);
                return;
            }
        }
    }
}

// Gives back what a thread holds that was cut short, the lock gained last first.
fn give_back<R: Wait>(rt: &R, floor: &Floor, pass: &mut Pass, plan: &Plan)
    requires given { IsFor plan.now floor.now.description }
    requires proper { IsProper plan.now }
    requires cut { IsCut plan.now floor.now pass.old.view.thread pass.old }
    ensures cut { IsCut plan.now floor.now pass.old.view.thread pass.new }
    ensures unheld { pass.new.view.share.held ≡ [] }
{
    while let Some(last) = pass.held().last() {
        let l = last.l;
        lock_calls::release_held(floor, rt, pass, l);
    }
}

// Makes an operation that the plan has for the pass's thread, and answers which is its next. `None` comes where its
// take was refused or halted, or its wait was halted: then the thread is cut short.
#[inline(always)]
fn operate<R: Wait>(
    rt: &R,
    floor: &Floor,
    pass: &mut Pass,
    plan: &Plan,
    op: Op,
    n: usize,
) -> Option<usize>
    requires given { IsFor plan.now floor.now.description }
    requires proper { IsProper plan.now }
    requires one_chain { floor.now.description.chains ≡ 1 }
    requires before { IsBefore plan.now floor.now pass.old.view.thread n pass.old }
    requires op { slice_get (operations_of plan.now pass.old.view.thread) n ≡ Some op }
    ensures before { IfSome result
        (λ next. IsBefore plan.now floor.now pass.old.view.thread next pass.new) }
    ensures further { IfSome result (λ next. n < next) }
    ensures cut { IfNone result (IsCut plan.now floor.now pass.old.view.thread pass.new) }
{
    match op {
        Op::Take { l, mode } => match lock_calls::take_or_halt(floor, rt, pass, l, mode) {
            Ok(()) => {}
            Err(_) => return None,
        },
        Op::Try { l, mode, past } => match lock_calls::try_take(floor, rt, pass, l, mode) {
            Ok(()) => {}
            Err(_) => return Some(past as usize),
        },
        Op::EndTry => {}
        Op::Release { l } => lock_calls::release_held(floor, rt, pass, l),
        Op::Set { l, key, value } => floor.edit(rt, pass, l, key, Change::Set(value)),
        Op::Add { l, key, amount } => floor.edit(rt, pass, l, key, Change::Add(amount)),
        Op::Get { l, key } => {
            floor.read(rt, pass, l, key);
        }
        Op::Base { prio } => floor.set_base(rt, pass, prio),
        Op::Show => {
            floor.show(rt, pass);
        }
        Op::Sleep { c } => match sleep_on(rt, floor, pass, plan, c) {
            Ok(()) => {}
            Err(_) => return None,
        },
        Op::WakeOne { c } => wake_one(rt, floor, pass, plan, c),
        Op::WakeAll { c } => wake_all(rt, floor, pass, plan, c),
    }
    Some(n + 1)
}
