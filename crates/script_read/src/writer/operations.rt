//! The lines of a thread's operations.
ghost use Rattle.std.specs.Prelude.{◌≡◌, ◌++◌, ◌∷◌, [], decimal, OnOk};
ghost use Rattle.lock_model.specs.Text.{line_of, lock_name};
ghost use Rattle.lock_model.specs.Script.Canonical.{operation_line, operation_lines, on_chan, on_lock};
ghost use Rattle.script_read.specs.Statements.{word};

use super::words::{push_line, push_verb};
use crate::reader::held::{hold_behind, mode_of};
use crate::statement::Verb;
use lock_model::{ChanNo, Held, LockNo, Mode, Op, Plan, push_number, push_word};
use std::alloc::{AllocError, Global};

/// The lines of operations of a thread, from its first one on.
pub fn push_operations(
    out: &mut Vec<u8>,
    alloc: Global,
    plan: &Plan,
    ops: &[Op],
) -> Result<(), AllocError>
    ensures { OnOk result (out.new.items ≡ out.old.items ++ operation_lines plan.now [] ops.now) }
{
    let mut held = Vec::new(alloc);
    for op in ops {
        push_operation(out, plan, &held, *op)?;
        hold_behind(&mut held, *op)?;
    }
    Ok(())
}

// The line of an operation of a thread that holds these locks.
fn push_operation(out: &mut Vec<u8>, plan: &Plan, held: &[Held], op: Op) -> Result<(), AllocError>
    ensures { OnOk result (out.new.items ≡ out.old.items ++ operation_line plan.now held.now op) }
{
    match op {
        Op::Take { l, mode } => push_on_lock(out, plan, Verb::Take(plan.lock_kind(l), mode), l),
        Op::Try { l, mode, .. } => push_on_lock(out, plan, Verb::Try(plan.lock_kind(l), mode), l),
        Op::EndTry => push_line(out, Verb::EndTry, &[]),
        Op::Release { l } => {
            let mode = mode_of(held, l).unwrap_or(Mode::Excl);
            push_on_lock(out, plan, Verb::Release(plan.lock_kind(l), mode), l)
        }
        Op::Set { l, key, value } => push_edit(out, Verb::Set, plan.lock_name(l), key, value),
        Op::Add { l, key, amount } => push_edit(out, Verb::Add, plan.lock_name(l), key, amount),
        Op::Get { l, key } => {
            push_verb(out, Verb::Get)?;
            push_word(out, plan.lock_name(l))?;
            push_last_number(out, key)
        }
        Op::Base { prio } => {
            push_verb(out, Verb::Prio)?;
            push_last_number(out, u64::from(prio.0))
        }
        Op::Show => push_line(out, Verb::Show, &[]),
        Op::Sleep { c } => push_on_chan(out, plan, Verb::Wait(plan.is_cond(c)), c),
        Op::WakeOne { c } => push_on_chan(out, plan, Verb::WakeOne(plan.is_cond(c)), c),
        Op::WakeAll { c } => push_on_chan(out, plan, Verb::WakeAll(plan.is_cond(c)), c),
    }
}

fn push_on_lock(out: &mut Vec<u8>, plan: &Plan, verb: Verb, l: LockNo) -> Result<(), AllocError>
    ensures { OnOk result (out.new.items ≡ out.old.items ++ on_lock plan.now (word verb) l) }
{
    push_line(out, verb, &[plan.lock_name(l)])
}

fn push_on_chan(out: &mut Vec<u8>, plan: &Plan, verb: Verb, c: ChanNo) -> Result<(), AllocError>
    ensures { OnOk result (out.new.items ≡ out.old.items ++ on_chan plan.now (word verb) c) }
{
    push_line(out, verb, &[plan.chan_name(c)])
}

// A change at a key of a lock's table.
fn push_edit(
    out: &mut Vec<u8>,
    verb: Verb,
    lock: &[u8],
    key: u64,
    value: u64,
) -> Result<(), AllocError>
    ensures { OnOk result (out.new.items ≡ out.old.items
        ++ line_of (word verb) (lock.now ∷ decimal key ∷ decimal value ∷ [])) }
{
    push_verb(out, verb)?;
    push_word(out, lock)?;
    push_number(out, key)?;
    push_last_number(out, value)
}

// A number that ends its line.
fn push_last_number(out: &mut Vec<u8>, n: u64) -> Result<(), AllocError>
    ensures { OnOk result (out.new.items ≡ out.old.items ++ 32 ∷ (decimal n ++ 10 ∷ [])) }
{
    push_number(out, n)?;
    out.push(b'\n')?;
    Ok(())
}
