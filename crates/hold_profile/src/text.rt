//! The printed text of a profile: a line for each lock, one for each pair of classes, and a last line that says how the
//! run ended.
ghost use Rattle.std.specs.Prelude.{◌≡◌, ◌++◌, ◌∷◌, [], codes, decimal, flat_map, zip, IfOk, OnOk};
ghost use Rattle.lock_model.specs.Text.{spaced, class_name};
ghost use Rattle.lock_history.specs.Endings.{ending_of};
ghost use Rattle.hold_profile.specs.ProfileText.{profile_text, lock_text, order_text};

use crate::lines::{LockLine, OrderLine, Profile};
use lock_history::{Last, last_word};
use lock_model::{LockDecl, Plan, push_number, push_word};
use std::alloc::{AllocError, Global};

/// The text of a profile that has a line for each lock of the plan: `lock NAME class CLASS holds A total B longest C
/// together D busy E waits F halted G` for each lock by its number, `order CLASS CLASS N` for each pair of classes, and
/// how the run ended. It fails where memory runs out.
#[tactic(auto, unfolding(crate::specs::ProfileText::profile_text))]
pub fn print_profile(
    alloc: Global,
    plan: &Plan,
    p: &Profile,
    last: Last,
) -> Result<Vec<u8>, AllocError>
    ensures { IfOk result (λ text. text.items ≡ profile_text plan.now p.now (ending_of last)) }
{
    let mut out = Vec::new(alloc);
    push_locks(&mut out, plan, plan.locks.as_slice(), p.locks.as_slice())?;
    push_orders(&mut out, plan, p.orders.as_slice())?;
    out.extend_from_slice(last_word(last))?;
    out.push(b'\n')?;
    Ok(out)
}

fn push_locks(
    out: &mut Vec<u8>,
    plan: &Plan,
    locks: &[LockDecl],
    lines: &[LockLine],
) -> Result<(), AllocError>
    ensures { OnOk result (out.new.items
        ≡ out.old.items ++ flat_map (lock_text plan.now) (zip locks.now lines.now)) }
{
    for (lock, line) in locks.iter().zip(lines) {
        push_lock(out, plan, lock, *line)?;
    }
    Ok(())
}

fn push_lock(
    out: &mut Vec<u8>,
    plan: &Plan,
    lock: &LockDecl,
    line: LockLine,
) -> Result<(), AllocError>
    ensures { OnOk result (out.new.items ≡ out.old.items ++ lock_text plan.now (lock.now, line)) }
{
    push_names(out, plan, lock)?;
    push_sections(out, line)?;
    push_contests(out, line)?;
    out.push(b'\n')?;
    Ok(())
}

// The lock and its class.
fn push_names(out: &mut Vec<u8>, plan: &Plan, lock: &LockDecl) -> Result<(), AllocError>
    ensures { OnOk result (out.new.items ≡ out.old.items ++ (codes "lock" ++ spaced (
        lock.now.name ∷ codes "class" ∷ class_name plan.now lock.now.class.0 ∷ []))) }
{
    out.extend_from_slice(b"lock")?;
    push_word(out, lock.name.as_bytes())?;
    push_word(out, b"class")?;
    push_word(out, plan.class_name(lock.class))
}

// What is counted of a lock's sections.
fn push_sections(out: &mut Vec<u8>, line: LockLine) -> Result<(), AllocError>
    ensures { OnOk result (out.new.items ≡ out.old.items ++ spaced (
        codes "holds" ∷ decimal line.holds ∷ codes "total" ∷ decimal line.total
        ∷ codes "longest" ∷ decimal line.longest ∷ codes "together" ∷ decimal line.together
        ∷ [])) }
{
    push_count(out, b"holds", u64::from(line.holds))?;
    push_count(out, b"total", line.total)?;
    push_count(out, b"longest", u64::from(line.longest))?;
    push_count(out, b"together", u64::from(line.together))
}

// What is counted of those that didn't get it, or gave it up.
fn push_contests(out: &mut Vec<u8>, line: LockLine) -> Result<(), AllocError>
    ensures { OnOk result (out.new.items ≡ out.old.items ++ spaced (
        codes "busy" ∷ decimal line.busy ∷ codes "waits" ∷ decimal line.waits
        ∷ codes "halted" ∷ decimal line.halted ∷ [])) }
{
    push_count(out, b"busy", u64::from(line.busy))?;
    push_count(out, b"waits", u64::from(line.waits))?;
    push_count(out, b"halted", u64::from(line.halted))
}

// A count, behind a word for it.
fn push_count(out: &mut Vec<u8>, word: &[u8], n: u64) -> Result<(), AllocError>
    ensures { OnOk result (out.new.items ≡ out.old.items ++ spaced (word.now ∷ decimal n ∷ [])) }
{
    push_word(out, word)?;
    push_number(out, n)
}

fn push_orders(out: &mut Vec<u8>, plan: &Plan, orders: &[OrderLine]) -> Result<(), AllocError>
    ensures { OnOk result (out.new.items
        ≡ out.old.items ++ flat_map (order_text plan.now) orders.now) }
{
    for order in orders {
        push_order(out, plan, *order)?;
    }
    Ok(())
}

fn push_order(out: &mut Vec<u8>, plan: &Plan, order: OrderLine) -> Result<(), AllocError>
    ensures { OnOk result (out.new.items ≡ out.old.items ++ order_text plan.now order) }
{
    out.extend_from_slice(b"order")?;
    push_word(out, plan.class_name(order.first))?;
    push_word(out, plan.class_name(order.second))?;
    push_number(out, u64::from(order.count))?;
    out.push(b'\n')?;
    Ok(())
}
