//! Writing a script: the canonical text of a plan, which is the definition `canonical` of `lock_model`. Where some text
//! gives the plan, reading its canonical text gives it again.
ghost use Rattle.std.specs.Prelude.{◌≡◌, ◌++◌, [], map, flat_map, IfOk, OnOk};
ghost use Rattle.lock_model.specs.Text.{spaced, thread_name};
ghost use Rattle.lock_model.specs.Script.Canonical.{canonical, lock_line, chan_line, thread_lines, schedule_line, schedule_lines};

mod operations;
mod words;

use crate::statement::Verb;
use lock_model::{ChanDecl, LockDecl, Plan, ThreadDecl, ThreadNo, push_number, push_word};
use operations::push_operations;
use std::alloc::{AllocError, Global};
use words::{push_line, push_verb};

/// Names on a line of the schedule, save on its last line.
const NAMES: usize = 10;

/// The canonical text of a plan: the header, the locks, the condition variables and channels, the threads with their
/// operations, the schedule in lines of ten names, and `done`. It fails where memory runs out.
///
/// ```
/// let plan = read_script(alloc, b"lockrun 1\n# one lock\nmutex m k\ndone\n")?;
/// let text = write_script(alloc, &plan)?; // without the comment
/// ```
#[tactic(auto, unfolding(lock_model::specs::Script::Canonical::canonical))]
pub fn write_script(alloc: Global, plan: &Plan) -> Result<Vec<u8>, AllocError>
    ensures { IfOk result (λ text. text.items ≡ canonical plan.now) }
{
    let mut out = Vec::from_slice(alloc, b"lockrun 1\n")?;
    push_locks(&mut out, plan, plan.locks.as_slice())?;
    push_chans(&mut out, plan, plan.chans.as_slice())?;
    push_threads(&mut out, alloc, plan, plan.threads.as_slice())?;
    push_schedule(&mut out, plan)?;
    push_verb(&mut out, Verb::Done)?;
    out.push(b'\n')?;
    Ok(out)
}

fn push_locks(out: &mut Vec<u8>, plan: &Plan, locks: &[LockDecl]) -> Result<(), AllocError>
    ensures { OnOk result (out.new.items
        ≡ out.old.items ++ flat_map (lock_line plan.now) locks.now) }
{
    for lock in locks {
        let class = plan.class_name(lock.class);
        push_line(
            out,
            Verb::Declare(lock.kind),
            &[lock.name.as_bytes(), class],
        )?;
    }
    Ok(())
}

fn push_chans(out: &mut Vec<u8>, plan: &Plan, chans: &[ChanDecl]) -> Result<(), AllocError>
    ensures { OnOk result (out.new.items
        ≡ out.old.items ++ flat_map (chan_line plan.now) chans.now) }
{
    for chan in chans {
        let lock = plan.lock_name(chan.lock);
        push_line(
            out,
            Verb::DeclareChan(chan.cond),
            &[chan.name.as_bytes(), lock],
        )?;
    }
    Ok(())
}

fn push_threads(
    out: &mut Vec<u8>,
    alloc: Global,
    plan: &Plan,
    threads: &[ThreadDecl],
) -> Result<(), AllocError>
    ensures { OnOk result (out.new.items
        ≡ out.old.items ++ flat_map (thread_lines plan.now) threads.now) }
{
    for thread in threads {
        push_thread(out, alloc, plan, thread)?;
    }
    Ok(())
}

fn push_thread(
    out: &mut Vec<u8>,
    alloc: Global,
    plan: &Plan,
    thread: &ThreadDecl,
) -> Result<(), AllocError>
    ensures { OnOk result (out.new.items ≡ out.old.items ++ thread_lines plan.now thread.now) }
{
    push_verb(out, Verb::Thread)?;
    push_word(out, thread.name.as_bytes())?;
    push_number(out, u64::from(thread.base.0))?;
    out.push(b'\n')?;
    push_operations(out, alloc, plan, thread.ops.as_slice())?;
    push_line(out, Verb::End, &[])
}

fn push_schedule(out: &mut Vec<u8>, plan: &Plan) -> Result<(), AllocError>
    ensures { OnOk result (out.new.items
        ≡ out.old.items ++ schedule_lines plan.now plan.now.schedule) }
{
    let mut rest = plan.schedule.as_slice();
    while !rest.is_empty() {
        let (line, behind) = rest.split_at(rest.len().min(NAMES));
        push_turns(out, plan, line)?;
        rest = behind;
    }
    Ok(())
}

// A line of the schedule.
fn push_turns(out: &mut Vec<u8>, plan: &Plan, threads: &[ThreadNo]) -> Result<(), AllocError>
    ensures { OnOk result (out.new.items ≡ out.old.items ++ schedule_line plan.now threads.now) }
{
    push_verb(out, Verb::Schedule)?;
    push_names(out, plan, threads)?;
    out.push(b'\n')?;
    Ok(())
}

fn push_names(out: &mut Vec<u8>, plan: &Plan, threads: &[ThreadNo]) -> Result<(), AllocError>
    ensures { OnOk result (out.new.items
        ≡ out.old.items ++ spaced (map (λ t. thread_name plan.now t.0) threads.now)) }
{
    for thread in threads {
        push_word(out, plan.thread_name(*thread))?;
    }
    Ok(())
}
