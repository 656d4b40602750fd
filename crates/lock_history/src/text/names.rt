// The names of a plan's things on a line, each behind a space.
ghost use Rattle.std.specs.Prelude.{◌≡◌, ◌++◌, ◌∷◌, OnOk};
ghost use Rattle.lock_model.specs.Text.{thread_name, lock_name, chan_name, class_name};

use lock_model::{ChanNo, ClassNo, LockNo, Plan, ThreadNo, push_name, push_word};
use std::alloc::AllocError;

pub(super) fn push_thread_name(
    out: &mut Vec<u8>,
    plan: &Plan,
    t: ThreadNo,
) -> Result<(), AllocError>
    ensures { OnOk result (out.new.items ≡ out.old.items ++ 32 ∷ thread_name plan.now t.0) }
{
    match plan.threads.as_slice().get(usize::from(t.0)) {
        Some(thread) => push_name(out, &thread.name),
        None => push_word(out, b""),
    }
}

pub(super) fn push_lock_name(out: &mut Vec<u8>, plan: &Plan, l: LockNo) -> Result<(), AllocError>
    ensures { OnOk result (out.new.items ≡ out.old.items ++ 32 ∷ lock_name plan.now l.0) }
{
    match plan.locks.as_slice().get(usize::from(l.0)) {
        Some(lock) => push_name(out, &lock.name),
        None => push_word(out, b""),
    }
}

pub(super) fn push_chan_name(out: &mut Vec<u8>, plan: &Plan, c: ChanNo) -> Result<(), AllocError>
    ensures { OnOk result (out.new.items ≡ out.old.items ++ 32 ∷ chan_name plan.now c.0) }
{
    match plan.chans.as_slice().get(usize::from(c.0)) {
        Some(chan) => push_name(out, &chan.name),
        None => push_word(out, b""),
    }
}

pub(super) fn push_class_name(out: &mut Vec<u8>, plan: &Plan, k: ClassNo) -> Result<(), AllocError>
    ensures { OnOk result (out.new.items ≡ out.old.items ++ 32 ∷ class_name plan.now k.0) }
{
    match plan.classes.as_slice().get(usize::from(k.0)) {
        Some(class) => push_name(out, class),
        None => push_word(out, b""),
    }
}
