//! A turnstile on which three threads wait. The tests of chains and of lending begin with its heads.
ghost use Rattle.std.specs.Prelude.{◌≡◌, None, Some, true, [], ◌∷◌, IfOk};
ghost use Rattle.lock_model.specs.declared.plan.Side.TheVariants.{X};
ghost use Rattle.turnstile_core.specs.Seen.{idle_contents};
ghost use Rattle.turnstile_core.specs.Changes.{begun};

use lock_model::{LockNo, Prio, QueueName, Side, ThreadNo};
use std::alloc::{AllocError, Global};
use std::test::Fail;
use thread_records::ThreadRec;
use turnstile_core::{Taken, Turnstile, Waiter};

/// The turnstile of a thread, lent to a lock for which the thread waits with 100.
pub(crate) fn lent(alloc: Global, thread: u8, l: u8) -> Result<Box<Turnstile>, AllocError>
    ensures contents { IfOk result (λ b. b.value.contents
        ≡ begun l (record { thread = thread; kept = 100 }) X (idle_contents thread)) }
    ensures link { IfOk result (λ b. b.value.next ≡ []) }
{
    let mut head = Turnstile::make(alloc, ThreadNo(thread))?;
    let node = Waiter::make(alloc, ThreadNo(thread))?;
    head.begin(LockNo(l), node, Prio(100), Side::X);
    Ok(head)
}

/// Threads 0, 1 and 2 wait for lock 0, in this order: the second with 50, the others with 100.
pub(crate) fn three_waiters(alloc: Global) -> Result<Box<Turnstile>, AllocError>
    ensures waiters { IfOk result (λ b. b.value.contents.exclusive
        ≡ record { thread = 1; kept = 50 } ∷ record { thread = 0; kept = 100 }
        ∷ record { thread = 2; kept = 100 } ∷ []) }
    ensures own { IfOk result (λ b. b.value.contents.own
        ≡ record { lock = Some 0; owner = None; loan_home = true }) }
    ensures link { IfOk result (λ b. b.value.next ≡ []) }
{
    let mut head = lent(alloc, 0, 0)?;
    let (own, node) = ThreadRec::make(alloc, ThreadNo(1), Prio(50))?.lend_turnstile();
    head.wait(own, node, Prio(50), Side::X);
    let (own, node) = ThreadRec::make(alloc, ThreadNo(2), Prio(100))?.lend_turnstile();
    head.wait(own, node, Prio(100), Side::X);
    Ok(head)
}

/// The first that was taken, and the turnstile that it takes back.
fn popped(taken: &mut Taken) -> Option<(u8, u8)> {
    let mut node = taken.pop()?;
    Some((node.thread().0, node.take_turnstile()?.number().0))
}

#[test]
fn waits_and_wakes(rt: HostRuntime) -> Result<(), Fail> {
    let mut head = three_waiters(rt.alloc())?;
    assert!(rt; head.name() == Some(QueueName::Lock(LockNo(0))));
    assert!(rt; head.waiter_at(Side::X, 0) == Some((ThreadNo(1), Prio(50))));
    assert!(rt; head.waiter_at(Side::X, 1) == Some((ThreadNo(0), Prio(100))));
    assert!(rt; head.waiter_at(Side::X, 2) == Some((ThreadNo(2), Prio(100))));
    assert!(rt; head.free_at(0) == Some(ThreadNo(2)) && head.free_at(1) == Some(ThreadNo(1)));
    assert!(rt; head.best() == Some(Prio(50)));
    let mut taken = head.signal(Side::X);
    assert!(rt; popped(&mut taken) == Some((1, 2)) && taken.is_empty());
    let mut taken = head.broadcast(Side::X);
    assert!(rt; head.is_empty());
    taken.fill_last(head);
    assert!(rt; popped(&mut taken) == Some((0, 1)) && popped(&mut taken) == Some((2, 0)));
    assert!(rt; popped(&mut taken).is_none());
    Ok(())
}
