//! A sleep queue on which four threads sleep.
ghost use Rattle.std.specs.Prelude.{◌≡◌, [], IfOk};

use lock_model::{ChanNo, Prio, QueueName, Side, ThreadNo};
use sleep_queues::{SleepQueue, SleepTaken, Sleeper};
use std::alloc::{AllocError, Global};
use std::test::Fail;
use thread_records::ThreadRec;

/// Threads 0 to 3 sleep on channel 4, in this order: the first with 100, the others with 50.
fn four_sleepers(alloc: Global) -> Result<Box<SleepQueue>, AllocError>
    ensures { IfOk result (λ b. b.value.next ≡ []) }
{
    let mut head = SleepQueue::make(alloc, ThreadNo(0))?;
    let first = Sleeper::make(alloc, ThreadNo(0))?;
    head.begin(QueueName::Chan(ChanNo(4)), first, Prio(100), Side::X);
    let (own, node) = ThreadRec::make(alloc, ThreadNo(1), Prio(50))?.lend_sleepq();
    head.add(own, node, Prio(50), Side::X);
    let (own, node) = ThreadRec::make(alloc, ThreadNo(2), Prio(50))?.lend_sleepq();
    head.add(own, node, Prio(50), Side::X);
    let (own, node) = ThreadRec::make(alloc, ThreadNo(3), Prio(50))?.lend_sleepq();
    head.add(own, node, Prio(50), Side::X);
    Ok(head)
}

/// The first that was taken, and the sleep queue that it takes back.
fn popped(taken: &mut SleepTaken) -> Option<(u8, u8)> {
    let mut node = taken.pop()?;
    Some((node.thread().0, node.take_sleepq()?.number().0))
}

/// The one that a call took.
fn taken_by(taken: Option<SleepTaken>) -> Option<(u8, u8)> {
    popped(&mut taken.unwrap_or(SleepTaken::empty()))
}

#[test]
fn sleeps_and_wakes(rt: HostRuntime) -> Result<(), Fail> {
    let mut head = four_sleepers(rt.alloc())?;
    assert!(rt; head.name() == Some(QueueName::Chan(ChanNo(4))));
    assert!(rt; head.count(Side::X) == 4 && head.count(Side::S) == 0);
    assert!(rt; taken_by(head.signal(Side::S)).is_none());
    assert!(rt; taken_by(head.signal(Side::X)) == Some((1, 3)));
    assert!(rt; taken_by(head.remove(ThreadNo(2))) == Some((2, 2)));
    assert!(rt; taken_by(head.remove(ThreadNo(2))).is_none());
    let mut rest = head.broadcast(Side::X);
    assert!(rt; head.is_empty() && !rest.is_empty());
    rest.fill_last(head);
    assert!(rt; popped(&mut rest) == Some((0, 1)) && popped(&mut rest) == Some((3, 0)));
    assert!(rt; popped(&mut rest).is_none());
    Ok(())
}
