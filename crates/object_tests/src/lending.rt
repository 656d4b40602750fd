//! Hops of a lending walk over a turnstile on which three threads wait for lock 0, which thread 7 owns.
use crate::turnstiles::three_waiters;
use chain_table::Chain;
use lock_model::{LockNo, Prio, QueueName, Side, ThreadNo};
use prio_lending::{Walk, lend, settle_release, shift};
use std::test::Fail;
use thread_records::ThreadRec;
use turnstile_core::Turnstile;

const LOCK: LockNo = LockNo(0);

#[test]
fn settles_and_lends_to_the_next(rt: HostRuntime) -> Result<(), Fail> {
    let mut head = three_waiters(rt.alloc())?;
    head.claim(ThreadNo(7));
    let mut owner = ThreadRec::make(rt.alloc(), ThreadNo(7), Prio(100))?;
    assert!(rt; lend(&mut head, &mut owner, true) == Walk::AtThread(ThreadNo(7)));
    settle_release(&mut head, &mut owner, LOCK);
    assert!(rt; owner.eff() == Prio(100) && head.owner().is_none());
    let mut next = ThreadRec::make(rt.alloc(), ThreadNo(8), Prio(70))?;
    head.claim(ThreadNo(8));
    assert!(rt; lend(&mut head, &mut next, true) == Walk::AtThread(ThreadNo(8)));
    assert!(rt; next.eff() == Prio(50));
    Ok(())
}

#[test]
fn sorts_anew(rt: HostRuntime) -> Result<(), Fail> {
    let mut chain = Chain::<Turnstile>::empty();
    let mut head = three_waiters(rt.alloc())?;
    head.claim(ThreadNo(7));
    chain.place(head);
    let rec = ThreadRec::make(rt.alloc(), ThreadNo(2), Prio(50))?;
    assert!(rt; shift(&mut chain, LOCK, &rec, true) == Walk::AtLock(LOCK));
    // It passes the first who came, and stands behind its equal.
    let head = chain
        .find(QueueName::Lock(LOCK))
        .ok_or("the head is there")?;
    assert!(rt; head.waiter_at(Side::X, 0) == Some((ThreadNo(1), Prio(50))));
    assert!(rt; head.waiter_at(Side::X, 1) == Some((ThreadNo(2), Prio(50))));
    assert!(rt; head.waiter_at(Side::X, 2) == Some((ThreadNo(0), Prio(100))));
    Ok(())
}
