//! One record, step by step.
ghost use Rattle.std.specs.Prelude.{◌≡◌, [], IfOk};

use lock_model::{ChanNo, LockNo, Prio, QueueName, Side, ThreadNo};
use std::alloc::{AllocError, Global};
use std::test::Fail;
use thread_records::ThreadRec;
use turnstile_core::{Loan, Turnstile};

#[test]
fn takes_back_what_it_lent(rt: HostRuntime) -> Result<(), Fail> {
    let mut rec = ThreadRec::make(rt.alloc(), ThreadNo(3), Prio(100))?;
    let (mut head, node) = rec.lend_turnstile();
    head.begin(LockNo(0), node, Prio(100), Side::X);
    let mut taken = head.broadcast(Side::X);
    taken.fill_last(head);
    rec.take_back(taken.pop().unwrap());
    let (mut head, node) = rec.lend_sleepq();
    head.begin(QueueName::Chan(ChanNo(0)), node, Prio(100), Side::X);
    let mut taken = head.broadcast(Side::X);
    taken.fill_last(head);
    rec.take_back_sleepq(taken.pop().unwrap());
    assert!(rt; rec.lend_turnstile().0.number() == ThreadNo(3));
    assert!(rt; rec.lend_sleepq().0.number() == ThreadNo(3));
    Ok(())
}

/// A loan for a lock, by the loan node of a thread's turnstile.
fn loan(alloc: Global, thread: u8, l: u8, prio: u8) -> Result<Box<Loan>, AllocError>
    ensures lock { IfOk result (λ b. b.value.terms.lock ≡ l) }
    ensures alone { IfOk result (λ b. b.value.next ≡ []) }
{
    let mut loan = Turnstile::make(alloc, ThreadNo(thread))?
        .take_loan()
        .unwrap();
    loan.l = LockNo(l);
    loan.prio = Prio(prio);
    Ok(loan)
}

#[test]
fn effective_priority_follows(rt: HostRuntime) -> Result<(), Fail> {
    let mut rec = ThreadRec::make(rt.alloc(), ThreadNo(0), Prio(200))?;
    assert!(rt; rec.base() == Prio(200) && rec.eff() == Prio(200));
    rec.put_loan(loan(rt.alloc(), 1, 0, 60)?);
    assert!(rt; rec.eff() == Prio(60));
    rec.put_loan(loan(rt.alloc(), 2, 1, 40)?);
    assert!(rt; rec.eff() == Prio(40));
    rec.set_loan(LockNo(1), Prio(70));
    assert!(rt; rec.eff() == Prio(60));
    rec.set_base(Prio(50));
    assert!(rt; rec.base() == Prio(50) && rec.eff() == Prio(50));
    rec.set_base(Prio(220));
    assert!(rt; rec.eff() == Prio(60));
    let dropped = rec.drop_loan(LockNo(0)).ok_or("the loan stands")?;
    assert!(rt; dropped.number == ThreadNo(1) && rec.eff() == Prio(70));
    assert!(rt; rec.drop_loan(LockNo(0)).is_none() && rec.drop_loan(LockNo(1)).is_some());
    assert!(rt; rec.eff() == Prio(220) && rec.on().is_none());
    rec.set_on(Some(QueueName::Lock(LockNo(5))));
    assert!(rt; rec.on() == Some(QueueName::Lock(LockNo(5))));
    Ok(())
}
