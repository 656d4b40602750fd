//! A chain of turnstiles, as a thread that has the chain uses it, and the places of chains.
use crate::turnstiles::lent;
use chain_table::{Chain, slot_of};
use lock_model::{ChanNo, LockNo, QueueName, ThreadNo};
use std::test::Fail;
use turnstile_core::Turnstile;

const QUEUES: [QueueName; 4] = [
    QueueName::Lock(LockNo(0)),
    QueueName::Lock(LockNo(16)),
    QueueName::Lock(LockNo(32)),
    QueueName::Chan(ChanNo(0)),
];

/// The number of the turnstile that is the head for each queue.
fn numbers(chain: &Chain<Turnstile>) -> [Option<u8>; 4] {
    QUEUES.map(|q| Some(chain.find(q)?.number().0))
}

#[test]
fn heads_come_and_go(rt: HostRuntime) -> Result<(), Fail> {
    let mut chain = Chain::<Turnstile>::empty();
    chain.place(lent(rt.alloc(), 1, 0)?);
    chain.place(lent(rt.alloc(), 2, 16)?);
    chain.place(lent(rt.alloc(), 3, 32)?);
    assert!(rt; numbers(&chain) == [Some(1), Some(2), Some(3), None]);
    let taken = chain.unplace(QUEUES[1]).ok_or("the head is there")?;
    assert!(rt; taken.number() == ThreadNo(2) && taken.next().is_none());
    assert!(rt; chain.unplace(QUEUES[1]).is_none());
    assert!(rt; numbers(&chain) == [Some(1), None, Some(3), None]);
    Ok(())
}

#[test]
fn slots(rt: HostRuntime) {
    for (number, chains, slot) in [(0, 1, 0), (63, 64, 63), (64, 64, 0), (17, 16, 1)] {
        assert!(rt; slot_of(number, chains) == slot, "of {number}");
    }
}
