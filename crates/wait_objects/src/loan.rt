//! The node by which the owner of a lock is lent the priority of its most important waiter. Each
//! turnstile is made with one. It is in that turnstile, or among the loans of one thread's record.

use lock_model::{LockNo, Prio, ThreadNo};
use std::marker::Model;

/// A loan. Whoever keeps several links them by `next`.
#[derive(Drop)]
pub struct Loan {
    /// The number of the turnstile that the node belongs to.
    pub number: ThreadNo,
    /// The lock for which the priority is lent. It has no meaning while the node is at home.
    pub l: LockNo,
    /// The priority that is lent. It has no meaning while the node is at home.
    pub prio: Prio,
    /// The loan behind this one, where several are kept.
    pub next: Option<Box<Loan>>,
}

impl Model for Loan {
    ghost use Rattle.wait_objects.specs.Turnstiles.Seen.{Loan as Seen};

    ghost Value = { Seen };

    ghost use Rattle.wait_objects.specs.Turnstiles.Loans.{seen_loan, loan_size};
    ghost use Rattle.std.proofs.Common.{arith};

    ghost view = { seen_loan };

    ghost size = { loan_size };

    ghost size_decreases = { λ a h. Prim.grind arith };
}
