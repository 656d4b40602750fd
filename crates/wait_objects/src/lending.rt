//! What a turnstile has beside its lists: the lock that it belongs to, the lock's owner, and the loan node by which
//! the waiters lend to it.
ghost use Rattle.std.specs.Prelude.{◌≡◌, true, false, [], None, Some, IfOk, IfSome, is_some, option_map};
ghost use Rattle.lock_model.specs.Queues.{lock_queue};
ghost use Rattle.wait_objects.specs.Turnstiles.Seen.{home, lock_named};

use crate::loan::Loan;
use crate::own::Own;
use lock_model::{LockNo, Prio, QueueName, ThreadNo};
use std::alloc::{AllocError, Global};
use std::marker::Model;

/// What a turnstile has of its own.
#[derive(Drop)]
pub struct Lending {
    lock: Option<LockNo>,
    owner: Option<ThreadNo>,
    loan: Option<Box<Loan>>,
}

impl Model for Lending {
    ghost use Rattle.wait_objects.specs.Turnstiles.Seen.{Lending as Seen};

    ghost Value = { Seen };

    ghost use Rattle.wait_objects.specs.Turnstiles.Loans.{seen_lending, IsAlone};

    ghost view = { seen_lending };

    ghost invariant = { IsAlone };
}

impl Own for Lending {
    const RANKED: bool = true;

    ghost RANKED = { true };

    ghost home = { home };

    ghost name_of = { λ a. option_map lock_queue a.lock };

    fn name(&self) -> Option<QueueName> {
        self.lock.map(QueueName::Lock)
    }

    ghost with_name = { λ q a. record a { lock = lock_named q } };

    fn set_name(&mut self, q: Option<QueueName>) {
        self.lock = match q {
            Some(QueueName::Lock(l)) => Some(l),
            Some(QueueName::Chan(_)) | None => None,
        };
    }
}

impl Lending {
    /// No lock and no owner, and a loan node at home.
    pub(crate) fn make(alloc: Global, id: ThreadNo) -> Result<Lending, AllocError>
        ensures { IfOk result (λ a. a ≡ home) }
    {
        let loan = Loan {
            number: id,
            l: LockNo(0),
            prio: Prio(255),
            next: None,
        };
        Ok(Lending {
            lock: None,
            owner: None,
            loan: Some(Box::new(alloc, loan)?),
        })
    }

    pub(crate) fn owner(&self) -> Option<ThreadNo>
        ensures { option_map (λ t. t.0) result ≡ self.now.owner }
    {
        self.owner
    }

    pub(crate) fn set_owner(&mut self, t: Option<ThreadNo>)
        ensures { self.new ≡ record self.old { owner = option_map (λ t. t.0) t } }
    {
        self.owner = t;
    }

    /// Takes the loan node.
    pub(crate) fn take_loan(&mut self) -> Option<Box<Loan>>
        ensures home { is_some result ≡ self.old.loan_home }
        ensures alone { IfSome result (λ b. b.value.next ≡ []) }
        ensures left { self.new ≡ record self.old { loan_home = false } }
    {
        self.loan.take()
    }

    /// Returns the loan node, with nothing behind it.
    pub(crate) fn put_home(&mut self, loan: Box<Loan>)
        requires { loan.value.next ≡ [] }
        ensures { self.new ≡ record self.old { loan_home = true } }
    {
        self.loan = Some(loan);
    }
}
