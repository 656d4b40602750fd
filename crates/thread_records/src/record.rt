//! The record of a thread.
ghost use Rattle.std.specs.Prelude.{◌≡◌, [], ◌∷◌, None, Some, false, true, IfOk, IsSome, option_map};
ghost use Rattle.turnstile_core.specs.Seen.{idle, IsEmpty};
ghost use Rattle.sleep_queues.specs.Seen.{idle as idle_sleepq};
ghost use Rattle.thread_records.specs.Records.{made, with_base, with_loans, IsWellFormed};
ghost use Rattle.thread_records.specs.Loans.{has_loan, loan_for, alone, with_prio, without_loan};

use crate::loans;
use lock_model::{LockNo, Prio, QueueName, ThreadNo};
use sleep_queues::{SleepQueue, Sleeper};
use std::alloc::{AllocError, Global};
use std::marker::Model;
use turnstile_core::{Loan, Turnstile, Waiter};
use wait_objects::{Home, Lending, Sleeping};

/// The record of a thread. Its effective priority is the least number of its base and its loans.
#[derive(Drop)]
pub struct ThreadRec {
    thread: ThreadNo,
    base: Prio,
    eff: Prio,
    turnstile: Home<Lending>,
    sleepq: Home<Sleeping>,
    loans: Option<Box<Loan>>,
    on: Option<QueueName>,
}

impl Model for ThreadRec {
    ghost use Rattle.thread_records.specs.Records.{Record};

    ghost Value = { Record };

    ghost use Rattle.thread_records.specs.Inside.{seen_record, IsSound};

    ghost view = { seen_record };

    ghost invariant = { IsSound };
}

impl ThreadRec {
    /// The record of a thread that has its turnstile, its sleep queue and their nodes at home, no loan, and
    /// stands on no queue.
    pub fn make(alloc: Global, t: ThreadNo, base: Prio) -> Result<Box<ThreadRec>, AllocError>
        ensures { IfOk result (λ b. b.value ≡ made t.0 base.0) }
    {
        let turnstile = Home::of(Turnstile::make(alloc, t)?, Waiter::make(alloc, t)?);
        let sleepq = Home::of(SleepQueue::make(alloc, t)?, Sleeper::make(alloc, t)?);
        let record = ThreadRec {
            thread: t,
            base,
            eff: base,
            turnstile,
            sleepq,
            loans: None,
            on: None,
        };
        Ok(Box::new(alloc, record)?)
    }

    /// Lends the turnstile, which is idle and has its loan node, and the empty node. Both are at home.
    pub fn lend_turnstile(&mut self) -> (Box<Turnstile>, Box<Waiter>)
        requires { IsSome self.old.turnstile }
        ensures turnstile { option_map idle self.old.turnstile ≡ Some result.0.value }
        ensures empty { IsEmpty result.1.value }
        ensures node { result.1.value.place.thread ≡ self.old.thread }
        ensures left { self.new ≡ record self.old { turnstile = None } }
    {
        self.turnstile.lend()
    }

    /// Takes the node back, and the turnstile that it holds. Both places are empty, and the node is
    /// this thread's and stands in no list.
    pub fn take_back(&mut self, node: Box<Waiter>)
        requires away { self.old.turnstile ≡ None }
        requires holds { IsSome node.value.place.object }
        requires own { node.value.place.thread ≡ self.old.thread }
        requires alone { node.value.next ≡ [] }
        ensures { self.new ≡ record self.old { turnstile = node.value.place.object } }
    {
        self.turnstile.take_back(node);
    }

    /// Lends the sleep queue, which is idle, and the empty node. Both are at home.
    pub fn lend_sleepq(&mut self) -> (Box<SleepQueue>, Box<Sleeper>)
        requires { IsSome self.old.sleep_queue }
        ensures sleep_queue { option_map idle_sleepq self.old.sleep_queue ≡ Some result.0.value }
        ensures empty { IsEmpty result.1.value }
        ensures node { result.1.value.place.thread ≡ self.old.thread }
        ensures left { self.new ≡ record self.old { sleep_queue = None } }
    {
        self.sleepq.lend()
    }

    /// Takes the node back, and the sleep queue that it holds. Both places are empty, and the node is
    /// this thread's and stands in no list.
    pub fn take_back_sleepq(&mut self, node: Box<Sleeper>)
        requires away { self.old.sleep_queue ≡ None }
        requires holds { IsSome node.value.place.object }
        requires own { node.value.place.thread ≡ self.old.thread }
        requires alone { node.value.next ≡ [] }
        ensures { self.new ≡ record self.old { sleep_queue = node.value.place.object } }
    {
        self.sleepq.take_back(node);
    }

    /// Changes the base, and the effective priority with it.
    pub fn set_base(&mut self, prio: Prio)
        ensures { self.new ≡ with_base prio.0 self.old }
    {
        self.base = prio;
        self.eff = loans::least(&self.loans, prio);
    }

    /// Puts a loan with nothing behind it. No loan for its lock stands.
    pub fn put_loan(&mut self, mut loan: Box<Loan>)
        requires alone { loan.value.next ≡ [] }
        requires absent { has_loan loan.value.terms.lock self.old.loans ≡ false }
        ensures { self.new ≡ with_loans (loan.value.terms ∷ self.old.loans) self.old }
    {
        let first: &mut Loan = &mut loan;
        self.eff = Prio(first.prio.0.min(self.eff.0));
        first.next = self.loans.take();
        self.loans = Some(loan);
    }

    /// Sets the priority of the loan for a lock. It stands.
    pub fn set_loan(&mut self, l: LockNo, prio: Prio)
        requires { has_loan l.0 self.old.loans ≡ true }
        ensures { self.new ≡ with_loans (with_prio l.0 prio.0 self.old.loans) self.old }
    {
        self.eff = loans::set(&mut self.loans, l, prio, self.base);
    }

    /// Takes the loan for a lock. `None` comes exactly where none stands.
    pub fn drop_loan(&mut self, l: LockNo) -> Option<Box<Loan>>
        ensures taken { option_map (λ b. b.value) result ≡ option_map alone (loan_for l.0 self.old.loans) }
        ensures left { self.new ≡ with_loans (without_loan l.0 self.old.loans) self.old }
    {
        let (loan, least) = loans::take(&mut self.loans, l, self.base);
        self.eff = least;
        loan
    }

    /// The thread that the record is of.
    pub fn thread(&self) -> ThreadNo
        ensures { result.0 ≡ self.now.thread }
    {
        self.thread
    }

    /// The base priority.
    pub fn base(&self) -> Prio
        ensures { result.0 ≡ self.now.base }
    {
        self.base
    }

    /// The effective priority.
    pub fn eff(&self) -> Prio
        ensures value { result.0 ≡ self.now.effective }
        ensures well_formed { IsWellFormed self.now }
    {
        self.eff
    }

    /// The queue that the record names, on which its thread stands or from which it was taken.
    pub fn on(&self) -> Option<QueueName>
        ensures { result ≡ self.now.on }
    {
        self.on
    }

    /// Names a queue, or none.
    pub fn set_on(&mut self, q: Option<QueueName>)
        ensures { self.new ≡ record self.old { on = q } }
    {
        self.on = q;
    }
}
