//! The hops of a walk: each is made on the boxes that it changes, and answers where the walk goes on.
ghost use Rattle.std.specs.Prelude.{◌≡◌, ◌≢◌, ℕ, ◌==◌, not, ◌&&◌, ◌||◌, true, false, [], ◌∷◌, None, Some, IsSome, IfSome, IsSomeAnd, is_some};
ghost use Rattle.turnstile_core.specs.Changes.{all_waiters, waits, with_owner, with_loan_home, moved};
ghost use Rattle.chain_table.specs.Chains.{head_of, without};
ghost use Rattle.thread_records.specs.Records.{with_loans, IsWellFormed};
ghost use Rattle.thread_records.specs.Loans.{loan_for, without_loan};
ghost use Rattle.prio_lending.specs.Hops.{loan_by, with_lent, carrier_for, node_out, with_contents, walk_to, walk_up};

use crate::walk::Walk;
use chain_table::Chain;
use lock_model::{LockNo, QueueName};
use thread_records::ThreadRec;
use turnstile_core::{Loan, Turnstile};

/// Lends the best priority of those who wait for a lock to its owner, in place of what it was lent for
/// that lock before. The walk goes on to the owner exactly where its effective priority changed and it
/// stands on a turnstile itself. The turnstile is the head for the lock and has a waiter, and its loan
/// node is at home, or carries the loan that the owner has for the lock.
pub fn lend(head: &mut Turnstile, owner: &mut ThreadRec, owner_on_turnstile: bool) -> Walk
    requires lock { IsSome head.old.contents.own.lock }
    requires waiter { all_waiters head.old.contents ≢ [] }
    requires owner { head.old.contents.own.owner ≡ Some owner.old.thread }
    requires node { IfSome head.old.contents.own.lock (λ l. carrier_for l owner.old.loans ≡ node_out head.old.contents) }
    ensures contents { head.new.contents ≡ with_loan_home false head.old.contents }
    ensures next { head.new.next ≡ head.old.next }
    ensures owner { owner.new ≡ with_loans owner.new.loans owner.old }
    ensures loans { IfSome head.old.contents.own.lock (λ l.
        owner.new.loans ≡ with_lent (loan_by l head.old.contents) owner.old.loans) }
    ensures lent { IfSome head.old.contents.own.lock (λ l. loan_for l owner.new.loans ≡ loan_by l head.old.contents) }
    ensures others { (k : ℕ) → head.old.contents.own.lock ≢ Some k → loan_for k owner.new.loans ≡ loan_for k owner.old.loans }
    ensures well_formed { IsWellFormed owner.new }
    ensures answer { result ≡ walk_to owner.old.thread (not (owner.new.effective == owner.old.effective) && owner_on_turnstile) }
{
    let before = owner.eff();
    set_lent(head, owner);
    if owner.eff() != before && owner_on_turnstile {
        Walk::AtThread(owner.thread())
    } else {
        Walk::None
    }
}

// Sets the owner's loan for the head's lock to the best priority of those who wait.
#[tactic(auto, using(crate::proofs::Carried::has_best))]
fn set_lent(head: &mut Turnstile, owner: &mut ThreadRec)
    requires lock { IsSome head.old.contents.own.lock }
    requires waiter { all_waiters head.old.contents ≢ [] }
    requires node { IfSome head.old.contents.own.lock (λ l. carrier_for l owner.old.loans ≡ node_out head.old.contents) }
    ensures contents { head.new.contents ≡ with_loan_home false head.old.contents }
    ensures next { head.new.next ≡ head.old.next }
    ensures owner { owner.new ≡ with_loans owner.new.loans owner.old }
    ensures loans { IfSome head.old.contents.own.lock (λ l.
        owner.new.loans ≡ with_lent (loan_by l head.old.contents) owner.old.loans) }
    ensures lent { IfSome head.old.contents.own.lock (λ l. loan_for l owner.new.loans ≡ loan_by l head.old.contents) }
    ensures others { (k : ℕ) → head.old.contents.own.lock ≢ Some k → loan_for k owner.new.loans ≡ loan_for k owner.old.loans }
{
    let Some(QueueName::Lock(l)) = head.name() else {
        return;
    };
    let Some(best) = head.best() else {
        return;
    };
    if let Some(mut node) = head.take_loan() {
        let loan: &mut Loan = &mut node;
        loan.l = l;
        loan.prio = best;
        owner.put_loan(node);
    } else {
        owner.set_loan(l, best);
    }
}

/// Sorts a thread that waits for a lock anew among those who wait, by its effective priority: it then
/// stands behind its equals. The walk goes on to the lock exactly where that has an owner, which `owned`
/// tells. The thread waits in the head for the lock, which is in the chain.
pub fn shift(chain: &mut Chain<Turnstile>, l: LockNo, rec: &ThreadRec, owned: bool) -> Walk
    requires waits { IsSomeAnd (head_of (QueueName.Lock l) chain.old) (λ h. waits rec.now.thread h.contents ≡ true) }
    requires owned { IfSome (head_of (QueueName.Lock l) chain.old) (λ h. owned ≡ is_some h.contents.own.owner) }
    ensures chain { IfSome (head_of (QueueName.Lock l) chain.old) (λ h. chain.new ≡ (QueueName.Lock l, with_contents (moved rec.now.thread rec.now.effective h.contents) h) ∷ without (QueueName.Lock l) chain.old) }
    ensures answer { result ≡ walk_up l.0 owned }
{
    if let Some(mut head) = chain.unplace(QueueName::Lock(l)) {
        head.adjust(rec.thread(), rec.eff());
        chain.place(head);
    }
    if owned { Walk::AtLock(l) } else { Walk::None }
}

/// Settles what was lent for a lock when its owner releases it: the loan for the lock is dropped where
/// it stands, its node goes home to the turnstile that it belongs to, and that has no owner any more.
/// The turnstile is the head for the lock, and a loan for it is carried by its loan node.
#[tactic(auto, using(crate::proofs::Carried::some_taken, crate::proofs::Carried::none_taken))]
pub fn settle_release(head: &mut Turnstile, owner: &mut ThreadRec, l: LockNo)
    requires lock { head.old.contents.own.lock ≡ Some l.0 }
    requires node { IfSome (carrier_for l.0 owner.old.loans) (λ n. node_out head.old.contents ≡ Some n) }
    ensures owner { owner.new ≡ with_loans (without_loan l.0 owner.old.loans) owner.old }
    ensures head { head.new ≡ with_contents (with_owner None (with_loan_home (is_some (loan_for l.0 owner.old.loans) || head.old.contents.own.loan_home) head.old.contents)) head.old }
{
    if let Some(node) = owner.drop_loan(l) {
        head.put_home(node);
    }
    head.disown();
}
