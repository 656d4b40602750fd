//! What waiters lend to an owner: by a claim, as in `turnstile_claim` of FreeBSD's subr_turnstile.c, and by the hops of
//! a lending walk, as in `propagate_priority` and `turnstile_adjust` there.
ghost use Rattle.std.specs.Prelude.{◌≡◌, ◌≢◌, ◌==◌, ◌&&◌, not, ℕ, Bool, [], ◌∷◌, true, false, None, Some, IfSome, IsSomeAnd, is_some};
ghost use Rattle.lock_model.specs.Config.{Config};
ghost use Rattle.lock_model.specs.Queues.{lock_queue, names_turnstile};
ghost use Rattle.lock_state.specs.State.{State};
ghost use Rattle.lock_state.specs.Facts.{Lawful};
ghost use Rattle.lock_state.specs.Steps.Lending.{MayClaim, after_claim, MayLend, after_lend, MayShift, after_shift};
ghost use Rattle.turnstile_core.specs.Changes.{name_of, waits, with_loan_home, moved};
ghost use Rattle.chain_table.specs.Chains.{head_of, without};
ghost use Rattle.chain_table.specs.Objects.{behind};
ghost use Rattle.thread_records.specs.Loans.{loan_for};
ghost use Rattle.thread_records.specs.Records.{with_loans, IsWellFormed};
ghost use Rattle.prio_lending.specs.Hops.{with_contents, walk_up, walk_to, loan_by, with_lent};
ghost use Rattle.lock_objects.specs.Represents.{RepresentsQueues, RepresentsRecord, queue_in, record_in, walk_of};
ghost use Rattle.lock_objects.specs.Hops.{CanBeLent, CanHop, record_claimed, chain_claimed};

use chain_table::Chain;
use lock_model::{LockNo, QueueName};
use prio_lending::{Walk, lend, shift};
use thread_records::ThreadRec;
use turnstile_core::Turnstile;

/// A thread gains a free lock whose turnstile stands there: it becomes the turnstile's owner, and is lent the best
/// priority of those who wait.
pub fn claim(chain: &mut Chain<Turnstile>, rec: &mut ThreadRec, l: LockNo)
    requires { IsSomeAnd (head_of (lock_queue l.0) chain.old) (CanBeLent l.0 rec.old) }
    ensures chain { IfSome (head_of (lock_queue l.0) chain.old) (λ h.
        chain.new ≡ chain_claimed l.0 rec.old.thread h chain.old) }
    ensures record { IfSome (head_of (lock_queue l.0) chain.old) (λ h.
        rec.new ≡ record_claimed l.0 h rec.old) }
    ensures lent { IfSome (head_of (lock_queue l.0) chain.old) (λ h.
        loan_for l.0 rec.new.loans ≡ loan_by l.0 h.contents) }
    ensures others { (k : ℕ) → k ≢ l.0 → loan_for k rec.new.loans ≡ loan_for k rec.old.loans }
    ensures queues { (c : Config) (s : State) (t h : ℕ) (by_try : Bool) → Lawful c s
        → MayClaim c s t l.0 h → RepresentsQueues c chain.old (queue_in s) s.loan_home
        → RepresentsRecord rec.old (record_in s t)
        → RepresentsQueues c chain.new (queue_in (after_claim c s t l.0 h by_try))
        (after_claim c s t l.0 h by_try).loan_home }
    ensures its_record { (c : Config) (s : State) (t h : ℕ) (by_try : Bool) → Lawful c s
        → MayClaim c s t l.0 h → RepresentsQueues c chain.old (queue_in s) s.loan_home
        → RepresentsRecord rec.old (record_in s t)
        → RepresentsRecord rec.new (record_in (after_claim c s t l.0 h by_try) t) }
{
    if let Some(mut head) = chain.unplace(QueueName::Lock(l)) {
        head.claim(rec.thread());
        put_lent(chain, head, rec, false);
    }
}

/// The owner of a lock's turnstile is lent the best priority of those who wait there. The walk goes on to the owner
/// where its effective priority changed and it stands on a turnstile itself, which `on_turnstile` tells.
pub fn lend_to_owner(
    chain: &mut Chain<Turnstile>,
    owner: &mut ThreadRec,
    l: LockNo,
    on_turnstile: bool,
) -> Walk
    requires { IsSomeAnd (head_of (lock_queue l.0) chain.old) (CanHop l.0 owner.old) }
    ensures chain { IfSome (head_of (lock_queue l.0) chain.old) (λ h. chain.new
        ≡ (lock_queue l.0, with_contents (with_loan_home false h.contents) h)
        ∷ without (lock_queue l.0) chain.old) }
    ensures owner { owner.new ≡ with_loans owner.new.loans owner.old }
    ensures lent { IfSome (head_of (lock_queue l.0) chain.old) (λ h.
        loan_for l.0 owner.new.loans ≡ loan_by l.0 h.contents) }
    ensures others { (k : ℕ) → k ≢ l.0 → loan_for k owner.new.loans ≡ loan_for k owner.old.loans }
    ensures answer { result ≡ walk_to owner.old.thread
        (not (owner.new.effective == owner.old.effective) && on_turnstile) }
    ensures queues { (c : Config) (s : State) (t o h : ℕ) → Lawful c s → MayLend c s t l.0 o h
        → RepresentsQueues c chain.old (queue_in s) s.loan_home
        → RepresentsQueues c chain.new (queue_in (after_lend c s t l.0 o h))
        (after_lend c s t l.0 o h).loan_home }
    ensures its_record { (c : Config) (s : State) (t o h : ℕ) → Lawful c s → MayLend c s t l.0 o h
        → RepresentsQueues c chain.old (queue_in s) s.loan_home
        → RepresentsRecord owner.old (record_in s o)
        → RepresentsRecord owner.new (record_in (after_lend c s t l.0 o h) o) }
    ensures walk { (c : Config) (s : State) (t o h : ℕ) → Lawful c s → MayLend c s t l.0 o h
        → RepresentsQueues c chain.old (queue_in s) s.loan_home
        → RepresentsRecord owner.old (record_in s o)
        → on_turnstile ≡ names_turnstile c owner.old.on
        → walk_of result ≡ (after_lend c s t l.0 o h).walk t }
{
    match chain.unplace(QueueName::Lock(l)) {
        Some(head) => put_lent(chain, head, owner, on_turnstile),
        None => Walk::None,
    }
}

// Lends to the owner of a turnstile that was taken out of the chain, and puts it back.
fn put_lent(
    chain: &mut Chain<Turnstile>,
    mut head: Box<Turnstile>,
    owner: &mut ThreadRec,
    on_turnstile: bool,
) -> Walk
    requires may { IsSomeAnd head.value.contents.own.lock (λ l. CanHop l owner.old head.value) }
    requires absent { IsSomeAnd (name_of head.value.contents) (λ q. head_of q chain.old ≡ None) }
    requires bare { behind head.value ≡ [] }
    ensures chain { IfSome (name_of head.value.contents) (λ q. chain.new
        ≡ (q, with_contents (with_loan_home false head.value.contents) head.value)
        ∷ chain.old) }
    ensures owner { owner.new ≡ with_loans owner.new.loans owner.old }
    ensures well_formed { IsWellFormed owner.new }
    ensures loans { IfSome head.value.contents.own.lock (λ l.
        owner.new.loans ≡ with_lent (loan_by l head.value.contents) owner.old.loans) }
    ensures lent { IfSome head.value.contents.own.lock (λ l.
        loan_for l owner.new.loans ≡ loan_by l head.value.contents) }
    ensures others { (k : ℕ) → head.value.contents.own.lock ≢ Some k
        → loan_for k owner.new.loans ≡ loan_for k owner.old.loans }
    ensures answer { result ≡ walk_to owner.old.thread
        (not (owner.new.effective == owner.old.effective) && on_turnstile) }
{
    let walk = lend(&mut head, owner, on_turnstile);
    chain.place(head);
    walk
}

/// A thread that waits for a lock is sorted anew among those who wait, by its effective priority. The walk goes on to
/// the lock where the turnstile has an owner, which `owned` tells.
pub fn sort_anew(chain: &mut Chain<Turnstile>, rec: &ThreadRec, l: LockNo, owned: bool) -> Walk
    requires waits { IsSomeAnd (head_of (lock_queue l.0) chain.old) (λ h.
        waits rec.now.thread h.contents ≡ true) }
    requires owned { IfSome (head_of (lock_queue l.0) chain.old) (λ h.
        owned ≡ is_some h.contents.own.owner) }
    ensures chain { IfSome (head_of (lock_queue l.0) chain.old) (λ h. chain.new ≡ (
      lock_queue l.0,
      with_contents (moved rec.now.thread rec.now.effective h.contents) h,
    )
        ∷ without (lock_queue l.0) chain.old) }
    ensures answer { result ≡ walk_up l.0 owned }
    ensures queues { (c : Config) (s : State) (t o : ℕ) → Lawful c s → MayShift c s t o l.0
        → RepresentsQueues c chain.old (queue_in s) s.loan_home
        → RepresentsRecord rec.now (record_in s o)
        → RepresentsQueues c chain.new (queue_in (after_shift s t o l.0))
        (after_shift s t o l.0).loan_home }
    ensures walk { (c : Config) (s : State) (t o : ℕ) → Lawful c s → MayShift c s t o l.0
        → RepresentsQueues c chain.old (queue_in s) s.loan_home
        → walk_of result ≡ (after_shift s t o l.0).walk t }
{
    shift(chain, l, rec, owned)
}
