//! The loans of a record, linked by `next`.
ghost use Rattle.std.specs.Prelude.{◌≡◌, ◌==◌, [], option_map, find};
ghost use Rattle.lock_model.specs.Counts.{least_with};
ghost use Rattle.turnstile_core.specs.Linked.{linked_terms};
ghost use Rattle.thread_records.specs.Loans.{prios, loan_for, alone, with_prio, without_loan};

use lock_model::{LockNo, Prio};
use turnstile_core::Loan;

/// The least of a priority and those of the loans.
pub(crate) fn least(loans: &Option<Box<Loan>>, base: Prio) -> Prio
    ensures { result.0 ≡ least_with base.0 (prios (linked_terms loans.now)) }
{
    match loans {
        None => base,
        Some(first) => {
            let loan: &Loan = first;
            Prio(loan.prio.0.min(least(&loan.next, base).0))
        }
    }
}

/// Sets the priority of the loan for a lock, and gives the least of a priority and those of the loans then.
pub(crate) fn set(loans: &mut Option<Box<Loan>>, l: LockNo, prio: Prio, base: Prio) -> Prio
    ensures changed { linked_terms loans.new ≡ with_prio l.0 prio.0 (linked_terms loans.old) }
    ensures least { result.0 ≡ least_with base.0 (prios (linked_terms loans.new)) }
{
    match loans {
        None => base,
        Some(first) => {
            let loan: &mut Loan = first;
            let behind = if loan.l == l {
                loan.prio = prio;
                least(&loan.next, base)
            } else {
                set(&mut loan.next, l, prio, base)
            };
            Prio(loan.prio.0.min(behind.0))
        }
    }
}

/// Takes the loan for a lock, and gives the least of a priority and those of the loans that stay.
pub(crate) fn take(
    loans: &mut Option<Box<Loan>>,
    l: LockNo,
    base: Prio,
) -> (Option<Box<Loan>>, Prio)
    ensures taken { option_map (λ b. b.value) result.0 ≡ option_map alone (loan_for l.0 (linked_terms loans.old)) }
    ensures left { linked_terms loans.new ≡ without_loan l.0 (linked_terms loans.old) }
    ensures least { result.1.0 ≡ least_with base.0 (prios (linked_terms loans.new)) }
{
    let Some(mut first) = loans.take() else {
        return (None, base);
    };
    let loan: &mut Loan = &mut first;
    if loan.l == l {
        let behind = loan.next.take();
        let least = least(&behind, base);
        *loans = behind;
        return (Some(first), least);
    }
    let (found, behind) = take(&mut loan.next, l, base);
    let least = Prio(loan.prio.0.min(behind.0));
    *loans = Some(first);
    (found, least)
}
