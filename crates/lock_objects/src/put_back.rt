//! What becomes of a turnstile or a sleep queue off which waiters were taken.
ghost use Rattle.std.specs.Prelude.{◌≡◌, [], ◌∷◌, None, IfSome, IsSomeAnd, if◌then◌else◌};
ghost use Rattle.lock_model.specs.Counts.{is_empty};
ghost use Rattle.wait_objects.specs.Lists.{LastHasNone, with_last};
ghost use Rattle.wait_objects.specs.Changes.{all_waiters};
ghost use Rattle.chain_table.specs.Chains.{head_of};

use chain_table::Chain;
use wait_objects::{Object, Own, Pending};

/// The object goes with the last of those that were taken off it where nobody waits on it any more, and else back into
/// the chain.
#[tactic(auto, using(crate::proofs::Taken::left_idle))]
pub(crate) fn put_back<E: Own>(
    chain: &mut Chain<Object<E>>,
    head: Box<Object<E>>,
    mut woken: Pending<E>,
) -> Pending<E>
    requires last { all_waiters head.value.contents ≡ [] → LastHasNone woken }
    requires home { E.with_name None head.value.contents.own ≡ E.home }
    requires absent { IsSomeAnd (E.name_of head.value.contents.own) (λ q.
        head_of q chain.old ≡ None) }
    requires bare { head.value.next ≡ [] }
    ensures woken { result ≡ (if is_empty (all_waiters head.value.contents)
        then with_last head.value.contents.number woken else woken) }
    ensures chain { IfSome (E.name_of head.value.contents.own) (λ q.
        chain.new ≡ (if is_empty (all_waiters head.value.contents) then chain.old
        else (q, head.value) ∷ chain.old)) }
{
    if head.is_empty() {
        woken.fill_last(head);
    } else {
        chain.place(head);
    }
    woken
}
