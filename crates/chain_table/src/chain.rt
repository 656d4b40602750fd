//! A chain: heads linked through their own boxes, seen by contracts as a list of names with their heads.
ghost use Rattle.std.specs.Prelude.{◌≡◌, [], ◌∷◌, ◌↔◌, IsTrue, option_map, IfNone, IfSome, IsSomeAnd};
ghost use Rattle.chain_table.specs.Chains.{head_of, without, heads_of, entries_of, IsNamed, IsChain};

use crate::head::Head;
use lock_model::QueueName;
use std::marker::Model;

/// The heads of a hash entry. Their names differ, and the order of the list carries no meaning.
#[derive(Drop)]
pub struct Chain<H: Head> {
    first: Option<Box<H>>,
}

impl<H: Head> Model for Chain<H> {
    ghost use Rattle.std.specs.Prelude.{List};
    ghost use Rattle.lock_model.specs.declared.plan.QueueName.{QueueName};

    ghost Value = { List (QueueName × H) };

    ghost use Rattle.chain_table.specs.Chains.{heads_of, entries_of, IsChain};

    ghost view = { λ c. entries_of H.name_of (heads_of H.unlinked H.behind c.first) };

    ghost invariant = { λ c. IsChain H.name_of H.behind (entries_of H.name_of (heads_of H.unlinked H.behind c.first)) };
}

impl<H: Head> Chain<H> {
    /// A chain with no head. It takes no memory.
    pub fn empty() -> Chain<H>
        ensures { result ≡ [] }
    {
        Chain { first: None }
    }

    /// The head of that name. `None` comes exactly where the name is absent.
    pub fn find(&self, q: QueueName) -> Option<&H>
        ensures found { option_map (λ h. H.unlinked h.now) result ≡ head_of q self.now }
        ensures named { IfSome result (λ h. H.name_of h.now ≡ Some q) }
        ensures chain { IsChain H.name_of H.behind self.now }
    {
        let mut at = self.first.as_deref();
        while let Some(head) = at {
            if is_named(head, q) {
                return Some(head);
            }
            at = head.next();
        }
        None
    }

    /// Puts a head first, which has a name that is absent and no link.
    pub fn place(&mut self, head: Box<H>)
        requires absent { IsSomeAnd (H.name_of head.value) (λ q. head_of q self.old ≡ None) }
        requires bare { H.behind head.value ≡ [] }
        ensures placed { IfSome (H.name_of head.value) (λ q. self.new ≡ (q, head.value) ∷ self.old) }
        ensures chain { IsChain H.name_of H.behind self.new }
    {
        let behind = self.first.take();
        self.first = Some(link(head, behind));
    }

    /// Takes the head of that name out; all others stay. `None` comes exactly where the name is absent.
    pub fn unplace(&mut self, q: QueueName) -> Option<Box<H>>
        ensures taken { option_map (λ b. b.value) result ≡ head_of q self.old }
        ensures named { IfSome result (λ b. H.name_of b.value ≡ Some q) }
        ensures bare { IfSome result (λ b. H.behind b.value ≡ []) }
        ensures others { self.new ≡ without q self.old }
        ensures unchanged { IfNone result (self.new ≡ self.old) }
        ensures absent { head_of q self.new ≡ None }
        ensures chain { IsChain H.name_of H.behind self.new }
    {
        let (rest, found) = take_out(self.first.take(), q);
        self.first = rest;
        found
    }
}

// Whether the head has that name.
fn is_named<H: Head>(head: &H, q: QueueName) -> bool
    ensures { IsTrue result ↔ (H.name_of head.now ≡ Some q) }
{
    head.name() == Some(q)
}

// A head with no link, linked to the heads that a link leads to.
fn link<H: Head>(mut head: Box<H>, behind: Option<Box<H>>) -> Box<H>
    requires { H.behind head.value ≡ [] }
    ensures same { H.unlinked result.value ≡ H.unlinked head.value }
    ensures linked { H.behind result.value ≡ heads_of H.unlinked H.behind behind }
{
    let _ = head.swap_next(behind);
    head
}

// Takes the head of that name out of the heads that a link leads to, and gives what then leads to the rest.
fn take_out<H: Head>(first: Option<Box<H>>, q: QueueName) -> (Option<Box<H>>, Option<Box<H>>)
    requires { IsNamed H.name_of (entries_of H.name_of (heads_of H.unlinked H.behind first)) }
    ensures taken { option_map (λ b. b.value) result.1
        ≡ head_of q (entries_of H.name_of (heads_of H.unlinked H.behind first)) }
    ensures named { IfSome result.1 (λ b. H.name_of b.value ≡ Some q) }
    ensures bare { IfSome result.1 (λ b. H.behind b.value ≡ []) }
    ensures others { entries_of H.name_of (heads_of H.unlinked H.behind result.0)
        ≡ without q (entries_of H.name_of (heads_of H.unlinked H.behind first)) }
{
    let Some(mut head) = first else {
        return (None, None);
    };
    if is_named(&*head, q) {
        let behind = head.swap_next(None);
        return (behind, Some(head));
    }
    let found = head.take_behind(q);
    (Some(head), found)
}
