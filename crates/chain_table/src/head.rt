//! What is linked into a chain: the head of a queue, with a link of its own to the next head.
ghost use Rattle.std.specs.Prelude.{◌≡◌, List, [], ◌∷◌, Option, MatchOption, option_map, IfSome};
ghost use Rattle.lock_model.specs.declared.plan.QueueName.{QueueName};
ghost use Rattle.chain_table.specs.Chains.{head_of, without, heads_of, entries_of, IsNamed};

use lock_model::QueueName;

/// The head of a queue, which links to the next head of its chain through a box of its own.
pub trait Head: Drop {
    // The name of its queue.
    ghost name_of: { Self → Option QueueName };

    // The head without its link.
    ghost unlinked: { Self → Self };

    // The heads behind it, each without its link.
    ghost behind: { Self → List Self };

    /// The name of its queue. `None` comes exactly where it has none.
    fn name(&self) -> Option<QueueName>
        ensures { result ≡ name_of self.now };

    /// What the link holds. `None` comes exactly where no head is behind it.
    fn next(&self) -> Option<&Self>
        ensures { MatchOption result
            (behind self.now ≡ [])
            (λ h. behind self.now ≡ unlinked h.now ∷ behind h.now) };

    /// Puts the given link in place of the former one, which it gives. Nothing else changes.
    fn swap_next(&mut self, next: Option<Box<Self>>) -> Option<Box<Self>>
        ensures same { unlinked self.new ≡ unlinked self.old }
        ensures linked { behind self.new ≡ heads_of unlinked behind next }
        ensures former { heads_of unlinked behind result ≡ behind self.old };

    /// Takes the head of that name out of those behind this one, which stay linked. `None` comes exactly where the name
    /// is absent there.
    fn take_behind(&mut self, q: QueueName) -> Option<Box<Self>>
        requires { IsNamed name_of (entries_of name_of (behind self.old)) }
        ensures same { unlinked self.new ≡ unlinked self.old }
        ensures taken { option_map (λ b. b.value) result
            ≡ head_of q (entries_of name_of (behind self.old)) }
        ensures bare { IfSome result (λ b. behind b.value ≡ []) }
        ensures others { entries_of name_of (behind self.new)
            ≡ without q (entries_of name_of (behind self.old)) };

    // A head without a link has its name,
    ghost keeps_name: { (h : Self) → name_of (unlinked h) ≡ name_of h };

    // has no head behind it,
    ghost has_no_link: { (h : Self) → behind (unlinked h) ≡ [] };

    // and is the head itself where that has no link.
    ghost is_itself: { (h : Self) → behind h ≡ [] → unlinked h ≡ h };
}
