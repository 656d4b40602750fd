//! Chains behind latches: a thread takes the chain in which the queue of a lock or a channel stands out of its home,
//! and gives it back, as `turnstile_chain_lock` and `sleepq_lock` of FreeBSD lock a chain. A thread has one chain out
//! at most, and takes it before a record. Each try is one atomic step, never waits and takes no memory.
ghost use Rattle.std.specs.Prelude.{◌≡◌, ⊤, true, false, None, Some, [], ◌∷◌, length};
ghost use Rattle.atomic_table.specs.Table.{rest};
ghost use Rattle.lock_state.specs.Steps.{TakesItem, GivesItem};
ghost use Rattle.lock_state.specs.Steps.Items.{item_with};
ghost use Rattle.floor_table.specs.Places.{slot_of};
ghost use Rattle.floor_table.specs.Steps.{MayMake, Makes};
ghost use Rattle.floor_table.specs.Views.{seeing};
ghost use Rattle.lock_floor.specs.Passes.{IsOf};
ghost use Rattle.lock_floor.specs.Latches.{FindsOut, Takes};
ghost use Rattle.lock_floor.specs.Views.{gave};
ghost use Rattle.lock_floor.specs.Waits.{IsQueueOf, its_chain, chain_place};

use crate::floor::FloorOf;
use crate::pass::Pass;
use floor_table::{Description, Law, Slot, View};
use lock_model::{Kind, QueueName};

impl FloorOf<Slot, View, Description, Law> {
    /// Takes the chain in which a queue stands, if it is at home. The thread has nothing out yet: it takes a chain
    /// before a record, and never a second chain. `false` comes only where another thread had the chain out at a moment
    /// between the pass's last step and this call's return.
    pub fn try_take_chain(&self, pass: &mut Pass, q: QueueName) -> bool
        requires own { IsOf self.now pass.old }
        requires queue { IsQueueOf self.now.description q }
        requires first { pass.old.view.out ≡ [] }
        requires may { MayMake self.now.description pass.old.view
            (λ s. item_with s (its_chain self.now.description q) ≡ None)
            (TakesItem pass.old.view.thread (its_chain self.now.description q) ∷ []) }
        ensures own { IsOf self.now pass.new }
        ensures out { result ≡ true → Takes self.now.description (its_chain self.now.description q)
            (chain_place self.now.description q) pass.old.view pass.new.view }
        ensures left { result ≡ false → pass.new.view
            ≡ seeing pass.new.view.seen pass.old.view }
        ensures elsewhere { result ≡ false → FindsOut self.now.description
            (its_chain self.now.description q) pass.old.view pass.new.view }
    {
        let slot = self.chain_slot(q);
        self.try_take(pass, slot)
    }

    /// Gives back the chain in which a queue stands, which was taken last.
    pub fn give_chain(&self, pass: &mut Pass, q: QueueName)
        requires own { IsOf self.now pass.old }
        requires queue { IsQueueOf self.now.description q }
        requires last { (x : _) × (pass.old.view.out
            ≡ (chain_place self.now.description q, x) ∷ rest pass.old.view.out) }
        requires may { MayMake self.now.description pass.old.view (λ s. ⊤)
            (GivesItem pass.old.view.thread (its_chain self.now.description q) ∷ []) }
        ensures own { IsOf self.now pass.new }
        ensures view { pass.new.view ≡ seeing pass.new.view.seen
            (gave pass.old.view (its_chain self.now.description q)) }
        ensures step { Makes self.now.description
            (GivesItem pass.old.view.thread (its_chain self.now.description q) ∷ [])
            pass.old.view pass.new.view }
    {
        let slot = self.chain_slot(q);
        self.give(pass, slot);
    }

    // Where the chain lies in which a queue stands.
    pub(crate) fn chain_slot(&self, q: QueueName) -> usize
        requires queue { IsQueueOf self.now.description q }
        ensures at { slot_of self.now.description (its_chain self.now.description q) ≡ Some result }
        ensures place { result ≡ chain_place self.now.description q }
    {
        let chains = self.description.chains as usize;
        let first = self.description.threads.as_slice().len()
            + self.description.keys.as_slice().len();
        match q {
            QueueName::Lock(l) => match self.kind(l) {
                Kind::Mtx | Kind::Rw => first + usize::from(l.0) % chains,
                Kind::Sx => first + chains + usize::from(l.0) % chains,
            },
            QueueName::Chan(c) => first + chains + usize::from(c.0) % chains,
        }
    }
}
