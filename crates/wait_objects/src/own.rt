//! What sets turnstiles and sleep queues apart.
ghost use Rattle.std.specs.Prelude.{◌≡◌, Bool, Option};
ghost use Rattle.lock_model.specs.declared.plan.QueueName.{QueueName};

use lock_model::QueueName;

/// What an object has beside its lists, and how these are kept.
pub trait Own: Drop {
    /// Whether a thread is added by its rank, before the first one whose number is greater, or else at
    /// the tail.
    const RANKED: bool;

    ghost RANKED: { Bool };

    /// What an idle object has.
    ghost home: { Self };

    /// The queue that the object is the head of.
    ghost name_of: { Self → Option QueueName };

    /// The queue that the object is the head of. `None` comes exactly where it is none's.
    fn name(&self) -> Option<QueueName>
        ensures { result ≡ name_of self.now };

    /// The same with another queue, or none.
    ghost with_name: { Option QueueName → Self → Self };

    /// Sets the queue, or that there is none.
    fn set_name(&mut self, q: Option<QueueName>)
        ensures { self.new ≡ with_name q self.old };
}
