//! What a sleep queue has beside its lists: the sx lock, condition variable or channel that it belongs to.
ghost use Rattle.std.specs.Prelude.{◌≡◌, false, None};

use crate::own::Own;
use lock_model::QueueName;

/// What a sleep queue has of its own.
#[derive(Drop)]
pub struct Sleeping {
    name: Option<QueueName>,
}

impl Own for Sleeping {
    const RANKED: bool = false;

    ghost RANKED = { false };

    ghost home = { record { name = None } };

    ghost name_of = { λ a. a.name };

    fn name(&self) -> Option<QueueName> {
        self.name
    }

    ghost with_name = { λ q a. record { name = q } };

    fn set_name(&mut self, q: Option<QueueName>) {
        self.name = q;
    }
}

impl Sleeping {
    /// No name.
    pub(crate) fn make() -> Sleeping
        ensures { result ≡ record { name = None } }
    {
        Sleeping { name: None }
    }
}
