//! The calls of an end in memory: it counts them, and lets those fail that its test names.
ghost use Rattle.std.specs.Prelude.{◌≡◌, ◌≤◌, ◌||◌, OnOk, OnErr, is_err};
ghost use Rattle.lock_io.specs.Faults.{Rose};
ghost use Rattle.lock_io.specs.Memory.{failed, is_due, passed, uncalled};

use crate::failed::Failed;
use std::marker::Model;

/// Which calls fail, how many there were, and how many of them failed.
#[derive(Drop, Debug)]
pub(crate) struct Calls {
    fails: Vec<u32>,
    made: u64,
    faults: u64,
}

impl Model for Calls {
    ghost use Rattle.lock_io.specs.Memory.{CallCount};

    ghost Value = { CallCount };

    ghost view = { λ c. record { fails = c.fails.items; made = c.made; faults = c.faults } };
}

impl Calls {
    /// No call yet. Those whose numbers, from 0, are given will fail.
    pub(crate) fn new(fails: Vec<u32>) -> Calls
        ensures { result ≡ uncalled fails.items }
    {
        Calls {
            fails,
            made: 0,
            faults: 0,
        }
    }

    /// Counts a call. It fails where it is due to, and where it is refused.
    pub(crate) fn count(&mut self, refused: bool) -> Result<(), Failed>
        ensures fails { is_err result ≡ (is_due self.old || refused) }
        ensures passed { OnOk result (self.new ≡ passed self.old) }
        ensures failed { OnErr result (self.new ≡ failed self.old) }
        ensures rose { OnErr result (Rose self.old.faults self.new.faults) }
        ensures never_falls { self.old.faults ≤ self.new.faults }
    {
        let due = self.is_due();
        self.made = self.made.saturating_add(1);
        if due || refused {
            self.faults = self.faults.saturating_add(1);
            return Err(Failed);
        }
        Ok(())
    }

    fn is_due(&self) -> bool
        ensures { result ≡ is_due self.now }
    {
        let number = self.made;
        self.fails.iter().any(|&call| u64::from(call) == number)
    }
}
