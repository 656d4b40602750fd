//! The queues of a floor one after the other, and where a thread is that goes over them to halt those who sleep there.
ghost use Rattle.std.specs.Prelude.{◌≡◌, ◌<◌, not, IfSome};
ghost use Rattle.lock_model.specs.Queues.{is_turnstile_queue};
ghost use Rattle.floor_table.specs.Descriptions.{config_in};
ghost use Rattle.lock_floor.specs.Queues.{queue_at};
ghost use Rattle.lock_floor.specs.Waits.{IsQueueOf};

use crate::floor::FloorOf;
use floor_table::{Description, Law, Slot, View};
use lock_model::{ChanNo, Kind, LockNo, QueueName};

// How many numbers a channel can have.
const CHANNELS: u32 = 256;

/// Where a thread is that halts others, since its counting out left nobody awake.
#[derive(Clone, Copy, Debug, PartialEq, Eq)]
pub enum HaltAt {
    /// It finds out whether a thread is left that hasn't ended: then it counts itself in, and sets the halt word.
    Finds,
    /// It has gone over so many queues: it takes the chain of the next one, if that is a sleep queue, and else goes on
    /// to the one behind. Where none is left it counts itself out again, unless it aborted itself.
    Comes { over: u32, itself: bool },
    /// It has the chain of the next one out: it takes the first sleeper off the queue; or where nobody sleeps there, it
    /// gives the chain back.
    Aborts { over: u32, itself: bool },
    /// It has that chain out still, and takes the record of the one that it took off: that one is counted in, but for
    /// the thread itself, and woken.
    Wakes { over: u32, itself: bool },
}

impl FloorOf<Slot, View, Description, Law> {
    /// A queue of the floor by its place: those of locks come by their numbers, and then those of channels. `None`
    /// comes exactly past the end. There are 320 at most.
    pub fn queue_at(&self, place: u32) -> Option<QueueName>
        ensures queue { result ≡ queue_at self.now.description place }
        ensures of_floor { IfSome result (λ q. IsQueueOf self.now.description q) }
        ensures few { IfSome result (λ _. place < 320) }
    {
        let locks = self.description.locks.as_slice().len() as u32;
        if place < locks {
            return Some(QueueName::Lock(LockNo(place as u8)));
        }
        let d = place - locks;
        if d < CHANNELS && (d as usize) < self.description.chans.as_slice().len() {
            Some(QueueName::Chan(ChanNo(d as u8)))
        } else {
            None
        }
    }

    /// Whether threads sleep on a queue: it is an sx lock's or a channel's, and no turnstile.
    pub fn is_sleep_queue(&self, q: QueueName) -> bool
        requires queue { IsQueueOf self.now.description q }
        ensures { is_turnstile_queue (config_in self.now.description) q ≡ not result }
    {
        match q {
            QueueName::Lock(l) => match self.kind(l) {
                Kind::Mtx | Kind::Rw => false,
                Kind::Sx => true,
            },
            QueueName::Chan(_) => true,
        }
    }
}
