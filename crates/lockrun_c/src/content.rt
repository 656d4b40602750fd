//! What a handle has a box of.
ghost use Rattle.std.specs.Prelude.{◌≡◌, ◌<◌, ◌^◌, List, length, reverse};
ghost use Rattle.std.specs.FinMap.{entries};
ghost use Rattle.floor_ends.specs.Outcomes.{IsMerged};
ghost use Rattle.lock_history.specs.Tickets.{TicketsOnce, entries_in};
ghost use Rattle.lock_model.specs.History.{tables_of};
ghost use Rattle.lock_model.specs.declared.event.Entry.{Entry};

mod taking;

use floor_calls::{OpenFloor, Thread};
use lock_floor::Closing;
use lock_model::Plan;
use turn_calls::OpenWorld;

/// What the box of a handle holds.
pub enum Content {
    /// Nothing yet.
    Empty,
    /// A floor that is open.
    Open(House),
    /// What a floor left when it was closed.
    Closed(Remains),
    /// A thread of a floor.
    Thread(Thread),
    /// The world of a script.
    World(OpenWorld),
}

// There is much in it: so letting go of it is one call, wherever that is done. So it is of what a floor left.
impl Drop for Content {
    fn drop(self) {
        match self {
            Content::Empty
            | Content::Open(_)
            | Content::Closed(_)
            | Content::Thread(_)
            | Content::World(_) => {}
        }
    }
}

/// A floor that is open, the names of what it has, and those of its threads that weren't handed out, the next one last.
#[derive(Drop)]
pub struct House {
    pub(crate) floor: OpenFloor,
    pub(crate) names: Plan,
    pub(crate) waiting: Vec<Thread>,
}

/// What a floor left when it was closed, with the names of what it had. The tickets of the logs' entries are such that
/// the logs can be merged, and its tables are those that the history leaves into which they are merged.
pub struct Remains {
    pub(crate) closing: Closing,
    pub(crate) names: Plan,
    ghost once: { TicketsOnce (entries_in closing.logs.items) },
    ghost few: { length (entries_in closing.logs.items) < 2 ^ 32 },
    ghost replayed: { (history : List Entry) → IsMerged closing.logs.items history
        → entries closing.tables.present ≡ entries (tables_of (reverse history)) },
}

impl Drop for Remains {
    fn drop(self) {
        let Remains {
            closing: _,
            names: _,
        } = self;
    }
}

// Puts this in place of what a box holds. Letting go of that in a call with many clauses would have each of them shown
// behind it: so it stands alone.
pub(crate) fn put_in(content: &mut Content, what: Content)
    ensures { content.new ≡ what }
{
    *content = what;
}
