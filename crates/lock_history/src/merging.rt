//! The logs of threads, put together by the tickets of their entries.
ghost use Rattle.std.specs.Prelude.{◌≡◌, ◌^◌, ◌<◌, Some, length, slice_get, IfOk};
ghost use Rattle.std.specs.List.{All};
ghost use Rattle.lock_history.specs.Tickets.{entries_in, TicketsOnce, InOrder, placed_by};

use crate::history::History;
use crate::log::Log;
use lock_model::{ChanNo, Entry, Event, ThreadNo};
use std::alloc::{AllocError, Global};

/// All entries of all logs, each at the place that its ticket says, in time in their number. Their tickets
/// are 0 to n - 1, each once. It fails where memory runs out.
pub fn merge(alloc: Global, logs: &[Log]) -> Result<History, AllocError>
    requires tickets { TicketsOnce (entries_in logs.now) }
    requires bound { length (entries_in logs.now) < 2 ^ 32 }
    ensures len { IfOk result (λ h. length h ≡ length (entries_in logs.now)) }
    ensures placed { IfOk result (λ h.
        All (λ e. slice_get h e.ticket ≡ Some e) (entries_in logs.now)) }
    ensures in_order { IfOk result InOrder }
{
    let mut entries = vec![in alloc; nothing(); count(logs)]?;
    place_all(entries.as_mut_slice(), logs);
    Ok(History::from_vec(entries))
}

// An entry that stands at a place until the one that belongs there comes.
fn nothing() -> Entry {
    Entry {
        ticket: 0,
        thread: ThreadNo(0),
        event: Event::Woke { c: ChanNo(0) },
    }
}

fn count(logs: &[Log]) -> usize
    requires { length (entries_in logs.now) < 2 ^ 32 }
    ensures { result ≡ length (entries_in logs.now) }
{
    let mut n = 0;
    for log in logs {
        n += log.as_slice().len();
    }
    n
}

// Puts each entry of each log at the place of its ticket.
fn place_all(places: &mut [Entry], logs: &[Log])
    requires { All (λ e. e.ticket < length places.old) (entries_in logs.now) }
    ensures { places.new ≡ placed_by places.old (entries_in logs.now) }
{
    for log in logs {
        place(places, log.as_slice());
    }
}

// Puts each entry at the place of its ticket.
fn place(places: &mut [Entry], log: &[Entry])
    requires { All (λ e. e.ticket < length places.old) log.now }
    ensures { places.new ≡ placed_by places.old log.now }
{
    for entry in log {
        places[entry.ticket as usize] = *entry;
    }
}
