//! What is asked of a thread.
ghost use Rattle.std.specs.Prelude.{◌≡◌};
ghost use Rattle.lockrun_c.specs.Asks.{IsAsked, IsAskedOf, IsMadeOrNone};
ghost use Rattle.lockrun_c.specs.Codes.{request_of};

use crate::codes::{Cell, NO_REQUEST, NOT_OPEN, Told, base_of, byte_of, cell_of, tell};
use crate::content::Content;
use crate::handles::Handle;
use floor_calls::{Change, Request, Thread};
use lock_model::{ChanNo, LockNo, Mode};

/// Makes the call of a thread that is asked for, or answers what stands against it, and then nothing is changed. Asked
/// is the request of that number: of the lock or channel `which`, or of a cell, and with a number.
#[unsafe(no_mangle)]
pub extern "C" fn lockrun_ask(
    thread: &mut Handle,
    what: u32,
    which: u32,
    number: u64,
    cell: &Cell,
    told: &mut Told,
) -> u32
    ensures { IsAsked (request_of what which number cell.now)
        thread.old.held.home thread.new.held.home told.old told.new result }
{
    if thread.is_there == 0 {
        return NOT_OPEN;
    }
    ask(thread.held.as_mut(), what, which, number, cell, told)
}

// Asks what a box holds.
fn ask(
    content: &mut Content,
    what: u32,
    which: u32,
    number: u64,
    cell: &Cell,
    told: &mut Told,
) -> u32
    ensures { IsAskedOf (request_of what which number cell.now)
        content.old content.new told.old told.new result }
{
    match content {
        Content::Thread(thread) => ask_thread(thread, what, which, number, cell, told),
        Content::Empty | Content::Open(_) | Content::Closed(_) | Content::World(_) => NOT_OPEN,
    }
}

// Asks a thread, if the number is a request's. The calls that are made most are made here, where they are inlined: so a
// lock that is free costs no choice among all requests, and nothing is saved for the others.
#[tactic(auto, unfolding(crate::specs::Codes::request_of))]
fn ask_thread(
    thread: &mut Thread,
    what: u32,
    which: u32,
    number: u64,
    cell: &Cell,
    told: &mut Told,
) -> u32
    ensures { IsMadeOrNone (request_of what which number cell.now)
        thread.old thread.new told.old told.new result }
{
    let l = LockNo(byte_of(which));
    match what {
        2 => tell(thread.begin_take(l, Mode::Excl), told),
        3 => tell(thread.begin_take(l, Mode::Shared), told),
        6 => tell(thread.begin_release(l, Mode::Excl), told),
        7 => tell(thread.begin_release(l, Mode::Shared), told),
        11 => tell(thread.edit(cell_of(*cell), Change::Set(number)), told),
        12 => tell(thread.edit(cell_of(*cell), Change::Add(number)), told),
        13 => tell(thread.read(cell_of(*cell)), told),
        0..=1 | 4..=5 | 8..=10 | 14.. => ask_any(thread, what, which, number, cell, told),
    }
}

// Asks a thread for any request.
#[inline(never)]
fn ask_any(
    thread: &mut Thread,
    what: u32,
    which: u32,
    number: u64,
    cell: &Cell,
    told: &mut Told,
) -> u32
    ensures { IsMadeOrNone (request_of what which number cell.now)
        thread.old thread.new told.old told.new result }
{
    match request_of(what, which, number, cell) {
        None => NO_REQUEST,
        Some(request) => tell(thread.ask(request), told),
    }
}

// The request of that number, if it is a request's.
#[tactic(auto, unfolding(crate::specs::Codes::request_of))]
fn request_of(what: u32, which: u32, number: u64, cell: &Cell) -> Option<Request>
    ensures { result ≡ request_of what which number cell.now }
{
    let l = LockNo(byte_of(which));
    let c = ChanNo(byte_of(which));
    let cell = cell_of(*cell);
    let excl = Mode::Excl;
    let shared = Mode::Shared;
    match what {
        0 => Some(Request::GoOn),
        1 => Some(Request::End),
        2 => Some(Request::Take { l, mode: excl }),
        3 => Some(Request::Take { l, mode: shared }),
        4 => Some(Request::Try { l, mode: excl }),
        5 => Some(Request::Try { l, mode: shared }),
        6 => Some(Request::Release { l, mode: excl }),
        7 => Some(Request::Release { l, mode: shared }),
        8 => Some(Request::WakeUp { c, all: false }),
        9 => Some(Request::WakeUp { c, all: true }),
        10 => Some(Request::Wait { c }),
        11 => {
            let change = Change::Set(number);
            Some(Request::Edit { cell, change })
        },
        12 => {
            let change = Change::Add(number);
            Some(Request::Edit { cell, change })
        },
        13 => Some(Request::Read { cell }),
        14 => base_of(number),
        15 => Some(Request::Show),
        16.. => None,
    }
}
