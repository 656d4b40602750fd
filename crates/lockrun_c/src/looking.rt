//! What C is told of a thread beside the answers of its calls.
ghost use Rattle.std.specs.Prelude.{◌≡◌, ◌≢◌, Some, IsFalse};
ghost use Rattle.lockrun_c.specs.Handles.{has_thread};
ghost use Rattle.lockrun_c.specs.Lookings.{HasFoundCell, HasNoSuchKey};
ghost use Rattle.floor_calls.specs.Threads.{Thread as Seen};
ghost use Rattle.lockrun_c.specs.declared.content.Content.TheVariants as contents;

use crate::codes::{Cell, DONE, NO_KEY, NOT_OPEN, SLEEP, byte_of};
use crate::content::Content;
use crate::handles::Handle;
use lock_model::LockNo;

/// The number of a thread among its floor's.
#[unsafe(no_mangle)]
pub extern "C" fn lockrun_number(thread: &mut Handle, number: &mut u32) -> u32
    ensures told { result ≡ 0 → (x : Seen) × (thread.old.held.home ≡ Some (contents.Thread x))
        × (number.new ≡ x.pass.view.thread) }
    ensures not_open { result ≢ 0 → IsFalse (has_thread thread.old.held.home) }
    ensures refused { result ≢ 0 → number.new ≡ number.old }
    ensures unchanged { thread.new.held.home ≡ thread.old.held.home }
{
    if thread.is_there == 0 {
        return NOT_OPEN;
    }
    number_of(thread.held.as_mut(), number)
}

fn number_of(content: &Content, number: &mut u32) -> u32
    ensures told { result ≡ 0 → (x : Seen) × (content.now ≡ contents.Thread x)
        × (number.new ≡ x.pass.view.thread) }
    ensures not_open { result ≢ 0 → IsFalse (has_thread (Some content.now)) }
    ensures refused { result ≢ 0 → number.new ≡ number.old }
{
    match content {
        Content::Thread(thread) => {
            *number = u32::from(thread.number().0);
            DONE
        }
        Content::Empty | Content::Open(_) | Content::Closed(_) | Content::World(_) => NOT_OPEN,
    }
}

/// How many entries a thread's log still has room for.
#[unsafe(no_mangle)]
pub extern "C" fn lockrun_spare(thread: &mut Handle, entries: &mut u32) -> u32
    ensures told { result ≡ 0 → (x : Seen) × (thread.old.held.home ≡ Some (contents.Thread x))
        × (entries.new ≡ x.pass.view.spare) }
    ensures not_open { result ≢ 0 → IsFalse (has_thread thread.old.held.home) }
    ensures refused { result ≢ 0 → entries.new ≡ entries.old }
    ensures unchanged { thread.new.held.home ≡ thread.old.held.home }
{
    if thread.is_there == 0 {
        return NOT_OPEN;
    }
    spare_of(thread.held.as_mut(), entries)
}

fn spare_of(content: &Content, entries: &mut u32) -> u32
    ensures told { result ≡ 0 → (x : Seen) × (content.now ≡ contents.Thread x)
        × (entries.new ≡ x.pass.view.spare) }
    ensures not_open { result ≢ 0 → IsFalse (has_thread (Some content.now)) }
    ensures refused { result ≢ 0 → entries.new ≡ entries.old }
{
    match content {
        Content::Thread(thread) => {
            *entries = thread.spare();
            DONE
        }
        Content::Empty | Content::Open(_) | Content::Closed(_) | Content::World(_) => NOT_OPEN,
    }
}

/// Whether a thread whose call answered that it is to sleep is still to sleep, by its wait word.
#[unsafe(no_mangle)]
pub extern "C" fn lockrun_is_queued(thread: &mut Handle) -> u32
    ensures not_open { result ≡ 17 → IsFalse (has_thread thread.old.held.home) }
    ensures unchanged { thread.new.held.home ≡ thread.old.held.home }
{
    if thread.is_there == 0 {
        return NOT_OPEN;
    }
    queued(thread.held.as_mut())
}

fn queued(content: &Content) -> u32
    ensures { result ≡ 17 → IsFalse (has_thread (Some content.now)) }
{
    match content {
        Content::Thread(thread) => { if thread.is_queued() { SLEEP } else { DONE } }
        Content::Empty | Content::Open(_) | Content::Closed(_) | Content::World(_) => NOT_OPEN,
    }
}

/// The cell at a key of a lock's table, on the floor of a thread.
#[unsafe(no_mangle)]
pub extern "C" fn lockrun_find_cell(
    thread: &mut Handle,
    lock: u32,
    key: u64,
    cell: &mut Cell,
) -> u32
    ensures found { result ≡ 0 → HasFoundCell thread.old.held.home lock key cell.new }
    ensures no_key { result ≡ 25 → HasNoSuchKey thread.old.held.home lock key }
    ensures not_open { result ≡ 17 → IsFalse (has_thread thread.old.held.home) }
    ensures refused { result ≢ 0 → cell.new ≡ cell.old }
    ensures unchanged { thread.new.held.home ≡ thread.old.held.home }
{
    if thread.is_there == 0 {
        return NOT_OPEN;
    }
    find_cell(thread.held.as_mut(), lock, key, cell)
}

// So in what a box holds.
fn find_cell(content: &Content, lock: u32, key: u64, cell: &mut Cell) -> u32
    ensures found { result ≡ 0 → HasFoundCell (Some content.now) lock key cell.new }
    ensures no_key { result ≡ 25 → HasNoSuchKey (Some content.now) lock key }
    ensures not_open { result ≡ 17 → IsFalse (has_thread (Some content.now)) }
    ensures refused { result ≢ 0 → cell.new ≡ cell.old }
{
    match content {
        Content::Thread(thread) => match thread.find_cell(LockNo(byte_of(lock)), key) {
            None => NO_KEY,
            Some(found) => {
                *cell = Cell {
                    key: found.key,
                    slot: found.slot,
                    lock: u32::from(found.l.0),
                };
                DONE
            }
        },
        Content::Empty | Content::Open(_) | Content::Closed(_) | Content::World(_) => NOT_OPEN,
    }
}
