//! How C opens a floor, and gets the handles of its threads.
ghost use Rattle.std.specs.Prelude.{◌≡◌, ◌≢◌, ◌<◌, Some, None, [], map, vec_len, IfErr, IfOk, IfSome, IsFalse};
ghost use Rattle.lockrun_c.specs.Endings.{HandsOut, HasHandedOut, HasNoneWaiting};
ghost use Rattle.lockrun_c.specs.Handles.{has_floor};
ghost use Rattle.lockrun_c.specs.Misfits.{code_of_unfit};
ghost use Rattle.lockrun_c.specs.Openings.{IsHouseFor, IsOpenFor, IsRefusedFor, IsUnfitFor, description_of, key_of, thread_part};
ghost use Rattle.lockrun_c.specs.declared.content.Content.TheVariants as contents;
ghost use Rattle.lock_model.specs.Operations.{operations_in_all};
ghost use Rattle.floor_calls.specs.Threads.{Thread};
ghost use Rattle.floor_calls.specs.declared.unfit.Unfit.{Unfit};

use crate::codes::{DONE, IS_OPEN, NO_MEMORY, NO_THREAD, NOT_OPEN, byte_of};
use crate::content::{Content, House, put_in};
use crate::handles::{Handle, move_in, put_there};
use crate::misfits::{Refused, code_of_refused};
use crate::naming::plan_of;
use crate::rows::{ChanRow, KeyRow, LockRow, ThreadRow};
use floor_calls::OpenFloor;
use floor_table::{Description, ThreadPart};
use lock_model::{Plan, Prio, Sequence};
use std::alloc::{AllocError, Global};

// A floor has one chain of turnstiles and one of sleep queues, as takes need it.
const CHAINS: u32 = 1;

/// Opens a floor for what these rows describe.
#[unsafe(no_mangle)]
pub extern "C" fn lockrun_open(
    alloc: Global,
    floor: &mut Handle,
    threads: &[ThreadRow],
    locks: &[LockRow],
    chans: &[ChanRow],
    keys: &[KeyRow],
) -> u32
    ensures opened { result ≡ 0
        → IsOpenFor threads.now locks.now chans.now keys.now floor.new.held.home }
    ensures refused { result ≢ 0 → floor.new.held.home ≡ floor.old.held.home }
    ensures is_open { floor.old.held.home ≢ None → result ≡ 18 }
    ensures unfit { (why : Unfit) → result ≡ code_of_unfit why
        → IsUnfitFor threads.now locks.now chans.now keys.now why }
{
    if floor.is_there != 0 {
        return IS_OPEN;
    }
    match house_of(alloc, threads, locks, chans, keys) {
        Err(why) => code_of_refused(why),
        Ok(house) => move_in(alloc, floor, Content::Open(house)),
    }
}

// The floor that is opened for these rows.
fn house_of(
    alloc: Global,
    threads: &[ThreadRow],
    locks: &[LockRow],
    chans: &[ChanRow],
    keys: &[KeyRow],
) -> Result<House, Refused>
    ensures opened { IfOk result (λ house.
        IsHouseFor threads.now locks.now chans.now keys.now house) }
    ensures refused { IfErr result (λ why.
        IsRefusedFor threads.now locks.now chans.now keys.now why) }
{
    let names = plan_of(alloc, threads, locks, chans)?;
    let description = describe(alloc, &names, threads, keys)?;
    match OpenFloor::open(alloc, description) {
        Err(why) => Err(Refused::Floor(why)),
        Ok((floor, mut waiting)) => {
            waiting.reverse();
            Ok(House {
                floor,
                names,
                waiting,
            })
        }
    }
}

// What the floor is opened for.
fn describe(
    alloc: Global,
    names: &Plan,
    threads: &[ThreadRow],
    keys: &[KeyRow],
) -> Result<Description, AllocError>
    requires no_operations { operations_in_all names.now ≡ 0 }
    ensures { IfOk result (λ floor. floor ≡ description_of names.now threads.now keys.now) }
{
    let Description { locks, chans, .. } = Description::of_plan(alloc, names, CHAINS)?;
    let threads = parts_of(alloc, threads)?;
    let keys = keys_of(alloc, keys)?;
    Ok(Description {
        threads: Sequence::from_vec(threads),
        locks,
        chans,
        keys: Sequence::from_vec(keys),
        chains: CHAINS,
    })
}

fn parts_of(alloc: Global, rows: &[ThreadRow]) -> Result<Vec<ThreadPart>, AllocError>
    ensures { IfOk result (λ parts. parts.items ≡ map thread_part rows.now) }
{
    let mut parts = Vec::new(alloc);
    for row in rows {
        parts.push(ThreadPart {
            base: Prio(row.base),
            room: row.entries,
        })?;
    }
    Ok(parts)
}

fn keys_of(alloc: Global, rows: &[KeyRow]) -> Result<Vec<(u8, u64)>, AllocError>
    ensures { IfOk result (λ keys. keys.items ≡ map key_of rows.now) }
{
    let mut keys = Vec::new(alloc);
    for row in rows {
        keys.push((byte_of(row.lock), row.key))?;
    }
    Ok(keys)
}

/// Gives the next of the floor's threads to its handle.
#[unsafe(no_mangle)]
pub extern "C" fn lockrun_next_thread(alloc: Global, floor: &mut Handle, thread: &mut Handle) -> u32
    ensures handed_out { result ≡ 0
        → HasHandedOut floor.old.held.home floor.new.held.home thread.new.held.home }
    ensures not_open { result ≡ 17 → IsFalse (has_floor floor.old.held.home) }
    ensures is_open { result ≡ 18 → thread.old.held.home ≢ None }
    ensures no_thread { result ≡ 20 → HasNoneWaiting floor.old.held.home }
    ensures refused { result ≢ 0 → floor.new.held.home ≡ floor.old.held.home }
    ensures stays { result ≢ 0 → thread.new.held.home ≡ thread.old.held.home }
{
    if floor.is_there == 0 {
        return NOT_OPEN;
    }
    if thread.is_there != 0 {
        return IS_OPEN;
    }
    hand_out(alloc, floor.held.as_mut(), thread)
}

// Gives the next thread of what a box holds to its handle.
fn hand_out(alloc: Global, content: &mut Content, thread: &mut Handle) -> u32
    ensures handed_out { result ≡ 0
        → HasHandedOut (Some content.old) (Some content.new) thread.new.held.home }
    ensures not_open { result ≡ 17 → IsFalse (has_floor (Some content.old)) }
    ensures closed { result ≢ 18 }
    ensures no_thread { result ≡ 20 → HasNoneWaiting (Some content.old) }
    ensures refused { result ≢ 0 → content.new ≡ content.old }
    ensures stays { result ≢ 0 → thread.new.held.home ≡ thread.old.held.home }
{
    match content {
        Content::Open(house) => hand_out_of(alloc, house, thread),
        Content::Empty | Content::Closed(_) | Content::Thread(_) | Content::World(_) => NOT_OPEN,
    }
}

// Gives the next of a floor's threads to its handle. The box is made before the thread is taken.
fn hand_out_of(alloc: Global, house: &mut House, thread: &mut Handle) -> u32
    ensures handed_out { result ≡ 0 → (x : Thread) × HandsOut house.old house.new x
        × (thread.new.held.home ≡ Some (contents.Thread x)) }
    ensures cause { (result ≢ 17) × (result ≢ 18) }
    ensures no_thread { result ≡ 20 → house.old.waiting.items ≡ [] }
    ensures refused { result ≢ 0 → house.new ≡ house.old }
    ensures stays { result ≢ 0 → thread.new.held.home ≡ thread.old.held.home }
{
    if house.waiting.is_empty() {
        return NO_THREAD;
    }
    match empty_box(alloc) {
        None => NO_MEMORY,
        Some(content) => {
            hand_next(house, content, thread);
            DONE
        }
    }
}

// A box that holds nothing yet, where there is memory for one.
fn empty_box(alloc: Global) -> Option<Box<Content>>
    ensures { IfSome result (λ b. b.value ≡ contents.Empty) }
{
    Box::new(alloc, Content::Empty).ok()
}

// Gives the next of a floor's threads to its handle, in this box.
fn hand_next(house: &mut House, mut content: Box<Content>, thread: &mut Handle)
    requires { 0 < vec_len house.old.waiting }
    ensures { (x : Thread) × HandsOut house.old house.new x
        × (thread.new.held.home ≡ Some (contents.Thread x)) }
{
    match house.waiting.pop() {
        None => unreachable!(),
        Some(next) => {
            put_in(&mut content, Content::Thread(next));
            put_there(thread, content);
        }
    }
}
