//! How C takes threads in, closes a floor, and lets go of what a handle has.
ghost use Rattle.std.specs.Prelude.{◌≡◌, ◌≢◌, ◌&&◌, Some, None, Err, IfNone, IfSome, IsFalse};
ghost use Rattle.floor_calls.specs.Closings.{IsNotGathered, given_back};
ghost use Rattle.floor_calls.specs.Threads.{Thread as Seen};
ghost use Rattle.lockrun_c.specs.Endings.{AreAllIn, AreOfOneFloor, HasClosed, HasEnded, HasGathered, HasUnended, LacksThread, TakesIn};
ghost use Rattle.lockrun_c.specs.Handles.{has_floor, has_thread};
ghost use Rattle.lockrun_c.specs.declared.content.Content.TheVariants as contents;

use crate::codes::{DONE, NOT_ENDED, NOT_GATHERED, NOT_OPEN, STILL_SHARED};
use crate::content::{Content, House, Remains, put_in};
use crate::handles::{Handle, take};
use floor_calls::{NotClosed, OpenFloor};
use std::alloc::Global;

/// Takes a thread of this floor in that has ended.
#[unsafe(no_mangle)]
pub extern "C" fn lockrun_gather(alloc: Global, floor: &mut Handle, thread: &mut Handle) -> u32
    requires of_floor { AreOfOneFloor floor.old.held.home thread.old.held.home }
    ensures gathered { result ≡ 0
        → HasGathered floor.old.held.home floor.new.held.home thread.old.held.home }
    ensures gone { result ≡ 0 → thread.new.held.home ≡ None }
    ensures not_open { result ≡ 17
        → IsFalse (has_floor floor.old.held.home && has_thread thread.old.held.home) }
    ensures not_ended { result ≡ 21 → HasUnended thread.old.held.home }
    ensures refused { result ≢ 0 → floor.new.held.home ≡ floor.old.held.home }
    ensures stays { result ≢ 0 → thread.new.held.home ≡ thread.old.held.home }
{
    if floor.is_there == 0 || thread.is_there == 0 {
        return NOT_OPEN;
    }
    gather(alloc, floor.held.as_mut(), thread)
}

// Takes a handle's thread in, to what a box holds.
fn gather(alloc: Global, content: &mut Content, thread: &mut Handle) -> u32
    requires there { thread.old.is_there ≢ 0 }
    requires of_floor { AreOfOneFloor (Some content.old) thread.old.held.home }
    ensures gathered { result ≡ 0
        → HasGathered (Some content.old) (Some content.new) thread.old.held.home }
    ensures gone { result ≡ 0 → thread.new.held.home ≡ None }
    ensures not_open { result ≡ 17
        → IsFalse (has_floor (Some content.old) && has_thread thread.old.held.home) }
    ensures not_ended { result ≡ 21 → HasUnended thread.old.held.home }
    ensures refused { result ≢ 0 → content.new ≡ content.old }
    ensures stays { result ≢ 0 → thread.new.held.home ≡ thread.old.held.home }
{
    match content {
        Content::Open(house) => gather_in(alloc, &mut house.floor, thread),
        Content::Empty | Content::Closed(_) | Content::Thread(_) | Content::World(_) => NOT_OPEN,
    }
}

// Takes a handle's thread in, to its floor, unless something stands against that.
fn gather_in(alloc: Global, floor: &mut OpenFloor, thread: &mut Handle) -> u32
    requires there { thread.old.is_there ≢ 0 }
    requires of_floor { (x : Seen) → thread.old.held.home ≡ Some (contents.Thread x)
        → x.floor ≡ floor.old.floor }
    ensures gathered { result ≡ 0 → (x : Seen) × (thread.old.held.home ≡ Some (contents.Thread x))
        × TakesIn floor.old floor.new x }
    ensures gone { result ≡ 0 → thread.new.held.home ≡ None }
    ensures not_open { result ≡ 17 → IsFalse (has_thread thread.old.held.home) }
    ensures not_ended { result ≡ 21 → HasUnended thread.old.held.home }
    ensures refused { result ≢ 0 → floor.new ≡ floor.old }
    ensures stays { result ≢ 0 → thread.new.held.home ≡ thread.old.held.home }
{
    match against_gathering(thread.held.as_mut()) {
        Some(code) => code,
        None => {
            take_in(floor, take(thread, alloc));
            DONE
        }
    }
}

// What stands against taking in what a box holds: it is no thread, or one that hasn't ended.
fn against_gathering(content: &Content) -> Option<u32>
    ensures nothing { IfNone result (HasEnded content.now) }
    ensures fault { IfSome result (λ code. code ≢ 0) }
    ensures not_open { IfSome result (λ code. code ≡ 17
        → IsFalse (has_thread (Some content.now))) }
    ensures not_ended { IfSome result (λ code. code ≡ 21 → HasUnended (Some content.now)) }
{
    match content {
        Content::Thread(thread) => {
            if thread.has_ended() {
                None
            } else {
                Some(NOT_ENDED)
            }
        }
        Content::Empty | Content::Open(_) | Content::Closed(_) | Content::World(_) => {
            Some(NOT_OPEN)
        }
    }
}

// Takes in the thread that this box has, which has ended.
fn take_in(floor: &mut OpenFloor, mut content: Box<Content>)
    requires ended { HasEnded content.value }
    requires of_floor { (x : Seen) → content.value ≡ contents.Thread x
        → x.floor ≡ floor.old.floor }
    ensures { (x : Seen) × (content.value ≡ contents.Thread x) × TakesIn floor.old floor.new x }
{
    let thread = std::mem::replace(&mut *content, Content::Empty).into_thread();
    match floor.gather(thread) {
        Ok(()) => {}
        Err(_) => unreachable!(),
    }
}

/// Closes a floor, once all its threads were taken in.
#[unsafe(no_mangle)]
pub extern "C" fn lockrun_close(floor: &mut Handle) -> u32
    ensures closed { result ≡ 0 → HasClosed floor.old.held.home floor.new.held.home }
    ensures not_open { result ≡ 17 → IsFalse (has_floor floor.old.held.home) }
    ensures not_gathered { result ≡ 22 → LacksThread floor.old.held.home }
    ensures refused { result ≢ 0 → floor.new.held.home ≡ floor.old.held.home }
{
    if floor.is_there == 0 {
        return NOT_OPEN;
    }
    close(floor.held.as_mut())
}

// Closes the floor that a box holds.
fn close(content: &mut Content) -> u32
    ensures closed { result ≡ 0 → HasClosed (Some content.old) (Some content.new) }
    ensures not_open { result ≡ 17 → IsFalse (has_floor (Some content.old)) }
    ensures not_gathered { result ≡ 22 → LacksThread (Some content.old) }
    ensures refused { result ≢ 0 → content.new ≡ content.old }
{
    match content.take_floor() {
        None => NOT_OPEN,
        Some(house) => {
            let (after, code) = closed(house);
            put_in(content, after);
            code
        }
    }
}

// What is left of a floor, or the floor, where a thread of it wasn't taken in.
fn closed(house: House) -> (Content, u32)
    ensures closed { result.1 ≡ 0 → HasClosed (Some (contents.Open house)) (Some result.0) }
    ensures open { result.1 ≢ 17 }
    ensures not_gathered { result.1 ≡ 22 → AreAllIn house.floor → ⊥ }
    ensures refused { result.1 ≢ 0 → result.0 ≡ contents.Open house }
{
    let House {
        floor,
        names,
        waiting,
    } = house;
    match floor.close() {
        Ok(closing) => (Content::Closed(Remains { closing, names }), DONE),
        Err(why) => {
            let (floor, code) = given_back(why);
            let house = House {
                floor,
                names,
                waiting,
            };
            (Content::Open(house), code)
        }
    }
}

// The floor that wasn't closed, and why.
fn given_back(why: NotClosed) -> (OpenFloor, u32)
    ensures floor { result.0 ≡ given_back why }
    ensures code { (result.1 ≢ 0) × (result.1 ≢ 17) }
    ensures not_gathered { result.1 ≡ 22 → IsNotGathered {A = Unit {0}} (Err why) }
{
    match why {
        NotClosed::NotGathered(floor) => (floor, NOT_GATHERED),
        NotClosed::StillShared(floor) => (floor, STILL_SHARED),
    }
}

/// Lets go of what the handle of a floor has.
#[unsafe(no_mangle)]
pub extern "C" fn lockrun_free(alloc: Global, floor: &mut Handle)
    ensures { floor.new.held.home ≡ None }
{
    let_go(alloc, floor);
}

/// Lets go of a thread. Its floor can't be closed then.
#[unsafe(no_mangle)]
pub extern "C" fn lockrun_free_thread(alloc: Global, thread: &mut Handle)
    ensures { thread.new.held.home ≡ None }
{
    let_go(alloc, thread);
}

pub(crate) fn let_go(alloc: Global, handle: &mut Handle)
    ensures { handle.new.held.home ≡ None }
{
    if handle.is_there != 0 {
        drop(take(handle, alloc));
    }
}
