//! How C opens the world of a script, gives its threads their turns, is told of them in between, and gets the text.
ghost use Rattle.std.specs.Prelude.{◌≡◌, ◌≢◌, ◌<◌, Some, None, length, IsFalse};
ghost use Rattle.lock_model.specs.Limits.{most_bytes};
ghost use Rattle.lockrun_c.specs.Handles.{has_world};
ghost use Rattle.lockrun_c.specs.Worlds.{HasLongerText, HasMade, HasNoSuchThread, HasNoThread, HasPrintedWorld, HasToldThread, HasTurned, IsFaultyFor, IsPrinted, IsSeen, IsTold, IsTooLongFor, IsWorldFor};
ghost use Rattle.lockrun_c.specs.declared.content.Content.TheVariants as contents;
ghost use Rattle.step_world.specs.Worlds.{World};
ghost use Rattle.turn_calls.specs.Openings.{IsFew};

mod naming;
mod numbers;

use crate::codes::{DONE, IS_OPEN, NO_MEMORY, byte_of};
use crate::content::{Content, put_in};
use crate::ending::let_go;
use crate::handles::{Handle, move_in};
use crate::printing::put;
pub(crate) use numbers::{NO_RANGE, TOO_BIG};
use numbers::{NO_SCRIPT, NO_SUCH, NO_WORLD, ScriptFaultTold, ThreadTold, told_of, turn_number};
use std::alloc::Global;
use turn_calls::{NoThread, NotOpened, OpenWorld};

/// Opens the world of a script, with so many chains of each sort.
#[unsafe(no_mangle)]
pub extern "C" fn lockrun_world_open(
    alloc: Global,
    world: &mut Handle,
    script: &[u8],
    chains: u32,
    fault: &mut ScriptFaultTold,
) -> u32
    ensures opened { result ≡ 0 → IsWorldFor script.now chains world.new.held.home }
    ensures refused { result ≢ 0 → world.new.held.home ≡ world.old.held.home }
    ensures is_open { world.old.held.home ≢ None → result ≡ 18 }
    ensures no_range { result ≡ 26 → IsFew chains → ⊥ }
    ensures too_big { result ≡ 27 → most_bytes < length script.now }
    ensures no_script { result ≡ 28 → IsFaultyFor script.now fault.new }
    ensures no_fault { result ≢ 28 → fault.new ≡ fault.old }
{
    if world.is_there != 0 {
        return IS_OPEN;
    }
    match OpenWorld::open(alloc, script, chains) {
        Err(why) => tell_why(why, fault),
        Ok(opened) => move_in(alloc, world, Content::World(opened)),
    }
}

// Tells why no world is opened.
fn tell_why(why: NotOpened, fault: &mut ScriptFaultTold) -> u32
    ensures { IsTold why fault.old fault.new result }
{
    match why {
        NotOpened::NoMemory => NO_MEMORY,
        NotOpened::NoChains => NO_RANGE,
        NotOpened::TooBig => TOO_BIG,
        NotOpened::NoScript(first) => {
            *fault = ScriptFaultTold {
                line: first.line,
                code: u32::from(first.code),
            };
            NO_SCRIPT
        }
    }
}

/// A thread of the world has a turn, and what became of it is told.
#[unsafe(no_mangle)]
pub extern "C" fn lockrun_world_turn(world: &mut Handle, thread: u32, did: &mut u32) -> u32
    ensures turned { result ≡ 0
        → HasTurned thread world.old.held.home world.new.held.home did.new }
    ensures no_world { result ≡ 29 → IsFalse (has_world world.old.held.home) }
    ensures no_such { result ≡ 30 → HasNoSuchThread thread world.old.held.home }
    ensures refused { result ≢ 0 → world.new.held.home ≡ world.old.held.home }
    ensures untold { result ≢ 0 → did.new ≡ did.old }
{
    if world.is_there == 0 {
        return NO_WORLD;
    }
    turn(world.held.as_mut(), thread, did)
}

// So in what a box holds.
fn turn(content: &mut Content, thread: u32, did: &mut u32) -> u32
    ensures turned { result ≡ 0
        → HasTurned thread (Some content.old) (Some content.new) did.new }
    ensures no_world { result ≡ 29 → IsFalse (has_world (Some content.old)) }
    ensures no_such { result ≡ 30 → HasNoSuchThread thread (Some content.old) }
    ensures refused { result ≢ 0 → content.new ≡ content.old }
    ensures untold { result ≢ 0 → did.new ≡ did.old }
{
    match content.take_world() {
        None => NO_WORLD,
        Some(world) => turn_in(content, world, byte_of(thread), did),
    }
}

// And in the world, which is put back.
fn turn_in(content: &mut Content, world: OpenWorld, t: u8, did: &mut u32) -> u32
    ensures turned { result ≡ 0
        → (v : World) × (content.new ≡ contents.World v) × HasMade t world v did.new }
    ensures others { result ≢ 0 → result ≡ 30 }
    ensures no_such { result ≡ 30 → HasNoThread t world }
    ensures refused { result ≢ 0 → content.new ≡ contents.World world }
    ensures untold { result ≢ 0 → did.new ≡ did.old }
{
    let (behind, answer) = world.turn(t);
    put_in(content, Content::World(behind));
    match answer {
        Err(NoThread) => NO_SUCH,
        Ok(made) => {
            *did = turn_number(made);
            DONE
        }
    }
}

/// Tells what a thread of the world is between two turns.
#[unsafe(no_mangle)]
pub extern "C" fn lockrun_world_thread(
    world: &mut Handle,
    thread: u32,
    told: &mut ThreadTold,
) -> u32
    ensures told { result ≡ 0 → HasToldThread thread world.old.held.home told.new }
    ensures no_world { result ≡ 29 → IsFalse (has_world world.old.held.home) }
    ensures no_such { result ≡ 30 → HasNoSuchThread thread world.old.held.home }
    ensures untold { result ≢ 0 → told.new ≡ told.old }
    ensures unchanged { world.new.held.home ≡ world.old.held.home }
{
    if world.is_there == 0 {
        return NO_WORLD;
    }
    tell_thread(world.held.as_mut(), thread, told)
}

// So in what a box holds.
fn tell_thread(content: &mut Content, thread: u32, told: &mut ThreadTold) -> u32
    ensures told { result ≡ 0 → HasToldThread thread (Some content.old) told.new }
    ensures no_world { result ≡ 29 → IsFalse (has_world (Some content.old)) }
    ensures no_such { result ≡ 30 → HasNoSuchThread thread (Some content.old) }
    ensures untold { result ≢ 0 → told.new ≡ told.old }
    ensures unchanged { content.new ≡ content.old }
{
    match content.take_world() {
        None => NO_WORLD,
        Some(world) => tell_thread_in(content, world, byte_of(thread), told),
    }
}

// And in the world, which is put back.
fn tell_thread_in(content: &mut Content, world: OpenWorld, t: u8, told: &mut ThreadTold) -> u32
    ensures told { result ≡ 0 → IsSeen t world told.new }
    ensures others { result ≢ 0 → result ≡ 30 }
    ensures no_such { result ≡ 30 → HasNoThread t world }
    ensures untold { result ≢ 0 → told.new ≡ told.old }
    ensures unchanged { content.new ≡ contents.World world }
{
    let (same, answer) = world.thread(t);
    put_in(content, Content::World(same));
    match answer {
        Err(NoThread) => NO_SUCH,
        Ok(now) => {
            *told = told_of(now);
            DONE
        }
    }
}

/// Writes the text of the world's run as it stands, and how many bytes it has; where the room is too small, that alone.
#[unsafe(no_mangle)]
pub extern "C" fn lockrun_world_print(
    alloc: Global,
    world: &mut Handle,
    out: &mut [u8],
    written: &mut usize,
) -> u32
    ensures printed { result ≡ 0
        → HasPrintedWorld world.old.held.home out.old out.new written.new }
    ensures no_world { result ≡ 29 → IsFalse (has_world world.old.held.home) }
    ensures no_space { result ≡ 23 → HasLongerText world.old.held.home out.old written.new }
    ensures refused { result ≢ 0 → out.new ≡ out.old }
    ensures unchanged { world.new.held.home ≡ world.old.held.home }
{
    if world.is_there == 0 {
        return NO_WORLD;
    }
    print_world(alloc, world.held.as_mut(), out, written)
}

// So of what a box holds.
fn print_world(alloc: Global, content: &mut Content, out: &mut [u8], written: &mut usize) -> u32
    ensures printed { result ≡ 0
        → HasPrintedWorld (Some content.old) out.old out.new written.new }
    ensures no_world { result ≡ 29 → IsFalse (has_world (Some content.old)) }
    ensures no_space { result ≡ 23 → HasLongerText (Some content.old) out.old written.new }
    ensures refused { result ≢ 0 → out.new ≡ out.old }
    ensures unchanged { content.new ≡ content.old }
{
    match content.take_world() {
        None => NO_WORLD,
        Some(world) => print_in(alloc, content, world, out, written),
    }
}

// And of the world, which is put back.
fn print_in(
    alloc: Global,
    content: &mut Content,
    world: OpenWorld,
    out: &mut [u8],
    written: &mut usize,
) -> u32
    ensures printed { result ≡ 0 → IsPrinted world out.old out.new written.new }
    ensures others { result ≢ 29 }
    ensures no_space { result ≡ 23 → IsTooLongFor world out.old written.new }
    ensures refused { result ≢ 0 → out.new ≡ out.old }
    ensures unchanged { content.new ≡ contents.World world }
{
    let (same, made) = world.text(alloc);
    put_in(content, Content::World(same));
    match made {
        Err(_) => NO_MEMORY,
        Ok(text) => put(text.as_slice(), out, written),
    }
}

/// Lets go of what the handle of a world has.
#[unsafe(no_mangle)]
pub extern "C" fn lockrun_world_free(alloc: Global, world: &mut Handle)
    ensures { world.new.held.home ≡ None }
{
    let_go(alloc, world);
}
