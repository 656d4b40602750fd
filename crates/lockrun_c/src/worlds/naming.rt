//! How many threads, locks and channels a world has, and their names.
ghost use Rattle.std.specs.Prelude.{◌≡◌, ◌≢◌, Some, IsFalse};
ghost use Rattle.lockrun_c.specs.Handles.{has_world};
ghost use Rattle.lockrun_c.specs.Worlds.{HasCounted, HasNamed, HasNoSuchName, counts_of, name_at, padded};

use super::numbers::{Counts, NO_SUCH, NO_WORLD, NameTold};
use crate::codes::DONE;
use crate::content::Content;
use crate::handles::Handle;
use lock_model::limits::NAME_BYTES;
use lock_model::{Name, Plan};

/// Tells how many threads, locks, and condition variables and channels a world has.
#[unsafe(no_mangle)]
pub extern "C" fn lockrun_world_count(world: &mut Handle, counts: &mut Counts) -> u32
    ensures told { result ≡ 0 → HasCounted world.old.held.home counts.new }
    ensures no_world { result ≡ 29 → IsFalse (has_world world.old.held.home) }
    ensures untold { result ≢ 0 → counts.new ≡ counts.old }
    ensures unchanged { world.new.held.home ≡ world.old.held.home }
{
    if world.is_there == 0 {
        return NO_WORLD;
    }
    count(world.held.as_mut(), counts)
}

// So of what a box holds.
fn count(content: &Content, counts: &mut Counts) -> u32
    ensures told { result ≡ 0 → HasCounted (Some content.now) counts.new }
    ensures no_world { result ≡ 29 → IsFalse (has_world (Some content.now)) }
    ensures untold { result ≢ 0 → counts.new ≡ counts.old }
{
    match content {
        Content::World(world) => {
            *counts = counts_of(world.plan());
            DONE
        }
        Content::Empty | Content::Open(_) | Content::Closed(_) | Content::Thread(_) => NO_WORLD,
    }
}

fn counts_of(plan: &Plan) -> Counts
    ensures { result ≡ counts_of plan.now }
{
    Counts {
        threads: plan.threads.as_slice().len(),
        locks: plan.locks.as_slice().len(),
        chans: plan.chans.as_slice().len(),
    }
}

/// Tells the name of a thread, lock or channel of a world: its bytes, and 0 behind them where they are fewer than 16.
#[unsafe(no_mangle)]
pub extern "C" fn lockrun_world_name(
    world: &mut Handle,
    sort: u32,
    number: u32,
    name: &mut NameTold,
) -> u32
    ensures told { result ≡ 0 → HasNamed sort number world.old.held.home name.new.bytes }
    ensures no_world { result ≡ 29 → IsFalse (has_world world.old.held.home) }
    ensures no_such { result ≡ 30 → HasNoSuchName sort number world.old.held.home }
    ensures untold { result ≢ 0 → name.new ≡ name.old }
    ensures unchanged { world.new.held.home ≡ world.old.held.home }
{
    if world.is_there == 0 {
        return NO_WORLD;
    }
    tell_name(world.held.as_mut(), sort, number, name)
}

// So of what a box holds.
fn tell_name(content: &Content, sort: u32, number: u32, name: &mut NameTold) -> u32
    ensures told { result ≡ 0 → HasNamed sort number (Some content.now) name.new.bytes }
    ensures no_world { result ≡ 29 → IsFalse (has_world (Some content.now)) }
    ensures no_such { result ≡ 30 → HasNoSuchName sort number (Some content.now) }
    ensures untold { result ≢ 0 → name.new ≡ name.old }
{
    match content {
        Content::World(world) => match name_at(world.plan(), sort, number as usize) {
            None => NO_SUCH,
            Some(found) => {
                *name = NameTold {
                    bytes: padded(&found),
                };
                DONE
            }
        },
        Content::Empty | Content::Open(_) | Content::Closed(_) | Content::Thread(_) => NO_WORLD,
    }
}

// The name of one of a sort.
#[tactic(auto, unfolding(crate::specs::Worlds::name_at))]
fn name_at(plan: &Plan, sort: u32, number: usize) -> Option<Name>
    ensures { result ≡ name_at plan.now sort number }
{
    match sort {
        0 => plan
            .threads
            .as_slice()
            .get(number)
            .map(|thread| thread.name),
        1 => plan.locks.as_slice().get(number).map(|lock| lock.name),
        2 => plan.chans.as_slice().get(number).map(|chan| chan.name),
        3.. => None,
    }
}

// Its bytes, and 0 behind them.
fn padded(name: &Name) -> [u8; NAME_BYTES]
    ensures { result ≡ padded name.now }
{
    let bytes = name.as_bytes();
    let mut all = [0; NAME_BYTES];
    all[..bytes.len()].copy_from_slice(bytes);
    all
}
