//! The wheel of callouts, as callout(9) has one: buckets by tick, so that a tick looks at one bucket and not at all
//! sleepers. Ticks that differ by a whole round share a bucket, and what is due in a later round stays there for it.
ghost use Rattle.std.specs.Prelude.{◌≡◌, ◌<◌, ◌%◌, ◌++◌, ◌∷◌, [], length, replicate, find, position, option_map, slice_set, vec_capacity, IfOk, ◌==◌};
ghost use Rattle.tick_sleep.specs.Limits.{round, most_sleepers};
ghost use Rattle.tick_sleep.specs.Wheels.{bucket_at, without_callout};

use crate::limits;
use lock_model::ThreadNo;
use std::alloc::{AllocError, Global};
use std::marker::Model;

/// That a sleep times out at a tick.
#[derive(Clone, Copy, Debug)]
pub(crate) struct Callout {
    pub t: ThreadNo,
    pub due: u64,
}

/// The callouts of the ticks that share a bucket, in order of arrival, with room for one of each sleeper.
#[derive(Drop)]
pub(crate) struct Bucket {
    callouts: Vec<Callout>,
}

impl Model for Bucket {
    ghost use Rattle.std.specs.Prelude.{List, ◌≤◌, vec_capacity};
    ghost use Rattle.tick_sleep.specs.Limits.{most_sleepers};
    ghost use Rattle.tick_sleep.specs.declared.wheel.Callout.{Callout};

    ghost Value = { List Callout };

    ghost view = { λ b. b.callouts.items };

    ghost invariant = { λ b. most_sleepers ≤ vec_capacity b.callouts };
}

impl Bucket {
    fn make(alloc: Global) -> Result<Bucket, AllocError>
        ensures { IfOk result (λ b. b ≡ []) }
    {
        Ok(Bucket {
            callouts: Vec::with_capacity(alloc, limits::SLEEPERS)?,
        })
    }

    // Adds a callout behind the others.
    fn put(&mut self, callout: Callout)
        requires { length self.old < most_sleepers }
        ensures { self.new ≡ self.old ++ callout ∷ [] }
    {
        self.callouts.push(callout).unwrap();
    }

    // Takes the callout of a thread out, if there is one.
    fn remove(&mut self, t: ThreadNo)
        ensures { self.new ≡ without_callout t.0 self.old }
    {
        remove_first(&mut self.callouts, t);
    }

    // The thread of the first callout of a tick.
    fn first(&self, tick: u64) -> Option<ThreadNo>
        ensures { result ≡ option_map (λ c. c.t) (find (λ c. c.due == tick) self.now) }
    {
        let callout = self.callouts.iter().find(|c| c.due == tick)?;
        Some(callout.t)
    }
}

// The place of the first callout of a thread.
fn place_of(callouts: &[Callout], t: ThreadNo) -> Option<usize>
    ensures { result ≡ position (λ c. c.t.0 == t.0) callouts.now }
{
    callouts.iter().position(|c| c.t == t)
}

// Takes the first callout of a thread out, if there is one.
fn remove_first(callouts: &mut Vec<Callout>, t: ThreadNo)
    ensures left { callouts.new.items ≡ without_callout t.0 callouts.old.items }
    ensures room { vec_capacity callouts.new ≡ vec_capacity callouts.old }
{
    if let Some(place) = place_of(callouts, t) {
        callouts.remove(place);
    }
}

/// A bucket for each tick of a round.
#[derive(Drop)]
pub(crate) struct Wheel {
    buckets: Vec<Bucket>,
}

impl Model for Wheel {
    ghost use Rattle.std.specs.Prelude.{◌≡◌, List, length};
    ghost use Rattle.tick_sleep.specs.Limits.{round};
    ghost use Rattle.tick_sleep.specs.declared.wheel.Callout.{Callout};

    ghost Value = { List (List Callout) };

    ghost view = { λ w. w.buckets.items };

    ghost invariant = { λ w. length w.buckets.items ≡ round };
}

impl Wheel {
    /// A wheel without callouts.
    pub(crate) fn make(alloc: Global) -> Result<Wheel, AllocError>
        ensures { IfOk result (λ w. w ≡ replicate round []) }
    {
        let mut buckets = Vec::with_capacity(alloc, limits::BUCKETS)?;
        for _ in 0..limits::BUCKETS {
            buckets.push(Bucket::make(alloc)?)?;
        }
        Ok(Wheel { buckets })
    }

    /// Adds a callout to the bucket of its tick, which has room.
    pub(crate) fn put(&mut self, callout: Callout)
        requires { length (bucket_at callout.due self.old) < most_sleepers }
        ensures bucket { self.new ≡ slice_set self.old (callout.due % round)
            (bucket_at callout.due self.old ++ callout ∷ []) }
        ensures size { length self.old ≡ round }
    {
        self.buckets[bucket_of(callout.due)].put(callout);
    }

    /// Takes the callout of a thread out of the bucket of its tick.
    pub(crate) fn remove(&mut self, t: ThreadNo, due: u64)
        ensures bucket { self.new ≡ slice_set self.old (due % round)
            (without_callout t.0 (bucket_at due self.old)) }
        ensures size { length self.old ≡ round }
    {
        self.buckets[bucket_of(due)].remove(t);
    }

    /// The thread whose callout of a tick came first.
    pub(crate) fn first(&self, tick: u64) -> Option<ThreadNo>
        ensures { result ≡ option_map (λ c. c.t)
            (find (λ c. c.due == tick) (bucket_at tick self.now)) }
    {
        self.buckets[bucket_of(tick)].first(tick)
    }
}

// The place of the bucket of a tick.
fn bucket_of(tick: u64) -> usize
    ensures place { result ≡ tick % round }
    ensures within { result < round }
{
    (tick % limits::BUCKETS as u64) as usize
}
