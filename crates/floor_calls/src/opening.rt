//! How a floor is opened, with its threads, and closed once they have ended.
ghost use Rattle.std.specs.Arc.{arc_value};
ghost use Rattle.std.specs.Prelude.{◌≡◌, ◌≢◌, ◌↔◌, ◌++◌, ◌<◌, [], ◌∷◌, ℕ, All, length, map, reverse, slice_index_or, IfErr, IfOk, IsOk};
ghost use Rattle.floor_calls.specs.Closings.{IsNotGathered, given_back};
ghost use Rattle.floor_calls.specs.First.{IsFirst};
ghost use Rattle.floor_calls.specs.Fitting.{Spoils, all_unfit};
ghost use Rattle.floor_calls.specs.Openings.{first_thread, thread_at_rest, unfit_in};
ghost use Rattle.floor_calls.specs.Threads.{Stands};
ghost use Rattle.floor_calls.specs.Threads.{Stands};
ghost use Rattle.floor_calls.specs.declared.stages.Stage.TheVariants as stages;
ghost use Rattle.floor_table.specs.Descriptions.{IsSized};
ghost use Rattle.lock_floor.specs.Closings.{IsClosing};
ghost use Rattle.lock_floor.specs.Passes.{IsKeeperOf};

use crate::shared::Shared;
use crate::thread::Thread;
use crate::unfit::{Unfit, unfit_of};
use floor_table::Description;
use lock_floor::{Closing, Floor, Keeper, Pass};
use std::alloc::{AllocError, Global};
use std::marker::Model;
use std::sync::Arc;

/// Why a floor isn't opened.
#[derive(Clone, Copy, Debug, PartialEq, Eq)]
pub enum NotOpened {
    /// Memory was wanting.
    NoMemory,
    /// The description doesn't fit.
    Unfit(Unfit),
}

/// Why a floor isn't closed. It is given back.
#[derive(Drop)]
pub enum NotClosed {
    /// A thread of it wasn't taken in.
    NotGathered(OpenFloor),
    /// All were taken in, and yet a share of it is held.
    StillShared(OpenFloor),
}

/// A floor that is open, and takes its threads in at their ends.
pub struct OpenFloor {
    shared: Arc<Shared, Global>,
    keeper: Keeper,
    // How many threads are yet to be taken in.
    left: usize,
}

impl Drop for OpenFloor {
    fn drop(self) {
        let OpenFloor {
            shared: _,
            keeper: _,
            left: _,
        } = self;
    }
}

impl Model for OpenFloor {
    ghost use Rattle.std.specs.Prelude.{◌≡◌, ◌+◌, length};
    ghost use Rattle.std.specs.Arc.{arc_value};
    ghost use Rattle.lock_floor.specs.Passes.{IsKeeperOf};
    ghost use Rattle.floor_calls.specs.Openings.{Open};

    ghost Value = { Open };

    ghost view = { λ o. record { floor = (arc_value o.shared).floor; keeper = o.keeper } };

    ghost invariant = { λ o. IsKeeperOf (arc_value o.shared).floor o.keeper
        × (o.left + length o.keeper.view.gathered
        ≡ length (arc_value o.shared).floor.description.threads) };
}

impl OpenFloor {
    /// Opens a floor for a description, and gives its threads, in order: each is in the middle of no call, and has made
    /// none. `Unfit` comes exactly where the description doesn't fit, with the first reason, in the order in which
    /// these are declared.
    pub fn open(
        alloc: Global,
        description: Description,
    ) -> Result<(OpenFloor, Vec<Thread>), NotOpened>
        ensures unfit { IsFirst (λ why. Spoils why description) all_unfit (unfit_in result) }
        ensures floor { IfOk result (λ made. made.0.floor.description ≡ description) }
        ensures none_gathered { IfOk result (λ made. made.0.keeper.view.gathered ≡ []) }
        ensures count { IfOk result
            (λ made. length made.1.items ≡ length description.threads) }
        ensures threads { IfOk result (λ made. (t : ℕ) (d : _) → t < length description.threads
            → slice_index_or made.1.items t d ≡ first_thread made.0.floor t) }
    {
        match unfit_of(&description) {
            Some(why) => Err(NotOpened::Unfit(why)),
            None => match make(alloc, description) {
                Ok(made) => Ok(made),
                Err(_) => Err(NotOpened::NoMemory),
            },
        }
    }

    /// Takes in a thread of this floor that has ended. It is given back exactly where it hasn't.
    pub fn gather(&mut self, thread: Thread) -> Result<(), Thread>
        requires of_floor { thread.floor ≡ self.old.floor }
        ensures floor { self.new.floor ≡ self.old.floor }
        ensures may { IsOk result ↔ (thread.stage ≡ stages.Ended) }
        ensures gathered { IfOk result (λ _. self.new.keeper.view.gathered
            ≡ self.old.keeper.view.gathered
            ++ (thread.pass.view.thread, thread.pass.view.share) ∷ []) }
        ensures given_back { IfErr result (λ back. back ≡ thread) }
        ensures unchanged { IfErr result (λ back. self.new ≡ self.old) }
    {
        if !thread.has_ended() {
            return Err(thread);
        }
        let pass = thread.into_pass();
        self.keeper.gather(&self.shared.floor, pass);
        self.left -= 1;
        Ok(())
    }

    /// Closes the floor, once all its threads were taken in: `NotGathered` comes exactly where one wasn't. Each thread
    /// gives up its share of the floor as it is taken in, so `StillShared` comes of no calls of this crate; that isn't
    /// proved, since of shares `Arc` promises no number.
    pub fn close(self) -> Result<Closing, NotClosed>
        ensures not_gathered { IsNotGathered result
            ↔ (length self.keeper.view.gathered ≢ length self.floor.description.threads) }
        ensures all { IfOk result (λ _.
            length self.keeper.view.gathered ≡ length self.floor.description.threads) }
        ensures closing { IfOk result (λ closing.
            IsClosing self.floor.description (map (λ g. g.0) self.keeper.view.gathered) closing) }
        ensures logs { IfOk result (λ closing. map (λ b. b.entries) closing.logs.items
            ≡ map (λ g. reverse g.1.log) self.keeper.view.gathered) }
        ensures given_back { IfErr result (λ why. given_back why ≡ self) }
    {
        if self.left != 0 {
            return Err(NotClosed::NotGathered(self));
        }
        let OpenFloor {
            shared,
            keeper,
            left,
        } = self;
        match Arc::try_unwrap(shared) {
            Ok(shared) => Ok(close(shared, keeper)),
            Err(shared) => Err(NotClosed::StillShared(OpenFloor {
                shared,
                keeper,
                left,
            })),
        }
    }
}

// Opens a floor for a description that fits.
fn make(alloc: Global, description: Description) -> Result<(OpenFloor, Vec<Thread>), AllocError>
    requires sized { IsSized description }
    requires one_chain { description.chains ≡ 1 }
    ensures floor { IfOk result (λ made. made.0.floor.description ≡ description) }
    ensures none_gathered { IfOk result (λ made. made.0.keeper.view.gathered ≡ []) }
    ensures count { IfOk result (λ made. length made.1.items ≡ length description.threads) }
    ensures threads { IfOk result (λ made. (t : ℕ) (d : _) → t < length description.threads
        → slice_index_or made.1.items t d ≡ first_thread made.0.floor t) }
{
    let left = description.threads.as_slice().len();
    let locks = description.locks.as_slice().len();
    let chans = Vec::from_slice(alloc, description.chans.as_slice())?;
    let (floor, keeper, passes) = Floor::of_description(alloc, description)?;
    let shared = share(
        alloc,
        Shared {
            floor,
            locks,
            chans,
        },
    )?;
    let all = hand_out(alloc, &shared, passes)?;
    let open = OpenFloor {
        shared,
        keeper,
        left,
    };
    Ok((open, all))
}

// Puts a floor where its threads can share it.
fn share(alloc: Global, shared: Shared) -> Result<Arc<Shared, Global>, AllocError>
    ensures { IfOk result (λ it. arc_value it ≡ shared) }
{
    match Arc::new(alloc, shared) {
        Ok(it) => Ok(it),
        Err(_) => Err(AllocError),
    }
}

// The threads of these passes, in order, each of which is at rest.
fn hand_out(
    alloc: Global,
    shared: &Arc<Shared, Global>,
    passes: Vec<Pass>,
) -> Result<Vec<Thread>, AllocError>
    requires { All (λ p. Stands (arc_value shared.now).floor stages.AtRest p) passes.items }
    ensures { IfOk result (λ all. all.items
        ≡ map (thread_at_rest (arc_value shared.now).floor) passes.items) }
{
    let mut all = Vec::new(alloc);
    for pass in passes {
        let mine = Arc::try_clone(shared)?;
        all.push(Thread::new(mine, pass))?;
    }
    Ok(all)
}

// Closes a floor of which nobody has a share any more.
fn close(shared: Shared, keeper: Keeper) -> Closing
    requires mine { IsKeeperOf shared.floor keeper }
    requires all { length keeper.view.gathered ≡ length shared.floor.description.threads }
    ensures closing { IsClosing shared.floor.description (map (λ g. g.0) keeper.view.gathered)
        result }
    ensures logs { map (λ b. b.entries) result.logs.items
        ≡ map (λ g. reverse g.1.log) keeper.view.gathered }
{
    shared.into_floor().close(keeper)
}
