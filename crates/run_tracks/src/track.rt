//! What one thing was between turns. A track keeps the value of row 0 and each change with the row from which on it
//! holds, so its memory is in proportion to what changed.
ghost use Rattle.std.specs.Prelude.{◌≡◌, ◌⊎◌, ◌↔◌, ℕ, ◌<◌, ◌≤◌, [], ◌∷◌, ◌++◌, length, Some, IfOk, OnOk, OnErr, IsTrue};
ghost use Rattle.std.specs.List.{All};
ghost use Rattle.run_tracks.specs.Tracks.{value_in, Ascend, IsTrack, LieUpTo};

use lock_model::{Mode, Prio, QueueName};
use lock_objects::Wait;
use prio_lending::Walk;
use std::alloc::{AllocError, Global};
use std::marker::Model;

/// What something was in each row: its value in row 0, and each later one with the row from which on it holds.
///
/// ```
/// let mut track = Track::begin(alloc, Prio(200))?;
/// track.note(7, Prio(10))?;
/// assert_eq!(rt; (track.at(6), track.at(7)), (Prio(200), Prio(10)));
/// ```
#[derive(Drop)]
pub struct Track<T> {
    // The rows ascend from 0.
    changes: Vec<(u32, T)>,
}

impl<T> Model for Track<T> {
    ghost use Rattle.std.specs.Prelude.{List, ℕ};

    ghost Value = { List (ℕ × T) };

    ghost use Rattle.run_tracks.specs.Tracks.{IsTrack};

    ghost view = { λ a. a.changes.items };

    ghost invariant = { λ a. IsTrack a.changes.items };
}

impl<T: Drop> Track<T> {
    /// A track of one value, which holds from row 0 on.
    pub fn begin(alloc: Global, value: T) -> Result<Track<T>, AllocError>
        ensures { IfOk result (λ track. track ≡ (0, value) ∷ []) }
    {
        let mut changes = Vec::new(alloc);
        changes.push((0, value))?;
        Ok(Track { changes })
    }

    /// Keeps a value that holds from a row on. All changes so far lie in earlier rows.
    pub fn keep(&mut self, row: u32, value: T) -> Result<(), AllocError>
        requires { All (λ change. change.0 < row) self.old }
        ensures kept { OnOk result (self.new ≡ self.old ++ (row, value) ∷ []) }
        ensures err { OnErr result (self.new ≡ self.old) }
    {
        self.changes.push((row, value))?;
        Ok(())
    }
}

impl<T> Track<T> {
    /// The value of row 0 and the changes, each with its row, in ascending order.
    pub fn changes(&self) -> &[(u32, T)]
        ensures changes { result.now ≡ self.now }
        ensures track { IsTrack self.now }
    {
        &self.changes
    }

    /// The value in a row, found in time in the logarithm of the changes.
    #[tactic(auto, using(crate::proofs::Changes::some_up_to))]
    pub fn get(&self, row: u32) -> &T
        ensures { value_in row self.now ≡ Some result.now }
    {
        let changes = self.changes();
        let behind = count_up_to(changes, row);
        &changes[behind - 1].1
    }
}

/// How many changes lie up to a row, found in time in the logarithm of all.
pub fn count_up_to<T>(changes: &[(u32, T)], row: u32) -> usize
    requires { Ascend changes.now }
    ensures within { result ≤ length changes.now }
    ensures up_to { LieUpTo row changes.now result }
{
    changes.partition_point(|change| change.0 <= row)
}

impl<T: Noted> Track<T> {
    /// Keeps a value that holds from a row on, where it is another than the last. All changes so far lie in earlier
    /// rows.
    pub fn note(&mut self, row: u32, value: T) -> Result<(), AllocError>
        requires { All (λ change. change.0 < row) self.old }
        ensures kept { OnOk result
            ((self.new ≡ self.old) ⊎ (self.new ≡ self.old ++ (row, value) ∷ [])) }
        ensures noted { OnOk result (value_in row self.new ≡ Some value) }
        ensures same { OnOk result (value_in row self.old ≡ Some value → self.new ≡ self.old) }
        ensures err { OnErr result (self.new ≡ self.old) }
    {
        if value.is(self.at(row)) {
            Ok(())
        } else {
            self.keep(row, value)
        }
    }

    /// The value in a row.
    pub fn at(&self, row: u32) -> T
        ensures { value_in row self.now ≡ Some result }
    {
        *self.get(row)
    }
}

/// What is noted in a track: values of which it can be told whether they are the same.
pub trait Noted: Copy + Drop {
    /// Whether it is the same value.
    fn is(self, other: Self) -> bool
        ensures { IsTrue result ↔ self ≡ other };
}

impl Noted for Prio {
    fn is(self, other: Prio) -> bool {
        self == other
    }
}

impl Noted for (Prio, Prio) {
    fn is(self, other: (Prio, Prio)) -> bool {
        self == other
    }
}

impl Noted for Wait {
    fn is(self, other: Wait) -> bool {
        self == other
    }
}

impl Noted for Walk {
    fn is(self, other: Walk) -> bool {
        self == other
    }
}

impl Noted for Option<QueueName> {
    fn is(self, other: Option<QueueName>) -> bool {
        self == other
    }
}

impl Noted for Option<Mode> {
    fn is(self, other: Option<Mode>) -> bool {
        self == other
    }
}

impl Noted for u64 {
    fn is(self, other: u64) -> bool {
        self == other
    }
}
