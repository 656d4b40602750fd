//! Tables of locks: the value at each key of a lock's table, with room for fixed keys.
ghost use Rattle.std.specs.Prelude.{◌≡◌, ℕ, ◌||◌, ◌↔◌, OnOk, IfOk, IsOk, IsTrue, is_some};
ghost use Rattle.std.specs.Option.{option_map};
ghost use Rattle.std.specs.List.{Contains, list_any, slice_get};
ghost use Rattle.std.specs.FinMap.{empty, get, insert, entries};
ghost use Rattle.indexmap.specs.IndexMap as map;
ghost use Rattle.lock_model.specs.History.{edited};
ghost use Rattle.lock_model.specs.Keys.{op_names, plan_names};
ghost use Rattle.lock_history.specs.Books.{changed, filled, place_eq, row_seen, HasNoValue, HasRoom};

use indexmap::IndexMap;
use lock_model::{Event, LockNo, OfTable, Op, Plan};
use std::alloc::{AllocError, Global};
use std::marker::Model;

/// The values at the keys of the locks' tables. A key is present where it has a value.
///
/// ```
/// let mut tables = Tables::make(alloc, &plan)?;
/// tables.put(LockNo(0), 7, 1);
/// assert_eq!(rt; tables.get(LockNo(0), 7), Some(1));
/// ```
#[derive(Drop, Debug)]
pub struct Tables {
    // A value or none at each key that there is room for, by lock and then by key.
    slots: IndexMap<(u8, u64), Option<u64>>,
}

impl Model for Tables {
    ghost use Rattle.indexmap.specs.IndexMap.{keys};
    ghost use Rattle.std.specs.List.Sorted.{IsStrictlySortedBy};
    ghost use Rattle.lock_model.specs.History.{place_cmp};
    ghost use Rattle.lock_history.specs.Books.{Slots, slots_code, present_of};

    ghost Value = { Slots };

    ghost coded = { slots_code };

    ghost view = { λ t. record {
      places = keys t.slots;
      present = present_of t.slots.entries;
    } };

    ghost invariant = { λ t. IsStrictlySortedBy place_cmp (keys t.slots) };
}

/// A copy has the same room and the same values. It takes time in the number of the keys that there is room for, and
/// fails where memory runs out.
impl Clone for Tables {
    ghost is_clone = { λ x y. y ≡ x };

    fn clone(&self) -> Result<Tables, AllocError> {
        Ok(Tables {
            slots: self.slots.clone()?,
        })
    }
}

impl Tables {
    /// Tables with room for each key that an operation of the plan names, and no key present. It fails
    /// where memory runs out.
    pub fn make(alloc: Global, plan: &Plan) -> Result<Tables, AllocError>
        ensures empty { IfOk result (λ t. t.present ≡ empty) }
        ensures room { IfOk result (λ t. (l key : ℕ) →
            Contains t.places (l, key) ↔ IsTrue (plan_names plan.now l key)) }
    {
        let mut slots = IndexMap::new(alloc);
        for thread in plan.threads.as_slice() {
            add_slots(&mut slots, thread.ops.as_slice())?;
        }
        slots.sort_keys()?;
        Ok(Tables { slots })
    }

    /// Tables with room for each of these keys, which stand behind their locks' numbers, and no key present. It
    /// fails where memory runs out.
    pub fn with_room(alloc: Global, keys: &[(u8, u64)]) -> Result<Tables, AllocError>
        ensures empty { IfOk result (λ t. t.present ≡ empty) }
        ensures room { IfOk result (λ t. (l key : ℕ) →
            Contains t.places (l, key) ↔ Contains keys.now (l, key)) }
    {
        let mut slots = IndexMap::new(alloc);
        for key in keys {
            slots.insert(*key, None)?;
        }
        slots.sort_keys()?;
        Ok(Tables { slots })
    }

    /// Sets a key that there is room for, and leaves the others. It takes no memory, and one look into a hash map.
    pub fn put(&mut self, l: LockNo, key: u64, value: u64)
        requires { Contains self.old.places (l.0, key) }
        ensures places { self.new.places ≡ self.old.places }
        ensures present { self.new.present ≡ insert self.old.present (l.0, key) value }
    {
        self.change(l, key, false, value).unwrap();
    }

    /// Makes the change that an event says: it sets the key of a `Set`, adds to that of an `Added`, where an
    /// absent key counts as 0, and changes nothing at any other event. It takes memory, and time in the number
    /// of the keys, only for a key that there is no room for, and fails only where memory runs out.
    pub fn edit(&mut self, event: Event) -> Result<(), AllocError>
        ensures present { OnOk result (self.new.present ≡ edited event self.old.present) }
        ensures succeeds { HasRoom self.old.places event → IsOk result }
        ensures places { HasRoom self.old.places event → self.new.places ≡ self.old.places }
    {
        match event.at_table() {
            OfTable::SetsTo { l, key, value } => self.change(l, key, false, value),
            OfTable::AddsTo { l, key, amount } => self.change(l, key, true, amount),
            OfTable::NoTable | OfTable::Reads { .. } => Ok(()),
        }
    }

    /// The value at a key. There is none exactly where the key is absent.
    pub fn get(&self, l: LockNo, key: u64) -> Option<u64>
        ensures { result ≡ get self.now.present (l.0, key) }
    {
        match self.slots.get(&(l.0, key)) {
            Some(slot) => *slot,
            None => None,
        }
    }

    /// The key at a place among those that are present, by lock and then by key, and its value. There is
    /// none exactly past the end. It walks the keys up to there.
    pub fn at(&self, i: u32) -> Option<(LockNo, u64, u64)>
        ensures { option_map row_seen result ≡ slice_get (entries self.now.present) i }
    {
        let mut left = i;
        for ((l, key), slot) in self.slots() {
            if let Some(value) = slot {
                if left == 0 {
                    return Some((LockNo(*l), *key, *value));
                }
                left -= 1;
            }
        }
        None
    }

    // No key, and no room.
    pub(crate) fn none(alloc: Global) -> Tables
        ensures { result.present ≡ empty }
    {
        Tables {
            slots: IndexMap::new(alloc),
        }
    }

    // Sets a key to a number, or adds the number to what is there: one look, with room made where there was none.
    fn change(&mut self, l: LockNo, key: u64, adds: bool, n: u64) -> Result<(), AllocError>
        ensures present { OnOk result (self.new.present ≡ insert self.old.present (l.0, key)
            (changed adds (get self.old.present (l.0, key)) n)) }
        ensures succeeds { Contains self.old.places (l.0, key) → IsOk result }
        ensures places { Contains self.old.places (l.0, key)
            → self.new.places ≡ self.old.places }
    {
        let place = (l.0, key);
        match self.slots.get_mut(&place) {
            Some(slot) => *slot = Some(changed(*slot, adds, n)),
            None => {
                self.slots.insert_sorted(place, Some(n))?;
            }
        }
        Ok(())
    }

    // A value or none at each key that there is room for.
    pub(crate) fn slots(&self) -> &IndexMap<(u8, u64), Option<u64>>
        ensures { entries self.now.present ≡ filled result.now.entries }
    {
        &self.slots
    }
}

// What a key is set to: the number, or its sum with the value before, where none counts as 0.
fn changed(before: Option<u64>, adds: bool, n: u64) -> u64
    ensures { result ≡ changed adds before n }
{
    if adds {
        before.unwrap_or(0).wrapping_add(n)
    } else {
        n
    }
}

// Room for the keys that operations name, in a map that has no value yet.
fn add_slots(slots: &mut IndexMap<(u8, u64), Option<u64>>, ops: &[Op]) -> Result<(), AllocError>
    requires empty { HasNoValue slots.old }
    ensures empty { OnOk result (HasNoValue slots.new) }
    ensures room { OnOk result ((l key : ℕ) → is_some (map.get place_eq slots.new (l, key))
        ≡ (is_some (map.get place_eq slots.old (l, key)) || list_any (op_names l key) ops.now)) }
{
    for op in ops {
        if let Some((l, key)) = op.place() {
            slots.insert((l.0, key), None)?;
        }
    }
    Ok(())
}
