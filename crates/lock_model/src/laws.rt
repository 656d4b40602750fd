//! What the facets of an event tell of each other, over definitions alone.
ghost use Rattle.std.specs.Prelude.{◌≡◌};
ghost use Rattle.lock_model.specs.Events.{facets, lock_gained, section_gained, end_of, section_slept, of_channel, take_halted, sleep_halted, matters};
ghost use Rattle.lock_model.specs.declared.event.Event.{Event};

/// A gain begins a section of the lock that was gained, and nothing else begins one but a sleep's end. What ends is the
/// take, but for a try, that gained the lock or was halted, or the wait behind which a lock is taken back. A sleep on a
/// condition variable or channel leaves the section of its lock, and its end takes that back. A halt of a sleep for a
/// lock ends a take of it. And an event speaks of one matter alone: a table, priorities, a section, a take that gained
/// nothing, or sleepers that it wakes.
pub fn facets_agree()
    ensures gains { (e : Event) → section_gained (facets e).section ≡ lock_gained (facets e).take }
    ensures ends { (e : Event) → (facets e).end ≡ end_of (facets e).take (facets e).section }
    ensures sleeps { (e : Event) → of_channel (facets e).section ≡ section_slept (facets e).sleep }
    ensures halts { (e : Event) → take_halted (facets e).take ≡ sleep_halted (facets e).sleep }
    ensures matters { (e : Event) → matters (facets e) ≡ 1 }
{}
