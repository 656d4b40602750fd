//! The free list of an object: objects that are linked by `next`, the one put last in front.
ghost use Rattle.std.specs.Prelude.{◌≡◌, [], ◌∷◌, map, IfNone, IfSome, option_map, slice_get};

use crate::object::Object;
use crate::own::Own;
use lock_model::ThreadNo;
use std::marker::Model;

/// Objects in a list, seen as what they contain.
#[cycle(object)]
#[derive(Drop)]
pub(crate) struct FreeList<E: Own> {
    first: Option<Box<Object<E>>>,
}

impl<E: Own> Model for FreeList<E> {
    ghost use Rattle.std.specs.Prelude.{List};
    ghost use Rattle.wait_objects.specs.Seen.{Contents};

    ghost Value = { List (Contents E) };

    ghost use Rattle.wait_objects.specs.Inside.{free_contents};
    ghost use Rattle.wait_objects.specs.Sizes.{free_size};

    ghost view = { free_contents };

    ghost size = { free_size };

    ghost use Rattle.wait_objects.specs.Falls.{free_falls};

    ghost size_decreases = { λ a h. free_falls E.Own a };
}

impl<E: Own> FreeList<E> {
    pub(crate) fn empty() -> FreeList<E>
        ensures { result ≡ [] }
    {
        FreeList { first: None }
    }

    /// Puts an object with nothing behind it first.
    pub(crate) fn put(&mut self, mut own: Box<Object<E>>)
        requires { own.value.next ≡ [] }
        ensures { self.new ≡ own.value.contents ∷ self.old }
    {
        own.swap_next(self.first.take());
        self.first = Some(own);
    }

    /// Takes the first object.
    pub(crate) fn take(&mut self) -> Option<Box<Object<E>>>
        ensures none { IfNone result ((self.old ≡ []) × (self.new ≡ [])) }
        ensures some { IfSome result (λ b. (self.old ≡ b.value.contents ∷ self.new)
            × (b.value.next ≡ [])) }
    {
        let mut own = self.first.take()?;
        self.first = own.swap_next(None);
        Some(own)
    }

    /// The number of the object at a place.
    pub(crate) fn at(&self, i: u32) -> Option<ThreadNo>
        ensures { option_map (λ t. t.0) result ≡ slice_get (map (λ c. c.number) self.now) i }
    {
        match &self.first {
            None => None,
            Some(first) => first.number_at(i),
        }
    }
}
