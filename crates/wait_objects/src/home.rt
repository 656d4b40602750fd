//! Where a thread keeps its object of a kind, with its node, while it doesn't wait on one.
ghost use Rattle.std.specs.Prelude.{◌≡◌, None, Some, [], IsSome, IfSome, option_map};
ghost use Rattle.wait_objects.specs.Seen.{idle_object, IsEmpty};

use crate::node::Node;
use crate::object::Object;
use crate::own::Own;
use std::marker::Model;

/// A place for an object and a node, which are both there, the object idle and the node empty, or both
/// away.
#[derive(Drop)]
pub struct Home<E: Own> {
    kept: Option<(Box<Object<E>>, Box<Node<E>>)>,
}

impl<E: Own> Model for Home<E> {
    ghost use Rattle.std.specs.Prelude.{Option};
    ghost use Rattle.wait_objects.specs.Seen.{Kept};

    ghost Value = { Option Kept };

    ghost use Rattle.wait_objects.specs.Homes.{seen_home, AreIdle};

    ghost view = { seen_home };

    ghost invariant = { λ a. AreIdle E.Own a };
}

impl<E: Own> Home<E> {
    /// A place with an idle object and an empty node.
    pub fn of(object: Box<Object<E>>, node: Box<Node<E>>) -> Home<E>
        requires idle { object.value ≡ idle_object E.home object.value.contents.number }
        requires empty { IsEmpty node.value }
        ensures { result
            ≡ Some (record {
              object = object.value.contents.number;
              thread = node.value.place.thread;
            }) }
    {
        Home {
            kept: Some((object, node)),
        }
    }

    /// Lends the object and the node, which are there.
    pub fn lend(&mut self) -> (Box<Object<E>>, Box<Node<E>>)
        requires { IsSome self.old }
        ensures object { option_map (λ k. idle_object E.home k.object) self.old
            ≡ Some result.0.value }
        ensures node { option_map (λ k. k.thread) self.old ≡ Some result.1.value.place.thread }
        ensures empty { IsEmpty result.1.value }
        ensures left { self.new ≡ None }
    {
        self.kept.take().unwrap()
    }

    /// Takes the node back, and the object that it holds. Both are away, and the node stands in no list.
    pub fn take_back(&mut self, mut node: Box<Node<E>>)
        requires away { self.old ≡ None }
        requires holds { IsSome node.value.place.object }
        requires alone { node.value.next ≡ [] }
        ensures { self.new
            ≡ option_map (λ n. record { object = n; thread = node.value.place.thread })
            node.value.place.object }
    {
        if let Some(object) = node.take_object() {
            self.kept = Some((object, node));
        }
    }
}
