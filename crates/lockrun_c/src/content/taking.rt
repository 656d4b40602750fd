//! What is taken out of what a box holds.
ghost use Rattle.std.specs.Prelude.{◌≡◌, true, Some, IfNone, IfSome, IsFalse};
ghost use Rattle.lockrun_c.specs.Handles.{has_floor, has_thread, has_world};
ghost use Rattle.lockrun_c.specs.declared.content.Content.TheVariants as contents;

use super::{Content, House};
use floor_calls::Thread;
use turn_calls::OpenWorld;

impl Content {
    // Takes the floor out that is open, and nothing is left. Where there is none, nothing is changed.
    pub(crate) fn take_floor(&mut self) -> Option<House>
        ensures taken { IfSome result (λ house. self.old ≡ contents.Open house) }
        ensures none { IfNone result (IsFalse (has_floor (Some self.old))) }
        ensures unchanged { IfNone result (self.new ≡ self.old) }
    {
        match self {
            Content::Open(_) => Some(std::mem::replace(self, Content::Empty).into_floor()),
            Content::Empty | Content::Closed(_) | Content::Thread(_) | Content::World(_) => None,
        }
    }

    // So the world of a script.
    pub(crate) fn take_world(&mut self) -> Option<OpenWorld>
        ensures taken { IfSome result (λ world. self.old ≡ contents.World world) }
        ensures none { IfNone result (IsFalse (has_world (Some self.old))) }
        ensures unchanged { IfNone result (self.new ≡ self.old) }
    {
        match self {
            Content::World(_) => Some(std::mem::replace(self, Content::Empty).into_world()),
            Content::Empty | Content::Open(_) | Content::Closed(_) | Content::Thread(_) => None,
        }
    }

    // The floor that is open.
    fn into_floor(self) -> House
        requires { has_floor (Some self) ≡ true }
        ensures { self ≡ contents.Open result }
    {
        match self {
            Content::Open(house) => house,
            Content::Empty | Content::Closed(_) | Content::Thread(_) | Content::World(_) =>
                unreachable!(),
        }
    }

    // The thread.
    pub(crate) fn into_thread(self) -> Thread
        requires { has_thread (Some self) ≡ true }
        ensures { self ≡ contents.Thread result }
    {
        match self {
            Content::Thread(thread) => thread,
            Content::Empty | Content::Open(_) | Content::Closed(_) | Content::World(_) =>
                unreachable!(),
        }
    }

    // The world of a script.
    fn into_world(self) -> OpenWorld
        requires { has_world (Some self) ≡ true }
        ensures { self ≡ contents.World result }
    {
        match self {
            Content::World(world) => world,
            Content::Empty | Content::Open(_) | Content::Closed(_) | Content::Thread(_) =>
                unreachable!(),
        }
    }
}
