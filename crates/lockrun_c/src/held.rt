//! A box as its pointer, as C can have it, or nothing.
ghost use Rattle.std.specs.Prelude.{◌≡◌, ◌≢◌, Option, Some, None};
ghost use Rattle.std.specs.Coded.{codes};
ghost use Rattle.lock_history.specs.Books.{slots_code};
ghost use Rattle.lockrun_c.specs.Held.{held_owns};
ghost use Rattle.lockrun_c.specs.declared.content.Content.{Content as Inside};

mod parts;

use crate::content::Content;
use parts::Parts;
use std::alloc::Global;
use std::marker::Model;

/// What the pointer points to, as far as C can tell.
#[repr(C)]
#[derive(Drop)]
pub struct Token {
    byte: u8,
}

/// A box as its pointer, or nothing: then the pointer is any.
#[repr(C)]
#[derive(Drop)]
pub struct Held {
    ptr: *mut Token,
    alloc: Global,
    pub ghost home: { Option Inside } by { Prim.hlevel (codes, slots_code) },
}

impl Model for Held {
    ghost also_owns = { λ s. held_owns s.alloc s.ptr s.home };
}

impl Held {
    // What a box holds.
    pub(crate) fn of(content: Box<Content>) -> Held
        ensures { result.home ≡ Some content.value }
    {
        Held::of_parts(Parts::of(content))
    }

    // The box again.
    pub(crate) fn into_box(self) -> Box<Content>
        requires { self.home ≢ None }
        ensures { self.home ≡ Some result.value }
    {
        self.into_parts().into_box()
    }

    // Nothing, with any pointer.
    pub(crate) fn shut(ptr: *mut Token, alloc: Global) -> Held
        ensures { result.home ≡ None }
    {
        Held { ptr, alloc }
    }

    fn of_parts(parts: Parts<Content, Global>) -> Held
        ensures { result.home ≡ Some parts.value }
    {
        let Parts { ptr, alloc } = parts;
        Held {
            ptr: ptr as *mut Token,
            alloc,
        }
    }

    fn into_parts(self) -> Parts<Content, Global>
        requires { self.home ≢ None }
        ensures { self.home ≡ Some result.value }
    {
        let Held { ptr, alloc } = self;
        Parts {
            ptr: ptr as *mut Content,
            alloc,
        }
    }
}

impl Held {
    ghost use Rattle.std.specs.Borrow.{sem};
    ghost use Rattle.std.specs.Prelude.{◌≡◌, ◌≢◌, None, Some};
    ghost use Rattle.lockrun_c.specs.Lends.{held_follows};

    // What the box holds, lent where it lies.
    pub(crate) fn as_mut(&mut self) -> &mut Content
        requires { self.old.home ≢ None }
        ensures* writes_back { sem 𝓛 (held_follows self.entry result) }
        ensures value { self.old.home ≡ Some result.now }
    {
        unsafe { &mut *(self.ptr as *mut Content) }
    }
}
