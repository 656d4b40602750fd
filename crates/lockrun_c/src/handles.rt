//! The handles that C has.
ghost use Rattle.std.specs.Prelude.{◌≡◌, ◌≢◌, ◌==◌, Some, None, is_some, not};

use crate::codes::{DONE, NO_MEMORY};
use crate::content::Content;
use crate::held::{Held, Token};
use std::alloc::Global;

/// The handle of a floor or of a thread: a box, or nothing. Zero bytes are one that has nothing.
#[repr(C)]
#[derive(Drop)]
pub struct Handle {
    pub(crate) held: Held,
    // How the waiting calls of C wait, which no call here reads.
    pub(crate) how: *mut Token,
    pub(crate) is_there: u32,
    ghost fits: { is_some held.home ≡ not (is_there == 0) },
}

// Gives this to a handle, in a box of its own.
pub(crate) fn move_in(alloc: Global, handle: &mut Handle, content: Content) -> u32
    ensures moved { result ≡ 0 → handle.new.held.home ≡ Some content }
    ensures others { result ≢ 0 → result ≡ 16 }
    ensures refused { result ≢ 0 → handle.new.held.home ≡ handle.old.held.home }
{
    match Box::new(alloc, content) {
        Err(_) => NO_MEMORY,
        Ok(content) => {
            put_there(handle, content);
            DONE
        }
    }
}

// Gives a box to a handle.
pub(crate) fn put_there(handle: &mut Handle, content: Box<Content>)
    ensures { handle.new.held.home ≡ Some content.value }
{
    let how = handle.how;
    *handle = Handle {
        held: Held::of(content),
        how,
        is_there: 1,
    };
}

// A handle that has nothing.
fn nothing(how: *mut Token, alloc: Global) -> Handle
    ensures { result.held.home ≡ None }
{
    Handle {
        held: Held::shut(how, alloc),
        how,
        is_there: 0,
    }
}

// Takes the box out of a handle, which has nothing then.
pub(crate) fn take(handle: &mut Handle, alloc: Global) -> Box<Content>
    requires { handle.old.is_there ≢ 0 }
    ensures none { handle.new.held.home ≡ None }
    ensures taken { handle.old.held.home ≡ Some result.value }
{
    let how = handle.how;
    let old = std::mem::replace(handle, nothing(how, alloc));
    into_box(old)
}

fn into_box(handle: Handle) -> Box<Content>
    requires { handle.is_there ≢ 0 }
    ensures { handle.held.home ≡ Some result.value }
{
    let Handle {
        held,
        how: _,
        is_there: _,
    } = handle;
    held.into_box()
}
