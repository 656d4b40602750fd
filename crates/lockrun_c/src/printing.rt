//! The text of what a floor left.
ghost use Rattle.std.specs.Prelude.{◌≡◌, ◌≢◌, ◌<◌, ◌++◌, Some, drop, length, IfOk, IsFalse};
ghost use Rattle.lockrun_c.specs.Handles.{has_remains};
ghost use Rattle.lockrun_c.specs.Printing.{HasPrinted, IsLonger, IsTextOf};

use crate::codes::{DONE, NO_MEMORY, NO_SPACE, NOT_CLOSED};
use crate::content::{Content, Remains};
use crate::handles::Handle;
use floor_ends::outcome_of;
use lock_history::print;
use std::alloc::{AllocError, Global};

/// Writes the text of what a floor left, and how many bytes it has; where the room is too small, that alone.
#[unsafe(no_mangle)]
pub extern "C" fn lockrun_print(
    alloc: Global,
    floor: &mut Handle,
    out: &mut [u8],
    written: &mut usize,
) -> u32
    ensures printed { result ≡ 0 → HasPrinted floor.old.held.home out.old out.new written.new }
    ensures not_closed { result ≡ 24 → IsFalse (has_remains floor.old.held.home) }
    ensures no_space { result ≡ 23 → IsLonger floor.old.held.home out.old written.new }
    ensures refused { result ≢ 0 → out.new ≡ out.old }
    ensures unchanged { floor.new.held.home ≡ floor.old.held.home }
{
    if floor.is_there == 0 {
        return NOT_CLOSED;
    }
    print_content(alloc, floor.held.as_mut(), out, written)
}

fn print_content(alloc: Global, content: &Content, out: &mut [u8], written: &mut usize) -> u32
    ensures printed { result ≡ 0 → HasPrinted (Some content.now) out.old out.new written.new }
    ensures not_closed { result ≡ 24 → IsFalse (has_remains (Some content.now)) }
    ensures no_space { result ≡ 23 → IsLonger (Some content.now) out.old written.new }
    ensures refused { result ≢ 0 → out.new ≡ out.old }
{
    match content {
        Content::Closed(remains) => match text_of(alloc, remains) {
            Err(_) => NO_MEMORY,
            Ok(text) => put(text.as_slice(), out, written),
        },
        Content::Empty | Content::Open(_) | Content::Thread(_) | Content::World(_) => NOT_CLOSED,
    }
}

// Writes a text, where there is room for it.
pub(crate) fn put(text: &[u8], out: &mut [u8], written: &mut usize) -> u32
    ensures printed { result ≡ 0 → out.new ≡ text.now ++ drop (length text.now) out.old }
    ensures cause { result ≢ 24 }
    ensures others { result ≢ 0 → result ≡ 23 }
    ensures no_space { result ≡ 23 → length out.old < length text.now }
    ensures refused { result ≢ 0 → out.new ≡ out.old }
    ensures written { written.new ≡ length text.now }
{
    *written = text.len();
    if text.len() > out.len() {
        return NO_SPACE;
    }
    out[..text.len()].copy_from_slice(text);
    DONE
}

// The text of what a floor left.
fn text_of(alloc: Global, remains: &Remains) -> Result<Vec<u8>, AllocError>
    ensures { IfOk result (λ text. IsTextOf remains.now text.items) }
{
    let outcome = outcome_of(alloc, &remains.closing)?;
    print(alloc, &remains.names, &outcome)
}
