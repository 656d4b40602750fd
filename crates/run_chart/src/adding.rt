//! Adding to what is shown.
ghost use Rattle.std.specs.Prelude.{◌≡◌, ◌++◌, option_to_list, OnOk};

use std::alloc::AllocError;

/// Adds what there is, if there is something.
pub fn push_some<X: Drop>(all: &mut Vec<X>, some: Option<X>) -> Result<(), AllocError>
    ensures { OnOk result (all.new.items ≡ all.old.items ++ option_to_list some) }
{
    if let Some(x) = some {
        all.push(x)?;
    }
    Ok(())
}
