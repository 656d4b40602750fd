//! Things of which there is one for each number.
ghost use Rattle.std.specs.Prelude.{◌≡◌, ◌<◌, ℕ, length, slice_get, Ok, Some, IfOk, OnOk};
ghost use Rattle.run_tracks.specs.Tracks.{EachAt};

use std::alloc::{AllocError, Global};

/// So many things, each made by its number.
pub(crate) fn make_each<A: Drop, F: Fn(u8) -> Result<A, AllocError>>(
    alloc: Global,
    number: u8,
    make: F,
) -> Result<Vec<A>, AllocError>
    requires { (i : ℕ) → i < number → F.pre make i }
    ensures number { IfOk result (λ all. length all.items ≡ number) }
    ensures each { IfOk result (λ all. EachAt (λ i x. F.post make i (Ok x)) all.items) }
{
    let mut all = Vec::new(alloc);
    for i in 0..number {
        all.push(make(i)?)?;
    }
    Ok(all)
}

/// Changes so many things, each by its number.
pub(crate) fn change_each<A: Drop, F: Fn(u8, &mut A) -> Result<(), AllocError>>(
    all: &mut Vec<A>,
    number: u8,
    change: F,
) -> Result<(), AllocError>
    requires number { length all.old.items ≡ number }
    requires each { (i : ℕ) (x : _) → slice_get all.old.items i ≡ Some x.now → F.pre change i x }
    ensures number { OnOk result (length all.new.items ≡ number) }
    ensures each { OnOk result (EachAt (λ i x. (old new : _)
        × slice_get all.old.items i ≡ Some old.now × (new.now ≡ x)
        × F.post change i old (Ok tt) new) all.new.items) }
{
    for i in 0..number {
        change(i, &mut all[usize::from(i)])?;
    }
    Ok(())
}
