//! What is counted of pairs of classes: a row for each class of a lock that is gained, with a count for each class of a
//! lock that is held.
ghost use Rattle.std.specs.Prelude.{◌≡◌, ℕ, ◌+◌, ◌^◌, ◌<◌, ◌++◌, ◌==◌, [], ◌∷◌, count_by, length, map, filter, flat_map, nat_lt, slice_index, slice_index_or, if◌then◌else◌, IfOk, OnOk};
ghost use Rattle.std.specs.List.{All, range_with_len};
ghost use Rattle.lock_model.specs.Plans.{lock_class};
ghost use Rattle.hold_profile.specs.Counting.{pairs_by, row_lines, counted_line};
ghost use Rattle.hold_profile.specs.Profiles.{is_seen};

use crate::events::AtLock;
use crate::lines::OrderLine;
use lock_model::{ClassNo, LockNo, Plan, ThreadNo};
use std::alloc::{AllocError, Global};

/// A count of 0 for each pair of so many classes.
pub fn no_pairs(alloc: Global, classes: usize) -> Result<Vec<Vec<u32>>, AllocError>
    ensures len { IfOk result (λ rows. length rows.items ≡ classes) }
    ensures rows { IfOk result (λ rows. (b : ℕ) (d : _) → b < classes
        → length (slice_index_or rows.items b d).items ≡ classes) }
    ensures zero { IfOk result (λ rows. (a b : ℕ) (d : _) → a < classes → b < classes
        → slice_index (slice_index_or rows.items b d).items a ≡ 0) }
{
    let mut rows = Vec::new(alloc);
    for _ in 0..classes {
        rows.push(vec![in alloc; 0; classes]?)?;
    }
    Ok(rows)
}

/// Counts the pairs that an entry of a thread brings, of a lock: where a section begins, one for each that the thread
/// has open.
pub fn count_pairs(
    rows: &mut Vec<Vec<u32>>,
    plan: &Plan,
    lists: &[Vec<LockNo>],
    l: LockNo,
    what: AtLock,
    thread: ThreadNo,
)
    requires thread { thread.0 < length lists.now }
    requires fits { (b : ℕ) (d e : _) → b < length rows.old.items
        → All (λ n. n + length (slice_index_or lists.now thread.0 e).items < 2 ^ 32)
        (slice_index_or rows.old.items b d).items }
    ensures len { length rows.new.items ≡ length rows.old.items }
    ensures rows { (b : ℕ) (d : _) → b < length rows.old.items
        → length (slice_index_or rows.new.items b d).items
        ≡ length (slice_index_or rows.old.items b d).items }
    ensures counted { (a b : ℕ) (d e : _) → b < length rows.old.items
        → a < length (slice_index_or rows.old.items b d).items
        → slice_index (slice_index_or rows.new.items b d).items a
        ≡ slice_index (slice_index_or rows.old.items b d).items a
        + pairs_by plan.now what l (slice_index_or lists.now thread.0 e).items a b }
{
    match what {
        AtLock::Begins => {
            let held = &lists[usize::from(thread.0)];
            match rows.get_mut(usize::from(plan.lock_class(l).0)) {
                Some(row) => count_held(row, plan, held.as_slice()),
                None => {}
            }
        }
        AtLock::Ends | AtLock::Leaves | AtLock::FindsBusy | AtLock::IsHalted => {}
    }
}

// Counts each lock by its class.
fn count_held(row: &mut Vec<u32>, plan: &Plan, held: &[LockNo])
    requires { All (λ n. n + length held.now < 2 ^ 32) row.old.items }
    ensures len { length row.new.items ≡ length row.old.items }
    ensures counted { (a : ℕ) → a < length row.old.items → slice_index row.new.items a
        ≡ slice_index row.old.items a + count_by (λ k. lock_class plan.now k.0 == a) held.now }
{
    for l in held {
        count_one(row, plan.lock_class(*l));
    }
}

// Counts one of a class.
fn count_one(row: &mut Vec<u32>, class: ClassNo)
    requires { All (λ n. n + 1 < 2 ^ 32) row.old.items }
    ensures len { length row.new.items ≡ length row.old.items }
    ensures counted { (a : ℕ) → a < length row.old.items → slice_index row.new.items a
        ≡ slice_index row.old.items a + (if class.0 == a then 1 else 0) }
{
    let place = usize::from(class.0);
    if place < row.len() {
        row[place] += 1;
    }
}

/// The counts above 0, by the class that was held and then by the one that was gained.
pub fn lines_of(alloc: Global, rows: &[Vec<u32>], classes: u8) -> Result<Vec<OrderLine>, AllocError>
    requires rows { length rows.now ≡ classes }
    requires columns { (b : ℕ) (d : _) → b < classes
        → length (slice_index_or rows.now b d).items ≡ classes }
    ensures { IfOk result (λ lines. lines.items
        ≡ flat_map (row_lines rows.now classes) (range_with_len 0 classes)) }
{
    let mut lines = Vec::new(alloc);
    for first in 0..classes {
        push_lines(&mut lines, rows, classes, first)?;
    }
    Ok(lines)
}

// Those of a class that was held.
fn push_lines(
    lines: &mut Vec<OrderLine>,
    rows: &[Vec<u32>],
    classes: u8,
    first: u8,
) -> Result<(), AllocError>
    requires rows { length rows.now ≡ classes }
    requires columns { (b : ℕ) (d : _) → b < classes
        → length (slice_index_or rows.now b d).items ≡ classes }
    requires first { first < classes }
    ensures { OnOk result (lines.new.items
        ≡ lines.old.items ++ row_lines rows.now classes first) }
{
    for second in 0..classes {
        push_line(lines, rows, first, second)?;
    }
    Ok(())
}

// That of a pair, if it is above 0.
fn push_line(
    lines: &mut Vec<OrderLine>,
    rows: &[Vec<u32>],
    first: u8,
    second: u8,
) -> Result<(), AllocError>
    requires second { second < length rows.now }
    requires first { (d : _) → first < length (slice_index_or rows.now second d).items }
    ensures { OnOk result (lines.new.items
        ≡ lines.old.items ++ filter is_seen (counted_line rows.now first second ∷ [])) }
{
    let count = rows[usize::from(second)][usize::from(first)];
    if count > 0 {
        lines.push(OrderLine {
            first: ClassNo(first),
            second: ClassNo(second),
            count,
        })?;
    }
    Ok(())
}
