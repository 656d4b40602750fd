//! The rows over which something stays the same: the one mechanism of bars and steps. A track tells its value by the
//! rows in which that changes, ascending and from row 0 on; its spans are what a window shows of what is made of it.
ghost use Rattle.std.specs.Prelude.{◌≡◌, ℕ, ◌≤◌, ◌∷◌, [], IfOk};
ghost use Rattle.std.specs.List.{All};
ghost use Rattle.run_chart.specs.Spans.{values_at, IsWithin, Makes};

use run_tracks::{Noted, Track, count_up_to};
use std::alloc::{AllocError, Global};

/// The rows `first..=last`, in which something has the value.
#[derive(Clone, Copy, Debug)]
pub struct Span<T> {
    pub first: u32,
    pub last: u32,
    pub value: T,
}

/// What the rows `from..=to` show of a track: spans of what is made of its values, which follow upon each other and go
/// on as long as that stays the same. It takes time in proportion to the changes in these rows, and in the logarithm of
/// all.
pub fn spans<T: Copy, U: Noted, F: Fn(T) -> U>(
    alloc: Global,
    track: &Track<T>,
    from: u32,
    to: u32,
    made: F,
) -> Result<Vec<Span<U>>, AllocError>
    requires callable { F.IsAlwaysCallable made }
    requires in_order { from ≤ to }
    ensures within { IfOk result (λ spans. All (IsWithin from to) spans.items) }
    ensures values { IfOk result (λ spans. (is : ℕ → U) → Makes (F.post made) track.now from to is
        → (n : ℕ) → from ≤ n → n ≤ to → values_at n spans.items ≡ is n ∷ []) }
{
    let changes = track.changes();
    let up_to = count_up_to(changes, to);
    let mut spans = Vec::new(alloc);
    let mut first = from;
    let mut value = made(*track.get(from));
    for i in count_up_to(changes, from)..up_to {
        let (row, change) = changes[i];
        let next = made(change);
        if value.is(next) {
            continue;
        }
        let last = row - 1;
        spans.push(Span { first, last, value })?;
        first = row;
        value = next;
    }
    spans.push(Span {
        first,
        last: to,
        value,
    })?;
    Ok(spans)
}
