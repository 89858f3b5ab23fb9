//! The queue of the bounds that the row may break, by position.
ghost use Rattle.std.specs.Prelude.{◌≡◌, ◌+◌, ◌<◌, ◌≤◌, ◌++◌, length, vec_capacity, filter};
ghost use Rattle.std.specs.List.{AllByRecursion};
ghost use Rattle.difference.specs.Depth.{Inside};
ghost use Rattle.distance.specs.Queue.{breaks, Covers, broken_on, Leading, Picked};

use crate::bounds::{Bounds, excess};

/// Of the bound broken most so far, if any, and one that is broken, each by its position and how
/// far it is broken, the one that is broken more, or of two alike the earlier.
fn lead(best: Option<(usize, i64)>, q: usize, over: i64) -> (usize, i64)
    ensures { Leading best (q, over) result }
{
    match best {
        Some((p, far)) if far > over || far == over && p < q => (p, far),
        _ => (q, over),
    }
}

/// Keeps the bounds that the row breaks in the queue, which has each of them, and no others. The
/// answer is the position of the bound that is broken most, the first of several, and how far it is
/// broken.
// Not a method of `Work`, where the loop would read the fields anew for each bound, and be slower.
pub(crate) fn sift(bounds: &Bounds, row: &[i64], queue: &mut Vec<usize>) -> Option<(usize, i64)>
    requires long { length row.now ≡ bounds.now.terms }
    requires inside { Inside 40000 row.now }
    requires positions { AllByRecursion (λ q. q < length bounds.now.items.items) queue.old.items }
    requires covers { Covers row.now bounds.now.items.items queue.old.items }
    ensures picked { Picked row.now bounds.now.items.items result }
    ensures kept { let bs = bounds.now.items.items in
        queue.new.items ≡ filter (breaks row.now bs) queue.old.items }
    ensures capacity { vec_capacity queue.new ≡ vec_capacity queue.old }
{
    let items = &bounds.items[..];
    let mut best = None;
    let mut kept = 0;
    // By number and not by `retain`, whose test has to take any number: only the position of a
    // bound can be looked up.
    for i in 0..queue.len() {
        let q = queue[i];
        let over = excess(items[q], row);
        if over > 0 {
            best = Some(lead(best, q, over));
            queue[kept] = q;
            kept += 1;
        }
    }
    queue.truncate(kept);
    best
}

/// Puts the bounds with the base `x` that the row breaks at the queue's end.
// Not a method of `Work`, since the loop lends the bounds while the queue grows.
pub(crate) fn enqueue(bounds: &Bounds, x: u16, row: &[i64], queue: &mut Vec<usize>)
    requires within { x < bounds.now.terms }
    requires long { length row.now ≡ bounds.now.terms }
    requires inside { Inside 40000 row.now }
    requires room { let found = broken_on row.now bounds.now.items.items x in
        length queue.old.items + length found ≤ vec_capacity queue.old }
    ensures items { let found = broken_on row.now bounds.now.items.items x in
        queue.new.items ≡ queue.old.items ++ found }
    ensures capacity { vec_capacity queue.new ≡ vec_capacity queue.old }
{
    let items = &bounds.items[..];
    for q in bounds.based(x) {
        if excess(items[q], row) > 0 {
            queue.push_reserved(q);
        }
    }
}
