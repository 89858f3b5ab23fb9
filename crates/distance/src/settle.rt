//! Settling a row of numbers after one more bound, and the cycle that is found instead.
ghost use Rattle.std.specs.Prelude.{◌≡◌, ℕ, ◌+◌, ◌-◌, ◌<◌, ◌≤◌, false, [], ◌∷◌, ◌++◌, length, take, pos, ◌<ℤ◌, IfSome, IfOk, vec_capacity, MatchOption, filter, slice_index_or};
ghost use Rattle.std.specs.List.{AllByRecursion};
ghost use Rattle.theory.specs.Literals.{has};
ghost use Rattle.difference.specs.Bounds.{at};
ghost use Rattle.difference.specs.Settling.{around, core, lowered, excess, outcome, fits, clash};
ghost use Rattle.difference.specs.Depth.{Inside};
ghost use Rattle.distance.specs.Queue.{breaks, Covers, now_broken, Picked};

use crate::bounds::Bounds;
use crate::queue::{enqueue, sift};
use std::alloc::{AllocError, Global};

/// What settling works on: the bounds, a row of numbers, the positions of the bounds that lowered a
/// term of it, one after another, and the queue of those that it may break.
// That steps and queue are positions of bounds is said by clauses: it is so only until bounds are
// cut.
#[derive(Drop)]
pub(crate) struct Work {
    pub(crate) bounds: Bounds,
    pub(crate) row: Vec<i64>,
    pub(crate) steps: Vec<usize>,
    pub(crate) queue: Vec<usize>,
    ghost long: { length row.items ≡ bounds.terms },
    ghost inside: { Inside 40000 row.items },
    ghost step_room: { bounds.terms < vec_capacity steps },
    ghost queue_room: { length bounds.nexts.items ≤ vec_capacity queue },
}

impl Work {
    /// What settling those bounds works on, with room for as many as they have room for.
    pub(crate) fn new(heap: Global, bounds: Bounds) -> Result<Work, AllocError>
        ensures { IfOk result (λ w. w.bounds ≡ bounds) }
    {
        let row = vec![in heap; 0i64; bounds.terms]?;
        let steps = Vec::with_capacity(heap, bounds.terms + 1)?;
        let queue = Vec::with_capacity(heap, bounds.nexts.len())?;
        Ok(Work {
            bounds,
            row,
            steps,
            queue,
        })
    }

    /// The position of the bound that the row breaks most, the first of several, and how far it is
    /// broken. The queue has each bound that is broken, and keeps just those.
    fn pick(&mut self) -> Option<(usize, i64)>
        requires positions { let bs = self.old.bounds.items.items in
            AllByRecursion (λ q. q < length bs) self.old.queue.items }
        requires covers { let bs = self.old.bounds.items.items in
            Covers self.old.row.items bs self.old.queue.items }
        ensures picked { Picked self.old.row.items self.old.bounds.items.items result }
        ensures kept { let bs = self.old.bounds.items.items in
            self.new.queue.items ≡ filter (breaks self.old.row.items bs) self.old.queue.items }
        ensures bounds { self.new.bounds ≡ self.old.bounds }
        ensures row { self.new.row ≡ self.old.row }
        ensures steps { self.new.steps ≡ self.old.steps }
    {
        sift(&self.bounds, &self.row, &mut self.queue)
    }

    /// Lowers the term of the bound at `p`, which is broken so far, to what it allows, and queues
    /// those that the row then breaks.
    fn lower(&mut self, p: usize, far: i64)
        requires within { p < length self.old.bounds.items.items }
        requires far_is { far ≡ excess self.old.row.items (at self.old.bounds.items.items p) }
        requires broken { pos 0 <ℤ far }
        requires inside { Inside 39999 self.old.row.items }
        requires step_room { length self.old.steps.items < vec_capacity self.old.steps }
        requires queue_room { let bs = self.old.bounds.items.items in
            length self.old.queue.items + length (now_broken self.old.row.items bs p) ≤ length bs }
        ensures row { let bs = self.old.bounds.items.items in
            self.new.row.items ≡ lowered self.old.row.items (at bs p) }
        ensures steps { self.new.steps.items ≡ self.old.steps.items ++ p ∷ [] }
        ensures queue { let bs = self.old.bounds.items.items in
            self.new.queue.items ≡ self.old.queue.items ++ now_broken self.old.row.items bs p }
        ensures bounds { self.new.bounds ≡ self.old.bounds }
    {
        let x = self.bounds.items[p].term;
        self.row[usize::from(x)] -= far;
        self.steps.push_reserved(p);
        enqueue(&self.bounds, x, &self.row, &mut self.queue);
    }

    /// Whether some numbers keep all bounds, of which the numbers `before` keep all but the last.
    /// If so, the row has the greatest that are at most 0; if not, the answer is the position of
    /// the bound that closes a cycle.
    ///
    /// Terms are lowered until no bound is broken, or until a bound would lower the last bound's
    /// base. All bounds but the last are kept at first, so the queue starts with that one; a
    /// lowered term can break only bounds with that base.
    // Apart from its callers, whose own loops it would push out of the registers.
    #[inline(never)]
    pub(crate) fn settle(&mut self, before: &[i64]) -> Option<usize>
        requires some { 0 < length self.old.bounds.items.items }
        requires long { length before.now ≡ self.old.bounds.terms }
        requires before { let bs = self.old.bounds.items.items in
            outcome self.old.bounds.terms (take (length bs - 1) bs) ≡ fits before.now }
        ensures settles { let bs = self.old.bounds.items.items in
            let o = outcome self.old.bounds.terms bs in MatchOption result
            (o ≡ fits self.new.row.items) (λ p. o ≡ clash (core bs self.new.steps.items p)) }
        ensures within { IfSome result (λ p. p < length self.old.bounds.items.items) }
        ensures positions { let bs = self.old.bounds.items.items in
            AllByRecursion (λ q. q < length bs) self.new.steps.items }
        ensures bounds { self.new.bounds ≡ self.old.bounds }
    {
        let last = self.bounds.len() - 1;
        let base = self.bounds.items[last].base;
        self.row.copy_from_slice(before);
        self.steps.clear();
        self.queue.clear();
        self.queue.push_reserved(last);
        for _ in 0..=before.len() {
            let (p, far) = self.pick()?;
            if self.bounds.items[p].term == base {
                return Some(p);
            }
            self.lower(p, far);
        }
        None
    }

    /// Marks the bounds of the cycle that the bound at `p` closes, and no others.
    pub(crate) fn mark_cycle(&self, p: usize, marks: &mut [bool])
        requires within { p < length self.now.bounds.items.items }
        requires positions { let bs = self.now.bounds.items.items in
            AllByRecursion (λ q. q < length bs) self.now.steps.items }
        requires long { length self.now.bounds.items.items ≤ length marks.old }
        ensures { let cycle = around self.now.bounds.items.items self.now.steps.items p in
            (q : ℕ) → slice_index_or marks.new q false ≡ has cycle q }
    {
        marks.fill(false);
        marks[p] = true;
        let mut x = self.bounds.items[p].base;
        for &q in self.steps.iter().rev() {
            let b = self.bounds.items[q];
            if b.term == x {
                marks[q] = true;
                x = b.base;
            }
        }
    }
}
