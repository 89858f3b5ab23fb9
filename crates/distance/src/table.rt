//! Bounds one after another, with a row of numbers for each possible prefix of their list.
ghost use Rattle.std.specs.Prelude.{◌≡◌, ◌+◌, ◌*◌, ◌≤◌, length};
ghost use Rattle.distance.specs.Rows.{Possible, Broken};

use crate::bounds::Bounds;
use crate::settle::Work;
use difference::Bound;
use std::alloc::{AllocError, Global};
use theory::{Found, Refusal, list_marks};

/// Bounds, with what is known of them.
///
/// Row `j` of `rows` holds the greatest numbers at most 0 that keep the first `j` bounds. The first
/// `good` bounds are possible together; with one more they are not, and the bounds of a cycle are
/// marked.
#[derive(Drop)]
pub struct Table {
    pub(crate) work: Work,
    // One list and ranges of it: arrays of 256 numbers would take 264 kB for the smallest face, and
    // chunks of no terms may not be taken.
    rows: Vec<i64>,
    good: usize,
    // Made once, as no step may allocate; they count where `good` is below the number of bounds.
    marks: Vec<bool>,
    ghost reached: { good ≤ length work.bounds.items.items },
    ghost possible: { Possible work.bounds.terms work.bounds.items.items rows.items good },
    ghost broken: { Broken work.bounds.terms work.bounds.items.items good marks.items },
    ghost row_each: { length rows.items
        ≡ length work.bounds.nexts.items * work.bounds.terms + work.bounds.terms },
    ghost mark_each: { length marks.items ≡ length work.bounds.nexts.items },
}

impl Table {
    ghost use Rattle.std.specs.Prelude.{◌≡◌, ◌<◌, ◌≤◌, [], ◌∷◌, ◌++◌, Ok, length, take, IfOk};
    ghost use Rattle.theory.specs.Calls.{core_over, fit_says, fit_over};
    ghost use Rattle.theory.specs.Calls.{told as finds};
    ghost use Rattle.difference.specs.Settling.{outcome};
    ghost use Rattle.difference.specs.Depth.{Small};
    ghost use Rattle.difference.specs.Distance.{answer_of, row_of};
    ghost use Rattle.distance.specs.Table.{terms_of, bounds_on};

    /// A table without bounds: all that it ever allocates.
    pub(crate) fn new(heap: Global, terms: usize, most: usize) -> Result<Table, AllocError>
        requires few_terms { terms ≤ 256 }
        requires few { most ≤ 128 }
        ensures none { IfOk result (λ t. bounds_on t ≡ []) }
        ensures terms { IfOk result (λ t. terms_of t ≡ terms) }
        ensures most { IfOk result (λ t. length t.marks.items ≡ most) }
    {
        let bounds = Bounds::new(heap, terms, most)?;
        let work = Work::new(heap, bounds)?;
        let rows = vec![in heap; 0i64; most * terms + terms]?;
        let marks = vec![in heap; false; most]?;
        Ok(Table {
            work,
            rows,
            good: 0,
            marks,
        })
    }

    /// The number of terms.
    pub(crate) fn terms(&self) -> usize
        ensures { result ≡ terms_of self.now }
    {
        self.work.bounds.terms
    }

    /// Puts a bound at the list's end.
    pub(crate) fn add(&mut self, b: Bound)
        requires named { (b.term < terms_of self.old) × (b.base < terms_of self.old) }
        requires small { Small b }
        requires room { length (bounds_on self.old) < length self.old.marks.items }
        ensures list { bounds_on self.new ≡ bounds_on self.old ++ b ∷ [] }
        ensures terms { terms_of self.new ≡ terms_of self.old }
        ensures most { length self.new.marks.items ≡ length self.old.marks.items }
    {
        let possible = self.good == self.work.bounds.len();
        self.work.bounds.push(b);
        if !possible {
            return;
        }
        let m = self.work.bounds.terms;
        let from = self.good * m;
        let next = from + m;
        match self.work.settle(&self.rows[from..next]) {
            None => {
                self.rows[next..next + m].copy_from_slice(&self.work.row);
                self.good += 1;
            }
            Some(p) => self.work.mark_cycle(p, &mut self.marks),
        }
    }

    /// Keeps the first `k` bounds.
    pub(crate) fn cut(&mut self, k: usize)
        requires { k ≤ length (bounds_on self.old) }
        ensures list { bounds_on self.new ≡ take k (bounds_on self.old) }
        ensures terms { terms_of self.new ≡ terms_of self.old }
        ensures most { length self.new.marks.items ≡ length self.old.marks.items }
    {
        self.work.bounds.cut(k);
        self.good = self.good.min(k);
    }

    /// Whether some numbers keep all bounds; if none do, puts a core into the place.
    pub(crate) fn find(&self, place: &mut [u16]) -> Result<Found, Refusal>
        requires { length self.now.marks.items ≤ length place.old }
        ensures says { let o = outcome (terms_of self.now) (bounds_on self.now) in
            result ≡ Ok (finds (answer_of o)) }
        ensures place { let o = outcome (terms_of self.now) (bounds_on self.now) in
            place.new ≡ core_over (answer_of o) place.old }
    {
        if self.good == self.work.bounds.len() {
            return Ok(Found::Possible);
        }
        // The cycle is of the first bounds that are impossible together: no mark is past them.
        let n = list_marks(&self.marks[..self.good + 1], place)?;
        Ok(Found::Impossible(n))
    }

    /// Puts down the greatest numbers, at most 0, that keep all bounds.
    pub(crate) fn put(&self, place: &mut [i64]) -> Result<(), Refusal>
        requires { terms_of self.now ≤ length place.old }
        ensures says { let o = outcome (terms_of self.now) (bounds_on self.now) in
            result ≡ fit_says (answer_of o) }
        ensures place { let o = outcome (terms_of self.now) (bounds_on self.now) in
            place.new ≡ fit_over (answer_of o) (row_of o) place.old }
    {
        if self.good < self.work.bounds.len() {
            return Err(Refusal::ListImpossible);
        }
        let m = self.work.bounds.terms;
        let from = self.good * m;
        place[..m].copy_from_slice(&self.rows[from..from + m]);
        Ok(())
    }
}
