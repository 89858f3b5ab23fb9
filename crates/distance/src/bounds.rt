//! Bounds one after another, and by their base: for each term the latest bound with that base, and
//! for each bound the one before it.
ghost use Rattle.std.specs.Prelude.{◌≡◌, ◌<◌, ◌≤◌, [], ◌∷◌, ◌++◌, length, take, vec_capacity, IfOk};
ghost use Rattle.difference.specs.Bounds.{Each, Named};
ghost use Rattle.difference.specs.Settling.{excess};
ghost use Rattle.difference.specs.Depth.{Small, Inside};
ghost use Rattle.distance.specs.Index.{Heads, Nexts};

use difference::Bound;
use std::alloc::{AllocError, Global};

/// Bounds on the differences of `terms` numbers, in order, with an index by their base: `heads` has
/// for each term the position of the latest bound with that base, and `nexts` for each bound that
/// of the one before it.
#[derive(Drop)]
pub(crate) struct Bounds {
    pub(crate) terms: usize,
    pub(crate) items: Vec<Bound>,
    // Positions and not boxes: no step may allocate. No fields of one entry: each contract speaks
    // of the bare list of bounds.
    pub(crate) heads: Vec<Option<usize>>,
    pub(crate) nexts: Vec<Option<usize>>,
    ghost few_terms: { terms ≤ 256 },
    ghost few: { length nexts.items ≤ 128 },
    ghost fits: { length items.items ≤ length nexts.items },
    ghost room: { length nexts.items ≤ vec_capacity items },
    ghost named: { Named terms items.items },
    ghost small: { Each Small items.items },
    ghost head_each: { length heads.items ≡ terms },
    ghost heads_are: { Heads items.items (length items.items) heads.items },
    ghost nexts_are: { Nexts items.items nexts.items },
}

/// How far the row breaks a bound.
pub(crate) fn excess(b: Bound, row: &[i64]) -> i64
    requires term { b.term < length row.now }
    requires base { b.base < length row.now }
    requires small { Small b }
    requires inside { Inside 40000 row.now }
    ensures { result ≡ excess row.now b }
{
    row[usize::from(b.term)] - (row[usize::from(b.base)] + i64::from(b.most))
}

/// Takes the bounds from position `k` on out of the heads, the latest first.
fn unlink(bounds: &[Bound], k: usize, nexts: &[Option<usize>], heads: &mut [Option<usize>])
    requires named { Named (length heads.old) bounds.now }
    requires within { k ≤ length bounds.now }
    requires nexts_each { length bounds.now ≤ length nexts.now }
    requires heads { Heads bounds.now (length bounds.now) heads.old }
    requires nexts { Nexts bounds.now nexts.now }
    ensures { Heads bounds.now k heads.new }
{
    for q in (k..bounds.len()).rev() {
        heads[usize::from(bounds[q].base)] = nexts[q];
    }
}

impl Bounds {
    /// No bounds, with room for `most`.
    pub(crate) fn new(heap: Global, terms: usize, most: usize) -> Result<Bounds, AllocError>
        requires few_terms { terms ≤ 256 }
        requires few { most ≤ 128 }
        ensures none { IfOk result (λ b. b.items.items ≡ []) }
        ensures terms { IfOk result (λ b. b.terms ≡ terms) }
        ensures most { IfOk result (λ b. length b.nexts.items ≡ most) }
    {
        let items = Vec::with_capacity(heap, most)?;
        let heads = vec![in heap; None; terms]?;
        let nexts = vec![in heap; None; most]?;
        Ok(Bounds {
            terms,
            items,
            heads,
            nexts,
        })
    }

    /// How many bounds there are.
    pub(crate) fn len(&self) -> usize
        ensures { result ≡ length self.now.items.items }
    {
        self.items.len()
    }

    /// Puts a bound at the end.
    pub(crate) fn push(&mut self, b: Bound)
        requires named { (b.term < self.old.terms) × (b.base < self.old.terms) }
        requires small { Small b }
        requires room { length self.old.items.items < length self.old.nexts.items }
        ensures items { self.new.items.items ≡ self.old.items.items ++ b ∷ [] }
        ensures terms { self.new.terms ≡ self.old.terms }
        ensures most { length self.new.nexts.items ≡ length self.old.nexts.items }
    {
        let n = self.items.len();
        let x = usize::from(b.base);
        self.nexts[n] = self.heads[x];
        self.heads[x] = Some(n);
        self.items.push_reserved(b);
    }

    /// Keeps the first `k` bounds.
    pub(crate) fn cut(&mut self, k: usize)
        requires { k ≤ length self.old.items.items }
        ensures items { self.new.items.items ≡ take k self.old.items.items }
        ensures terms { self.new.terms ≡ self.old.terms }
        ensures most { length self.new.nexts.items ≡ length self.old.nexts.items }
    {
        unlink(&self.items, k, &self.nexts, &mut self.heads);
        self.items.truncate(k);
    }
}
