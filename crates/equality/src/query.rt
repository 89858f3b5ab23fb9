//! The answer to a query: the first denial whose terms are joined, and its core.
ghost use Rattle.std.specs.Prelude.{◌≡◌, ℕ, ◌<◌, ◌≤◌, false, ◌&&◌, ◌||◌, length, pos, Some, Ok, ◌==◌, slice_index_or};
ghost use Rattle.theory.specs.Literals.{claim};
ghost use Rattle.theory.specs.Calls.{over};
ghost use Rattle.congruence.specs.Merges.{label, needed, pair_of, log_of};
ghost use Rattle.congruence.specs.Equality.{clashes, clash, core, row};
ghost use Rattle.equality.specs.Logs.{log};
ghost use Rattle.equality.specs.Asked.{asserted, covers, Listed};

use crate::closure::Closure;
use crate::marks::Marks;
use congruence::{Claim, Reason, Step};
use theory::{Literal, Refusal, list_marks};

/// Notes the position at which a merge was asserted, if it is marked.
fn cite(marked: bool, reason: Reason, cited: &mut [bool])
    ensures { (p : ℕ) → p < length cited.old → slice_index_or cited.new p false
        ≡ (slice_index_or cited.old p false || (marked && asserted reason p)) }
{
    if !marked {
        return;
    }
    if let Reason::Asserted(q) = reason {
        if usize::from(q) < cited.len() {
            cited[usize::from(q)] = true;
        }
    }
}

/// Notes the positions at which marked merges were asserted.
fn cite_all(steps: &[Step], marks: &[bool], cited: &mut [bool])
    requires long { length steps.now ≤ length marks.now }
    requires clear { (p : ℕ) → p < length cited.old → slice_index_or cited.old p false ≡ false }
    ensures { (p : ℕ) → p < length cited.old
        → slice_index_or cited.new p false ≡ covers steps.now marks.now (length steps.now) p }
{
    for (s, marked) in steps.iter().zip(marks) {
        cite(*marked, s.reason, cited);
    }
}

// That there is a mark for each merge, and which are set, is asked where marks are lent: the guard
// holds them while they are set, and the theory otherwise.
impl Closure<'_> {
    ghost use Rattle.equality.specs.Closures.{records_of, steps_of, merged};

    /// Which positions are needed to join two terms; the marks are clear again on every way out.
    fn needed(&self, marks: &mut [bool], t: u16, u: u16) -> [bool; 128]
        requires long { length (steps_of self.now) ≤ length marks.old }
        requires clear { (k : ℕ) → slice_index_or marks.old k false ≡ false }
        requires near { t < length (records_of self.now) }
        requires far { u < length (records_of self.now) }
        requires together { label (merged self.now) t ≡ label (merged self.now) u }
        ensures length { length marks.new ≡ length marks.old }
        ensures clear { (k : ℕ) → slice_index_or marks.new k false ≡ false }
        ensures needed { (p : ℕ) → p < 128
            → slice_index_or result p false ≡ needed (records_of self.now) (merged self.now) p t u }
    {
        let mut cited = [false; 128];
        let marks = Marks { table: marks };
        self.explain(marks.table, t, u, self.merges());
        cite_all(&self.steps, marks.table, &mut cited);
        cited
    }

    /// Whether a literal is a denial whose two terms have one label.
    fn clashing(&self, claims: &[Claim], l: Literal) -> bool
        requires known { claim l < length claims.now }
        requires left { (pair_of claims.now l).left < 256 }
        requires right { (pair_of claims.now l).right < 256 }
        ensures { result ≡ clashes (label (merged self.now)) claims.now l }
    {
        if l % 2 == 0 {
            return false;
        }
        let q = claims[usize::from(l / 2)];
        let k = self.merges();
        self.label(k, q.left) == self.label(k, q.right)
    }

    /// The position of the first denial on the list whose two terms are joined.
    pub(crate) fn clash(&self, claims: &[Claim], list: &[Literal]) -> Option<usize>
        requires listed { Listed (records_of self.now) claims.now list.now }
        requires log { merged self.now ≡ log_of (records_of self.now) claims.now list.now }
        ensures { result ≡ clash (records_of self.now) claims.now list.now }
    {
        // A loop, since what `clashing` asks is known of the list's literals alone.
        for (p, l) in list.iter().enumerate() {
            if self.clashing(claims, *l) {
                return Some(p);
            }
        }
        None
    }

    /// Puts the core of a clash at position `d` of the list into the place, and returns its length.
    pub(crate) fn core(
        &self,
        marks: &mut [bool],
        claims: &[Claim],
        list: &[Literal],
        d: usize,
        place: &mut [u16],
    ) -> Result<usize, Refusal>
        requires long { length (steps_of self.now) ≤ length marks.old }
        requires clear { (k : ℕ) → slice_index_or marks.old k false ≡ false }
        requires listed { Listed (records_of self.now) claims.now list.now }
        requires log { merged self.now ≡ log_of (records_of self.now) claims.now list.now }
        requires short { length list.now ≤ 128 }
        requires within { length list.now ≤ length place.old }
        requires clash { Some d ≡ clash (records_of self.now) claims.now list.now }
        ensures length { length marks.new ≡ length marks.old }
        ensures clear { (k : ℕ) → slice_index_or marks.new k false ≡ false }
        ensures told { result ≡ Ok (length (core (records_of self.now) claims.now list.now d)) }
        ensures place { place.new
            ≡ over (core (records_of self.now) claims.now list.now d) place.old }
    {
        let q = claims[usize::from(list[d] / 2)];
        let mut cited = self.needed(marks, q.left, q.right);
        cited[d] = true;
        list_marks(&cited[..list.len()], place)
    }

    /// Writes the label of each term.
    pub(crate) fn write_labels(&self, place: &mut [i64])
        requires within { length (records_of self.now) ≤ length place.old }
        ensures { let m = length (records_of self.now) in
            place.new ≡ over (row 0 m (λ t. pos (label (merged self.now) t))) place.old }
    {
        let row = &self.rows[self.merges()];
        // By number: what an adapter of `iter_mut` wrote would not be known afterwards.
        for t in 0..self.terms.records.len() {
            place[t] = i64::from(row[t]);
        }
    }
}
