//! Congruence closure, which keeps a log of its merges and a row of labels after each.
ghost use Rattle.std.specs.Prelude.{◌≡◌, ℕ, ◌+◌, ◌<◌, ◌≤◌, [], ◌∷◌, length, take, IsTrue, ◌↔◌, IfOk, vec_capacity, slice_index, ◌≢◌};
ghost use Rattle.theory.specs.Literals.{claim};
ghost use Rattle.theory.specs.Terms.{at};
ghost use Rattle.congruence.specs.Table.{arg};
ghost use Rattle.congruence.specs.Merges.{relabel, label, twin, merge, pass, sweep, settle, absorb, pair_of};
ghost use Rattle.congruence.specs.Log.{RestsOn, Formed};
ghost use Rattle.equality.specs.Index.{SameHead};
ghost use Rattle.equality.specs.Logs.{log, label_at, Tabled, Own, Renamed, Ran};
ghost use Rattle.congruence.proofs.Formed.{Formed-prop};

use crate::terms::Terms;
use congruence::{Claim, Reason, Step};
use std::alloc::{AllocError, Global};
use std::array;
use theory::Literal;

/// The merges so far, oldest first. `rows[k][t]` is the label of `t` after the first `k` merges, for
/// each `k` up to their number; in later rows the labels of terms do not count, and numbers past the
/// terms have their own label in every row. There is a row for each term and one more, which is
/// enough, for there are no more merges than terms. A merge writes the labels of the terms alone
/// into the next row, so that it costs no more than there are terms.
// Steps and rows stand apart, for a row comes first. That a term is one of the table is asked by
// each method: no type of a number could name the table.
#[derive(Drop)]
pub(crate) struct Closure<'a> {
    pub(crate) terms: Terms<'a>,
    pub(crate) steps: Vec<Step>,
    pub(crate) rows: Vec<[u16; 256]>,
    ghost formed: { Formed terms.records.now (log steps.items) } by { Formed-prop terms.records.now (log steps.items) },
    ghost few: { length steps.items ≤ length terms.records.now },
    ghost rows_long: { length rows.items ≡ length terms.records.now + 1 },
    ghost tabled: { Tabled rows.items steps.items },
    ghost own: { Own (length terms.records.now) rows.items },
    ghost room: { length terms.records.now ≤ vec_capacity steps },
}

/// The labels before any merge: each term has its own number.
fn own_labels() -> [u16; 256]
    ensures { (t : ℕ) → t < 256 → slice_index result t ≡ t }
{
    // Below 256: a `try_from` would have to answer for what cannot come.
    array::from_fn(|t| t as u16)
}

/// The label that a merge makes of `x`.
fn renamed(x: u16, high: u16, low: u16) -> u16
    ensures { result ≡ relabel high low x }
{
    if x == high { low } else { x }
}

/// Writes into `rows[k + 1]` the labels of the first `m` terms in `rows[k]`, with `high` replaced by
/// `low`; all else stays.
fn rename(rows: &mut [[u16; 256]], k: usize, m: usize, high: u16, low: u16)
    requires next { k + 1 < length rows.old }
    requires few { m ≤ 256 }
    ensures { Renamed rows.old rows.new k m high low }
{
    // By number: what an adapter of `iter_mut` wrote would not be known afterwards.
    for t in 0..m {
        rows[k + 1][t] = renamed(rows[k][t], high, low);
    }
}

impl<'a> Closure<'a> {
    ghost use Rattle.equality.specs.Closures.{records_of, steps_of, merged};

    /// The merges that nothing asserted leads to.
    pub(crate) fn new(heap: Global, table: Terms<'a>) -> Result<Closure<'a>, AllocError>
        ensures terms { IfOk result (λ c. records_of c ≡ table.entry.records.now) }
        ensures settled { let ts = table.entry.records.now in
            IfOk result (λ c. merged c ≡ settle ts (length ts) []) }
    {
        let m = table.records.len();
        let steps = Vec::with_capacity(heap, m)?;
        let rows = vec![in heap; own_labels(); m + 1]?;
        let mut closure = Closure {
            terms: table,
            steps,
            rows,
        };
        closure.settle();
        Ok(closure)
    }

    /// The number of merges so far.
    pub(crate) fn merges(&self) -> usize
        ensures { result ≡ length (steps_of self.now) }
    {
        self.steps.len()
    }

    /// The label of a term after the first `k` merges.
    pub(crate) fn label(&self, k: usize, t: u16) -> u16
        requires merge { k ≤ length (steps_of self.now) }
        requires term { t < 256 }
        ensures { result ≡ label_at (steps_of self.now) k t }
    {
        self.rows[k][usize::from(t)]
    }

    /// Whether two terms with one head have arguments of the same labels.
    fn same_arguments(&self, t: u16, u: u16) -> bool
        requires term { t < length (records_of self.now) }
        requires other { u < length (records_of self.now) }
        requires head { SameHead (records_of self.now) t u }
        ensures { let x = at (records_of self.now) t in let y = at (records_of self.now) u in
            let num = label (merged self.now) in
            IsTrue result ↔ ((i : ℕ) → i < x.arity → num (arg x i) ≡ num (arg y i)) }
    {
        let k = self.merges();
        let x = self.terms.records[usize::from(t)];
        let y = self.terms.records[usize::from(u)];
        // One argument after the other, of which there are two at most.
        if x.arity > 0 && self.label(k, x.args[0]) != self.label(k, y.args[0]) {
            return false;
        }
        if x.arity > 1 && self.label(k, x.args[1]) != self.label(k, y.args[1]) {
            return false;
        }
        true
    }

    /// The nearest earlier term that is congruent to `t` and has another label.
    fn twin(&self, t: u16) -> Option<u16>
        requires { t < length (records_of self.now) }
        ensures { result ≡ twin (records_of self.now) (label (merged self.now)) t }
    {
        let k = self.merges();
        let mut near = self.terms.nearest(t);
        while let Some(u) = near {
            if self.label(k, t) != self.label(k, u) && self.same_arguments(t, u) {
                return Some(u);
            }
            near = self.terms.nearest(u);
        }
        None
    }

    /// Merges the classes of two terms, and writes that into the log.
    fn merge(&mut self, a: u16, b: u16, reason: Reason)
        requires left { a < length (records_of self.old) }
        requires right { b < length (records_of self.old) }
        requires apart { label (merged self.old) a ≢ label (merged self.old) b }
        requires rests { let num = label (merged self.old) in
            RestsOn (records_of self.old) (λ p x y. Unit {0}) num a b reason }
        ensures terms { self.new.terms ≡ self.old.terms }
        ensures ran { Ran (steps_of self.old) (steps_of self.new)
            (merge (merged self.old) a b reason ∷ merged self.old) }
    {
        let k = self.merges();
        let x = self.label(k, a);
        let y = self.label(k, b);
        let high = x.max(y);
        let low = x.min(y);
        rename(&mut self.rows, k, self.terms.records.len(), high, low);
        self.steps.push_reserved(Step {
            left: a,
            right: b,
            high,
            low,
            reason,
        });
    }

    /// Merges a term with its twin, if it has one.
    fn pass(&mut self, t: u16)
        requires { t < length (records_of self.old) }
        ensures terms { self.new.terms ≡ self.old.terms }
        ensures ran { Ran (steps_of self.old) (steps_of self.new)
            (pass (records_of self.old) t (merged self.old)) }
    {
        if let Some(u) = self.twin(t) {
            self.merge(t, u, Reason::Congruence);
        }
    }

    /// Merges each term with its twin, in their order.
    fn sweep(&mut self)
        ensures terms { self.new.terms ≡ self.old.terms }
        ensures ran { Ran (steps_of self.old) (steps_of self.new)
            (sweep (records_of self.old) (length (records_of self.old)) (merged self.old)) }
    {
        for t in 0..self.terms.len() {
            self.pass(t);
        }
    }

    /// Sweeps until nothing is merged.
    fn settle(&mut self)
        ensures terms { self.new.terms ≡ self.old.terms }
        ensures ran { Ran (steps_of self.old) (steps_of self.new)
            (settle (records_of self.old) (length (records_of self.old)) (merged self.old)) }
    {
        for _ in 0..self.terms.len() {
            let merges = self.merges();
            self.sweep();
            if self.merges() == merges {
                return;
            }
        }
    }

    /// Closes the classes again after the literal `l` was put at position `p`.
    pub(crate) fn absorb(&mut self, claims: &[Claim], p: u16, l: Literal)
        requires known { claim l < length claims.now }
        requires left { (pair_of claims.now l).left < length (records_of self.old) }
        requires right { (pair_of claims.now l).right < length (records_of self.old) }
        ensures terms { self.new.terms ≡ self.old.terms }
        ensures ran { Ran (steps_of self.old) (steps_of self.new)
            (absorb (records_of self.old) claims.now p l (merged self.old)) }
    {
        if l % 2 != 0 {
            return;
        }
        let q = claims[usize::from(l / 2)];
        let k = self.merges();
        if self.label(k, q.left) == self.label(k, q.right) {
            return;
        }
        self.merge(q.left, q.right, Reason::Asserted(p));
        self.settle();
    }

    /// Keeps the first `k` merges.
    pub(crate) fn cut(&mut self, k: usize)
        requires { k ≤ length (steps_of self.old) }
        ensures terms { self.new.terms ≡ self.old.terms }
        ensures steps { (steps_of self.new) ≡ take k (steps_of self.old) }
    {
        self.steps.truncate(k);
    }
}
