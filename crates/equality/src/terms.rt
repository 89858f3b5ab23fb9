//! A checked table of terms, with an index of equal heads.
ghost use Rattle.std.specs.Prelude.{◌≡◌, ◌<◌, ◌≤◌, None, length};
ghost use Rattle.theory.specs.Terms.{Arities};
ghost use Rattle.congruence.specs.Table.{Lower};
ghost use Rattle.equality.specs.Index.{same_head, LastLike, nearest, Indexed};

use theory::Term;

/// A view of the caller's records that keeps each argument lower than its own term, with the
/// nearest earlier term that has the same head as each.
#[derive(Drop)]
pub(crate) struct Terms<'a> {
    pub(crate) records: &'a [Term],
    near: [Option<u16>; 256],
    ghost few: { length records.now ≤ 256 },
    ghost arities: { Arities 2 records.now },
    ghost lower: { Lower records.now },
    ghost indexed: { Indexed records.now near },
}

/// Whether two terms have one symbol and one number of arguments.
fn same_head(t: &Term, u: &Term) -> bool
    ensures { result ≡ same_head t.now u.now }
{
    t.symbol == u.symbol && t.arity == u.arity
}

/// The last of the terms that has the head of `t`.
fn last_like(records: &[Term], t: &Term) -> Option<usize>
    ensures { LastLike records.now t.now result }
{
    records.iter().rposition(|u| same_head(t, u))
}

/// The nearest earlier term with the head of `t`.
fn nearest(records: &[Term], t: usize) -> Option<u16>
    requires few { length records.now ≤ 256 }
    requires term { t < length records.now }
    ensures { result ≡ nearest records.now t }
{
    // Below 256: a `try_from` would have to answer for what cannot come.
    last_like(&records[..t], &records[t]).map(|u| u as u16)
}

impl<'a> Terms<'a> {
    pub(crate) fn new(records: &'a [Term]) -> Terms<'a>
        requires few { length records.now ≤ 256 }
        requires arities { Arities 2 records.now }
        requires lower { Lower records.now }
        ensures { result.records.now ≡ records.now }
    {
        let mut near = [None; 256];
        // By number: what an adapter of `iter_mut` wrote would not be known afterwards.
        for t in 0..records.len() {
            near[t] = nearest(records, t);
        }
        Terms { records, near }
    }

    /// The number of terms, which is at most 256.
    pub(crate) fn len(&self) -> u16
        ensures { result ≡ length self.now.records.now }
    {
        // At most 256: a `try_from` would have to answer for what cannot come.
        self.records.len() as u16
    }

    /// The nearest earlier term with the head of `t`.
    pub(crate) fn nearest(&self, t: u16) -> Option<u16>
        requires { t < length self.now.records.now }
        ensures { result ≡ nearest self.now.records.now t }
    {
        self.near[usize::from(t)]
    }
}
