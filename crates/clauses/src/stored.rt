//! A clause in a place of fixed length, so that storing it allocates nothing.
ghost use Rattle.std.specs.Prelude.{◌≤◌};

use crate::set::LiteralSet;
use theory::Literal;

/// A clause of at most as many literals as there can be.
#[derive(Clone, Copy, Drop)]
pub struct StoredClause {
    literals: [Literal; 256],
    len: usize,
    ghost within: { len ≤ 256 },
}

impl StoredClause {
    ghost use Rattle.std.specs.Prelude.{◌≡◌, [], ◌∷◌, ◌++◌, take};
    ghost use Rattle.clauses.specs.Sets.{members};
    ghost use Rattle.clauses.specs.Stored.{clause_of};

    /// The clause that has no literal.
    pub fn empty() -> StoredClause
        ensures { clause_of result ≡ [] }
    {
        StoredClause {
            literals: [0; 256],
            len: 0,
        }
    }

    /// The clause of a set's literals, rising.
    pub fn of(set: &LiteralSet) -> StoredClause
        ensures { clause_of result ≡ members set.now }
    {
        let mut clause = StoredClause::empty();
        for l in 0..256 {
            if set.has(l) {
                clause.push(l);
            }
        }
        clause
    }

    /// One literal more, if there is room for it.
    pub fn push(&mut self, l: Literal)
        ensures { clause_of self.new ≡ take 256 (clause_of self.old ++ l ∷ []) }
    {
        if self.len < self.literals.len() {
            self.literals[self.len] = l;
            self.len += 1;
        }
    }

    /// The literals.
    pub fn literals(&self) -> &[Literal]
        ensures { result.now ≡ clause_of self.now }
    {
        &self.literals[..self.len]
    }
}
