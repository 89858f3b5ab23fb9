//! What is asked of a trail.
ghost use Rattle.std.specs.Prelude.{◌≡◌, ◌==◌, ◌||◌, slice_get, length};
ghost use Rattle.std.specs.List.{list_all, list_any};
ghost use Rattle.rules.specs.States.{level};
ghost use Rattle.rules.specs.Rules.{true_on, false_on, is_reason, full};
ghost use Rattle.clauses.specs.Sets.{members};
ghost use Rattle.clauses.specs.Stored.{clause_of};
ghost use Rattle.trail.specs.Positions.{entry_at, level_at, position_of};
ghost use Rattle.trail.specs.Trails.{claims_of, trail_of, push_says, latest_at, sole_above, blamed_on};

use crate::trail::Trail;
use clauses::{LiteralSet, StoredClause};
use rules::{Entry, Reason, Refusal};
use theory::Literal;
use theory::literal::complement_of;

impl Trail {
    /// How many claims there are.
    pub fn claims(&self) -> usize
        ensures { result ≡ claims_of self.now }
    {
        self.claims
    }

    /// How many entries there are.
    pub fn len(&self) -> usize
        ensures { result ≡ length (trail_of self.now) }
    {
        self.entries.len()
    }

    /// The entry at a position.
    pub fn entry(&self, p: usize) -> Option<Entry>
        ensures { result ≡ entry_at (trail_of self.now) p }
    {
        self.entries.get(p).copied()
    }

    /// The latest entry.
    pub fn last(&self) -> Option<Entry>
        ensures { result ≡ slice_get (trail_of self.now) 0 }
    {
        self.entries.last().copied()
    }

    /// The level of the entry at a position.
    pub fn level_at(&self, p: usize) -> Option<u32>
        ensures { result ≡ level_at (trail_of self.now) p }
    {
        self.levels.get(p).copied()
    }

    /// The level of the latest entry.
    pub fn level(&self) -> u32
        ensures { result ≡ level (trail_of self.now) }
    {
        self.levels.last().copied().unwrap_or(0)
    }

    /// The position of a literal, if it is on the trail.
    pub fn position(&self, l: Literal) -> Option<usize>
        ensures { result ≡ position_of (trail_of self.now) l }
    {
        let p = self.places.get(usize::from(l)).copied().flatten()?;
        Some(p as usize)
    }

    /// Whether a literal is on the trail.
    pub fn is_true(&self, l: Literal) -> bool
        ensures { result ≡ true_on (trail_of self.now) l }
    {
        self.position(l).is_some()
    }

    /// Whether its complement is.
    pub fn is_false(&self, l: Literal) -> bool
        ensures { result ≡ false_on (trail_of self.now) l }
    {
        self.is_true(complement_of(l))
    }

    /// Whether every literal of a clause is false.
    pub fn all_false(&self, clause: &[Literal]) -> bool
        ensures { result ≡ list_all (false_on (trail_of self.now)) clause.now }
    {
        clause.iter().all(|l| self.is_false(*l))
    }

    /// Whether every literal of a clause but `l` is false.
    pub fn others_false(&self, clause: &[Literal], l: Literal) -> bool
        ensures { result ≡ list_all (λ m. m == l || false_on (trail_of self.now) m) clause.now }
    {
        clause.iter().all(|m| *m == l || self.is_false(*m))
    }

    /// Whether some literal of a clause is true.
    pub fn some_true(&self, clause: &[Literal]) -> bool
        ensures { result ≡ list_any (true_on (trail_of self.now)) clause.now }
    {
        clause.iter().any(|l| self.is_true(*l))
    }

    /// Whether every claim is on the trail.
    pub fn is_full(&self) -> bool
        ensures { result ≡ full (claims_of self.now) (trail_of self.now) }
    {
        // No claim is there twice.
        self.len() == self.claims
    }

    /// Whether a literal may be put on the trail.
    pub fn check(&self, l: Literal) -> Result<(), Refusal>
        ensures { result ≡ push_says (claims_of self.now) (trail_of self.now) l }
    {
        if usize::from(l / 2) >= self.claims {
            return Err(Refusal::NoSuchLiteral);
        }
        if self.is_true(l) || self.is_false(l) {
            return Err(Refusal::ClaimOnTrail);
        }
        Ok(())
    }

    /// Whether a clause is the reason of an entry.
    pub fn is_reason(&self, c: u16) -> bool
        ensures { result ≡ is_reason c (trail_of self.now) }
    {
        self.entries.iter().any(|e| e.reason == Reason::Clause(c))
    }

    /// The latest entry whose complement is in a conflict, with its position.
    pub fn latest(&self, conflict: &LiteralSet) -> Option<(Entry, usize)>
        ensures { result ≡ latest_at (members conflict.now) (trail_of self.now) }
    {
        let mut p = self.entries.len();
        while p > 0 {
            p -= 1;
            let entry = self.entries[p];
            if conflict.has(complement_of(entry.literal)) {
                return Some((entry, p));
            }
        }
        None
    }

    /// The literal of a conflict whose complement is of a level above `k`, if there is just one.
    pub fn sole_above(&self, k: u32, conflict: &LiteralSet) -> Option<Literal>
        ensures { result ≡ sole_above k (members conflict.now) (trail_of self.now) }
    {
        let mut sole = None;
        let mut p = self.entries.len();
        while p > 0 && self.levels[p - 1] > k {
            p -= 1;
            let l = complement_of(self.entries[p].literal);
            if conflict.has(l) {
                if sole.is_some() {
                    return None;
                }
                sole = Some(l);
            }
        }
        sole
    }

    /// The complements of the literals at a core's positions, where `next` comes after the trail's
    /// literals.
    pub fn blame(&self, next: Literal, core: &[u16]) -> StoredClause
        ensures { clause_of result ≡ blamed_on self.now next core.now }
    {
        let mut clause = StoredClause::empty();
        for p in core {
            let l = match self.entries.get(usize::from(*p)) {
                Some(entry) => entry.literal,
                None => next,
            };
            clause.push(complement_of(l));
        }
        clause
    }
}
