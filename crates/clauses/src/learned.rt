//! Learned clauses, in 128 places.
ghost use Rattle.std.specs.Prelude.{◌≡◌, length};

use crate::stored::StoredClause;
use std::alloc::{AllocError, Global};
use theory::Literal;

/// The places of the learned clauses, with the clause in each that is live.
#[derive(Drop)]
pub struct Learned {
    places: Vec<Option<StoredClause>>,
    ghost long: { length places.items ≡ 128 },
}

impl Learned {
    ghost use Rattle.std.specs.Prelude.{IfOk, None, option_copied, option_map, set, replicate, slice_index_or};
    ghost use Rattle.clauses.specs.Learning.{learned_of};
    ghost use Rattle.clauses.specs.Stored.{clause_of};

    /// No clause in any place.
    pub fn new(heap: Global) -> Result<Learned, AllocError>
        ensures { IfOk result (λ l. learned_of l ≡ replicate 128 None) }
    {
        let places = vec![in heap; None; 128]?;
        Ok(Learned { places })
    }

    /// The clause in a place, if one is there.
    pub fn clause(&self, i: usize) -> Option<&[Literal]>
        ensures { option_copied result ≡ slice_index_or (learned_of self.now) i None }
    {
        match self.places.get(i)? {
            Some(clause) => Some(clause.literals()),
            None => None,
        }
    }

    /// Puts a clause into a place, or none. A number that is none of a place changes nothing.
    pub fn put(&mut self, i: usize, clause: Option<StoredClause>)
        ensures { learned_of self.new ≡ set (learned_of self.old) i (option_map clause_of clause) }
    {
        if let Some(place) = self.places.get_mut(i) {
            *place = clause;
        }
    }
}
