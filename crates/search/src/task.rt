//! What a search is asked, and what comes back.
use crate::outcome::Outcome;

/// What a caller lends to a search, and wants of it.
#[derive(Clone, Copy, PartialEq, Eq, Debug)]
pub struct Task<'a> {
    /// The clauses of the book: for each a count and then its literals.
    pub row: &'a [u16],
    /// How many steps may be accepted.
    pub allowance: u32,
}

/// A theory that comes back from a search, with what was found and how many steps it took.
#[derive(Drop)]
pub struct Searched<T> {
    pub theory: T,
    pub outcome: Outcome,
    pub steps: u32,
}
