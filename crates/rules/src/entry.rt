//! What stands on a trail.

use theory::Literal;

/// Why a literal is on the trail: it was decided, or follows by a clause or by the theory.
#[derive(Clone, Copy, PartialEq, Eq, Debug)]
pub enum Reason {
    Decided,
    Clause(u16),
    Theory,
}

/// A literal on the trail, with its reason.
#[derive(Clone, Copy, PartialEq, Eq, Debug)]
pub struct Entry {
    pub literal: Literal,
    pub reason: Reason,
}
