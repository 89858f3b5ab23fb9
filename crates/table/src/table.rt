//! What a history keeps beside its theory.
ghost use Rattle.std.specs.Prelude.{◌≡◌, ◌≤◌, length};
ghost use Rattle.trail.specs.Trails.{claims_of};

use clauses::{Book, Learned, LiteralSet, StoredClause};
use rules::Verdict;
use trail::Trail;

pub mod checks;
pub mod next;
pub mod open;
pub mod steps;

/// The clauses, the trail, the conflict, the verdict and the count of a history.
///
/// `blames[p]` is what the theory blamed for the literal at position `p`, if it followed by the
/// theory: stored when it was found, so that no step asks the theory for it again.
#[derive(Drop)]
pub struct Table {
    book: Book,
    learned: Learned,
    trail: Trail,
    blames: Vec<StoredClause>,
    conflict: Option<LiteralSet>,
    verdict: Option<Verdict>,
    count: u32,
    allowance: u32,
    ghost within: { count ≤ allowance },
    ghost blames_each: { claims_of trail ≡ length blames.items },
}
