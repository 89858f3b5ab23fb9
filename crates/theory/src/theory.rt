//! The interface that every theory is had behind.
ghost use Rattle.std.specs.Prelude.{◌≡◌, ℕ, ℤ, List, length};
ghost use Rattle.theory.specs.Literals.{Proper};
ghost use Rattle.theory.specs.Meaning.{Answer, Lawful, assembled};
ghost use Rattle.theory.specs.Calls.{assert_says, assert_leaves, take_back_says, take_back_leaves};
ghost use Rattle.theory.specs.Calls.{query_says, query_leaves, write_says, write_leaves};

use crate::literal::Literal;
use crate::refusal::{Found, Refusal};

/// A theory: what it means, the literals asserted so far, and the calls.
///
/// `shape_of` is the part of a value that fixes its meaning. Every call leaves it as it was, so
/// that no call changes more than the asserted list.
pub trait Theory {
    ghost Shape: { Type 0 };

    ghost shape_of: { Self → Shape };

    // How many claims and terms there are.
    ghost claims: { Shape → ℕ };

    ghost terms: { Shape → ℕ };

    // Which lists of numbers, one for each term, are fits.
    ghost fits: { Shape → List ℤ → Type 0 };

    // Which literals hold in a fit.
    ghost holds: { Shape → ℕ → List ℤ → Type 0 };

    // What a query answers of a list of literals, with its core.
    ghost answer: { Shape → List ℕ → Answer };

    // The fit that is written for a list of literals.
    ghost written: { Shape → List ℕ → List ℤ };

    // The literals asserted so far.
    ghost asserted: { Self → List ℕ };

    /// The number of claims.
    fn claims(&self) -> usize
        ensures { result ≡ claims (shape_of self.now) };

    /// The number of terms.
    fn terms(&self) -> usize
        ensures { result ≡ terms (shape_of self.now) };

    /// The length of the asserted list.
    fn asserted_len(&self) -> usize
        ensures { result ≡ length (asserted self.now) };

    /// Puts a literal at the list's end.
    fn assert(&mut self, l: Literal) -> Result<(), Refusal>
        ensures shape { shape_of self.new ≡ shape_of self.old }
        ensures says { result ≡ assert_says (claims (shape_of self.old)) (asserted self.old) l }
        ensures list { let n = claims (shape_of self.old) in
            asserted self.new ≡ assert_leaves n (asserted self.old) l };

    /// Keeps the first `k` literals of the list.
    fn take_back(&mut self, k: usize) -> Result<(), Refusal>
        ensures shape { shape_of self.new ≡ shape_of self.old }
        ensures says { result ≡ take_back_says (asserted self.old) k }
        ensures list { asserted self.new ≡ take_back_leaves (asserted self.old) k };

    /// Answers whether some fit makes every literal of the list hold; if none does, puts a core
    /// into the place.
    fn query(&mut self, core: &mut [u16]) -> Result<Found, Refusal>
        ensures shape { shape_of self.new ≡ shape_of self.old }
        ensures list { asserted self.new ≡ asserted self.old }
        ensures says { let s = shape_of self.old in
            result ≡ query_says (claims s) (answer s (asserted self.old)) core.old }
        ensures place { let s = shape_of self.old in
            core.new ≡ query_leaves (claims s) (answer s (asserted self.old)) core.old };

    /// Puts down a fit in which every literal of the list holds.
    fn write(&mut self, place: &mut [i64]) -> Result<(), Refusal>
        ensures shape { shape_of self.new ≡ shape_of self.old }
        ensures list { asserted self.new ≡ asserted self.old }
        ensures says { let s = shape_of self.old in
            result ≡ write_says (terms s) (answer s (asserted self.old)) place.old }
        ensures place { let s = shape_of self.old in let ls = asserted self.old in
            place.new ≡ write_leaves (terms s) (answer s ls) (written s ls) place.old };

    // The law, which each implementation proves.
    ghost lawful: { (t : Self) →
        Lawful (assembled claims terms fits holds answer written (shape_of t)) };

    // Literals of the theory's claims, no claim twice.
    ghost proper: { (t : Self) → Proper (claims (shape_of t)) (asserted t) };
}
