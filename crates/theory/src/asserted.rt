//! The list of the literals asserted so far, which every theory keeps.
ghost use Rattle.std.specs.Prelude.{◌≤◌, vec_capacity};
ghost use Rattle.theory.specs.Literals.{Proper};

use crate::literal::{Literal, names};
use crate::refusal::Refusal;
use std::alloc::{AllocError, Global};

/// Literals of so many claims, no claim twice. Room for one of each claim is reserved.
#[derive(Drop)]
pub struct Asserted {
    claims: usize,
    literals: Vec<Literal>,
    ghost room: { claims ≤ vec_capacity literals },
    ghost proper: { Proper claims literals.items },
}

impl Asserted {
    ghost use Rattle.std.specs.Prelude.{◌≡◌, [], IfOk};
    ghost use Rattle.theory.specs.Calls.{assert_says, assert_leaves, take_back_says, take_back_leaves};
    ghost use Rattle.theory.specs.Asserted.{claims_of, literals_of};

    /// The list before any literal is asserted.
    pub fn new(heap: Global, claims: usize) -> Result<Asserted, AllocError>
        ensures claims { IfOk result (λ a. claims_of a ≡ claims) }
        ensures none { IfOk result (λ a. literals_of a ≡ []) }
    {
        let literals = Vec::with_capacity(heap, claims)?;
        Ok(Asserted { claims, literals })
    }

    /// The literals, in the order in which they were asserted.
    pub fn literals(&self) -> &[Literal]
        ensures { result.now ≡ literals_of self.now }
    {
        &self.literals
    }

    /// Puts a literal at the list's end.
    pub fn push(&mut self, l: Literal) -> Result<(), Refusal>
        ensures claims { claims_of self.new ≡ claims_of self.old }
        ensures says { result ≡ assert_says (claims_of self.old) (literals_of self.old) l }
        ensures list { literals_of self.new
            ≡ assert_leaves (claims_of self.old) (literals_of self.old) l }
    {
        if usize::from(l / 2) >= self.claims {
            return Err(Refusal::NoSuchLiteral);
        }
        if names(&self.literals, l) {
            return Err(Refusal::ClaimOnList);
        }
        self.literals.push_reserved(l);
        Ok(())
    }

    /// Keeps the first `k` literals.
    pub fn take_back(&mut self, k: usize) -> Result<(), Refusal>
        ensures claims { claims_of self.new ≡ claims_of self.old }
        ensures says { result ≡ take_back_says (literals_of self.old) k }
        ensures list { literals_of self.new ≡ take_back_leaves (literals_of self.old) k }
    {
        if k > self.literals.len() {
            return Err(Refusal::AboveLength);
        }
        self.literals.truncate(k);
        Ok(())
    }
}
