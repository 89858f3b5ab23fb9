//! What a book gives.
ghost use Rattle.std.specs.Prelude.{◌≡◌};
ghost use Rattle.book.specs.Books.{claims_of, theory_of, no_claims};

use crate::proposed::Proposed;
use crate::word::Sort;
use congruence::Claim;
use difference::Bound;
use std::alloc::Global;
use std::fmt;
use theory::{Literal, Term};

/// A call on a theory. A query or a write may name the length of the place that it is lent.
#[derive(Clone, Copy, PartialEq, Eq, Debug)]
pub enum Call {
    Assert(Literal),
    TakeBack(usize),
    Query(Option<u16>),
    Write(Option<u16>),
    Trial(Literal),
    Close,
}

impl fmt::Display for Call {
    fn fmt<W: fmt::Write>(&self, f: &mut fmt::Formatter<W>) -> fmt::Result {
        match *self {
            Call::Assert(l) => write!(f, "assert {l}"),
            Call::TakeBack(k) => write!(f, "takeback {k}"),
            Call::Query(None) => write!(f, "query"),
            Call::Query(Some(len)) => write!(f, "query {len}"),
            Call::Write(None) => write!(f, "write"),
            Call::Write(Some(len)) => write!(f, "write {len}"),
            Call::Trial(l) => write!(f, "trial {l}"),
            Call::Close => write!(f, "close"),
        }
    }
}

/// A call, and the line where it stands; lines are counted from 1.
#[derive(Clone, Copy, PartialEq, Eq, Debug)]
pub struct Asked {
    pub line: usize,
    pub call: Call,
}

/// The claims of a book in their order, as its theory has them.
#[derive(Drop)]
pub enum Claims {
    Equality(Vec<Claim>),
    Distance(Vec<Bound>),
}

impl Claims {
    /// No claims of a theory.
    pub fn none(heap: Global, theory: Sort) -> Claims
        ensures { claims_of result ≡ no_claims theory }
    {
        match theory {
            Sort::Equality => Claims::Equality(Vec::new(heap)),
            Sort::Distance => Claims::Distance(Vec::new(heap)),
        }
    }

    /// The theory that the claims are of.
    pub fn theory(&self) -> Sort
        ensures { result ≡ theory_of (claims_of self.now) }
    {
        match self {
            Claims::Equality(_) => Sort::Equality,
            Claims::Distance(_) => Sort::Distance,
        }
    }
}

/// The terms and claims of a book, and then either its calls or what a history has: the clauses as one row of numbers
/// (for each a count and then its literals), the allowance and the steps; each in their order.
#[derive(Drop)]
pub struct Book {
    pub terms: Vec<Term>,
    pub claims: Claims,
    pub calls: Vec<Asked>,
    pub row: Vec<u16>,
    pub allowance: u32,
    pub steps: Vec<Proposed>,
}
