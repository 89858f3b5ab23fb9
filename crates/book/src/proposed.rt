//! Steps, as a book proposes them.
ghost use Rattle.std.specs.Prelude.{◌≡◌, Some};
ghost use Rattle.book.specs.Books.{step_over, proposed_of, Proposable};
ghost use Rattle.book.specs.Canonical.{spaced, step_words};

use rules::Step;
use std::fmt;
use theory::Literal;

/// A step of a history. A fit may name the length of the place that it is lent.
#[derive(Clone, Copy, PartialEq, Eq, Debug)]
pub enum Proposed {
    Decide(Literal),
    Propagate(u16, Literal),
    Imply(Literal),
    Conflict(u16),
    Clash,
    Resolve,
    Jump(u32, u16),
    Forget(u16),
    Fit(Option<u16>),
    NoFit,
}

impl Proposed {
    /// A step over a theory of so many terms, as a book proposes it: a fit into a place of as many numbers has no
    /// length, and the largest that a book can name stands for a larger one.
    pub fn of(step: Step, terms: usize) -> Proposed
        ensures value { result ≡ proposed_of terms step }
        ensures same { Proposable terms step → step_over terms result ≡ step }
    {
        match step {
            Step::Decide(l) => Proposed::Decide(l),
            Step::Propagate(c, l) => Proposed::Propagate(c, l),
            Step::Imply(l) => Proposed::Imply(l),
            Step::Conflict(c) => Proposed::Conflict(c),
            Step::Clash => Proposed::Clash,
            Step::Resolve => Proposed::Resolve,
            Step::Jump(k, c) => Proposed::Jump(k, c),
            Step::Forget(c) => Proposed::Forget(c),
            Step::Fit(len) if len == terms => Proposed::Fit(None),
            Step::Fit(len) => Proposed::Fit(Some(u16::try_from(len).unwrap_or(u16::MAX))),
            Step::NoFit => Proposed::NoFit,
        }
    }

    /// The step over a theory of so many terms: without a length, a fit is lent a place for as many numbers.
    pub fn step(self, terms: usize) -> Step
        ensures { result ≡ step_over terms self }
    {
        match self {
            Proposed::Decide(l) => Step::Decide(l),
            Proposed::Propagate(c, l) => Step::Propagate(c, l),
            Proposed::Imply(l) => Step::Imply(l),
            Proposed::Conflict(c) => Step::Conflict(c),
            Proposed::Clash => Step::Clash,
            Proposed::Resolve => Step::Resolve,
            Proposed::Jump(k, c) => Step::Jump(k, c),
            Proposed::Forget(c) => Step::Forget(c),
            Proposed::Fit(len) => Step::Fit(len.map_or(terms, usize::from)),
            Proposed::NoFit => Step::NoFit,
        }
    }
}

impl fmt::Display for Proposed {
    ghost output = { λ k. Some (spaced (step_words k)) };

    fn fmt<W: fmt::Write>(&self, f: &mut fmt::Formatter<W>) -> fmt::Result {
        match *self {
            Proposed::Decide(l) => write!(f, "decide {l}"),
            Proposed::Propagate(c, l) => write!(f, "propagate {c} {l}"),
            Proposed::Imply(l) => write!(f, "imply {l}"),
            Proposed::Conflict(c) => write!(f, "conflict {c}"),
            Proposed::Clash => write!(f, "clash"),
            Proposed::Resolve => write!(f, "resolve"),
            Proposed::Jump(k, c) => write!(f, "jump {k} {c}"),
            Proposed::Forget(c) => write!(f, "forget {c}"),
            Proposed::Fit(None) => write!(f, "fit"),
            Proposed::Fit(Some(len)) => write!(f, "fit {len}"),
            Proposed::NoFit => write!(f, "nofit"),
        }
    }
}
