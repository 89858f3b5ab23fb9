//! Why a call is refused, and what a query finds.
ghost use Rattle.std.specs.Prelude.{◌≡◌};
ghost use Rattle.theory.specs.Refusals.{number};
ghost use Rattle.theory.specs.declared.refusal.Unmade.TheVariants.{Refused, NoMemory};

use std::alloc::AllocError;
use std::fmt;

/// Why a call is refused; a refused call changes nothing.
#[derive(Clone, Copy, PartialEq, Eq, Debug)]
pub enum Refusal {
    PastLimit,
    ArgumentNotLower,
    TermHasArgument,
    NoSuchTerm,
    ConstantOutOfRange,
    NoSuchLiteral,
    ClaimOnList,
    AboveLength,
    ShortCorePlace,
    ShortFitPlace,
    ListImpossible,
}

impl Refusal {
    /// The number by which callers know the refusal.
    // The interface numbers its refusals.
    pub fn number(self) -> u8
        ensures { result ≡ number self }
    {
        match self {
            Refusal::PastLimit => 1,
            Refusal::ArgumentNotLower => 2,
            Refusal::TermHasArgument => 2,
            Refusal::NoSuchTerm => 3,
            Refusal::ConstantOutOfRange => 3,
            Refusal::NoSuchLiteral => 5,
            Refusal::ClaimOnList => 6,
            Refusal::AboveLength => 7,
            Refusal::ShortCorePlace => 8,
            Refusal::ShortFitPlace => 9,
            Refusal::ListImpossible => 10,
        }
    }

    /// What is wrong, in words.
    fn words(self) -> &'static str {
        match self {
            Refusal::PastLimit => "there are more terms, claims or arguments than the limits allow",
            Refusal::ArgumentNotLower => "an argument is not lower than its own term",
            Refusal::TermHasArgument => "a term has an argument, where none may",
            Refusal::NoSuchTerm => "a claim names no term",
            Refusal::ConstantOutOfRange =>
                "the constant of a claim is not from -1000000 to 1000000",
            Refusal::NoSuchLiteral => "no claim has this literal",
            Refusal::ClaimOnList => "the literal's claim is on the list already",
            Refusal::AboveLength => "the list is shorter than that",
            Refusal::ShortCorePlace => "the place for a core is shorter than the number of claims",
            Refusal::ShortFitPlace => "the place for a fit is shorter than the number of terms",
            Refusal::ListImpossible => "no fit makes every literal of the list hold",
        }
    }
}

impl fmt::Display for Refusal {
    fn fmt<W: fmt::Write>(&self, f: &mut fmt::Formatter<W>) -> fmt::Result {
        let words = self.words();
        write!(f, "{words}")
    }
}

/// Why a theory was not made: a listed refusal, or want of memory, which has no number.
// No generic type for this and other errors with want of memory: their cases have names of their
// own.
#[derive(Clone, Copy, PartialEq, Eq, Debug)]
pub enum Unmade {
    Refused(Refusal),
    NoMemory,
}

impl fmt::Display for Unmade {
    fn fmt<W: fmt::Write>(&self, f: &mut fmt::Formatter<W>) -> fmt::Result {
        match self {
            Self::Refused(refusal) => {
                let number = refusal.number();
                write!(f, "refused {number}: {refusal}")
            }
            Self::NoMemory => write!(f, "no memory is left"),
        }
    }
}

impl From<Refusal> for Unmade {
    ghost from_gives = { λ refusal r. r ≡ Refused refusal };

    fn from(refusal: Refusal) -> Unmade {
        Unmade::Refused(refusal)
    }
}

impl From<AllocError> for Unmade {
    ghost from_gives = { λ _ r. r ≡ NoMemory };

    fn from(_e: AllocError) -> Unmade
        ensures { result ≡ NoMemory }
    {
        Unmade::NoMemory
    }
}

/// What a query finds; with `Impossible` comes the length of the core.
// No `Option`: `Some` would stand for the list that has no fit.
#[derive(Clone, Copy, PartialEq, Eq, Debug)]
pub enum Found {
    Possible,
    Impossible(usize),
}
