//! Why an opening or a step is refused.
ghost use Rattle.std.specs.Prelude.{◌≡◌};
ghost use Rattle.rules.specs.Refusals.{number};
ghost use Rattle.rules.specs.declared.refusal.Unopened.TheVariants.{Refused, NoMemory};

use std::alloc::AllocError;
use std::fmt;

/// Why an opening or a step is refused; what is refused changes nothing.
#[derive(Clone, Copy, PartialEq, Eq, Debug)]
pub enum Refusal {
    PastLimit,
    BadClause,
    VerdictStands,
    AllowanceUsed,
    ConflictStands,
    NoConflict,
    NoSuchLiteral,
    ClaimOnTrail,
    NotLive,
    LacksLiteral,
    NotFalse,
    ConflictEmpty,
    LatestDecided,
    NotOneAbove,
    ConflictNotEmpty,
    NumberNotFree,
    BookClause,
    IsReason,
    ClaimOffTrail,
    ClauseNotTrue,
    TrailImpossible,
    TrailPossible,
    NotImplied,
    ShortFitPlace,
}

impl Refusal {
    /// The number by which callers know the refusal.
    // The interface numbers its refusals.
    pub fn number(self) -> u8
        ensures { result ≡ number self }
    {
        match self {
            Refusal::PastLimit => 1,
            Refusal::BadClause => 4,
            Refusal::VerdictStands => 11,
            Refusal::AllowanceUsed => 12,
            Refusal::ConflictStands => 13,
            Refusal::NoConflict => 13,
            Refusal::NoSuchLiteral => 14,
            Refusal::ClaimOnTrail => 15,
            Refusal::NotLive => 16,
            Refusal::LacksLiteral => 17,
            Refusal::NotFalse => 17,
            Refusal::ConflictEmpty => 18,
            Refusal::LatestDecided => 18,
            Refusal::NotOneAbove => 18,
            Refusal::ConflictNotEmpty => 18,
            Refusal::NumberNotFree => 19,
            Refusal::BookClause => 19,
            Refusal::IsReason => 19,
            Refusal::ClaimOffTrail => 20,
            Refusal::ClauseNotTrue => 20,
            Refusal::TrailImpossible => 21,
            Refusal::TrailPossible => 21,
            Refusal::NotImplied => 21,
            Refusal::ShortFitPlace => 22,
        }
    }

    /// What is wrong, in words.
    fn words(self) -> &'static str {
        match self {
            Refusal::PastLimit =>
                "there are more clauses or literals than the limits allow, or a count runs past the row's end",
            Refusal::BadClause => "a clause has a literal that no claim has, or one claim twice",
            Refusal::VerdictStands => "the history has its verdict",
            Refusal::AllowanceUsed => "the allowance of steps is used up",
            Refusal::ConflictStands => "a conflict stands",
            Refusal::NoConflict => "no conflict stands",
            Refusal::NoSuchLiteral => "no claim has this literal",
            Refusal::ClaimOnTrail => "the literal's claim is on the trail already",
            Refusal::NotLive => "no clause with this number is live",
            Refusal::LacksLiteral => "the clause does not have the literal",
            Refusal::NotFalse => "a literal of the clause is not false",
            Refusal::ConflictEmpty => "the conflict is empty",
            Refusal::LatestDecided =>
                "the conflict's latest literal was decided, so nothing explains it",
            Refusal::NotOneAbove => "not just one literal of the conflict is above the level",
            Refusal::ConflictNotEmpty => "the conflict is not empty",
            Refusal::NumberNotFree => "the number is no free number of a learned clause",
            Refusal::BookClause => "a clause of the book is not forgotten",
            Refusal::IsReason => "the clause is the reason of a literal on the trail",
            Refusal::ClaimOffTrail => "a claim is not on the trail",
            Refusal::ClauseNotTrue => "a clause of the book has no true literal",
            Refusal::TrailImpossible => "no fit makes every literal of the trail hold",
            Refusal::TrailPossible => "a fit makes every literal of the trail hold",
            Refusal::NotImplied => "the trail with the literal's complement is possible too",
            Refusal::ShortFitPlace => "the place for a fit is shorter than the number of terms",
        }
    }
}

impl fmt::Display for Refusal {
    fn fmt<W: fmt::Write>(&self, f: &mut fmt::Formatter<W>) -> fmt::Result {
        let words = self.words();
        write!(f, "{words}")
    }
}

/// Why a history was not opened: a listed refusal, or want of memory, which has no number.
#[derive(Clone, Copy, PartialEq, Eq, Debug)]
pub enum Unopened {
    Refused(Refusal),
    NoMemory,
}

impl fmt::Display for Unopened {
    fn fmt<W: fmt::Write>(&self, f: &mut fmt::Formatter<W>) -> fmt::Result {
        match self {
            Self::Refused(refusal) => {
                let number = refusal.number();
                write!(f, "refused {number}: {refusal}")
            }
            Self::NoMemory => write!(f, "no memory is left"),
        }
    }
}

impl From<Refusal> for Unopened {
    ghost from_gives = { λ refusal r. r ≡ Refused refusal };

    fn from(refusal: Refusal) -> Unopened {
        Unopened::Refused(refusal)
    }
}

impl From<AllocError> for Unopened {
    ghost from_gives = { λ _ r. r ≡ NoMemory };

    fn from(_e: AllocError) -> Unopened
        ensures { result ≡ NoMemory }
    {
        Unopened::NoMemory
    }
}
