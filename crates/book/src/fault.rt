//! What is wrong with a book.
ghost use Rattle.std.specs.Prelude.{◌≡◌};
ghost use Rattle.book.specs.declared.fault.Unread.TheVariants.{Fault as faulty, NoMemory};

use crate::word::{Kind, Name};
use std::alloc::AllocError;
use std::fmt;

/// What is wrong with a line.
#[derive(Clone, Copy, PartialEq, Eq, Debug)]
pub enum Wrong {
    NoSuchLine,
    NoSuchTheory,
    NoSuchCall,
    NoSuchStep,
    NoNumber,
    TooLarge { most: usize },
    OutOfRange,
    Missing { after: Name },
    TooMany { after: Name },
    NoTheory,
    SecondTheory,
    LateTerm,
    LateClaim,
    LateClause,
    ClausesAndRows,
    LateAllowance,
    SecondAllowance,
    HistoryToAsk,
    CallsToReplay,
}

impl fmt::Display for Wrong {
    fn fmt<W: fmt::Write>(&self, f: &mut fmt::Formatter<W>) -> fmt::Result {
        match *self {
            Wrong::NoSuchLine => write!(
                f,
                "a line begins with `theory`, `term`, `claim`, `clause`, `row`, `allowance`, `call` or `step`"
            ),
            Wrong::NoSuchTheory => write!(f, "a theory is `equality` or `distance`"),
            Wrong::NoSuchCall => write!(
                f,
                "a call is `assert`, `takeback`, `query`, `write`, `trial` or `close`"
            ),
            Wrong::NoSuchStep => write!(
                f,
                "a step is `decide`, `propagate`, `imply`, `conflict`, `clash`, `resolve`, `jump`, `forget`, `fit` or `nofit`"
            ),
            Wrong::NoNumber => write!(f, "a word stands where a number is wanted"),
            Wrong::TooLarge { most } => write!(f, "a number does not fit: at most {most}"),
            Wrong::OutOfRange => {
                let (least, most) = (i32::MIN, i32::MAX);
                write!(f, "a number does not fit: from {least} to {most}")
            }
            Wrong::Missing {
                after: Name::Kind(Kind::Theory),
            } => write!(f, "the name of a theory is missing after `theory`"),
            Wrong::Missing {
                after: Name::Kind(Kind::Call),
            } => write!(f, "the name of a call is missing after `call`"),
            Wrong::Missing {
                after: Name::Kind(Kind::Step),
            } => write!(f, "the name of a step is missing after `step`"),
            Wrong::Missing { after } => write!(f, "a number is missing after `{after}`"),
            Wrong::TooMany { after } => write!(f, "there are words too many after `{after}`"),
            Wrong::NoTheory => write!(
                f,
                "a book begins with the line `theory equality` or `theory distance`"
            ),
            Wrong::SecondTheory => write!(f, "a second theory line"),
            Wrong::LateTerm => write!(
                f,
                "a term line stands after a claim, clause, row, allowance, call or step"
            ),
            Wrong::LateClaim => write!(
                f,
                "a claim line stands after a clause, row, allowance, call or step"
            ),
            Wrong::LateClause => write!(
                f,
                "a clause or row line stands after the allowance or a step"
            ),
            Wrong::ClausesAndRows => {
                write!(f, "clause lines and row lines do not stand in one book")
            }
            Wrong::LateAllowance => write!(f, "the allowance line stands after a step"),
            Wrong::SecondAllowance => write!(f, "a second allowance line"),
            Wrong::HistoryToAsk => write!(
                f,
                "a book to ask has no clause, row, allowance or step lines"
            ),
            Wrong::CallsToReplay => write!(f, "a book to replay has no call lines"),
        }
    }
}

/// What is wrong, and the line where; lines are counted from 1.
#[derive(Clone, Copy, PartialEq, Eq, Debug)]
pub struct Fault {
    pub line: usize,
    pub wrong: Wrong,
}

impl fmt::Display for Fault {
    fn fmt<W: fmt::Write>(&self, f: &mut fmt::Formatter<W>) -> fmt::Result {
        let line = self.line;
        let wrong = self.wrong;
        write!(f, "{line}: {wrong}")
    }
}

/// Why a book was not read.
// No generic type with `theory::Unmade`: the cases have names of their own.
#[derive(Clone, Copy, PartialEq, Eq, Debug)]
pub enum Unread {
    Fault(Fault),
    NoMemory,
}

impl fmt::Display for Unread {
    fn fmt<W: fmt::Write>(&self, f: &mut fmt::Formatter<W>) -> fmt::Result {
        match *self {
            Unread::Fault(fault) => write!(f, "{fault}"),
            Unread::NoMemory => write!(f, "no memory is left"),
        }
    }
}

impl From<Fault> for Unread {
    ghost from_gives = { λ fault r. r ≡ faulty fault };

    fn from(fault: Fault) -> Unread {
        Unread::Fault(fault)
    }
}

impl From<AllocError> for Unread {
    ghost from_gives = { λ _ r. r ≡ NoMemory };

    fn from(_e: AllocError) -> Unread {
        Unread::NoMemory
    }
}
