//! What of a book a theory or a history was refused for, so that its line can be named.
use book::word::Kind;
use book::{Book, Claims};
use clauses::Clauses;
use std::fmt;
use theory::literal::names;
use theory::{Literal, Term};

const MOST_ARGUMENTS: u8 = 2;

const MOST_TERMS: usize = 256;

const MOST_CLAIMS: usize = 128;

const MOST_CLAUSES: usize = 512;

const MOST_LITERALS: usize = 4096;

/// What passes its limit, or is wrong.
#[derive(Clone, Copy, PartialEq, Eq, Debug)]
pub enum Misfit {
    Terms,
    Claims,
    Clauses,
    Literals { clause: usize },
    Arguments { term: usize },
    HasArgument { term: usize },
    NotLower { term: usize, argument: u16 },
    NoSuchTerm { claim: usize, term: u16 },
    Constant { claim: usize, constant: i32 },
    PastEnd { clause: usize },
    NoSuchLiteral { clause: usize, literal: Literal },
    ClaimTwice { clause: usize, claim: u16 },
}

impl Misfit {
    /// The line that it stands on: which one, from 0, of the lines of a kind.
    pub fn place(self) -> (Kind, usize) {
        match self {
            Misfit::Terms => (Kind::Term, MOST_TERMS),
            Misfit::Claims => (Kind::Claim, MOST_CLAIMS),
            Misfit::Clauses => (Kind::Clause, MOST_CLAUSES),
            Misfit::Arguments { term }
            | Misfit::HasArgument { term }
            | Misfit::NotLower { term, .. } => { (Kind::Term, term) }
            Misfit::NoSuchTerm { claim, .. } | Misfit::Constant { claim, .. } => (
                Kind::Claim,
                claim,
            ),
            Misfit::Literals { clause }
            | Misfit::PastEnd { clause }
            | Misfit::NoSuchLiteral { clause, .. }
            | Misfit::ClaimTwice { clause, .. } => (Kind::Clause, clause),
        }
    }
}

impl fmt::Display for Misfit {
    fn fmt<W: fmt::Write>(&self, f: &mut fmt::Formatter<W>) -> fmt::Result {
        match *self {
            Misfit::Terms => write!(f, "there are more than {MOST_TERMS} terms"),
            Misfit::Claims => write!(f, "there are more than {MOST_CLAIMS} claims"),
            Misfit::Clauses => write!(f, "there are more than {MOST_CLAUSES} clauses"),
            Misfit::Literals { clause } => {
                write!(
                    f,
                    "with clause {clause} there are more than {MOST_LITERALS} literals"
                )
            }
            Misfit::Arguments { term } => {
                write!(f, "term {term} has more than {MOST_ARGUMENTS} arguments")
            }
            Misfit::HasArgument { term } => {
                write!(f, "term {term} has an argument, where none may be")
            }
            Misfit::NotLower { term, argument } => {
                write!(
                    f,
                    "term {term} has the argument {argument}, which is not lower"
                )
            }
            Misfit::NoSuchTerm { claim, term } => {
                write!(f, "claim {claim} names term {term}, which there is not")
            }
            Misfit::Constant { claim, constant } => write!(
                f,
                "claim {claim} has the constant {constant}, which is not from -1000000 to 1000000"
            ),
            Misfit::PastEnd { clause } => {
                write!(f, "the count of clause {clause} runs past the row's end")
            }
            Misfit::NoSuchLiteral { clause, literal } => {
                write!(f, "clause {clause} has literal {literal}, of no claim")
            }
            Misfit::ClaimTwice { clause, claim } => {
                write!(f, "clause {clause} has claim {claim} twice")
            }
        }
    }
}

/// What of a book a theory was refused for.
pub fn of_making(book: &Book, refusal: theory::Refusal) -> Option<Misfit> {
    match refusal {
        theory::Refusal::PastLimit => past_limit(book),
        theory::Refusal::ArgumentNotLower => not_lower(&book.terms),
        theory::Refusal::TermHasArgument => {
            let term = has_more(&book.terms, 0)?;
            Some(Misfit::HasArgument { term })
        }
        theory::Refusal::NoSuchTerm => no_such_term(&book.claims, book.terms.len()),
        theory::Refusal::ConstantOutOfRange => constant(&book.claims),
        _ => None,
    }
}

fn past_limit(book: &Book) -> Option<Misfit> {
    let claims = match &book.claims {
        Claims::Equality(claims) => claims.len(),
        Claims::Distance(bounds) => bounds.len(),
    };
    if book.terms.len() > MOST_TERMS {
        return Some(Misfit::Terms);
    }
    if claims > MOST_CLAIMS {
        return Some(Misfit::Claims);
    }
    let term = has_more(&book.terms, MOST_ARGUMENTS)?;
    Some(Misfit::Arguments { term })
}

/// The first term with more than `most` arguments.
fn has_more(terms: &[Term], most: u8) -> Option<usize> {
    terms.iter().position(|t| t.arity > most)
}

fn not_lower(terms: &[Term]) -> Option<Misfit> {
    for (term, t) in terms.iter().enumerate() {
        for argument in t.args.iter().take(usize::from(t.arity)).copied() {
            if usize::from(argument) >= term {
                return Some(Misfit::NotLower { term, argument });
            }
        }
    }
    None
}

fn no_such_term(claims: &Claims, terms: usize) -> Option<Misfit> {
    let unnamed = |claim: usize, names: [u16; 2]| {
        let term = names.into_iter().find(|t| usize::from(*t) >= terms)?;
        Some(Misfit::NoSuchTerm { claim, term })
    };
    match claims {
        Claims::Equality(claims) => claims
            .iter()
            .enumerate()
            .find_map(|(claim, c)| unnamed(claim, [c.left, c.right])),
        Claims::Distance(bounds) => bounds
            .iter()
            .enumerate()
            .find_map(|(claim, b)| unnamed(claim, [b.term, b.base])),
    }
}

fn constant(claims: &Claims) -> Option<Misfit> {
    let Claims::Distance(bounds) = claims else {
        return None;
    };
    let claim = bounds
        .iter()
        .position(|b| !(-1_000_000..=1_000_000).contains(&b.most))?;
    let constant = bounds.get(claim)?.most;
    Some(Misfit::Constant { claim, constant })
}

/// What of a row of clauses over so many claims a history was refused for.
pub fn of_opening(row: &[u16], claims: usize, refusal: rules::Refusal) -> Option<Misfit> {
    match refusal {
        rules::Refusal::PastLimit => Some(past_row(row)),
        rules::Refusal::BadClause => bad_clause(row, claims),
        _ => None,
    }
}

/// The first limit that a row passes.
fn past_row(row: &[u16]) -> Misfit {
    let mut clause = 0usize;
    let mut literals = 0usize;
    for listed in Clauses(row) {
        literals = literals.saturating_add(listed.len());
        if clause >= MOST_CLAUSES {
            return Misfit::Clauses;
        }
        if literals > MOST_LITERALS {
            return Misfit::Literals { clause };
        }
        clause = clause.saturating_add(1);
    }
    Misfit::PastEnd { clause }
}

/// The first clause that is none over so many claims.
fn bad_clause(row: &[u16], claims: usize) -> Option<Misfit> {
    let mut clause = 0usize;
    for literals in Clauses(row) {
        if let Some(misfit) = bad_literal(clause, literals, claims) {
            return Some(misfit);
        }
        clause = clause.saturating_add(1);
    }
    None
}

fn bad_literal(clause: usize, literals: &[Literal], claims: usize) -> Option<Misfit> {
    for (i, l) in literals.iter().enumerate() {
        let (literal, claim) = (*l, *l / 2);
        if usize::from(claim) >= claims {
            return Some(Misfit::NoSuchLiteral { clause, literal });
        }
        if names(&literals[i + 1..], literal) {
            return Some(Misfit::ClaimTwice { clause, claim });
        }
    }
    None
}
