//! Why a step was refused, with what is to blame.
use history::History;
use rules::{Reason, Refusal, Step, Verdict};
use std::fmt;
use theory::literal::complement_of;
use theory::{Literal, Theory};

/// What a refused step is refused for.
#[derive(Clone, Copy, PartialEq, Eq, Debug)]
enum Culprit {
    Verdict(Verdict),
    Allowance(u32),
    Claim(usize),
    Literal(Literal),
    OnTrail { literal: Literal, level: u32 },
    Clause(u16),
    InClause { literal: Literal, clause: u16 },
    ReasonOf { literal: Literal, clause: u16 },
    Above { literals: usize, level: u32 },
    Left { literals: usize },
    Place { numbers: usize, terms: usize },
}

impl fmt::Display for Culprit {
    fn fmt<W: fmt::Write>(&self, f: &mut fmt::Formatter<W>) -> fmt::Result {
        match *self {
            Culprit::Verdict(Verdict::Fit) => write!(f, "fit"),
            Culprit::Verdict(Verdict::NoFit) => write!(f, "no fit"),
            Culprit::Allowance(steps) => write!(f, "allowance {steps}"),
            Culprit::Claim(claim) => write!(f, "claim {claim}"),
            Culprit::Literal(literal) => write!(f, "literal {literal}"),
            Culprit::OnTrail { literal, level } => write!(f, "literal {literal}, on level {level}"),
            Culprit::Clause(clause) => write!(f, "clause {clause}"),
            Culprit::InClause { literal, clause } => write!(
                f,
                "literal {literal}, clause {clause}"
            ),
            Culprit::ReasonOf { literal, clause } => write!(
                f,
                "clause {clause}, of literal {literal}"
            ),
            Culprit::Above { literals, level } => write!(f, "{literals} above level {level}"),
            Culprit::Left { literals } => write!(f, "literals left: {literals}"),
            Culprit::Place { numbers, terms } => write!(f, "room for {numbers}, terms {terms}"),
        }
    }
}

/// Why a step was refused.
#[derive(Clone, Copy, PartialEq, Eq, Debug)]
pub struct Refused {
    refusal: Refusal,
    culprit: Option<Culprit>,
}

impl Refused {
    /// What a history that refused a step has against it.
    pub fn of<T: Theory>(history: &History<T>, step: Step, refusal: Refusal) -> Refused {
        Refused {
            refusal,
            culprit: to_blame(history, step, refusal),
        }
    }

    pub fn number(self) -> u8 {
        self.refusal.number()
    }
}

impl fmt::Display for Refused {
    fn fmt<W: fmt::Write>(&self, f: &mut fmt::Formatter<W>) -> fmt::Result {
        let refusal = self.refusal;
        match self.culprit {
            Some(culprit) => write!(f, "{refusal}: {culprit}"),
            None => write!(f, "{refusal}"),
        }
    }
}

fn to_blame<T: Theory>(history: &History<T>, step: Step, refusal: Refusal) -> Option<Culprit> {
    match refusal {
        Refusal::VerdictStands => history.verdict().map(Culprit::Verdict),
        Refusal::AllowanceUsed => Some(Culprit::Allowance(history.allowance())),
        Refusal::NoSuchLiteral => literal_of(step).map(Culprit::Literal),
        Refusal::NotImplied => literal_of(step).map(|l| Culprit::Literal(complement_of(l))),
        Refusal::ClaimOnTrail => on_trail(history, literal_of(step)?),
        Refusal::NotLive | Refusal::NumberNotFree | Refusal::BookClause => {
            clause_of(step).map(Culprit::Clause)
        }
        Refusal::LacksLiteral => Some(Culprit::InClause {
            literal: literal_of(step)?,
            clause: clause_of(step)?,
        }),
        Refusal::NotFalse => not_false(history, clause_of(step)?, literal_of(step)),
        Refusal::IsReason => reason_of(history, clause_of(step)?),
        Refusal::LatestDecided => latest(history).map(Culprit::Literal),
        Refusal::NotOneAbove => above(history, step),
        Refusal::ConflictNotEmpty => {
            let literals = history.conflicting()?.len();
            Some(Culprit::Left { literals })
        }
        Refusal::ClaimOffTrail => off_trail(history),
        Refusal::ClauseNotTrue => not_true(history),
        Refusal::ShortFitPlace => short_place(history, step),
        _ => None,
    }
}

/// The literal that a step would put on the trail.
fn literal_of(step: Step) -> Option<Literal> {
    match step {
        Step::Decide(l) | Step::Propagate(_, l) | Step::Imply(l) => Some(l),
        _ => None,
    }
}

/// The clause that a step names.
fn clause_of(step: Step) -> Option<u16> {
    match step {
        Step::Propagate(c, _) | Step::Conflict(c) | Step::Jump(_, c) | Step::Forget(c) => Some(c),
        _ => None,
    }
}

fn on_trail<T: Theory>(history: &History<T>, l: Literal) -> Option<Culprit> {
    let literal = if history.is_true(l) {
        l
    } else {
        complement_of(l)
    };
    let level = history.level_at(history.position(literal)?)?;
    Some(Culprit::OnTrail { literal, level })
}

/// The first literal of a clause that is not false, other than one.
fn not_false<T: Theory>(
    history: &History<T>,
    clause: u16,
    but: Option<Literal>,
) -> Option<Culprit> {
    for l in history.clause(clause)?.iter().copied() {
        if Some(l) != but && !history.is_false(l) {
            return Some(Culprit::InClause { literal: l, clause });
        }
    }
    None
}

/// The literal that a clause is the reason of.
fn reason_of<T: Theory>(history: &History<T>, clause: u16) -> Option<Culprit> {
    for p in 0..history.len() {
        let entry = history.entry(p)?;
        if entry.reason == Reason::Clause(clause) {
            let literal = entry.literal;
            return Some(Culprit::ReasonOf { literal, clause });
        }
    }
    None
}

/// The conflict's latest literal.
fn latest<T: Theory>(history: &History<T>) -> Option<Literal> {
    let conflict = history.conflicting()?;
    for p in (0..history.len()).rev() {
        let l = complement_of(history.entry(p)?.literal);
        if conflict.has(l) {
            return Some(l);
        }
    }
    None
}

/// How many literals of the conflict are above the level that a jump names.
fn above<T: Theory>(history: &History<T>, step: Step) -> Option<Culprit> {
    let Step::Jump(level, _) = step else {
        return None;
    };
    let mut literals = 0usize;
    for l in history.conflicting()?.iter() {
        let at = history.level_at(history.position(complement_of(l))?)?;
        if at > level {
            literals = literals.saturating_add(1);
        }
    }
    Some(Culprit::Above { literals, level })
}

/// The first claim that is not on the trail.
fn off_trail<T: Theory>(history: &History<T>) -> Option<Culprit> {
    for claim in 0..history.claims().min(128) {
        let l = claim as u16 * 2;
        if !history.is_true(l) && !history.is_false(l) {
            return Some(Culprit::Claim(claim));
        }
    }
    None
}

/// The first clause of the book with no true literal.
fn not_true<T: Theory>(history: &History<T>) -> Option<Culprit> {
    for c in 0..history.book_len().min(512) {
        let c = c as u16;
        if !history.clause(c)?.iter().any(|l| history.is_true(*l)) {
            return Some(Culprit::Clause(c));
        }
    }
    None
}

fn short_place<T: Theory>(history: &History<T>, step: Step) -> Option<Culprit> {
    let Step::Fit(numbers) = step else {
        return None;
    };
    let terms = history.terms();
    Some(Culprit::Place { numbers, terms })
}
