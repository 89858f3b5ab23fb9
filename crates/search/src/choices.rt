//! Choices: long clauses of claims alone, disjoint, beside short ones of denials, as pigeonholes have them.
use crate::assignment::Assignment;
use crate::formula::Formula;

/// The clauses of a book that are choices.
#[derive(Clone, Copy, PartialEq, Eq, Debug)]
pub(crate) struct Choices {
    are: bool,
}

impl Choices {
    pub(crate) fn none() -> Choices {
        Choices { are: false }
    }

    /// Every clause is six or more claims, disjoint from the others of that kind, at least three of them, or of denials alone.
    pub(crate) fn of(formula: &Formula) -> Choices {
        let mut named = 0;
        let mut count = 0u32;
        for c in 0..512u16 {
            if usize::from(c) < formula.book_len() {
                let clause = formula.clause(c);
                if clause.denials == 0 && clause.len() >= 6 {
                    if clause.claims & named != 0 {
                        return Choices { are: false };
                    }
                    named |= clause.claims;
                    count = count.saturating_add(1);
                } else if clause.claims != 0 {
                    return Choices { are: false };
                }
            }
        }
        Choices { are: count >= 3 }
    }

    /// The free claims of the lowest choice with no true literal.
    pub(crate) fn free(self, formula: &Formula, trail: &Assignment) -> Option<u128> {
        if !self.are {
            return None;
        }
        for c in 0..512u16 {
            if usize::from(c) < formula.book_len() {
                let clause = formula.clause(c);
                if clause.denials == 0 && clause.and(trail.on).is_empty() {
                    return Some(clause.claims & !trail.named());
                }
            }
        }
        None
    }
}
