//! Unit propagation: what follows by a clause, and which clause is false.
use crate::assignment::Assignment;
use crate::formula::Formula;
use crate::literals::Bits;
use rules::Step;
use theory::Literal;
use theory::literal::complement_of;

/// How far the trail was looked at, and the clauses that were found to have at most one literal that is not false.
#[derive(Drop)]
pub(crate) struct Propagation {
    head: usize,
    found: [u16; 640],
    from: usize,
    to: usize,
}

impl Propagation {
    pub(crate) fn new() -> Propagation {
        Propagation {
            head: 0,
            found: [0; 640],
            from: 0,
            to: 0,
        }
    }

    /// Looks at every clause once, as a history begins.
    pub(crate) fn begin(&mut self, formula: &Formula) {
        for c in 0..512u16 {
            if usize::from(c) < formula.book_len() && formula.clause(c).len() <= 1 {
                self.note(c);
            }
        }
    }

    fn note(&mut self, c: u16) {
        if self.to < 640 {
            self.found[self.to] = c;
            self.to += 1;
        }
    }

    /// What was found above a cut is forgotten.
    pub(crate) fn cut(&mut self, len: usize) {
        self.from = 0;
        self.to = 0;
        self.head = self.head.min(len);
    }

    /// The next step that a clause gives, if one does.
    pub(crate) fn next(&mut self, formula: &Formula, trail: &Assignment) -> Option<Step> {
        for _ in 0..129 {
            if let Some(step) = self.next_found(formula, trail) {
                return Some(step);
            }
            let l = trail.at(self.head)?;
            self.head = self.head.saturating_add(1);
            if let Some(c) = self.scan(formula, trail, complement_of(l)) {
                return Some(Step::Conflict(c));
            }
        }
        None
    }

    fn next_found(&mut self, formula: &Formula, trail: &Assignment) -> Option<Step> {
        while self.from < self.to {
            let c = self.found[self.from % 640];
            self.from += 1;
            let clause = formula.clause(c);
            if !clause.and(trail.on).is_empty() {
                continue;
            }
            let open = clause.minus(trail.false_literals());
            if open.is_empty() {
                return Some(Step::Conflict(c));
            }
            if let Some(l) = open.only() {
                return Some(Step::Propagate(c, l));
            }
        }
        self.from = 0;
        self.to = 0;
        None
    }

    /// Looks at the clauses that have a literal which became false; the number of one that is false.
    fn scan(&mut self, formula: &Formula, trail: &Assignment, l: Literal) -> Option<u16> {
        for c in formula.with(l) {
            if self.is_false(formula, trail, *c) {
                return Some(*c);
            }
        }
        for place in Bits(formula.learned_with(l)) {
            let c = 512 + (place % 128) as u16;
            if self.is_false(formula, trail, c) {
                return Some(c);
            }
        }
        None
    }

    /// Whether a clause is false; one with a single literal that is not false is noted.
    fn is_false(&mut self, formula: &Formula, trail: &Assignment, c: u16) -> bool {
        let clause = formula.clause(c);
        if !clause.and(trail.on).is_empty() {
            return false;
        }
        let open = clause.minus(trail.false_literals());
        if open.is_empty() {
            return true;
        }
        if open.len() == 1 {
            self.note(c);
        }
        false
    }
}
