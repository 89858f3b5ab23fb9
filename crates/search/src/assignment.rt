//! The trail, as a search sees it: a copy in masks of what its steps did.
ghost use Rattle.std.specs.Prelude.{◌≤◌};

use crate::literals::{Bits, Literals, bit, claim_of};
use rules::Reason;
use theory::Literal;

/// The trail of at most 128 literals.
#[derive(Drop)]
pub(crate) struct Assignment {
    // The true literals.
    pub(crate) on: Literals,
    // By position, the oldest first.
    order: [Literal; 128],
    len: usize,
    // By claim.
    reasons: [Reason; 128],
    // The claims of each level, and how many literals stand below it.
    levels: [u128; 129],
    starts: [usize; 129],
    level: usize,
    // The claims that were last true.
    phases: u128,
    // By claim: what explains a literal that the theory implied, once it was asked for.
    pub(crate) explained: [Option<Literals>; 128],
    ghost few: { len ≤ 128 },
    ghost few_levels: { level ≤ 128 },
}

impl Assignment {
    pub(crate) fn new() -> Assignment {
        Assignment {
            on: Literals::NONE,
            order: [0; 128],
            len: 0,
            reasons: [Reason::Decided; 128],
            levels: [0; 129],
            starts: [0; 129],
            level: 0,
            phases: 0,
            explained: [None; 128],
        }
    }

    pub(crate) fn len(&self) -> usize {
        self.len
    }

    pub(crate) fn level(&self) -> usize {
        self.level
    }

    /// The literal at a position.
    pub(crate) fn at(&self, p: usize) -> Option<Literal> {
        if p < self.len {
            self.order.get(p).copied()
        } else {
            None
        }
    }

    pub(crate) fn reason(&self, l: Literal) -> Reason {
        self.reasons[claim_of(l)]
    }

    /// The claims of a level.
    pub(crate) fn claims_at(&self, level: usize) -> u128 {
        match self.levels.get(level) {
            Some(claims) => *claims,
            None => 0,
        }
    }

    pub(crate) fn false_literals(&self) -> Literals {
        self.on.complements()
    }

    pub(crate) fn named(&self) -> u128 {
        self.on.named()
    }

    /// Whether a claim was last true.
    pub(crate) fn phase(&self, claim: usize) -> bool {
        self.phases & bit(claim) != 0
    }

    pub(crate) fn push(&mut self, l: Literal, reason: Reason) {
        if self.len >= 128 {
            return;
        }
        if reason == Reason::Decided && self.level < 128 {
            self.level += 1;
            self.starts[self.level] = self.len;
            self.levels[self.level] = 0;
        }
        self.order[self.len] = l;
        self.len += 1;
        let claim = claim_of(l);
        self.on = self.on.with(l);
        self.levels[self.level] |= bit(claim);
        self.reasons[claim] = reason;
        self.explained[claim] = None;
    }

    /// Cuts the trail to a level, and remembers which claims were true.
    pub(crate) fn cut(&mut self, level: usize) {
        if level >= self.level {
            return;
        }
        let mut gone = 0;
        for k in level + 1..self.level + 1 {
            gone |= self.claims_at(k);
        }
        self.phases = (self.phases & !gone) | (self.on.claims & gone);
        self.on = self.on.off(gone);
        self.len = self.starts[level + 1].min(self.len);
        self.level = level;
    }

    /// The learned clauses that are reasons, by place.
    pub(crate) fn learned_reasons(&self) -> u128 {
        let mut places = 0;
        for claim in Bits(self.named()) {
            if let Reason::Clause(c) = self.reasons[claim % 128]
                && c >= 512
            {
                places |= bit(usize::from(c - 512));
            }
        }
        places
    }

    /// The highest level that has one of some claims, at most `from`.
    pub(crate) fn highest(&self, claims: u128, from: usize) -> usize {
        let mut level = from;
        while level > 0 && self.claims_at(level) & claims == 0 {
            level -= 1;
        }
        level
    }
}
