//! Which claim to decide: the one that conflicts named most of late (VSIDS, Moskewicz et al., Chaff, 2001).
use crate::formula::Formula;
use crate::literals::Bits;

/// How active each claim was.
#[derive(Drop)]
pub(crate) struct Activity {
    by_claim: [f64; 128],
    step: f64,
}

impl Activity {
    pub(crate) fn new() -> Activity {
        Activity {
            by_claim: [0.0; 128],
            step: 1.0,
        }
    }

    /// Claims of short clauses first.
    pub(crate) fn begin(&mut self, formula: &Formula) {
        for c in 0..512u16 {
            if usize::from(c) < formula.book_len() {
                let clause = formula.clause(c);
                let mut weight = 0.01;
                for _ in 0..clause.len() {
                    weight /= 2.0;
                }
                for claim in Bits(clause.named()) {
                    self.by_claim[claim % 128] += weight;
                }
            }
        }
    }

    pub(crate) fn bump(&mut self, claims: u128) {
        for claim in Bits(claims) {
            self.by_claim[claim % 128] += self.step;
        }
    }

    /// What was bumped before counts for less from now on.
    pub(crate) fn decay(&mut self) {
        self.step /= 0.96;
        if self.step > 1e100 {
            for activity in self.by_claim.iter_mut() {
                *activity *= 1e-100;
            }
            self.step *= 1e-100;
        }
    }

    /// The most active of some claims, if there is one; the lowest of several.
    pub(crate) fn most(&self, claims: u128) -> Option<usize> {
        let mut best: Option<usize> = None;
        let mut most = -1.0;
        for claim in Bits(claims) {
            let activity = self.by_claim[claim % 128];
            if activity > most {
                most = activity;
                best = Some(claim);
            }
        }
        best
    }
}
