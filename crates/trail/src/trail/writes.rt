//! How a trail changes.
ghost use Rattle.std.specs.Prelude.{◌≡◌, [], IfOk, min, drop};
ghost use Rattle.rules.specs.Rules.{up_to};
ghost use Rattle.trail.specs.Trails.{claims_of, trail_of, push_says, pushed};

use crate::trail::Trail;
use rules::{Entry, Reason, Refusal};
use std::alloc::{AllocError, Global};
use theory::Literal;

impl Trail {
    /// A trail with nothing on it. Of the claims it takes no more than a theory has.
    pub fn new(heap: Global, claims: usize) -> Result<Trail, AllocError>
        ensures claims { IfOk result (λ t. claims_of t ≡ min claims 128) }
        ensures none { IfOk result (λ t. trail_of t ≡ []) }
    {
        let claims = claims.min(128);
        let places = [None; 256];
        let entries = Vec::with_capacity(heap, claims)?;
        let levels = Vec::with_capacity(heap, claims)?;
        Ok(Trail {
            claims,
            entries,
            levels,
            places,
        })
    }

    /// Puts a literal on the trail.
    pub fn push(&mut self, l: Literal, reason: Reason) -> Result<(), Refusal>
        ensures claims { claims_of self.new ≡ claims_of self.old }
        ensures says { result ≡ push_says (claims_of self.old) (trail_of self.old) l }
        ensures trail { trail_of self.new ≡ pushed self.old l reason }
    {
        self.check(l)?;
        let level = match reason {
            Reason::Decided => self.level() + 1,
            Reason::Clause(_) | Reason::Theory => self.level(),
        };
        // Below 128; `try_from` would add a branch that never runs.
        self.places[usize::from(l)] = Some(self.entries.len() as u32);
        self.entries.push_reserved(Entry { literal: l, reason });
        self.levels.push_reserved(level);
        Ok(())
    }

    /// Cuts the trail to its entries of levels up to `k`.
    pub fn cut(&mut self, k: u32)
        ensures claims { claims_of self.new ≡ claims_of self.old }
        ensures trail { trail_of self.new ≡ up_to k (trail_of self.old) }
    {
        while self.level() > k {
            self.pop();
        }
    }

    /// Takes the latest entry off the trail, if there is one.
    fn pop(&mut self)
        ensures claims { claims_of self.new ≡ claims_of self.old }
        ensures trail { trail_of self.new ≡ drop 1 (trail_of self.old) }
    {
        if let Some(entry) = self.entries.pop() {
            self.levels.pop();
            self.places[usize::from(entry.literal)] = None;
        }
    }
}
