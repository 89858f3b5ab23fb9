//! A step that is to be had, as far as it needs no theory.
ghost use Rattle.std.specs.Prelude.{◌≡◌, not, MatchOption, is_none, is_ok};
ghost use Rattle.rules.specs.Rules.{live_in, is_reason};
ghost use Rattle.rules.specs.Next.{Ready, Unready};
ghost use Rattle.trail.specs.Trails.{push_says};
ghost use Rattle.table.specs.Tables.{state_of, claims_of};
ghost use Rattle.table.specs.Next.{First, untrue};

use crate::table::Table;
use rules::{Reason, Step};
use theory::Literal;

impl Table {
    /// A step that is to be had, if no verdict stands and some allowance is left. There is none
    /// where only the theory can tell.
    pub fn next_step(&self) -> Option<Step>
        ensures { let n = claims_of self.now in let s = state_of self.now in
            MatchOption result (Unready n s) (Ready n s) }
    {
        let Some(conflict) = &self.conflict else {
            return match self.first_fresh() {
                Some(l) => Some(Step::Decide(l)),
                None => Some(Step::Conflict(self.first_untrue()?)),
            };
        };
        let Some((entry, p)) = self.trail.latest(conflict) else {
            return Some(Step::NoFit);
        };
        if entry.reason != Reason::Decided {
            return Some(Step::Resolve);
        }
        match self.first_free() {
            Some(c) => {
                let level = self.trail.level_at(p).unwrap_or(0);
                Some(Step::Jump(level.saturating_sub(1), c))
            }
            None => Some(Step::Forget(self.first_unused()?)),
        }
    }

    /// The first literal that may go on the trail: a claim's own.
    fn first_fresh(&self) -> Option<Literal>
        ensures { First 0 256 (λ l. is_ok (push_says (claims_of self.now) (state_of self.now).trail l)) result }
    {
        (0..256).find(|l| self.is_fresh(*l))
    }

    /// Whether a literal may go on the trail: it is a claim's, and the claim is off the trail.
    pub fn is_fresh(&self, l: Literal) -> bool
        ensures { result ≡ is_ok (push_says (claims_of self.now) (state_of self.now).trail l) }
    {
        self.trail.check(l).is_ok()
    }

    /// The first clause of the book that has no true literal.
    fn first_untrue(&self) -> Option<u16>
        ensures { First 0 512 (untrue (state_of self.now)) result }
    {
        (0..512).find(|c| self.is_untrue(*c))
    }

    /// Whether a clause is live and has no true literal.
    fn is_untrue(&self, c: u16) -> bool
        ensures { result ≡ untrue (state_of self.now) c }
    {
        match self.clause(c) {
            Some(clause) => !self.trail.some_true(clause),
            None => false,
        }
    }

    /// The first number by which a clause may be learned.
    fn first_free(&self) -> Option<u16>
        ensures { First 512 640 (λ c. is_none (live_in (state_of self.now) c)) result }
    {
        (512..640).find(|c| !self.is_live(*c))
    }

    /// The first number of a learned clause that is no reason.
    fn first_unused(&self) -> Option<u16>
        ensures { First 512 640 (λ c. not (is_reason c (state_of self.now).trail)) result }
    {
        (512..640).find(|c| !self.trail.is_reason(*c))
    }
}
