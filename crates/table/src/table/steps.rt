//! The steps, as far as they need no theory.
ghost use Rattle.std.specs.Prelude.{◌≡◌, ◌+◌, ◌<◌, map, set, Ok};
ghost use Rattle.clauses.specs.Stored.{clause_of};
ghost use Rattle.rules.specs.declared.step.Verdict.TheVariants as verdict;
ghost use Rattle.rules.specs.Rules.{ending, decide, propagate, conflict, resolve, jump, forget, no_fit};
ghost use Rattle.table.specs.Tables.{state_of, claims_of, blames_of, stored_in};
ghost use Rattle.table.specs.Steps.{counted, clashing, Steps, Implies};

use crate::table::Table;
use crate::table::checks::{has, is_free, live, reason};
use clauses::{LiteralSet, StoredClause};
use rules::{Reason, Refusal, Verdict};
use theory::Literal;
use theory::literal::complement_of;

impl Table {
    /// A literal is assumed.
    pub fn decide(&mut self, l: Literal) -> Result<u32, Refusal>
        ensures { Steps self.old self.new result (λ n s. decide n s l) }
    {
        self.check_calm()?;
        self.trail.push(l, Reason::Decided)?;
        Ok(self.accept())
    }

    /// A literal follows by a clause.
    pub fn propagate(&mut self, c: u16, l: Literal) -> Result<u32, Refusal>
        ensures { Steps self.old self.new result (λ n s. propagate n s c l) }
    {
        self.check_fresh(l)?;
        let clause = live(&self.book, &self.learned, c).ok_or(Refusal::NotLive)?;
        if !has(clause, l) {
            return Err(Refusal::LacksLiteral);
        }
        if !self.trail.others_false(clause, l) {
            return Err(Refusal::NotFalse);
        }
        self.trail.push(l, Reason::Clause(c))?;
        Ok(self.accept())
    }

    /// A literal follows by the theory, for which it blames the core of the trail and the literal's
    /// complement.
    pub fn imply(&mut self, l: Literal, core: &[u16]) -> Result<u32, Refusal>
        ensures { Implies self.old self.new result l core.now }
    {
        self.check_calm()?;
        let p = self.trail.len();
        let clause = self.trail.blame(complement_of(l), core);
        self.trail.push(l, Reason::Theory)?;
        store(&mut self.blames, p, clause);
        Ok(self.accept())
    }

    /// A clause is false.
    pub fn conflict(&mut self, c: u16) -> Result<u32, Refusal>
        ensures { Steps self.old self.new result (λ n s. conflict s c) }
    {
        self.check_calm()?;
        let clause = live(&self.book, &self.learned, c).ok_or(Refusal::NotLive)?;
        if !self.trail.all_false(clause) {
            return Err(Refusal::NotFalse);
        }
        self.conflict = Some(LiteralSet::of(clause));
        Ok(self.accept())
    }

    /// The theory finds the trail impossible, with this core.
    pub fn clash(&mut self, core: &[u16]) -> Result<u32, Refusal>
        ensures { Steps self.old self.new result (λ n s. clashing s core.now) }
    {
        self.check_calm()?;
        let clause = self.trail.blame(0, core);
        self.conflict = Some(LiteralSet::of(clause.literals()));
        Ok(self.accept())
    }

    /// The conflict's latest literal gives way to what it followed from.
    pub fn resolve(&mut self) -> Result<u32, Refusal>
        ensures { Steps self.old self.new result (λ n s. resolve (stored_in self.old) s) }
    {
        self.check()?;
        let Some(conflict) = &mut self.conflict else {
            return Err(Refusal::NoConflict);
        };
        let Some((entry, p)) = self.trail.latest(conflict) else {
            return Err(Refusal::ConflictEmpty);
        };
        let Some(clause) = reason(&self.book, &self.learned, &self.blames, entry.reason, p) else {
            return Err(Refusal::LatestDecided);
        };
        conflict.resolve(entry.literal, clause);
        Ok(self.accept())
    }

    /// The trail is cut to the level `k`, and the conflict becomes the clause `c`, by which its one literal above
    /// follows.
    pub fn jump(&mut self, k: u32, c: u16) -> Result<u32, Refusal>
        ensures { Steps self.old self.new result (λ n s. jump s k c) }
    {
        self.check()?;
        let Some(conflict) = &self.conflict else {
            return Err(Refusal::NoConflict);
        };
        let Some(l) = self.trail.sole_above(k, conflict) else {
            return Err(Refusal::NotOneAbove);
        };
        if !is_free(&self.book, &self.learned, c) {
            return Err(Refusal::NumberNotFree);
        }
        let learned = StoredClause::of(conflict);
        self.learned.put(usize::from(c) - 512, Some(learned));
        self.trail.cut(k);
        self.trail.push(l, Reason::Clause(c))?;
        self.conflict = None;
        Ok(self.accept())
    }

    /// A learned clause is live no more.
    pub fn forget(&mut self, c: u16) -> Result<u32, Refusal>
        ensures { Steps self.old self.new result (λ n s. forget s c) }
    {
        self.check()?;
        if live(&self.book, &self.learned, c).is_none() {
            return Err(Refusal::NotLive);
        }
        if c < 512 {
            return Err(Refusal::BookClause);
        }
        if self.trail.is_reason(c) {
            return Err(Refusal::IsReason);
        }
        self.learned.put(usize::from(c) - 512, None);
        Ok(self.accept())
    }

    /// No fit keeps the book: the conflict is empty.
    pub fn no_fit(&mut self) -> Result<u32, Refusal>
        ensures { Steps self.old self.new result (λ n s. no_fit s) }
    {
        self.check()?;
        let conflict = self.conflict.as_ref().ok_or(Refusal::NoConflict)?;
        if !conflict.is_empty() {
            return Err(Refusal::ConflictNotEmpty);
        }
        self.verdict = Some(Verdict::NoFit);
        Ok(self.accept())
    }

    /// The trail is a fit, as the caller knows of the theory.
    pub fn fit(&mut self) -> Result<u32, Refusal>
        ensures { Steps self.old self.new result (λ n s. Ok (ending s verdict.Fit)) }
    {
        self.check()?;
        self.verdict = Some(Verdict::Fit);
        Ok(self.accept())
    }

    /// One step more is accepted.
    fn accept(&mut self) -> u32
        requires left { (state_of self.now).count < (state_of self.now).allowance }
        ensures count { result ≡ (state_of self.old).count + 1 }
        ensures claims { claims_of self.new ≡ claims_of self.old }
        ensures blames { blames_of self.new ≡ blames_of self.old }
        ensures state { state_of self.new ≡ counted (state_of self.old) }
    {
        self.count += 1;
        self.count
    }
}

/// Puts a clause at a position.
fn store(clauses: &mut [StoredClause], p: usize, clause: StoredClause)
    ensures { map clause_of clauses.new ≡ set (map clause_of clauses.old) p (clause_of clause) }
{
    if p < clauses.len() {
        clauses[p] = clause;
    }
}
