//! The ten steps.
ghost use Rattle.std.specs.Prelude.{◌≡◌, ◌≤◌, IsTrue, IfSome, length, is_ok};
ghost use Rattle.rules.specs.declared.step.Step.TheVariants.{Decide, Propagate, Imply, Conflict, Clash, Resolve, Jump, Forget, Fit, NoFit};
ghost use Rattle.rules.specs.States.{asserted};
ghost use Rattle.rules.specs.Rules.{is_possible};
ghost use Rattle.rules.specs.Moves.{denying};
ghost use Rattle.trail.specs.Trails.{push_says};
ghost use Rattle.table.specs.Tables.{claims_of};
ghost use Rattle.history.specs.Asking.{Asked};
ghost use Rattle.history.specs.Fits.{within};
ghost use Rattle.history.specs.Seen.{means, state, Judged, left_by};

use crate::ask::{ask, ask_with};
use crate::history::{Denied, History};
use rules::{Refusal, Step};
use theory::literal::complement_of;
use theory::{Literal, Theory};

impl<T: Theory> History<T> {
    /// A literal is assumed.
    pub fn decide(&mut self, l: Literal) -> Result<u32, Refusal>
        ensures { Judged self.old self.new result (Decide l) }
    {
        let count = self.table.decide(l)?;
        self.sure = false;
        self.denied = None;
        let _ = self.theory.assert(l);
        Ok(count)
    }

    /// A literal follows by a clause.
    pub fn propagate(&mut self, c: u16, l: Literal) -> Result<u32, Refusal>
        ensures { Judged self.old self.new result (Propagate c l) }
    {
        let count = self.table.propagate(c, l)?;
        self.sure = false;
        self.denied = None;
        let _ = self.theory.assert(l);
        Ok(count)
    }

    /// A literal follows by the theory.
    pub fn imply(&mut self, l: Literal) -> Result<u32, Refusal>
        ensures { Judged self.old self.new result (Imply l) }
    {
        self.table.check_fresh(l)?;
        if !self.find_possible() {
            return Err(Refusal::TrailImpossible);
        }
        let Some(len) = self.find_denied(l) else {
            return Err(Refusal::NotImplied);
        };
        let count = self.table.imply(l, &self.core[..len])?;
        self.sure = false;
        self.denied = None;
        let _ = self.theory.assert(l);
        Ok(count)
    }

    /// A clause is false.
    pub fn conflict(&mut self, c: u16) -> Result<u32, Refusal>
        ensures { Judged self.old self.new result (Conflict c) }
    {
        self.table.conflict(c)
    }

    /// The theory finds the trail impossible.
    pub fn clash(&mut self) -> Result<u32, Refusal>
        ensures { Judged self.old self.new result Clash }
    {
        self.table.check_calm()?;
        if self.sure {
            return Err(Refusal::TrailPossible);
        }
        self.denied = None;
        let Some(len) = ask(&mut self.theory, &mut self.core) else {
            self.sure = true;
            return Err(Refusal::TrailPossible);
        };
        self.table.clash(&self.core[..len])
    }

    /// The conflict's latest literal gives way to what it followed from.
    pub fn resolve(&mut self) -> Result<u32, Refusal>
        ensures { Judged self.old self.new result Resolve }
    {
        self.table.resolve()
    }

    /// The trail is cut to the level `k`, and the conflict becomes the clause `c`, by which its one
    /// literal above follows.
    pub fn jump(&mut self, k: u32, c: u16) -> Result<u32, Refusal>
        ensures { Judged self.old self.new result (Jump k c) }
    {
        let count = self.table.jump(k, c)?;
        self.sure = false;
        self.denied = None;
        if let Some(last) = self.table.last() {
            let _ = self.theory.take_back(self.table.len() - 1);
            let _ = self.theory.assert(last.literal);
        }
        Ok(count)
    }

    /// A learned clause is live no more.
    pub fn forget(&mut self, c: u16) -> Result<u32, Refusal>
        ensures { Judged self.old self.new result (Forget c) }
    {
        self.table.forget(c)
    }

    /// The trail is a fit, which is written into the place.
    pub fn fit(&mut self, place: &mut [i64]) -> Result<u32, Refusal>
        ensures judged { Judged self.old self.new result (Fit (length place.old)) }
        ensures place { place.new ≡ left_by self.old (Fit (length place.old)) place.old }
    {
        self.table.check_complete()?;
        if place.len() < self.theory.terms() {
            return Err(if self.find_possible() {
                Refusal::ShortFitPlace
            } else {
                Refusal::TrailImpossible
            });
        }
        match self.theory.write(place) {
            Ok(()) => self.table.fit(),
            Err(_) => Err(Refusal::TrailImpossible),
        }
    }

    /// No fit keeps the book.
    pub fn no_fit(&mut self) -> Result<u32, Refusal>
        ensures { Judged self.old self.new result NoFit }
    {
        self.table.no_fit()
    }

    /// Any step. A fit may use as much of the place as it says.
    pub fn step(&mut self, step: Step, place: &mut [i64]) -> Result<u32, Refusal>
        ensures judged { Judged self.old self.new result (within (length place.old) step) }
        ensures place { place.new ≡ left_by self.old (within (length place.old) step) place.old }
    {
        match step {
            Step::Decide(l) => self.decide(l),
            Step::Propagate(c, l) => self.propagate(c, l),
            Step::Imply(l) => self.imply(l),
            Step::Conflict(c) => self.conflict(c),
            Step::Clash => self.clash(),
            Step::Resolve => self.resolve(),
            Step::Jump(k, c) => self.jump(k, c),
            Step::Forget(c) => self.forget(c),
            Step::Fit(len) => {
                let len = len.min(place.len());
                self.fit(&mut place[..len])
            }
            Step::NoFit => self.no_fit(),
        }
    }

    /// Whether some fit makes every literal of the trail hold. The theory is asked only where it is
    /// not known.
    pub(crate) fn find_possible(&mut self) -> bool
        ensures shape { T.shape_of self.new.theory ≡ T.shape_of self.old.theory }
        ensures says { result ≡ is_possible ((means self.old).answer (asserted (state self.old).trail)) }
        ensures table { self.new.table ≡ self.old.table }
    {
        if !self.sure {
            self.denied = None;
            self.sure = ask(&mut self.theory, &mut self.core).is_none();
        }
        self.sure
    }

    /// The length of the core in its place, if the trail is impossible with the complement of a
    /// literal. The theory is not asked twice in a row of one literal.
    pub(crate) fn find_denied(&mut self, l: Literal) -> Option<usize>
        requires { IsTrue (is_ok (push_says (claims_of self.now.table) (state self.now).trail l)) }
        ensures shape { T.shape_of self.new.theory ≡ T.shape_of self.old.theory }
        ensures table { self.new.table ≡ self.old.table }
        ensures asked { Asked (means self.old) (denying (state self.old).trail l) self.new.core result }
        ensures few { IfSome result (λ len. len ≤ 128) }
    {
        if let Some(denied) = self.denied {
            if denied.literal == l {
                return Some(denied.len);
            }
        }
        self.denied = None;
        let len = ask_with(&mut self.theory, complement_of(l), &mut self.core)?;
        self.denied = Some(Denied { literal: l, len });
        Some(len)
    }
}
