//! Equality as a theory.
ghost use Rattle.std.specs.Prelude.{List};
ghost use Rattle.std.proofs.Common.{subst};
ghost use Rattle.theory.specs.Literals.{Proper};
ghost use Rattle.theory.specs.declared.term.Term.{Term};
ghost use Rattle.theory.proofs.Lists.{proper_of};
ghost use Rattle.congruence.specs.declared.claim.Claim.{Claim};
ghost use Rattle.congruence.specs.Equality.{equality};
ghost use Rattle.congruence.proofs.Law.{stands};
ghost use Rattle.equality.specs.State.{terms_of, claims_of, list_of};

use crate::state::Equality;
use theory::{Found, Literal, Refusal, Theory};

impl<'a> Theory for Equality<'a> {
    ghost Shape = { List Term × List Claim };

    ghost shape_of = { λ t. (terms_of t, claims_of t) };

    ghost claims = { λ s. (equality s.0 s.1).claims };

    ghost terms = { λ s. (equality s.0 s.1).terms };

    ghost fits = { λ s. (equality s.0 s.1).Admits };

    ghost holds = { λ s. (equality s.0 s.1).Holds };

    ghost answer = { λ s. (equality s.0 s.1).answer };

    ghost written = { λ s. (equality s.0 s.1).written };

    ghost asserted = { list_of };

    ghost lawful = { λ t. let x = t.closure.terms in
        (stands (terms_of t) (claims_of t) x.few x.lower t.few t.named).law };

    ghost proper = { λ t. subst (λ n. Proper n (list_of t)) t.list_claims (proper_of t.list) };

    fn claims(&self) -> usize {
        self.claims.len()
    }

    fn terms(&self) -> usize {
        self.closure.terms.records.len()
    }

    fn asserted_len(&self) -> usize {
        self.list.literals().len()
    }

    fn assert(&mut self, l: Literal) -> Result<(), Refusal> {
        let p = self.list.literals().len();
        self.list.push(l)?;
        // A position is below 128; `try_from` would add a branch that never runs.
        self.closure.absorb(self.claims, p as u16, l);
        let merges = self.closure.merges();
        self.merges.push_reserved(merges);
        Ok(())
    }

    fn take_back(&mut self, k: usize) -> Result<(), Refusal> {
        self.list.take_back(k)?;
        self.closure.cut(self.merges[k]);
        self.merges.truncate(k + 1);
        Ok(())
    }

    fn query(&mut self, place: &mut [u16]) -> Result<Found, Refusal> {
        // The places are looked at in each theory: a function for one comparison is no plainer.
        if place.len() < self.claims.len() {
            return Err(Refusal::ShortCorePlace);
        }
        let list = self.list.literals();
        match self.closure.clash(self.claims, list) {
            None => Ok(Found::Possible),
            Some(d) => {
                let n = self
                    .closure
                    .core(&mut self.marks, self.claims, list, d, place)?;
                Ok(Found::Impossible(n))
            }
        }
    }

    fn write(&mut self, place: &mut [i64]) -> Result<(), Refusal> {
        if place.len() < self.closure.terms.records.len() {
            return Err(Refusal::ShortFitPlace);
        }
        if self
            .closure
            .clash(self.claims, self.list.literals())
            .is_some()
        {
            return Err(Refusal::ListImpossible);
        }
        self.closure.write_labels(place);
        Ok(())
    }
}
