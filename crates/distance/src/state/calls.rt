//! Distances as a theory.
ghost use Rattle.std.specs.Prelude.{◌≡◌, ℕ, ◌<◌, List, length};
ghost use Rattle.std.proofs.Common.{subst};
ghost use Rattle.theory.specs.Literals.{claim, Proper};
ghost use Rattle.theory.proofs.Lists.{proper_of};
ghost use Rattle.difference.specs.declared.bound.Bound.{Bound};
ghost use Rattle.difference.specs.Distance.{bound_of, distances};
ghost use Rattle.difference.specs.Depth.{InRange};
ghost use Rattle.difference.proofs.Law.{stands};
ghost use Rattle.distance.specs.State.{term_count, claims_of, list_of};

use crate::state::Distance;
use difference::Bound;
use theory::{Found, Literal, Refusal, Theory};

/// What a literal says: its claim, or that claim's denial.
fn bound_of(claims: &[Bound], l: Literal) -> Bound
    requires within { claim l < length claims.now }
    requires range { InRange claims.now }
    ensures { result ≡ bound_of claims.now l }
{
    let c = claims[usize::from(l / 2)];
    if l % 2 == 0 {
        return c;
    }
    Bound {
        term: c.base,
        base: c.term,
        most: -1 - c.most,
    }
}

impl<'a> Theory for Distance<'a> {
    ghost Shape = { ℕ × List Bound };

    ghost shape_of = { λ d. (term_count d, claims_of d) };

    ghost claims = { λ s. (distances s.0 s.1).claims };

    ghost terms = { λ s. (distances s.0 s.1).terms };

    ghost fits = { λ s. (distances s.0 s.1).Admits };

    ghost holds = { λ s. (distances s.0 s.1).Holds };

    ghost answer = { λ s. (distances s.0 s.1).answer };

    ghost written = { λ s. (distances s.0 s.1).written };

    ghost asserted = { list_of };

    ghost lawful = { λ d. let x = d.table.work.bounds in
        (stands (term_count d) (claims_of d) x.few_terms d.few d.named).law };

    ghost proper = { λ d. subst (λ n. Proper n (list_of d)) d.list_claims (proper_of d.list) };

    fn claims(&self) -> usize {
        self.claims.len()
    }

    fn terms(&self) -> usize {
        self.table.terms()
    }

    fn asserted_len(&self) -> usize {
        self.list.literals().len()
    }

    fn assert(&mut self, l: Literal) -> Result<(), Refusal> {
        self.list.push(l)?;
        self.table.add(bound_of(self.claims, l));
        Ok(())
    }

    fn take_back(&mut self, k: usize) -> Result<(), Refusal> {
        self.list.take_back(k)?;
        self.table.cut(k);
        Ok(())
    }

    fn query(&mut self, place: &mut [u16]) -> Result<Found, Refusal> {
        // The places are looked at in each theory: a function for one comparison is no plainer.
        if place.len() < self.claims.len() {
            return Err(Refusal::ShortCorePlace);
        }
        self.table.find(place)
    }

    fn write(&mut self, place: &mut [i64]) -> Result<(), Refusal> {
        if place.len() < self.table.terms() {
            return Err(Refusal::ShortFitPlace);
        }
        self.table.put(place)
    }
}
