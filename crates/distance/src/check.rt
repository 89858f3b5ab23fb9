//! What records a theory may be made of.
ghost use Rattle.std.specs.Prelude.{MatchResult};
ghost use Rattle.distance.specs.Checks.{Sound, Barred};

use difference::Bound;
use theory::term::{few_arguments, within_limits};
use theory::{Refusal, Term};

/// Checks records for a theory: each cause of refusal over the whole input before the next.
pub(crate) fn check(terms: &[Term], claims: &[Bound]) -> Result<(), Refusal>
    ensures { MatchResult result
        (λ _. Sound terms.now claims.now) (λ e. Barred terms.now claims.now e) }
{
    if !within_limits(terms, claims.len(), 2) {
        return Err(Refusal::PastLimit);
    }
    if !few_arguments(terms, 0) {
        return Err(Refusal::TermHasArgument);
    }
    // As in the other theory, but for the record: a trait for two fields would be longer than the
    // test.
    if !claims.iter().all(|c| usize::from(c.term) < terms.len()
        && usize::from(c.base) < terms.len())
    {
        return Err(Refusal::NoSuchTerm);
    }
    if !claims
        .iter()
        .all(|c| (-1_000_000..=1_000_000).contains(&c.most))
    {
        return Err(Refusal::ConstantOutOfRange);
    }
    Ok(())
}
