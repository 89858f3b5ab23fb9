//! What records a theory may be made of.
ghost use Rattle.std.specs.Prelude.{ℕ, ◌<◌, ◌≤◌, IsTrue, ◌↔◌, MatchResult};
ghost use Rattle.theory.specs.Terms.{Arities};
ghost use Rattle.congruence.specs.Table.{arg, Lower};
ghost use Rattle.equality.specs.Checks.{Sound, Barred};

use congruence::Claim;
use theory::term::within_limits;
use theory::{Refusal, Term};

/// Whether the arguments of a term are lower than `k`.
fn arguments_below(t: &Term, k: usize) -> bool
    requires { t.now.arity ≤ 2 }
    ensures { IsTrue result ↔ ((i : ℕ) → i < t.now.arity → arg t.now i < k) }
{
    t.args[..usize::from(t.arity)]
        .iter()
        .all(|a| usize::from(*a) < k)
}

/// Whether each argument is lower than its own term.
fn lower_arguments(terms: &[Term]) -> bool
    requires { Arities 2 terms.now }
    ensures { IsTrue result ↔ Lower terms.now }
{
    // A loop, since what `arguments_below` asks is known of the table's terms alone.
    for (k, t) in terms.iter().enumerate() {
        if !arguments_below(t, k) {
            return false;
        }
    }
    true
}

/// Checks records for a theory: each cause of refusal over the whole input before the next.
pub(crate) fn check(terms: &[Term], claims: &[Claim]) -> Result<(), Refusal>
    ensures { MatchResult result
        (λ _. Sound terms.now claims.now) (λ e. Barred terms.now claims.now e) }
{
    if !within_limits(terms, claims.len(), 2) {
        return Err(Refusal::PastLimit);
    }
    if !lower_arguments(terms) {
        return Err(Refusal::ArgumentNotLower);
    }
    // As in the other theory, but for the record: a trait for two fields would be longer than the
    // test.
    let m = terms.len();
    if !claims
        .iter()
        .all(|c| usize::from(c.left) < m && usize::from(c.right) < m)
    {
        return Err(Refusal::NoSuchTerm);
    }
    Ok(())
}
