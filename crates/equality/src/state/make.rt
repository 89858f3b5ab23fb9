//! Making a theory from lent records.
ghost use Rattle.equality.specs.Checks.{Sound};
ghost use Rattle.equality.specs.Made.{Made};

use crate::check::check;
use crate::closure::Closure;
use crate::state::Equality;
use crate::terms::Terms;
use congruence::Claim;
use std::alloc::Global;
use theory::{Asserted, Term, Unmade};

/// The theory of sound records.
fn build<'a>(heap: Global, terms: &'a [Term], claims: &'a [Claim]) -> Result<Equality<'a>, Unmade>
    requires { Sound terms.now claims.now }
    ensures { Made terms.now claims.now result }
{
    let closure = Closure::new(heap, Terms::new(terms))?;
    let list = Asserted::new(heap, claims.len())?;
    let mut merges = Vec::with_capacity(heap, claims.len() + 1)?;
    merges.push_reserved(closure.merges());
    let marks = vec![in heap; false; 256]?;
    Ok(Equality {
        claims,
        closure,
        list,
        merges,
        marks,
    })
}

/// Makes the theory of the lent terms and claims, with nothing asserted.
pub fn make<'a>(
    heap: Global,
    terms: &'a [Term],
    claims: &'a [Claim],
) -> Result<Equality<'a>, Unmade>
    ensures { Made terms.now claims.now result }
{
    check(terms, claims)?;
    build(heap, terms, claims)
}
