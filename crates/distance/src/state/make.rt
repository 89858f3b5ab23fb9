//! Making a theory from lent records.
ghost use Rattle.distance.specs.Checks.{Sound};
ghost use Rattle.distance.specs.Made.{Made};

use crate::check::check;
use crate::state::Distance;
use crate::table::Table;
use difference::Bound;
use std::alloc::Global;
use theory::{Asserted, Term, Unmade};

/// The theory of sound records.
fn build<'a>(heap: Global, terms: &[Term], claims: &'a [Bound]) -> Result<Distance<'a>, Unmade>
    requires { Sound terms.now claims.now }
    ensures { Made terms.now claims.now result }
{
    let list = Asserted::new(heap, claims.len())?;
    let table = Table::new(heap, terms.len(), claims.len())?;
    Ok(Distance {
        claims,
        list,
        table,
    })
}

/// Makes the theory of the lent terms and claims, with nothing asserted.
pub fn make<'a>(heap: Global, terms: &[Term], claims: &'a [Bound]) -> Result<Distance<'a>, Unmade>
    ensures { Made terms.now claims.now result }
{
    check(terms, claims)?;
    build(heap, terms, claims)
}
