//! The state of the equality theory: the list, and what it led to after each of its literals.
ghost use Rattle.std.specs.Prelude.{◌≡◌, ℕ, ◌+◌, ◌<◌, ◌≤◌, false, length, vec_capacity, slice_index, slice_index_or};
ghost use Rattle.theory.specs.Asserted.{claims_of, literals_of};
ghost use Rattle.congruence.specs.Merges.{log_at};
ghost use Rattle.congruence.specs.Equality.{Named};
ghost use Rattle.equality.specs.Logs.{until};

use crate::closure::Closure;
use congruence::Claim;
use theory::Asserted;

pub mod calls;
pub mod make;

/// Equality over lent term and claim records.
///
/// `merges[k]` is the number of merges that the first `k` literals of the list led to. It stands
/// apart from the list, for it is longer by one, and the list is the same for every theory.
#[derive(Drop)]
pub struct Equality<'a> {
    claims: &'a [Claim],
    closure: Closure<'a>,
    list: Asserted,
    merges: Vec<usize>,
    marks: Vec<bool>,
    ghost few: { length claims.now ≤ 128 },
    ghost named: { Named closure.terms.records.now claims.now },
    ghost list_claims: { claims_of list ≡ length claims.now },
    ghost merges_room: { length claims.now < vec_capacity merges },
    ghost merges_long: { length merges.items ≡ length (literals_of list) + 1 },
    ghost rising: { (j k : ℕ) → j ≤ k → k ≤ length (literals_of list)
        → slice_index merges.items j ≤ slice_index merges.items k },
    ghost logged: { (k : ℕ) → k ≤ length (literals_of list)
        → until closure.steps.items (slice_index merges.items k)
        ≡ log_at closure.terms.records.now claims.now (literals_of list) k },
    ghost latest: { slice_index merges.items (length (literals_of list))
        ≡ length closure.steps.items },
    ghost marks_long: { length marks.items ≡ 256 },
    ghost clear: { (k : ℕ) → slice_index_or marks.items k false ≡ false },
}
