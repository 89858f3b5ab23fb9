//! Asking a theory whether its list is possible.
ghost use Rattle.std.specs.Prelude.{◌≡◌, ◌<◌, ◌≤◌, ◌*◌, ◌++◌, ◌∷◌, [], false, IfSome, length};
ghost use Rattle.theory.specs.Literals.{names};
ghost use Rattle.theory.specs.Members.{meaning};
ghost use Rattle.history.specs.Asking.{Asked, found_len};

use theory::trial::query_with;
use theory::{Found, Literal, Refusal, Theory};

/// The length of the core that the theory puts into the place, if its list is impossible.
pub(crate) fn ask<T: Theory>(theory: &mut T, place: &mut [u16]) -> Option<usize>
    requires room { 128 ≤ length place.now }
    ensures shape { T.shape_of theory.new ≡ T.shape_of theory.old }
    ensures list { T.asserted theory.new ≡ T.asserted theory.old }
    ensures asked { Asked (meaning T.Theory theory.old) (T.asserted theory.old) place.new result }
    ensures few { IfSome result (λ len. len ≤ 128) }
{
    core_len(theory.query(place))
}

/// The same, with one literal more on the list, which is gone again afterwards.
pub(crate) fn ask_with<T: Theory>(theory: &mut T, l: Literal, place: &mut [u16]) -> Option<usize>
    requires room { 128 ≤ length place.now }
    requires below { l < 2 * (meaning T.Theory theory.now).claims }
    requires off { names (T.asserted theory.now) l ≡ false }
    ensures shape { T.shape_of theory.new ≡ T.shape_of theory.old }
    ensures list { T.asserted theory.new ≡ T.asserted theory.old }
    ensures asked { Asked (meaning T.Theory theory.old) (T.asserted theory.old ++ l ∷ []) place.new result }
    ensures few { IfSome result (λ len. len ≤ 128) }
{
    core_len(query_with(theory, l, place))
}

/// The length of a core, where one was found. No query here is refused: the place is long enough for any theory.
fn core_len(found: Result<Found, Refusal>) -> Option<usize>
    ensures { result ≡ found_len found }
{
    match found {
        Ok(Found::Impossible(len)) => Some(len),
        Ok(Found::Possible) | Err(_) => None,
    }
}
