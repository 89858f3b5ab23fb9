//! The state of the distance theory: the list, and the table of what its literals say.
ghost use Rattle.std.specs.Prelude.{◌≡◌, ◌≤◌, length};
ghost use Rattle.theory.specs.Asserted.{claims_of, literals_of};
ghost use Rattle.difference.specs.Bounds.{Named};
ghost use Rattle.difference.specs.Depth.{InRange};
ghost use Rattle.difference.specs.Distance.{said};
ghost use Rattle.distance.specs.Table.{terms_of, bounds_on};

use crate::table::Table;
use difference::Bound;
use theory::Asserted;

pub mod calls;
pub mod make;

/// Distances over lent claim records; of the terms only the number counts.
#[derive(Drop)]
pub struct Distance<'a> {
    claims: &'a [Bound],
    list: Asserted,
    table: Table,
    ghost few: { length claims.now ≤ 128 },
    ghost named: { Named (terms_of table) claims.now },
    ghost range: { InRange claims.now },
    ghost list_claims: { claims_of list ≡ length claims.now },
    ghost most: { length table.marks.items ≡ length claims.now },
    ghost says: { bounds_on table ≡ said claims.now (literals_of list) },
}
