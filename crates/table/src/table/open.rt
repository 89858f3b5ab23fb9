//! Opening a table.
ghost use Rattle.std.specs.Prelude.{◌≡◌, IfOk, min};
ghost use Rattle.rules.specs.States.{opened};
ghost use Rattle.clauses.specs.Rows.{Reads};
ghost use Rattle.table.specs.Tables.{state_of, claims_of};

use crate::table::Table;
use clauses::{Book, Learned, StoredClause};
use rules::Unopened;
use std::alloc::Global;
use trail::Trail;

impl Table {
    /// Opens a table over a book in its row, where there are so many claims, at most 128.
    pub fn open(heap: Global, row: &[u16], claims: usize, allowance: u32) -> Result<Table, Unopened>
        ensures reads { Reads (λ t. (state_of t).book) claims row.now result }
        ensures opened { IfOk result (λ t. state_of t ≡ opened (state_of t).book allowance) }
        ensures claims { IfOk result (λ t. claims_of t ≡ min claims 128) }
    {
        let book = Book::read(heap, row, claims)?;
        let learned = Learned::new(heap)?;
        let trail = Trail::new(heap, claims)?;
        let blames = vec![in heap; StoredClause::empty(); trail.claims()]?;
        Ok(Table {
            book,
            learned,
            trail,
            blames,
            conflict: None,
            verdict: None,
            count: 0,
            allowance,
        })
    }
}
