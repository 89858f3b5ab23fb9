//! The clauses of a book, in the row that they are lent in.
ghost use Rattle.std.specs.Prelude.{◌≡◌, IfOk};
ghost use Rattle.clauses.specs.Rows.{clauses_in, starts_from};

use crate::row::{Clauses, all_proper, is_formed};
use rules::{Refusal, Unopened};
use std::alloc::{AllocError, Global};
use theory::Literal;

/// A book: a copy of its row, and where the count of each clause stands in it.
#[derive(Drop)]
pub struct Book {
    row: Vec<u16>,
    starts: Vec<usize>,
    ghost begin: { starts.items ≡ starts_from 0 (clauses_in row.items) },
}

impl Book {
    ghost use Rattle.std.specs.Prelude.{slice_get, length};
    ghost use Rattle.std.specs.Option.{option_copied};
    ghost use Rattle.clauses.specs.Rows.{Reads};
    ghost use Rattle.clauses.specs.Learning.{book_of};

    /// Reads a row, where there are so many claims.
    pub fn read(heap: Global, row: &[u16], claims: usize) -> Result<Book, Unopened>
        ensures { Reads book_of claims row.now result }
    {
        if !is_formed(row) {
            return Err(Refusal::PastLimit.into());
        }
        if !all_proper(row, claims) {
            return Err(Refusal::BadClause.into());
        }
        let starts = list_starts(heap, row)?;
        let row = row.iter().copied().collect(heap)?;
        Ok(Book { row, starts })
    }

    /// How many clauses it has.
    pub fn len(&self) -> usize
        ensures { result ≡ length (book_of self.now) }
    {
        self.starts.len()
    }

    /// The clauses, one by one.
    pub fn clauses(&self) -> Clauses<'_>
        ensures { clauses_in result.0.now ≡ book_of self.now }
    {
        Clauses(&self.row)
    }

    /// The clause with a number, if there is one.
    pub fn clause(&self, c: usize) -> Option<&[Literal]>
        ensures { option_copied result ≡ slice_get (book_of self.now) c }
    {
        let at = *self.starts.get(c)?;
        Clauses(&self.row[at..]).next()
    }
}

/// Where the count of each clause of a row stands.
fn list_starts(heap: Global, row: &[u16]) -> Result<Vec<usize>, AllocError>
    ensures { IfOk result (λ v. v.items ≡ starts_from 0 (clauses_in row.now)) }
{
    let mut starts = Vec::new(heap);
    let mut at = 0;
    for clause in Clauses(row) {
        starts.push(at)?;
        at += clause.len() + 1;
    }
    Ok(starts)
}
