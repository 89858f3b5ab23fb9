//! Rows: for each clause a count and then its literals.
ghost use Rattle.std.specs.Prelude.{◌≡◌, ◌↔◌, IsTrue};
ghost use Rattle.std.specs.List.{All};
ghost use Rattle.std.specs.Iterator.{YieldsFirstRef, item_count};
ghost use Rattle.theory.specs.Literals.{Proper};
ghost use Rattle.rules.specs.Clauses.{size};
ghost use Rattle.clauses.specs.Rows.{clauses_in, Formed};

use theory::Literal;
use theory::literal::names;

/// How many clauses a book may have.
const MOST_CLAUSES: usize = 512;

/// How many literals they may have in all.
const MOST_LITERALS: usize = 4096;

/// The clauses of a row, one by one. It ends early where a count runs past the row's end.
#[derive(Clone, Copy)]
pub struct Clauses<'a>(pub &'a [u16]);

impl<'a> Iterator for Clauses<'a> {
    type Item = &'a [Literal];

    ghost next_gives = { YieldsFirstRef (λ s. clauses_in s.0.now) };

    ghost remaining = { item_count (λ s. clauses_in s.0.now) };

    fn next(&mut self) -> Option<&'a [Literal]> {
        let (count, rest) = self.0.split_first()?;
        let (clause, rest) = rest.split_at_checked(usize::from(*count))?;
        self.0 = rest;
        Some(clause)
    }
}

/// How many literals the clauses of a row have.
fn count_literals(row: &[u16]) -> usize
    ensures { result ≡ size (clauses_in row.now) }
{
    Clauses(row).map(|clause| clause.len()).sum()
}

/// Whether a row is that of a book within the limits.
pub(crate) fn is_formed(row: &[u16]) -> bool
    ensures { IsTrue result ↔ Formed row.now (clauses_in row.now) }
{
    let clauses = Clauses(row).count();
    let literals = count_literals(row);
    if clauses > MOST_CLAUSES || literals > MOST_LITERALS {
        return false;
    }
    // Where a count runs past the end, some of the row is in no clause.
    clauses + literals == row.len()
}

/// Whether a clause has literals of so many claims, and no claim twice.
fn is_proper(clause: &[Literal], claims: usize) -> bool
    ensures { IsTrue result ↔ Proper claims clause.now }
{
    for (i, l) in clause.iter().enumerate() {
        if usize::from(*l / 2) >= claims || names(&clause[i + 1..], *l) {
            return false;
        }
    }
    true
}

/// Whether each clause of a row has literals of so many claims, and no claim twice.
pub(crate) fn all_proper(row: &[u16], claims: usize) -> bool
    ensures { IsTrue result ↔ All (Proper claims) (clauses_in row.now) }
{
    Clauses(row).all(|clause| is_proper(clause, claims))
}
