//! What a table is asked.
ghost use Rattle.std.specs.Prelude.{◌≡◌, ◌&&◌, Ok, map, length, slice_get, is_none, is_some, option_copied, option_map};
ghost use Rattle.std.specs.List.{list_all, list_any};
ghost use Rattle.theory.specs.Literals.{has};
ghost use Rattle.clauses.specs.Learning.{book_of, learned_of};
ghost use Rattle.rules.specs.States.{level};
ghost use Rattle.rules.specs.Rules.{unless_over, is_learned, live, live_in, true_on, false_on};
ghost use Rattle.clauses.specs.Sets.{members};
ghost use Rattle.clauses.specs.Stored.{clause_of};
ghost use Rattle.trail.specs.Positions.{entry_at, level_at, position_of};
ghost use Rattle.table.specs.Tables.{state_of, claims_of, by_reason, stored_in};
ghost use Rattle.table.specs.Explained.{explained_at};
ghost use Rattle.table.specs.Steps.{calm, may_enter, may_end};

use crate::table::Table;
use clauses::{Book, Learned, LiteralSet, StoredClause};
use rules::{Entry, Reason, Refusal, Verdict};
use theory::Literal;

/// The clause with a number, if it is live: one of the book, or from 512 on a learned one.
pub(crate) fn live<'a>(book: &'a Book, learned: &'a Learned, c: u16) -> Option<&'a [Literal]>
    ensures { option_copied result ≡ live (book_of book.now) (learned_of learned.now) c }
{
    let c = usize::from(c);
    if c < 512 {
        book.clause(c)
    } else {
        learned.clause(c - 512)
    }
}

/// Whether a clause has a literal.
pub(crate) fn has(clause: &[Literal], l: Literal) -> bool
    ensures { result ≡ has clause.now l }
{
    clause.contains(&l)
}

/// Whether a clause may be learned by this number.
pub(crate) fn is_free(book: &Book, learned: &Learned, c: u16) -> bool
    ensures { result ≡ (is_learned c && is_none (live (book_of book.now) (learned_of learned.now) c)) }
{
    512 <= c && c < 640 && live(book, learned, c).is_none()
}

/// The clause by which a literal at position `p` followed, if it was not decided.
pub(crate) fn reason<'a>(
    book: &'a Book,
    learned: &'a Learned,
    blames: &'a [StoredClause],
    reason: Reason,
    p: usize,
) -> Option<&'a [Literal]>
    ensures { option_copied result
        ≡ by_reason (live (book_of book.now) (learned_of learned.now)) (map clause_of blames.now) reason p }
{
    match reason {
        Reason::Decided => None,
        Reason::Clause(c) => live(book, learned, c),
        Reason::Theory => match blames.get(p) {
            Some(clause) => Some(clause.literals()),
            None => None,
        },
    }
}

impl Table {
    /// How many claims there are.
    pub fn claims(&self) -> usize
        ensures { result ≡ claims_of self.now }
    {
        self.trail.claims()
    }

    /// How many clauses the book has.
    pub fn book_len(&self) -> usize
        ensures { result ≡ length (state_of self.now).book }
    {
        self.book.len()
    }

    /// The clause with a number, if it is live.
    pub fn clause(&self, c: u16) -> Option<&[Literal]>
        ensures { option_copied result ≡ live_in (state_of self.now) c }
    {
        live(&self.book, &self.learned, c)
    }

    /// Whether a clause is live.
    pub fn is_live(&self, c: u16) -> bool
        ensures { result ≡ is_some (live_in (state_of self.now) c) }
    {
        self.clause(c).is_some()
    }

    /// How many entries the trail has.
    pub fn len(&self) -> usize
        ensures { result ≡ length (state_of self.now).trail }
    {
        self.trail.len()
    }

    /// The entry at a position of the trail.
    pub fn entry(&self, p: usize) -> Option<Entry>
        ensures { result ≡ entry_at (state_of self.now).trail p }
    {
        self.trail.entry(p)
    }

    /// The latest entry.
    pub fn last(&self) -> Option<Entry>
        ensures { result ≡ slice_get (state_of self.now).trail 0 }
    {
        self.trail.last()
    }

    /// The level of the entry at a position.
    pub fn level_at(&self, p: usize) -> Option<u32>
        ensures { result ≡ level_at (state_of self.now).trail p }
    {
        self.trail.level_at(p)
    }

    /// The level of the latest entry.
    pub fn level(&self) -> u32
        ensures { result ≡ level (state_of self.now).trail }
    {
        self.trail.level()
    }

    /// The position of a literal, if it is on the trail.
    pub fn position(&self, l: Literal) -> Option<usize>
        ensures { result ≡ position_of (state_of self.now).trail l }
    {
        self.trail.position(l)
    }

    /// Whether a literal is on the trail.
    pub fn is_true(&self, l: Literal) -> bool
        ensures { result ≡ true_on (state_of self.now).trail l }
    {
        self.trail.is_true(l)
    }

    /// Whether its complement is.
    pub fn is_false(&self, l: Literal) -> bool
        ensures { result ≡ false_on (state_of self.now).trail l }
    {
        self.trail.is_false(l)
    }

    /// The clause by which the entry at a position followed: its reason, or what the theory blamed. There is none if
    /// it was decided, or if no entry is there.
    pub fn explanation(&self, p: usize) -> Option<&[Literal]>
        ensures { let s = state_of self.now in
            option_copied result ≡ explained_at (stored_in self.now) (live_in s) s.trail p }
    {
        let entry = self.entry(p)?;
        reason(&self.book, &self.learned, &self.blames, entry.reason, p)
    }

    /// The conflict, if one stands.
    pub fn conflicting(&self) -> Option<&LiteralSet>
        ensures { option_map (λ c. members c.now) result ≡ (state_of self.now).conflict }
    {
        self.conflict.as_ref()
    }

    /// The verdict, if one stands.
    pub fn verdict(&self) -> Option<Verdict>
        ensures { result ≡ (state_of self.now).verdict }
    {
        self.verdict
    }

    /// How many steps were accepted.
    pub fn count(&self) -> u32
        ensures { result ≡ (state_of self.now).count }
    {
        self.count
    }

    /// How many may be.
    pub fn allowance(&self) -> u32
        ensures { result ≡ (state_of self.now).allowance }
    {
        self.allowance
    }

    /// Whether a step may still be accepted: there is no verdict, and some allowance is left.
    pub(crate) fn check(&self) -> Result<(), Refusal>
        ensures { result ≡ unless_over (state_of self.now) (Ok tt) }
    {
        if self.verdict.is_some() {
            return Err(Refusal::VerdictStands);
        }
        if self.count == self.allowance {
            return Err(Refusal::AllowanceUsed);
        }
        Ok(())
    }

    /// Whether a step may be accepted that wants no conflict.
    pub fn check_calm(&self) -> Result<(), Refusal>
        ensures { result ≡ calm (state_of self.now) }
    {
        self.check()?;
        if self.conflict.is_some() {
            return Err(Refusal::ConflictStands);
        }
        Ok(())
    }

    /// Whether a step may be accepted that puts a literal on the trail.
    pub fn check_fresh(&self, l: Literal) -> Result<(), Refusal>
        ensures { result ≡ may_enter (claims_of self.now) (state_of self.now) l }
    {
        self.check_calm()?;
        self.trail.check(l)
    }

    /// Whether the trail has every claim, and a true literal of each clause of the book.
    pub fn check_complete(&self) -> Result<(), Refusal>
        ensures { result ≡ may_end (claims_of self.now) (state_of self.now) }
    {
        self.check_calm()?;
        if !self.trail.is_full() {
            return Err(Refusal::ClaimOffTrail);
        }
        if !self.book_true() {
            return Err(Refusal::ClauseNotTrue);
        }
        Ok(())
    }

    /// Whether each clause of the book has a true literal.
    fn book_true(&self) -> bool
        ensures { result ≡ list_all (list_any (true_on (state_of self.now).trail)) (state_of self.now).book }
    {
        self.book
            .clauses()
            .all(|clause| self.trail.some_true(clause))
    }
}
