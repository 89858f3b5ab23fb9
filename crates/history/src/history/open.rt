//! Opening a history, and what is asked of one.
ghost use Rattle.std.specs.Prelude.{◌≡◌, ◌↔◌, ℕ, List, IsTrue, MatchOption, length, option_map};
ghost use Rattle.theory.specs.Members.{meaning};
ghost use Rattle.rules.specs.Clauses.{Book};
ghost use Rattle.rules.specs.States.{opened, level};
ghost use Rattle.rules.specs.declared.step.Step.{Step};
ghost use Rattle.rules.specs.Histories.{Stands};
ghost use Rattle.rules.specs.Judged.{JudgedRightly};
ghost use Rattle.rules.specs.Moves.{Live, NotLive, OnTrail, FalseOn};
ghost use Rattle.clauses.specs.Sets.{members};
ghost use Rattle.trail.specs.Positions.{entry_at, level_at, position_of};
ghost use Rattle.table.specs.Tables.{state_of, claims_of};
ghost use Rattle.history.specs.Seen.{means, state};
ghost use Rattle.history.specs.Opening.{Opened};

use crate::history::{History, Returned};
use clauses::LiteralSet;
use rules::{Entry, Verdict};
use std::alloc::Global;
use table::Table;
use theory::{Literal, Theory};

impl<T: Theory> History<T> {
    /// Opens a history over a theory and a book in its row, and takes the theory's list back to nothing. If it is
    /// refused, or no memory is left, the theory comes back as it was.
    pub fn open(
        heap: Global,
        theory: T,
        row: &[u16],
        allowance: u32,
    ) -> Result<History<T>, Returned<T>>
        ensures { Opened T.Theory theory row.now allowance result }
    {
        match Table::open(heap, row, theory.claims(), allowance) {
            Ok(table) => Ok(History::begin(theory, table)),
            Err(why) => Err(Returned { theory, why }),
        }
    }

    /// A history over a table that was opened for the theory's claims.
    pub(crate) fn begin(mut theory: T, table: Table) -> History<T>
        requires claims { (meaning T.Theory theory).claims ≡ claims_of table }
        requires book { Book (claims_of table) (state_of table).book }
        requires new { state_of table ≡ opened (state_of table).book (state_of table).allowance }
        ensures shape { T.shape_of result.theory ≡ T.shape_of theory }
        ensures table { result.table ≡ table }
    {
        let _ = theory.take_back(0);
        History {
            theory,
            table,
            core: [0; 128],
            sure: false,
            denied: None,
        }
    }

    /// How many claims the theory has.
    pub fn claims(&self) -> usize
        ensures { result ≡ (means self.now).claims }
    {
        self.theory.claims()
    }

    /// How many terms it has.
    pub fn terms(&self) -> usize
        ensures { result ≡ (means self.now).terms }
    {
        self.theory.terms()
    }

    /// How many clauses the book has.
    pub fn book_len(&self) -> usize
        ensures { result ≡ length (state self.now).book }
    {
        self.table.book_len()
    }

    /// The clause with a number, if it is live.
    pub fn clause(&self, c: u16) -> Option<&[Literal]>
        ensures { let s = state self.now in MatchOption result (NotLive s c) (λ R. Live s c R.now) }
    {
        self.table.clause(c)
    }

    /// Whether a clause is live.
    pub fn is_live(&self, c: u16) -> bool
        ensures { IsTrue result ↔ ((R : List ℕ) × Live (state self.now) c R) }
    {
        self.table.is_live(c)
    }

    /// How many entries the trail has.
    pub fn len(&self) -> usize
        ensures { result ≡ length (state self.now).trail }
    {
        self.table.len()
    }

    /// The entry at a position of the trail.
    pub fn entry(&self, p: usize) -> Option<Entry>
        ensures { result ≡ entry_at (state self.now).trail p }
    {
        self.table.entry(p)
    }

    /// The level of the entry at a position.
    pub fn level_at(&self, p: usize) -> Option<u32>
        ensures { result ≡ level_at (state self.now).trail p }
    {
        self.table.level_at(p)
    }

    /// The level of the latest entry.
    pub fn level(&self) -> u32
        ensures { result ≡ level (state self.now).trail }
    {
        self.table.level()
    }

    /// The position of a literal, if it is on the trail.
    pub fn position(&self, l: Literal) -> Option<usize>
        ensures { result ≡ position_of (state self.now).trail l }
    {
        self.table.position(l)
    }

    /// Whether a literal is on the trail.
    pub fn is_true(&self, l: Literal) -> bool
        ensures { IsTrue result ↔ OnTrail (state self.now).trail l }
    {
        self.table.is_true(l)
    }

    /// Whether its complement is.
    pub fn is_false(&self, l: Literal) -> bool
        ensures { IsTrue result ↔ FalseOn (state self.now).trail l }
    {
        self.table.is_false(l)
    }

    /// The conflict, if one stands.
    pub fn conflicting(&self) -> Option<&LiteralSet>
        ensures { option_map (λ c. members c.now) result ≡ (state self.now).conflict }
    {
        self.table.conflicting()
    }

    /// The verdict, if one stands.
    pub fn verdict(&self) -> Option<Verdict>
        ensures { result ≡ (state self.now).verdict }
    {
        self.table.verdict()
    }

    /// How many steps were accepted.
    pub fn count(&self) -> u32
        ensures { result ≡ (state self.now).count }
    {
        self.table.count()
    }

    /// How many may be.
    pub fn allowance(&self) -> u32
        ensures { result ≡ (state self.now).allowance }
    {
        self.table.allowance()
    }

    /// What stands of every history: a verdict is right, some step is to be had before one, the steps come to an end,
    /// a conflict is false, and an entry that was not decided follows from those before it. And each step is accepted
    /// exactly if a rule has it, and refused exactly by the first cause in its table that holds.
    pub fn stands(&self)
        ensures state { Stands (means self.now) (state self.now) }
        ensures steps { (x : Step) → JudgedRightly (means self.now) (state self.now) x }
    {}
}
