//! Reading a book line by line.
ghost use Rattle.std.specs.Prelude.{◌≡◌, ◌++◌, OnOk, vec_items};
ghost use Rattle.book.specs.Lines.{saying_of};
ghost use Rattle.book.specs.Books.{contents_of, none, counted, adds, rank, up_to, theory_at, stage_after, turn, meant, Tells};

use crate::contents::{Asked, Book, Claims};
use crate::fault::{Fault, Unread, Wrong};
use crate::line::{Said, meaning};
use crate::scan::Lines;
use crate::word::{Sort, words};
use std::alloc::{AllocError, Global};

/// What a book is read for: its calls, or its history.
#[derive(Clone, Copy, PartialEq, Eq, Debug)]
pub enum Purpose {
    Ask,
    Replay,
}

/// Which lines may come: at the start the theory alone, and then terms, claims, clauses or rows, the allowance, and
/// calls or
/// steps in this order.
#[derive(Clone, Copy, PartialEq, Eq, Debug)]
pub enum Stage {
    Start,
    Terms,
    Claims,
    Clauses,
    Rows,
    Allowance,
    Calls,
    Steps,
}

impl Stage {
    /// Lines come in the order of their stages' ranks.
    fn rank(self) -> u8
        ensures { result ≡ rank self }
    {
        self as u8
    }

    /// The stage after a line that leads to `next` and has to come before lines of a higher rank than that of `last`.
    fn up_to(self, last: Stage, next: Stage, late: Wrong) -> Result<Stage, Wrong>
        ensures { result ≡ up_to last next late self }
    {
        if self.rank() <= last.rank() {
            Ok(next)
        } else {
            Err(late)
        }
    }
}

/// A book with nothing in it; its theory line says which claims it has.
fn blank(heap: Global) -> Book
    ensures { contents_of result ≡ none }
{
    Book {
        terms: Vec::new(heap),
        claims: Claims::none(heap, Sort::Equality),
        calls: Vec::new(heap),
        row: Vec::new(heap),
        allowance: u32::MAX,
        steps: Vec::new(heap),
    }
}

/// The theory of the book, after its theory line.
fn theory(stage: Stage, book: &Book) -> Option<Sort>
    ensures { result ≡ theory_at stage (contents_of book.now) }
{
    match stage {
        Stage::Start => None,
        _ => Some(book.claims.theory()),
    }
}

/// The stage after a line.
fn next(purpose: Purpose, stage: Stage, said: &Said) -> Result<Stage, Wrong>
    ensures { result ≡ stage_after purpose stage (saying_of said.now) }
{
    match (said, stage, purpose) {
        (Said::Nothing, _, _) => Ok(stage),
        (Said::Theory(_), _, _) => stage.up_to(Stage::Start, Stage::Terms, Wrong::SecondTheory),
        (_, Stage::Start, _) => Err(Wrong::NoTheory),
        (Said::Term(_), _, _) => stage.up_to(Stage::Terms, Stage::Terms, Wrong::LateTerm),
        (Said::Claim(_) | Said::Bound(_), _, _) => {
            stage.up_to(Stage::Claims, Stage::Claims, Wrong::LateClaim)
        }
        (Said::Call(_), _, Purpose::Ask) => Ok(Stage::Calls),
        (Said::Call(_), _, Purpose::Replay) => Err(Wrong::CallsToReplay),
        (_, _, Purpose::Ask) => Err(Wrong::HistoryToAsk),
        (Said::Clause(_), Stage::Rows, _) | (Said::Row(_), Stage::Clauses, _) => {
            Err(Wrong::ClausesAndRows)
        }
        (Said::Clause(_), _, _) => stage.up_to(Stage::Clauses, Stage::Clauses, Wrong::LateClause),
        (Said::Row(_), _, _) => stage.up_to(Stage::Rows, Stage::Rows, Wrong::LateClause),
        (Said::Allowance(_), Stage::Allowance, _) => Err(Wrong::SecondAllowance),
        (Said::Allowance(_), _, _) => {
            stage.up_to(Stage::Rows, Stage::Allowance, Wrong::LateAllowance)
        }
        (Said::Step(_), _, _) => Ok(Stage::Steps),
    }
}

/// Puts a clause at the end of a row.
fn put_clause(row: &mut Vec<u16>, literals: &[u16]) -> Result<(), AllocError>
    ensures { OnOk result (vec_items row.new ≡ vec_items row.old ++ counted literals.now) }
{
    row.push(u16::try_from(literals.len()).unwrap_or(u16::MAX))?;
    row.extend_from_slice(literals)
}

fn put(heap: Global, book: &mut Book, line: usize, said: Said) -> Result<(), AllocError>
    ensures { OnOk result (contents_of book.new ≡ adds line (contents_of book.old) (saying_of said)) }
{
    match (said, &mut book.claims) {
        (Said::Nothing, _) => {}
        (Said::Theory(theory), claims) => *claims = Claims::none(heap, theory),
        (Said::Term(term), _) => book.terms.push(term)?,
        (Said::Claim(claim), Claims::Equality(claims)) => claims.push(claim)?,
        (Said::Bound(bound), Claims::Distance(bounds)) => bounds.push(bound)?,
        // Lines are read by the book's theory, so no claim of the other one comes.
        (Said::Claim(_), Claims::Distance(_)) | (Said::Bound(_), Claims::Equality(_)) => {}
        (Said::Clause(literals), _) => put_clause(&mut book.row, &literals)?,
        (Said::Row(numbers), _) => book.row.extend_from_slice(&numbers)?,
        (Said::Allowance(allowance), _) => book.allowance = allowance,
        (Said::Call(call), _) => book.calls.push(Asked { line, call })?,
        (Said::Step(step), _) => book.steps.push(step)?,
    }
    Ok(())
}

#[tactic(auto, unfolding(crate::specs::Books::turn))]
fn read_line(
    heap: Global,
    purpose: Purpose,
    book: &mut Book,
    stage: Stage,
    line: usize,
    bytes: &[u8],
) -> Result<Stage, Unread>
    ensures { Tells result (λ s. (s, contents_of book.new)) (turn purpose line stage (contents_of book.old) bytes.now) }
{
    // A line that is empty or begins with its comment: what follows would find no words in it, with more work.
    if bytes.is_empty() || bytes[0] == b'#' {
        return Ok(stage);
    }
    let words = words(heap, bytes)?;
    let said = meaning(heap, theory(stage, book), &words).map_err(|unsaid| unsaid.at(line))?;
    let stage = next(purpose, stage, &said).map_err(|wrong| Fault { line, wrong })?;
    put(heap, book, line, said)?;
    Ok(stage)
}

/// Reads a book for its purpose: what the text means then, or its first fault.
pub fn read(heap: Global, purpose: Purpose, text: &[u8]) -> Result<Book, Unread>
    ensures { Tells result contents_of (meant purpose text.now) }
{
    let mut book = blank(heap);
    let mut stage = Stage::Start;
    for (i, bytes) in Lines(text).enumerate() {
        stage = read_line(heap, purpose, &mut book, stage, i + 1, bytes)?;
    }
    match stage {
        Stage::Start => Err(Unread::Fault(Fault {
            line: Lines(text).count().max(1),
            wrong: Wrong::NoTheory,
        })),
        _ => Ok(book),
    }
}
