//! Writing a history as the book that replays it.
ghost use Rattle.std.specs.Prelude.{◌≡◌, ◌≢◌, ◌<◌, ◌^◌, ℕ, List, MatchOption, [], ◌∷◌, length, map, decimal, IfOk, OnOk, string_bytes};
ghost use Rattle.std.specs.List.{All};
ghost use Rattle.book.specs.declared.word.Name.TheVariants.{Kind as kind};
ghost use Rattle.rules.specs.Clauses.{row_of};
ghost use Rattle.book.specs.Words.{spelling};
ghost use Rattle.book.specs.Books.{claims_of, contents_of, proposed_of, Proposable};
ghost use Rattle.book.specs.Canonical.{RowText, theory_line, term_line, claim_line, bound_line, claim_lines, row_lines, allowance_line, step_line, TermFits, ClaimFits, BoundFits, ClaimsFit, NumbersFit, StepFits};
ghost use Rattle.book.specs.Writing.{Gains, WrittenBy, IsLog, Replays, IsShort};

use crate::contents::{Book, Claims};
use crate::proposed::Proposed;
use crate::word::{Kind, Name, Sort};
use congruence::Claim;
use difference::Bound;
use rules::Step;
use std::alloc::{AllocError, Global};
use theory::Term;

fn write_theory(out: &mut String, theory: Sort) -> Result<(), AllocError>
    ensures { OnOk result (Gains out.old out.new (theory_line theory ∷ [])) }
{
    let name = Name::Sort(theory);
    writeln!(out, "theory {name}")
}

/// A line of one word and any numbers.
fn write_numbers(out: &mut String, first: Kind, numbers: &[u16]) -> Result<(), AllocError>
    ensures { OnOk result (Gains out.old out.new ((spelling (kind first) ∷ map decimal numbers.now) ∷ [])) }
{
    let name = Name::Kind(first);
    write!(out, "{name}")?;
    for n in numbers {
        write!(out, " {n}")?;
    }
    writeln!(out)
}

fn write_term(out: &mut String, term: &Term) -> Result<(), AllocError>
    ensures written { OnOk result (Gains out.old out.new (term_line term.now ∷ [])) }
    ensures fits { IsShort term.now → TermFits term.now }
{
    let symbol = term.symbol;
    match (term.arity, term.args) {
        (0, _) => writeln!(out, "term {symbol}"),
        (1, [first, _]) => writeln!(out, "term {symbol} {first}"),
        (_, [first, second]) => writeln!(out, "term {symbol} {first} {second}"),
    }
}

fn write_terms(out: &mut String, terms: &[Term]) -> Result<(), AllocError>
    ensures written { OnOk result (Gains out.old out.new (map term_line terms.now)) }
    ensures fits { OnOk result (All (λ t. IsShort t → TermFits t) terms.now) }
{
    for term in terms {
        write_term(out, term)?;
    }
    Ok(())
}

fn write_claim(out: &mut String, claim: &Claim) -> Result<(), AllocError>
    ensures written { OnOk result (Gains out.old out.new (claim_line claim.now ∷ [])) }
    ensures fits { ClaimFits claim.now }
{
    let (left, right) = (claim.left, claim.right);
    writeln!(out, "claim {left} {right}")
}

fn write_bound(out: &mut String, bound: &Bound) -> Result<(), AllocError>
    ensures written { OnOk result (Gains out.old out.new (bound_line bound.now ∷ [])) }
    ensures fits { BoundFits bound.now }
{
    let (term, base, most) = (bound.term, bound.base, bound.most);
    writeln!(out, "claim {term} {base} {most}")
}

fn write_claims(out: &mut String, claims: &Claims) -> Result<(), AllocError>
    ensures written { OnOk result (Gains out.old out.new (claim_lines (claims_of claims.now))) }
    ensures fits { OnOk result (ClaimsFit (claims_of claims.now)) }
{
    match claims {
        Claims::Equality(claims) => {
            for claim in claims {
                write_claim(out, claim)?;
            }
        }
        Claims::Distance(bounds) => {
            for bound in bounds {
                write_bound(out, bound)?;
            }
        }
    }
    Ok(())
}

/// The clauses of a row of numbers, if it is a whole number of them.
fn clauses(heap: Global, row: &[u16]) -> Result<Option<Vec<&[u16]>>, AllocError>
    ensures { IfOk result (λ o.
        MatchOption o ((cs : List (List ℕ)) → row_of cs ≢ row.now) (λ v. row_of (map (λ c. c.now) v.items) ≡ row.now)) }
{
    let mut clauses = Vec::new(heap);
    let mut rest = row;
    while let Some((count, numbers)) = rest.split_first() {
        let Some((clause, next)) = numbers.split_at_checked(usize::from(*count)) else {
            return Ok(None);
        };
        clauses.push(clause)?;
        rest = next;
    }
    Ok(Some(clauses))
}

/// The clause lines of a row of numbers, or else its row line.
fn write_row(heap: Global, out: &mut String, row: &[u16]) -> Result<(), AllocError>
    ensures written { OnOk result ((r : RowText) × WrittenBy row.now r × Gains out.old out.new (row_lines r)) }
    ensures fits { NumbersFit row.now }
{
    match clauses(heap, row)? {
        Some(clauses) => {
            for clause in &clauses {
                write_numbers(out, Kind::Clause, clause)?;
            }
            Ok(())
        }
        None => write_numbers(out, Kind::Row, row),
    }
}

#[tactic(auto, using(crate::proofs::Texts::step_spaced))]
fn write_step(out: &mut String, step: Proposed) -> Result<(), AllocError>
    ensures written { OnOk result (Gains out.old out.new (step_line step ∷ [])) }
    ensures fits { StepFits step }
{
    writeln!(out, "step {step}")
}

fn write_steps(out: &mut String, steps: &[Step], terms: usize) -> Result<(), AllocError>
    ensures written { OnOk result (Gains out.old out.new (map step_line (map (proposed_of terms) steps.now))) }
    ensures fits { OnOk result (All StepFits (map (proposed_of terms) steps.now)) }
{
    for step in steps {
        write_step(out, Proposed::of(*step, terms))?;
    }
    Ok(())
}

fn write_allowance(out: &mut String, allowance: u32) -> Result<(), AllocError>
    ensures written { OnOk result (Gains out.old out.new (allowance_line allowance ∷ [])) }
    ensures fits { allowance < 2 ^ 32 }
{
    writeln!(out, "allowance {allowance}")
}

/// The canonical text of a book's terms, claims, clauses and allowance, with these steps in place of its own. The row
/// stands as clause lines if it is a whole number of clauses, and else as one row line.
pub fn log_text(heap: Global, book: &Book, steps: &[Step]) -> Result<String, AllocError>
    ensures canonical { IfOk result (λ text. IsLog (contents_of book.now) steps.now (string_bytes text)) }
    ensures replays { let b = contents_of book.now in
        All IsShort b.terms → All (Proposable (length b.terms)) steps.now →
        IfOk result (λ text. Replays b steps.now (string_bytes text)) }
{
    let mut text = String::new(heap);
    write_theory(&mut text, book.claims.theory())?;
    write_terms(&mut text, &book.terms)?;
    write_claims(&mut text, &book.claims)?;
    write_row(heap, &mut text, &book.row)?;
    write_allowance(&mut text, book.allowance)?;
    write_steps(&mut text, steps, book.terms.len())?;
    Ok(text)
}
